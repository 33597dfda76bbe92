// A request, and why there is none.
ghost use Rattle.std.specs.Prelude.{◌≡◌};
ghost use Rattle.http_wire.specs.declared.request.WireErr.TheVariants.{ReadFault, Memory};

use feed_base::Failed;
use nuget_version::{Bytes, NoMemory, Text};
use std::alloc::AllocError;
use std::fmt;

/// A request (RFC 9112, sections 2 to 6).
#[derive(Drop)]
pub struct Request {
    pub method: Text,
    /// As it was sent (RFC 9112, section 3.2).
    pub target: Text,
    /// Whether the link ends behind its answer (RFC 9112, section 9.3).
    pub last: bool,
    pub body: Bytes,
}

/// Why no request was read.
#[derive(Clone, Copy, Debug, PartialEq, Eq)]
pub enum WireErr {
    /// The input ended before any byte of a request.
    Closed,
    /// What came is refused with this status: 400, 413, 415, 431 or 501. The link ends behind its answer.
    Bad(u16),
    /// A read failed.
    ReadFault,
    /// Out of memory.
    Memory,
}

impl fmt::Display for WireErr {
    fn fmt<W: fmt::Write>(&self, f: &mut fmt::Formatter<W>) -> fmt::Result {
        match self {
            WireErr::Closed => f.write_str("the input ended"),
            WireErr::Bad(status) => write!(f, "the request is refused with {status}"),
            WireErr::ReadFault => f.write_str("a read failed"),
            WireErr::Memory => f.write_str("out of memory"),
        }
    }
}

impl From<Failed> for WireErr {
    ghost from_gives = { λ _ e. e ≡ ReadFault };

    fn from(_: Failed) -> Self {
        WireErr::ReadFault
    }
}

impl From<AllocError> for WireErr {
    ghost from_gives = { λ _ e. e ≡ Memory };

    fn from(_: AllocError) -> Self {
        WireErr::Memory
    }
}

impl From<NoMemory> for WireErr {
    ghost from_gives = { λ _ e. e ≡ Memory };

    fn from(_: NoMemory) -> Self {
        WireErr::Memory
    }
}
