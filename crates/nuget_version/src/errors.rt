// Why a text is no version.
use crate::values::NoMemory;
use std::fmt;

/// Why a text is no version. Of several, the first of this order is answered. Places are byte places
/// from 0.
#[derive(Clone, Copy, Debug, PartialEq, Eq)]
pub enum VersionErr {
    /// The text is empty.
    Empty,
    /// The text has more than 64 bytes; or, after the other refusals, its full form has. The
    /// number of these bytes.
    TooLong(u64),
    /// The text isn't in the grammar. The length of its longest prefix that begins some version: the
    /// place of the byte that can't stand there, or the text's length where it stops too early.
    BadByte(u64),
    /// A number is above 2147483647. Where the first such number begins.
    NumberTooBig(u64),
    /// Out of memory.
    Memory,
}

impl fmt::Display for VersionErr {
    fn fmt<W: fmt::Write>(&self, f: &mut fmt::Formatter<W>) -> fmt::Result {
        match self {
            VersionErr::Empty => f.write_str("the version is empty"),
            VersionErr::TooLong(len) => {
                write!(f, "the version has {len} bytes, and at most 64 are allowed")
            }
            VersionErr::BadByte(at) => write!(f, "the version goes wrong at byte {at}"),
            VersionErr::NumberTooBig(at) => {
                write!(f, "the number at byte {at} is above 2147483647")
            }
            VersionErr::Memory => f.write_str("out of memory"),
        }
    }
}

impl From<NoMemory> for VersionErr {
    ghost use Rattle.std.specs.Prelude.{◌≡◌};
    ghost use Rattle.nuget_version.specs.declared.errors.VersionErr.TheVariants.{Memory};

    ghost from_gives = { λ _ e. e ≡ Memory };

    fn from(_: NoMemory) -> Self {
        VersionErr::Memory
    }
}
