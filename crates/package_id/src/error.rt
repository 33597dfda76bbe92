// Why a text is no package id.
use nuget_version::NoMemory;
use std::alloc::AllocError;
use std::error::Error;
use std::fmt;

/// Why a text is refused as a package id. Lengths and places are in bytes, places from 0.
#[derive(Clone, Copy, Debug, PartialEq, Eq)]
pub enum IdErr {
    /// The text is empty.
    Empty,
    /// The text has more than 100 bytes: so many.
    TooLong(u64),
    /// The text isn't in the grammar. The place is the length of its longest prefix with which some
    /// id begins, so it is the text's length where the text stops too early.
    BadByte(u64),
    /// Out of memory, and nothing else.
    Memory,
}

impl fmt::Display for IdErr {
    fn fmt<W: fmt::Write>(&self, f: &mut fmt::Formatter<W>) -> fmt::Result {
        match self {
            IdErr::Empty => write!(f, "a package id can't be empty"),
            IdErr::TooLong(len) => write!(
                f,
                "a package id has at most 100 bytes, this one has {len}"
            ),
            IdErr::BadByte(at) => write!(f, "not a package id at byte {at}"),
            IdErr::Memory => write!(f, "out of memory"),
        }
    }
}

impl Error for IdErr {}

impl From<NoMemory> for IdErr {
    ghost use Rattle.std.specs.Prelude.{◌≡◌};
    ghost use Rattle.package_id.specs.declared.error.IdErr.TheVariants.{Memory};

    ghost from_gives = { λ _ e. e ≡ Memory };

    fn from(_: NoMemory) -> Self {
        IdErr::Memory
    }
}

impl From<AllocError> for IdErr {
    ghost use Rattle.std.specs.Prelude.{◌≡◌};
    ghost use Rattle.package_id.specs.declared.error.IdErr.TheVariants.{Memory};

    ghost from_gives = { λ _ e. e ≡ Memory };

    fn from(_: AllocError) -> Self {
        IdErr::Memory
    }
}
