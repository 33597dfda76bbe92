// Why a text is no range.
use nuget_version::NoMemory;
use std::error::Error;
use std::fmt;

/// Why a text is no range. Of several reasons the first in this order is told, but that BadByte
/// comes before a BadBound within brackets. Places are in bytes, from 0.
#[derive(Clone, Copy, Debug, PartialEq, Eq)]
pub enum RangeErr {
    /// There is a `*`, first at this place.
    Floating(u64),
    /// An end is no version, or the text without brackets isn't: the place of its first byte that
    /// isn't a space. Of two such ends it is the left one. Of brackets with nothing but spaces and
    /// no comma it is the closing bracket's place.
    BadBound(u64),
    /// A bracket or comma stands wrong. It is the last byte that isn't a space, where the text has
    /// an opening bracket and that byte is no closing one; else the second comma; else, where
    /// there is no comma, the first round bracket.
    BadByte(u64),
    /// The lower end is above the upper one, or equal to it and one of them isn't included.
    Inverted,
    /// Out of memory, which may stand in place of each answer.
    Memory,
}

impl fmt::Display for RangeErr {
    fn fmt<W: fmt::Write>(&self, f: &mut fmt::Formatter<W>) -> fmt::Result {
        match self {
            RangeErr::Floating(at) => write!(
                f,
                "floating ranges aren't supported: `*` at byte {at}"
            ),
            RangeErr::BadBound(at) => write!(f, "not a version at byte {at}"),
            RangeErr::BadByte(at) => write!(
                f,
                "a bracket or comma is missing or wrong at byte {at}"
            ),
            RangeErr::Inverted => write!(
                f,
                "the range is empty: its lower end is not below its upper end"
            ),
            RangeErr::Memory => write!(f, "out of memory"),
        }
    }
}

impl Error for RangeErr {}

impl From<NoMemory> for RangeErr {
    ghost use Rattle.std.specs.Prelude.{◌≡◌};
    ghost use Rattle.version_range.specs.declared.error.RangeErr.TheVariants.{Memory};

    ghost from_gives = { λ _ e. e ≡ Memory };

    fn from(_: NoMemory) -> Self {
        RangeErr::Memory
    }
}
