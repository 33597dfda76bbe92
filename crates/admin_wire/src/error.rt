// Why a body is refused.
ghost use Rattle.std.specs.Prelude.{◌≡◌};

use crate::line::{Line, Refusal};
use pkg_meta::{MetaErr, NoMemory};
use std::fmt;

/// Why a body, or a pair of words, asks for no changes. The first record or line that is refused
/// counts; out of memory may stand in place of each.
#[derive(Drop)]
pub enum BodyErr {
    /// At this byte no record, or no line of two words, begins.
    Shape(u64),
    /// The metadata of the record at this place is refused.
    Meta(u64, MetaErr),
    /// The first word at this place is no package id.
    Id(u64),
    /// The second word at this place is no version.
    Version(u64),
    Memory,
}

impl fmt::Display for BodyErr {
    fn fmt<W: fmt::Write>(&self, f: &mut fmt::Formatter<W>) -> fmt::Result {
        match self {
            BodyErr::Shape(at) => write!(f, "no record or line begins at byte {at}"),
            BodyErr::Meta(place, why) => write!(f, "at place {place}: {why}"),
            BodyErr::Id(place) => write!(f, "the word at place {place} is no package id"),
            BodyErr::Version(place) => write!(f, "the word at place {place} is no version"),
            BodyErr::Memory => f.write_str("out of memory"),
        }
    }
}

impl From<NoMemory> for BodyErr {
    ghost use Rattle.admin_wire.specs.declared.error.BodyErr.TheVariants.{Memory};

    ghost from_gives = { λ _ e. e ≡ Memory };

    fn from(_: NoMemory) -> Self {
        BodyErr::Memory
    }
}

impl From<BodyErr> for Line {
    ghost use Rattle.admin_wire.specs.Lines.{body_line};

    ghost from_gives = { λ error line. line ≡ body_line error };

    fn from(error: BodyErr) -> Self {
        Line::Refused(match error {
            BodyErr::Shape(at) => Refusal::Body(at),
            BodyErr::Meta(place, why) => Refusal::Meta { place, why },
            BodyErr::Id(place) => Refusal::Id(place),
            BodyErr::Version(place) => Refusal::Version(place),
            BodyErr::Memory => return Line::Memory,
        })
    }
}
