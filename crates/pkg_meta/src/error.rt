// Why bytes are no metadata.
use nuget_version::{NoMemory, Text};
use std::alloc::AllocError;
use std::fmt;

/// Why bytes are refused as a publisher's metadata. Of several reasons the first in this order is
/// told, and of two dependencies the first one's; out of memory may stand in place of each.
#[derive(Drop)]
pub enum MetaErr {
    /// There are more than 32,768 bytes: so many.
    TooLarge(u64),
    /// The bytes are no JSON text of an object that nests at most 127 deep.
    NotJson,
    /// This member is required and absent, or has a value of another kind.
    Field(Text),
    /// The text at this path is no package id.
    BadId(Text),
    /// The version's text is no version.
    BadVersion,
    /// The text at this path is no range.
    BadRange(Text),
    /// Out of memory.
    Memory,
}

impl From<NoMemory> for MetaErr {
    ghost use Rattle.std.specs.Prelude.{◌≡◌};
    ghost use Rattle.pkg_meta.specs.declared.error.MetaErr.TheVariants.{Memory};

    ghost from_gives = { λ _ e. e ≡ Memory };

    fn from(_: NoMemory) -> Self {
        MetaErr::Memory
    }
}

impl From<AllocError> for MetaErr {
    ghost use Rattle.std.specs.Prelude.{◌≡◌};
    ghost use Rattle.pkg_meta.specs.declared.error.MetaErr.TheVariants.{Memory};

    ghost from_gives = { λ _ e. e ≡ Memory };

    fn from(_: AllocError) -> Self {
        MetaErr::Memory
    }
}

impl fmt::Display for MetaErr {
    fn fmt<W: fmt::Write>(&self, f: &mut fmt::Formatter<W>) -> fmt::Result {
        match self {
            MetaErr::TooLarge(len) => write!(f, "metadata of {len} bytes is too large"),
            MetaErr::NotJson => f.write_str("metadata is no JSON object"),
            MetaErr::Field(name) => {
                let name = name.as_str();
                write!(f, "the member '{name}' is missing or of another kind")
            }
            MetaErr::BadId(path) => {
                let path = path.as_str();
                write!(f, "the text at '{path}' is no package id")
            }
            MetaErr::BadVersion => f.write_str("the version's text is no version"),
            MetaErr::BadRange(path) => {
                let path = path.as_str();
                write!(f, "the text at '{path}' is no range")
            }
            MetaErr::Memory => f.write_str("out of memory"),
        }
    }
}
