// Why a catalog wasn't opened, and why nothing was read of it.
ghost use Rattle.std.specs.Prelude.{◌≡◌};

use blob_store::BlobErr;
use pkg_meta::{NoMemory, Text};
use std::alloc::AllocError;
use std::fmt;

/// Why nothing was read of a catalog.
#[derive(Drop)]
pub enum ReadErr {
    /// The blob of this name isn't held, or isn't what the catalog has there.
    Damaged(Text),
    /// A call of the store failed.
    Fault,
    /// Out of memory.
    Memory,
}

/// Why a catalog wasn't opened.
#[derive(Drop)]
pub enum OpenErr {
    /// A call of the store failed.
    Fault,
    /// The area holds no index.
    Missing,
    /// The blob of this name isn't held, or isn't what the index has there.
    Damaged(Text),
    /// The base address that is stored, and the other one that was given.
    BaseDiffers(Text, Text),
    /// Out of memory.
    Memory,
}

impl fmt::Display for ReadErr {
    fn fmt<W: fmt::Write>(&self, f: &mut fmt::Formatter<W>) -> fmt::Result {
        match self {
            ReadErr::Damaged(name) => {
                let name = name.as_str();
                write!(f, "{name} is damaged")
            }
            ReadErr::Fault => f.write_str("the store failed"),
            ReadErr::Memory => f.write_str("out of memory"),
        }
    }
}

impl fmt::Display for OpenErr {
    fn fmt<W: fmt::Write>(&self, f: &mut fmt::Formatter<W>) -> fmt::Result {
        match self {
            OpenErr::Fault => f.write_str("the store failed"),
            OpenErr::Missing => f.write_str("the area holds no catalog"),
            OpenErr::Damaged(name) => {
                let name = name.as_str();
                write!(f, "{name} is damaged")
            }
            OpenErr::BaseDiffers(stored, given) => {
                let stored = stored.as_str();
                let given = given.as_str();
                write!(f, "the catalog's base address is {stored}, and not {given}")
            }
            OpenErr::Memory => f.write_str("out of memory"),
        }
    }
}

impl From<BlobErr> for ReadErr {
    ghost use Rattle.std.specs.Prelude.{◌≡◌};
    ghost use Rattle.catalog_opening.specs.Errors.{read_err_of};

    ghost from_gives = { λ b e. e ≡ read_err_of b };

    fn from(error: BlobErr) -> Self {
        match error {
            BlobErr::Failed => ReadErr::Fault,
            BlobErr::Memory => ReadErr::Memory,
        }
    }
}

impl From<NoMemory> for ReadErr {
    ghost use Rattle.catalog_opening.specs.declared.error.ReadErr.TheVariants.{Memory};

    ghost from_gives = { λ _ e. e ≡ Memory };

    fn from(_: NoMemory) -> Self {
        ReadErr::Memory
    }
}

impl From<AllocError> for ReadErr {
    ghost use Rattle.catalog_opening.specs.declared.error.ReadErr.TheVariants.{Memory};

    ghost from_gives = { λ _ e. e ≡ Memory };

    fn from(_: AllocError) -> Self {
        ReadErr::Memory
    }
}

impl From<ReadErr> for OpenErr {
    ghost use Rattle.std.specs.Prelude.{◌≡◌};
    ghost use Rattle.catalog_opening.specs.Errors.{open_err_of};

    ghost from_gives = { λ b e. e ≡ open_err_of b };

    fn from(error: ReadErr) -> Self {
        match error {
            ReadErr::Damaged(name) => OpenErr::Damaged(name),
            ReadErr::Fault => OpenErr::Fault,
            ReadErr::Memory => OpenErr::Memory,
        }
    }
}
