// Why a call of the catalog was refused.
ghost use Rattle.std.specs.Prelude.{◌≡◌};

use blob_store::BlobErr;
use pkg_meta::NoMemory;
use std::fmt;

/// Why a catalog wasn't made.
#[derive(Clone, Copy, Debug, PartialEq, Eq)]
pub enum InitErr {
    /// A call of the store failed.
    Fault,
    /// The area holds an index.
    Already,
    /// Out of memory.
    Memory,
}

impl fmt::Display for InitErr {
    fn fmt<W: fmt::Write>(&self, f: &mut fmt::Formatter<W>) -> fmt::Result {
        f.write_str(match self {
            InitErr::Fault => "the store failed",
            InitErr::Already => "a catalog is there",
            InitErr::Memory => "out of memory",
        })
    }
}

impl From<BlobErr> for InitErr {
    ghost use Rattle.std.specs.Prelude.{◌≡◌};
    ghost use Rattle.catalog_core.specs.Errors.{init_err_of};

    ghost from_gives = { λ b e. e ≡ init_err_of b };

    fn from(error: BlobErr) -> Self {
        match error {
            BlobErr::Failed => InitErr::Fault,
            BlobErr::Memory => InitErr::Memory,
        }
    }
}

impl From<NoMemory> for InitErr {
    ghost use Rattle.catalog_core.specs.declared.error.InitErr.TheVariants.{Memory};

    ghost from_gives = { λ _ e. e ≡ Memory };

    fn from(_: NoMemory) -> Self {
        InitErr::Memory
    }
}
