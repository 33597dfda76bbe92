// Why a round stops.
ghost use Rattle.std.specs.Prelude.{◌≡◌};
ghost use Rattle.job_round.specs.Stops.{catalog_stop_of, hive_stop_of};

use blob_store::BlobErr;
use catalog_core::ReadErr;
use pkg_meta::{NoMemory, Text};

/// Why a round stops.
#[derive(Drop)]
pub(crate) enum Stop {
    /// A call of the catalog's store failed.
    CatalogFault,
    /// A call of the hive's store failed.
    HiveFault,
    /// The catalog's blob of this name isn't held, or isn't what the catalog has there.
    CatalogDamaged(Text),
    /// The hive's blob of this name is no cursor or no state of the id.
    HiveDamaged(Text),
    /// Out of memory.
    Memory,
}

/// Why a round stops where the catalog gave no answer.
pub(crate) fn catalog_stop(error: ReadErr) -> Stop
    ensures { result ≡ catalog_stop_of error }
{
    match error {
        ReadErr::Damaged(name) => Stop::CatalogDamaged(name),
        ReadErr::Fault => Stop::CatalogFault,
        ReadErr::Memory => Stop::Memory,
    }
}

/// Why a round stops where the hive's store gave no answer.
pub(crate) fn hive_stop(error: BlobErr) -> Stop
    ensures { result ≡ hive_stop_of error }
{
    match error {
        BlobErr::Failed => Stop::HiveFault,
        BlobErr::Memory => Stop::Memory,
    }
}

impl From<NoMemory> for Stop {
    ghost use Rattle.std.specs.Prelude.{◌≡◌};
    ghost use Rattle.job_round.specs.declared.stop.Stop.TheVariants.{Memory};

    ghost from_gives = { λ _ e. e ≡ Memory };

    fn from(_: NoMemory) -> Self {
        Stop::Memory
    }
}
