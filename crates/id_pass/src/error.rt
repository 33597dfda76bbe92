// What a round answers, and why it stopped.
use pkg_meta::{NoMemory, Text};
use std::fmt;

/// What a round answers.
#[derive(Clone, Copy, Debug, PartialEq, Eq)]
pub enum RoundOut {
    /// The hive's documents are those of the catalog of so many commits.
    Done(u32),
    /// The hive had taken up so many commits, which are all.
    Idle(u32),
}

/// Why a round stopped.
#[derive(Drop)]
pub enum RoundErr {
    /// A call of the catalog's store failed.
    CatalogFault,
    /// A call of the hive's store failed.
    HiveFault,
    /// A blob isn't held, or isn't what its area has there: `<area>/<name>`.
    Damaged(Text),
    /// Out of memory.
    Memory,
}

impl fmt::Display for RoundErr {
    fn fmt<W: fmt::Write>(&self, f: &mut fmt::Formatter<W>) -> fmt::Result {
        match self {
            RoundErr::CatalogFault => f.write_str("the catalog's store failed"),
            RoundErr::HiveFault => f.write_str("the hive's store failed"),
            RoundErr::Damaged(name) => {
                let name = name.as_str();
                write!(f, "the blob '{name}' is damaged")
            }
            RoundErr::Memory => f.write_str("out of memory"),
        }
    }
}

impl From<NoMemory> for RoundErr {
    ghost use Rattle.std.specs.Prelude.{◌≡◌};
    ghost use Rattle.id_pass.specs.declared.error.RoundErr.TheVariants.{Memory};

    ghost from_gives = { λ _ e. e ≡ Memory };

    fn from(_: NoMemory) -> Self {
        RoundErr::Memory
    }
}
