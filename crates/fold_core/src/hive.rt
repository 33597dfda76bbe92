// A hive, as a trait.
ghost use Rattle.std.specs.Prelude.{◌≡◌, ◌≢◌, ℕ, List, [], IfOk, IsSome};
ghost use Rattle.fold_core.specs.Docs.{MakesDocs, id_index_name, body_named};
ghost use Rattle.pkg_meta.specs.Entries.{AreRising};
ghost use Rattle.fold_core.specs.Entries.{Keeps};
ghost use Rattle.fold_core.specs.Laws.{AreOfEntries, AreOwned, HaveOwnNames, IsWhole};
ghost use Rattle.pkg_meta.specs.declared.entry.Entry.{Entry};

use crate::{Doc, Entry};
use pkg_meta::{Details, Many, NoMemory, Ticks};
use std::alloc::Global;

/// The four hives.
#[derive(Clone, Copy, Debug, PartialEq, Eq)]
pub enum HiveName {
    Plain,
    SemVer2,
    Content,
    Auto,
}

/// A hive: which details it keeps, and which documents it makes of an id's entries.
///
/// The documents of no entries are none. With entries one of them is the index. Each name begins with
/// `d/`, the id's key and `/`.
pub trait Hive {
    const NAME: HiveName;

    /// Which details it keeps.
    ghost keeps: { Keeps };

    /// Which documents it makes.
    ghost makes: { MakesDocs };

    /// Whether the hive keeps a version with these details.
    fn keep(details: &Details) -> bool
        ensures { result ≡ keeps details.now };

    /// The documents of the id with this key, whose last item stands in the commit `touched`.
    fn docs(
        alloc: Global,
        base: &str,
        key: &str,
        touched: u32,
        touched_stamp: Ticks,
        entries: &[Entry],
    ) -> Result<Many<Doc>, NoMemory>
        ensures { IfOk result (λ docs. docs ≡ makes base.now key.now touched touched_stamp entries.now) };

    /// No entries make no documents.
    ghost empty: { (base key : List ℕ) (number stamp : ℕ) → makes base key number stamp [] ≡ [] };

    /// The key owns each name.
    ghost owned: { (base key : List ℕ) (number stamp : ℕ) (es : List Entry) → IsWhole key
        → AreOwned key (makes base key number stamp es) };

    /// No two documents have one name.
    ghost distinct: { (base key : List ℕ) (number stamp : ℕ) (es : List Entry) → IsWhole key → AreRising es
        → HaveOwnNames (makes base key number stamp es) };

    /// Where there are entries there is an index.
    ghost indexed: { (base key : List ℕ) (number stamp : ℕ) (es : List Entry) → es ≢ []
        → IsSome (body_named (id_index_name key) (makes base key number stamp es)) };

    /// A publish's bytes are those of the publish at the origin of one of the entries.
    ghost staged: { (base key : List ℕ) (number stamp : ℕ) (es : List Entry)
        → AreOfEntries es (makes base key number stamp es) };
}
