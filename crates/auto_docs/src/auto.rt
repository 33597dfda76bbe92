// The auto hive.
ghost use Rattle.std.specs.Prelude.{refl};
ghost use Rattle.auto_docs.specs.Documents.{auto_docs, keeps_listed};
ghost use Rattle.auto_docs.specs.Laws.{auto_docs_distinct, auto_docs_indexed, auto_docs_owned, auto_docs_staged};

use crate::index::auto_docs;
use fold_core::{Details, Doc, Entry, Hive, HiveName, Many, NoMemory, Ticks};
use std::alloc::Global;

/// The auto hive, which tells autocompletion of versions. It keeps the listed ones.
///
/// Its one document of an id is the index, `{"id":..,"versions":[..]}`: the id as the entry of the highest
/// precedence spells it, and the full forms of the versions by rising precedence.
pub struct Auto;

impl Hive for Auto {
    const NAME: HiveName = HiveName::Auto;

    ghost keeps = { keeps_listed };

    ghost makes = { auto_docs };

    fn keep(details: &Details) -> bool {
        details.listed
    }

    fn docs(
        alloc: Global,
        _base: &str,
        key: &str,
        _touched: u32,
        _touched_stamp: Ticks,
        entries: &[Entry],
    ) -> Result<Many<Doc>, NoMemory> {
        auto_docs(alloc, key, entries)
    }

    ghost empty = { λ base key number stamp. refl };

    ghost owned = { auto_docs_owned };

    ghost distinct = { λ base key number stamp es whole rising. auto_docs_distinct base key number stamp es };

    ghost indexed = { auto_docs_indexed };

    ghost staged = { auto_docs_staged };
}
