// The content hive.
ghost use Rattle.std.specs.Prelude.{refl};
ghost use Rattle.flat_container.specs.Documents.{content_docs, keeps_all};
ghost use Rattle.flat_container.specs.Laws.{content_docs_distinct, content_docs_indexed, content_docs_owned, content_docs_staged};

use crate::docs::content_docs;
use fold_core::{Details, Doc, Entry, Hive, HiveName, Many, NoMemory, Ticks};
use std::alloc::Global;

/// The content hive, which serves packages and manifests. It keeps every version, the unlisted too.
///
/// Its index is `{"versions":[..]}`, the keys of the versions by rising precedence. The package and the
/// manifest of a version are those of the publish at its entry's origin, whose bytes aren't copied.
pub struct Content;

impl Hive for Content {
    const NAME: HiveName = HiveName::Content;

    ghost keeps = { keeps_all };

    ghost makes = { content_docs };

    fn keep(_details: &Details) -> bool {
        true
    }

    fn docs(
        alloc: Global,
        _base: &str,
        key: &str,
        _touched: u32,
        _touched_stamp: Ticks,
        entries: &[Entry],
    ) -> Result<Many<Doc>, NoMemory> {
        content_docs(alloc, key, entries)
    }

    ghost empty = { λ base key number stamp. refl };

    ghost owned = { content_docs_owned };

    ghost distinct = { λ base key number stamp es whole rising. content_docs_distinct base key number stamp es rising };

    ghost indexed = { content_docs_indexed };

    ghost staged = { content_docs_staged };
}
