//! What a hive's documents are. A hive keeps one entry for each version whose last item it admits, and
//! makes documents of an id's entries. `Hive` is the trait, `apply` turns an id's entries into those with
//! an item more, `from_scratch` computes them from a list of commits, and `docs_from_scratch` makes the
//! documents.
//!
//! The definitions are over the list of commits and over any hive.
#![tactic(auto)]

mod doc;
mod entries;
mod hive;
mod id_docs;
mod laws;
mod scratch;

pub use doc::{Body, Doc};
pub use entries::apply;
pub use hive::{Hive, HiveName};
pub use id_docs::docs_from_scratch;
pub use laws::{
    documents_follow_items, entries_are_last, entries_carry_on, items_change_versions,
    items_follow_numbers, origins_are_earlier, touched_is_last, touched_rises,
};
pub use pkg_meta::{Bytes, Commit, Details, Entry, Item, Many, NoMemory, Text, Ticks};
pub use scratch::from_scratch;
