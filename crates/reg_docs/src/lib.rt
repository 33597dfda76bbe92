//! The registration hives: what is told of an id's versions, in an index, pages and leaves. `Plain` has
//! what is no SemVer 2.0.0 package, `SemVer2` all.
#![tactic(auto)]

mod addresses;
mod catalog_entry;
mod docs;
mod hives;
mod index;
mod leaf;
mod page;

pub use addresses::RegistrationHive;
pub use docs::reg_pages;
pub use fold_core::{
    Body, Bytes, Details, Doc, Entry, Hive, HiveName, Many, NoMemory, Text, Ticks,
};
pub use hives::{Plain, SemVer2};
pub use index::reg_index;
pub use leaf::reg_leaf;
