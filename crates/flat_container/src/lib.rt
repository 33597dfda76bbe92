//! The content hive: the list of an id's versions, and the package and the manifest of each.
#![tactic(auto)]

mod content;
mod docs;
mod index;

pub use content::Content;
pub use fold_core::{
    Body, Bytes, Details, Doc, Entry, Hive, HiveName, Many, NoMemory, Text, Ticks,
};
