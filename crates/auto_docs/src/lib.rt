//! The auto hive: the listed versions of an id, of which autocompletion tells.
#![tactic(auto)]

mod auto;
mod index;

pub use auto::Auto;
pub use fold_core::{
    Body, Bytes, Details, Doc, Entry, Hive, HiveName, Many, NoMemory, Text, Ticks,
};
