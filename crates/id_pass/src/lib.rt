//! The calls of a pass: how a hive brings the documents of one id up to a commit. `make_plan` makes the
//! plan of a pass from what is stored of the id and the id's items since, and a `Plan` gives its calls one
//! by one.
//!
//! This crate does no input or output: who makes the calls reads the packages and manifests that they
//! name.
#![tactic(auto)]

mod by_name;
mod call;
mod docs;
mod error;
mod names;
mod pass;
mod placed;
mod states;
mod taking;

pub use call::{Call, Plan};
pub use error::{RoundErr, RoundOut};
pub use fold_core::{Body, Bytes, Doc, Entry, Hive, HiveName, Item, Many, NoMemory, Text, Ticks};
pub use hive_state::StateDoc;
pub use pass::make_plan;
pub use placed::Placed;
