//! The state document of an id in a hive: which entries the hive keeps of the id, which documents it may hold, and
//! how far it has taken the catalog in. It is written and read back.
//!
//! This crate does no input or output, and knows no area.
//!
//! ```rust
//! let name = state_name(alloc, key)?;
//! let bytes = state_bytes(alloc, &state)?;
//! let state = read_state(alloc, bytes.as_slice())?;
//! ```
#![tactic(auto)]

mod entries;
mod laws;
mod reading;
mod writing;

pub use catalog_doc::DocErr;
pub use laws::{different_names, different_states, first_document};
pub use pkg_meta::{Bytes, Entry, Many, NoMemory, StateDoc, Text, Ticks};
pub use reading::read_state;
pub use writing::{state_bytes, state_name};
