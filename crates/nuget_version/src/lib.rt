//! Versions of packages, and the base types of every crate: text, bytes and lists that contracts see as lists.
#![tactic(auto)]

mod compare;
mod errors;
mod laws;
mod parse;
mod texts;
mod values;
mod version;
mod walk;

pub use errors::VersionErr;
pub use laws::{
    forms_fit, has_one_answer, has_one_value, keys_are_names, precedence_is_total,
    printed_read_back, ties_by_key,
};
pub use values::{Bytes, Many, NoMemory, Text};
pub use version::Version;
