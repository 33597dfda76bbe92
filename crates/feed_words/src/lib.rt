//! The words of a command: which of them are plain, and what its option gives.
#![tactic(auto)]

mod words;

pub use words::{Words, read_words};
