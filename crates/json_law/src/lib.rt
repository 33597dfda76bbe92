//! The laws of compact JSON texts, on which every reader of a stored document rests, and the reader
//! and the comparison that go by them. JSON is that of RFC 8259; a compact text has no space.
#![tactic(auto)]

mod laws;
mod texts;

pub use laws::{different_texts, no_floats, reads_back, utf8_text};
pub use texts::{is_text_of, value_of};
