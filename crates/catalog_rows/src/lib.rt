//! The rows of an open catalog in memory: the last row of each version, the live versions of each id, the
//! heads of the pages, and why changes are refused, as far as that is told without a store.
#![tactic(auto)]

mod latest;
mod laws;
mod pages;
mod refusing;
mod rows;
mod shape;

pub use catalog_doc::{PageHead, Row};
pub use laws::refusals_have_parts;
pub use rows::Rows;
pub use shape::shape_refusal;
