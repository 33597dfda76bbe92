//! Ranges of versions: their texts, and the versions that they hold. A refusal tells its place in the text.
#![tactic(auto)]

mod cuts;
mod ends;
mod error;
mod laws;
mod order;
mod range;
mod reading;

pub use error::RangeErr;
pub use laws::{
    has_one_range, has_one_reason, printed_is_bare, printed_reads_back, worked_refusals,
};
pub use range::VersionRange;
