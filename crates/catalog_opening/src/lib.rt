//! What an area holds of a catalog: its index and its pages, read by an opening or by settling.
//!
//! An area that spells a catalog is opened as that catalog, and then spells it with an index that doesn't
//! lag. `read_catalog` needs no catalog in memory, `settle` what the index says of the pages known.
//!
//! Leaves and staged blobs aren't read, and of an area that spells no catalog it isn't said that it is refused.
#![tactic(auto)]

mod error;
mod index;
mod opening;
mod page;
mod pages;
mod reading;
mod settling;

pub use error::{OpenErr, ReadErr};
pub use opening::{Known, read_catalog};
pub use settling::settle;
