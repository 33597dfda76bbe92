//! Readers of the catalog's documents: the index, the pages, the leaves, and the details that a stored document
//! shows. A reader takes exactly the texts that the writer makes.
#![tactic(auto)]

mod dependencies;
mod details;
mod fields;
mod leaf_reading;
mod reading;
mod trees;

pub use catalog_doc::DocErr;
pub use details::read_details;
pub use fields::commit_number;
pub use leaf_reading::read_leaf;
pub use reading::{read_index, read_page};
