//! What is read of a catalog's area by the catalog's rows: its items, from their leaves, and its documents, by their names.
//!
//! `item_at`, `leaf_at` and `commits_at` read leaves, `document_at` and `bytes_at` blobs. Each blob is got once, and
//! nothing is put. Rows that aren't those of the catalog that the area spells give no more than the blobs held.
#![tactic(auto)]

mod documents;
mod items;
mod leaf;
mod names;
mod rows;

pub use documents::{bytes_at, document_at};
pub use items::{commits_at, item_at, leaf_at};
pub use names::page_count;
pub use rows::rows_above;
