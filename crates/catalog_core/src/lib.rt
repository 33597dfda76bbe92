//! The catalog of a feed in its area: its opening, its commits, and what is read of it.
//!
//! A commit is whole or not there, whatever fails and whenever the program ends. After a fault or out of memory within
//! its puts the open catalog isn't settled: its next call reads the last page anew, and puts the index.
#![tactic(auto)]

mod catalog;
mod commit;
mod error;
mod leaves;
mod opening;
mod stores;
mod values;

pub use catalog::Catalog;
pub use catalog_doc::{Change, Changes, CommitErr, Committed, PageHead, Row};
pub use catalog_opening::{OpenErr, ReadErr};
pub use error::InitErr;
pub use opening::{init, open_catalog};
pub use stores::Stores;
