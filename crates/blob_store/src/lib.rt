//! Stores of blobs: maps from names to bytes, with faults and crashes.
//!
//! `Blobs` is the trait, and `MemBlobs` a store in memory whose calls can be made to fail. What is told of a
//! store is one record, `Seen`. `get_one`, `call_one` and `call_all` say which calls they make, and what
//! became of each: nothing else happens to the store. A crash at any moment leaves what a prefix of those
//! calls made of the area: so a promise about crashes is a fact about the prefixes of a list.
//!
//! This crate opens no file, and takes no handle.
#![tactic(auto)]

mod blobs;
mod call;
mod change;
mod error;
mod fail;
mod mem_blobs;
mod runs;

pub use blobs::Blobs;
pub use call::Call;
pub use error::BlobErr;
pub use fail::Fail;
pub use feed_base::{Bytes, Many, NoMemory, Text};
pub use mem_blobs::MemBlobs;
pub use runs::{call_all, call_one, get_one};
