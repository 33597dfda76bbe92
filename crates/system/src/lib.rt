//! What the system gives a program that keeps a feed in a folder: its standard streams, its clock, and the folder's
//! stores under the system's lock.
//!
//! Streams and stores tell nothing of content. Clauses say that a fault is told only where its count rose, which
//! moment the clock answers, and which folder each store has, with which access.
#![tactic(auto)]

mod clock;
mod folders;
mod streams;

pub use blob_dir::{DirBlobs, FolderLock};
pub use catalog_core::Stores;
pub use clock::{SystemClock, ticks_of_nanos};
pub use folders::stores;
pub use streams::{Reading, Writing};
