//! A store of blobs in a folder of the file system: each blob is a file, whose path is its name.
//!
//! A put is whole or not made: it writes a temporary file beside the blob's, syncs it, renames it, and syncs the folder.
//! What a file system does with that is trusted: the store tells no content, so no clause says what is held or what a
//! crash leaves. Clauses say which path a name stands for, that no other is touched, that a store without the lock on
//! its folder touches nothing, that a fault is counted, and that nothing else is.
#![tactic(auto)]

mod access;
mod dir_blobs;
mod files;
mod folders;
mod lock;
mod names;
mod paths;

pub use access::Access;
pub use blob_store::{BlobErr, Blobs, Bytes, NoMemory, Text};
pub use dir_blobs::DirBlobs;
pub use files::BLOB_LIMIT;
pub use lock::FolderLock;
pub use names::{is_blob_name, temporaries_are_no_blobs};
