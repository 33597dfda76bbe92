// A commit of the catalog, and what it stores.
use crate::Item;
use nuget_version::{Bytes, Many};
use ticks::Ticks;

/// A commit: one number and one stamp for all its items.
#[derive(Drop)]
pub struct Commit {
    /// From 1.
    pub number: u32,
    pub stamp: Ticks,
    /// By place, from 0.
    pub items: Many<Item>,
}

/// What a publish brings: the package's manifest, and the package.
#[derive(Drop)]
pub struct Staged {
    pub nuspec: Bytes,
    pub nupkg: Bytes,
}

/// A commit with what its publishes brought.
#[derive(Drop)]
pub struct Stored {
    pub commit: Commit,
    /// By place; none at an item that is no publish.
    pub staged: Many<Option<Staged>>,
}
