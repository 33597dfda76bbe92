// What a commit changes.
use pkg_meta::{Bytes, Many, Meta, PackageId, Ticks, Version};

/// A change of the feed.
#[derive(Drop)]
pub enum Change {
    /// A version that is new, or whose last item is a delete.
    Publish {
        meta: Meta,
        nuspec: Bytes,
        package: Bytes,
    },
    /// Takes a listed version out of the listing.
    Unlist {
        id: PackageId,
        version: Version,
    },
    /// Puts an unlisted version back into the listing.
    Relist {
        id: PackageId,
        version: Version,
    },
    Delete {
        id: PackageId,
        version: Version,
    },
}

/// The changes of one commit, by place.
pub type Changes = Many<Change>;

/// What a commit was told: its number, from 1, and its stamp.
#[derive(Clone, Copy)]
pub struct Committed {
    pub number: u32,
    pub stamp: Ticks,
}
