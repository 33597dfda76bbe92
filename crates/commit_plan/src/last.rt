// The last item of a version, as far as a change of the version needs it.
use pkg_meta::{Details, PackageId, Version};

/// What a change needs of its version's last item.
#[derive(Drop)]
pub(crate) enum LastItem {
    /// Nothing: of a publish.
    Unneeded,
    /// The number of its commit and its details: of a change of listing.
    Listing { number: u32, details: Details },
    /// Its id and version as they are written: of a delete.
    Written { id: PackageId, version: Version },
}
