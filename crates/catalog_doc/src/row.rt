// A row of a catalog page.
use pkg_meta::{PackageId, Ticks, Version};

/// What a catalog page says of an item.
#[derive(Drop)]
pub struct Row {
    /// The commit's number.
    pub number: u32,
    /// The place in the commit, from 0.
    pub place: u32,
    pub stamp: Ticks,
    pub id: PackageId,
    pub version: Version,
    /// Whether the item says that the version was deleted.
    pub gone: bool,
}
