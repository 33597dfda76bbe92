// The areas of a feed.
use blob_store::Blobs;

/// The five areas of a feed: the catalog's, and one for each hive.
#[derive(Drop)]
pub struct Stores<B: Blobs> {
    pub catalog: B,
    pub plain: B,
    pub semver2: B,
    pub content: B,
    pub auto: B,
}
