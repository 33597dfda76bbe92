// The documents of a hive.
use pkg_meta::{Bytes, Text};

/// What a document holds.
#[derive(Drop)]
pub enum Body {
    Made(Bytes),
    /// The package of the publish at this place of a commit, or its manifest where `nuspec`.
    Staged {
        number: u32,
        place: u32,
        nuspec: bool,
    },
}

/// A document of an id, with its name in the hive's area.
#[derive(Drop)]
pub struct Doc {
    pub name: Text,
    pub body: Body,
}
