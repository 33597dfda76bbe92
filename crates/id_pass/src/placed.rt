// The items that a pass takes in.
use pkg_meta::{Item, Ticks};

/// An item with its commit's number and stamp, and its place there, from 0.
#[derive(Drop)]
pub struct Placed {
    pub number: u32,
    pub place: u32,
    pub stamp: Ticks,
    pub item: Item,
}
