// What a cursor names.
use pkg_meta::Ticks;

/// The last commit that a hive has taken up: its number and its stamp.
#[derive(Clone, Copy, Debug, PartialEq, Eq)]
pub struct Mark {
    pub number: u32,
    pub stamp: Ticks,
}
