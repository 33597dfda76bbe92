// The reply lines.
use crate::area::AreaName;
use fold_core::HiveName;
use pkg_meta::{MetaErr, Text, Ticks};

/// The numbers of documents of a catalog and of its hives.
#[derive(Clone, Copy, Debug, PartialEq, Eq)]
pub struct Generated {
    pub commits: u32,
    pub items: u32,
    pub pages: u32,
    pub plain: u32,
    pub semver2: u32,
    pub content: u32,
    pub auto: u32,
}

/// A reply line.
#[derive(Drop)]
pub enum Line {
    /// The catalog of no commits is made.
    Initialised,
    /// The changes are committed: the commit's number and stamp.
    Committed { number: u32, stamp: Ticks },
    /// The hive is built, up to this commit.
    Done(HiveName, u32),
    /// There was nothing to build: the hive is up to this commit.
    Idle(HiveName, u32),
    /// Another run built the hive, up to this commit.
    Joined(HiveName, u32),
    /// The hive's round goes on: the id with this key isn't done.
    Left(HiveName, Text),
    Cursor(HiveName, u32),
    /// The hive holds the from-scratch documents of the catalog up to this commit.
    Same(HiveName, u32),
    Stopping,
    /// The document of this name isn't the from-scratch one.
    Differs(HiveName, Text),
    /// A catalog was generated and all hives were built: the numbers of documents.
    Generated(Generated),
    /// A rule of the feed refuses it.
    Refused(Refusal),
    /// A call of this area's store failed.
    Fault(AreaName),
    FaultInput,
    /// The area doesn't hold the document of this name as it is to be.
    Damaged(AreaName, Text),
    TooLong,
    Memory,
}

/// A line that tells a refusal.
#[derive(Drop)]
pub enum Refusal {
    /// The version of the publish at this place is there, since the commit of this number.
    Exists { place: u32, number: u32 },
    /// The version of the change at this place isn't there, since the commit of this number.
    Absent { place: u32, number: u32 },
    /// The version of the change at this place has that listing, since the commit of this number.
    Already { place: u32, number: u32 },
    /// The change at this place is of a version that an earlier one is of.
    Twice(u32),
    /// The id of the publish at this place has as many versions as it may.
    IdFull(u32),
    /// The catalog has this many items, and no room for more.
    Full(u32),
    /// There is no moment after the last commit's.
    ClockEnd,
    Empty,
    /// There are this many changes, which are too many.
    TooMany(u64),
    /// At this byte of the body no record or line begins.
    Body(u64),
    /// The id at this place is none.
    Id(u64),
    /// The version at this place is none.
    Version(u64),
    Meta { place: u64, why: MetaErr },
    Missing,
    /// There is a catalog already.
    Initialised,
    /// There is no catalog.
    Uninitialised,
    /// The catalog's base address isn't the one that was given.
    Base { stored: Text, given: Text },
    /// The catalog has this many commits.
    NotEmpty(u32),
    /// The path is answered by a server alone.
    Served,
    /// This line of the script has no meaning.
    Line(u64),
}
