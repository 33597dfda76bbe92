// Why a stored document wasn't read, and why nothing was committed.
ghost use Rattle.std.specs.Prelude.{◌≡◌};

use blob_store::BlobErr;
use pkg_meta::{NoMemory, Text};
use std::alloc::AllocError;
use std::fmt;

/// Why a stored document wasn't read.
#[derive(Clone, Copy, Debug, PartialEq, Eq)]
pub enum DocErr {
    /// The bytes are the writer's text of no value.
    Damaged,
    /// Out of memory.
    Memory,
}

/// Why nothing was committed.
#[derive(Drop)]
pub enum CommitErr {
    /// There are no changes.
    Empty,
    /// There are this many changes, and a commit takes 64 at the most.
    TooMany(u64),
    /// The change at this place is of a version that an earlier change is of.
    Twice(u32),
    /// The version of the publish at this place is there; the number is that of its last item's commit.
    Exists(u32, u32),
    /// The version of the change at this place isn't there; the number is that of its last item's commit,
    /// 0 where it has no item.
    Absent(u32, u32),
    /// The version of the change at this place has that listing; the number is that of its last item's commit.
    Already(u32, u32),
    /// The id of the publish at this place has 2,048 versions.
    IdFull(u32),
    /// The catalog has this many items, and has no room for those of the commit.
    Full(u32),
    /// The last stamp is the last moment of the calendar.
    ClockEnd,
    /// A call of the store failed.
    Fault,
    /// The blob of this name isn't held, or isn't what the catalog has there.
    Damaged(Text),
    /// Out of memory.
    Memory,
}

impl fmt::Display for DocErr {
    fn fmt<W: fmt::Write>(&self, f: &mut fmt::Formatter<W>) -> fmt::Result {
        f.write_str(match self {
            DocErr::Damaged => "the document is damaged",
            DocErr::Memory => "out of memory",
        })
    }
}

impl fmt::Display for CommitErr {
    fn fmt<W: fmt::Write>(&self, f: &mut fmt::Formatter<W>) -> fmt::Result {
        match self {
            CommitErr::Empty => f.write_str("there are no changes"),
            CommitErr::TooMany(len) => {
                write!(
                    f,
                    "there are {len} changes, and a commit takes 64 at the most"
                )
            }
            CommitErr::Twice(place) => {
                write!(
                    f,
                    "the change at place {place} is of a version that an earlier one is of"
                )
            }
            CommitErr::Exists(place, number) => {
                write!(
                    f,
                    "the version at place {place} is there since commit {number}"
                )
            }
            CommitErr::Absent(place, number) => {
                write!(
                    f,
                    "the version at place {place} isn't there since commit {number}"
                )
            }
            CommitErr::Already(place, number) => {
                write!(
                    f,
                    "the version at place {place} has that listing since commit {number}"
                )
            }
            CommitErr::IdFull(place) => {
                write!(
                    f,
                    "the id of the publish at place {place} has 2048 versions"
                )
            }
            CommitErr::Full(items) => write!(f, "the catalog has {items} items and no room"),
            CommitErr::ClockEnd => f.write_str("the last stamp is the calendar's last moment"),
            CommitErr::Fault => f.write_str("the store failed"),
            CommitErr::Damaged(name) => {
                let name = name.as_str();
                write!(f, "the blob '{name}' is damaged")
            }
            CommitErr::Memory => f.write_str("out of memory"),
        }
    }
}

impl From<NoMemory> for DocErr {
    ghost use Rattle.catalog_doc.specs.declared.error.DocErr.TheVariants.{Memory};

    ghost from_gives = { λ _ e. e ≡ Memory };

    fn from(_: NoMemory) -> Self {
        DocErr::Memory
    }
}

impl From<AllocError> for DocErr {
    ghost use Rattle.catalog_doc.specs.declared.error.DocErr.TheVariants.{Memory};

    ghost from_gives = { λ _ e. e ≡ Memory };

    fn from(_: AllocError) -> Self {
        DocErr::Memory
    }
}

impl From<BlobErr> for CommitErr {
    ghost use Rattle.std.specs.Prelude.{◌≡◌};
    ghost use Rattle.catalog_doc.specs.Errors.{commit_err_of};

    ghost from_gives = { λ b e. e ≡ commit_err_of b };

    fn from(error: BlobErr) -> Self {
        match error {
            BlobErr::Failed => CommitErr::Fault,
            BlobErr::Memory => CommitErr::Memory,
        }
    }
}

impl From<NoMemory> for CommitErr {
    ghost use Rattle.catalog_doc.specs.declared.error.CommitErr.TheVariants.{Memory};

    ghost from_gives = { λ _ e. e ≡ Memory };

    fn from(_: NoMemory) -> Self {
        CommitErr::Memory
    }
}
