// Which lists of changes no catalog takes.
ghost use Rattle.std.specs.Prelude.{◌≡◌, ◌<◌, ◌≤◌, [], IfNone, IfSome, length};
ghost use Rattle.catalog_doc.specs.Commits.{changed_id, changed_version};
ghost use Rattle.std.specs.List.{list_any};
ghost use Rattle.catalog_doc.specs.Verdict.{first_reason, twice};
ghost use Rattle.catalog_rows.specs.Reasons.{is_of_same, IsOfRows, misshapen};

use catalog_doc::{Change, CommitErr};
use pkg_meta::{PackageId, Version};

// How many changes a commit takes at the most.
const MOST_CHANGES: usize = 64;

/// The package that a change speaks of.
pub(crate) fn id_of(change: &Change) -> &PackageId
    ensures { result.now ≡ changed_id change.now }
{
    match change {
        Change::Publish { meta, .. } => &meta.id,
        Change::Unlist { id, .. } | Change::Relist { id, .. } | Change::Delete { id, .. } => id,
    }
}

/// The version that it speaks of.
pub(crate) fn version_of(change: &Change) -> &Version
    ensures { result.now ≡ changed_version change.now }
{
    match change {
        Change::Publish { meta, .. } => &meta.version,
        Change::Unlist { version, .. }
        | Change::Relist { version, .. }
        | Change::Delete { version, .. } => version,
    }
}

fn is_of_same(change: &Change, other: &Change) -> bool
    ensures { result ≡ is_of_same change.now other.now }
{
    id_of(change).same(id_of(other)) && version_of(change).compare(version_of(other)).is_eq()
}

fn has_change(change: &Change, changes: &[Change]) -> bool
    ensures { result ≡ list_any (is_of_same change.now) changes.now }
{
    changes.iter().any(|other| is_of_same(change, other))
}

// The first change whose version an earlier one has.
fn first_twice(changes: &[Change]) -> Option<CommitErr>
    requires few { length changes.now ≤ 64 }
    ensures kind { IfSome result IsOfRows }
    ensures exact { result ≡ first_reason twice [] 0 changes.now }
{
    for (at, change) in changes.iter().enumerate() {
        if has_change(change, &changes[..at]) {
            return Some(CommitErr::Twice(at as u32));
        }
    }
    None
}

/// Why no catalog takes these changes: there are none, there are more than 64, or two are of one version.
pub fn shape_refusal(changes: &[Change]) -> Option<CommitErr>
    ensures kind { IfSome result IsOfRows }
    ensures exact { result ≡ misshapen changes.now }
    ensures few { IfNone result ((0 < length changes.now) × (length changes.now ≤ 64)) }
{
    if changes.is_empty() {
        return Some(CommitErr::Empty);
    }
    if changes.len() > MOST_CHANGES {
        return Some(CommitErr::TooMany(changes.len() as u64));
    }
    first_twice(changes)
}
