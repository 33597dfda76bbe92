// What changes need of the last items of the versions that they are of, looked up in the catalog's area.
ghost use Rattle.std.specs.Prelude.{◌≡◌, ◌≤◌, [], List, None, Some, IfOk, length};
ghost use Rattle.nuget_version.specs.Printed.{key_text};
ghost use Rattle.blob_store.specs.Area.{Area};
ghost use Rattle.pkg_meta.specs.Catalog.{Catalog};
ghost use Rattle.pkg_meta.specs.Items.{id_of, version_of};
ghost use Rattle.pkg_meta.specs.Lawful.{Placed, all_placed, last_of};
ghost use Rattle.catalog_doc.specs.Verdict.{already, first_reason, unfit};
ghost use Rattle.catalog_doc.specs.declared.change.Change.{Change};
ghost use Rattle.catalog_opening.specs.Errors.{IfDamagedRead};
ghost use Rattle.catalog_opening.specs.Plans.{RunsReading};
ghost use Rattle.catalog_rows.specs.Kept.{IsKeptOf};
ghost use Rattle.catalog_rows.specs.Last.{last_row};
ghost use Rattle.catalog_items.specs.Leaves.{leaf_gets};
ghost use Rattle.catalog_items.specs.Reads.{IsRead, IsReadWith};
ghost use Rattle.commit_plan.specs.Lookups.{commit_err_for, gets_for, IfDamagedCommit, IsKnown, IsLastDamaged};
ghost use Rattle.commit_plan.specs.Lookups.{IsLive, listing_in, LooksAtOne, RefusesFor, RunsLooking};
ghost use Rattle.commit_plan.specs.Plans.{AreKnownFor, IsKnownFor};

use crate::last::LastItem;
use crate::listing::already_at;
use blob_store::Blobs;
use catalog_doc::{Change, CommitErr};
use catalog_items::item_at;
use catalog_opening::ReadErr;
use catalog_rows::Rows;
use pkg_meta::{Item, Many, NoMemory, PackageId, Version};
use std::alloc::Global;

/// What a commit answers for what a read told.
pub fn commit_err_for(error: ReadErr) -> CommitErr
    ensures { result ≡ commit_err_for error }
{
    match error {
        ReadErr::Damaged(name) => CommitErr::Damaged(name),
        ReadErr::Fault => CommitErr::Fault,
        ReadErr::Memory => CommitErr::Memory,
    }
}

fn listing_of(number: u32, item: Item) -> LastItem
    ensures { result ≡ listing_in number item }
{
    match item {
        Item::Details(details) => LastItem::Listing { number, details },
        Item::Gone { .. } => LastItem::Unneeded,
    }
}

// The last item of a version, from its leaf.
fn listing_at<B: Blobs>(
    alloc: Global,
    area: &mut B,
    base: &str,
    rows: &Rows,
    id: &PackageId,
    version: &Version,
) -> Result<LastItem, ReadErr>
    ensures runs { RunsReading (leaf_gets (last_row id.now.key (key_text version.now) rows.now.rows)) (B.seen area.old) (B.seen area.new) result }
    ensures known { (cs : Catalog) (last : Placed) → IsKnown rows.now (B.seen area.old) base.now cs
        → last_of id.now.key (key_text version.now) (all_placed cs) ≡ Some last → IsRead (listing_in last.number last.what) result }
    ensures damaged { (m : Area) → (B.seen area.old).held ≡ Some m → IfDamagedRead result (IsLastDamaged m base.now rows.now.rows) }
{
    let Some(row) = rows.last(alloc, id, version)? else {
        return Ok(LastItem::Unneeded);
    };
    let item = item_at(alloc, area, base, row)?;
    Ok(listing_of(row.number, item))
}

// The id and the version of a version's last row, as they are written.
fn written_at(
    alloc: Global,
    rows: &Rows,
    id: &PackageId,
    version: &Version,
) -> Result<LastItem, NoMemory>
    ensures { IfOk result (λ known. (cs : Catalog) (last : Placed) → IsKeptOf rows.now cs
        → last_of id.now.key (key_text version.now) (all_placed cs) ≡ Some last → known ≡ LastItem.Written (id_of last.what) (version_of last.what)) }
{
    let Some(row) = rows.last(alloc, id, version)? else {
        return Ok(LastItem::Unneeded);
    };
    let id = row.id.copy(alloc)?;
    let version = row.version.copy(alloc)?;
    Ok(LastItem::Written { id, version })
}

// What a change needs of its version's last item.
fn last_item<B: Blobs>(
    alloc: Global,
    area: &mut B,
    base: &str,
    rows: &Rows,
    change: &Change,
) -> Result<LastItem, ReadErr>
    ensures runs { RunsReading (gets_for rows.now.rows change.now) (B.seen area.old) (B.seen area.new) result }
    ensures known { (cs : Catalog) → IsKnown rows.now (B.seen area.old) base.now cs → IsLive cs change.now
        → IsReadWith (IsKnownFor cs change.now) result }
    ensures damaged { (m : Area) → (B.seen area.old).held ≡ Some m → IfDamagedRead result (IsLastDamaged m base.now rows.now.rows) }
{
    match change {
        Change::Publish { .. } => Ok(LastItem::Unneeded),
        Change::Unlist { id, version } => listing_at(alloc, area, base, rows, id, version),
        Change::Relist { id, version } => listing_at(alloc, area, base, rows, id, version),
        Change::Delete { id, version } => {
            let last = written_at(alloc, rows, id, version)?;
            Ok(last)
        }
    }
}

// The same, unless the version has the listing that the change at this place wants.
fn unless_already<B: Blobs>(
    alloc: Global,
    area: &mut B,
    base: &str,
    rows: &Rows,
    place: u32,
    change: &Change,
) -> Result<LastItem, CommitErr>
    ensures runs { LooksAtOne place (gets_for rows.now.rows change.now) (B.seen area.old) (B.seen area.new) result }
    ensures known { (cs : Catalog) → IsKnown rows.now (B.seen area.old) base.now cs → IsLive cs change.now → IfOk result (IsKnownFor cs change.now) }
    ensures refused { (cs : Catalog) (earlier : List Change) → IsKnown rows.now (B.seen area.old) base.now cs → IsLive cs change.now
        → RefusesFor (already cs place earlier change.now) result }
    ensures damaged { (m : Area) → (B.seen area.old).held ≡ Some m → IfDamagedCommit result (IsLastDamaged m base.now rows.now.rows) }
{
    let last = match last_item(alloc, area, base, rows, change) {
        Ok(last) => last,
        Err(error) => return Err(commit_err_for(error)),
    };
    match already_at(place, change, &last) {
        Some(error) => Err(error),
        None => Ok(last),
    }
}

/// What changes that fit a catalog need of last items, in the order of their places: leaf by leaf, up to a version that
/// has the listing that is wanted.
pub(crate) fn last_items<B: Blobs>(
    alloc: Global,
    area: &mut B,
    base: &str,
    rows: &Rows,
    changes: &[Change],
) -> Result<Many<LastItem>, CommitErr>
    requires few { length changes.now ≤ 64 }
    ensures runs { RunsLooking rows.now.rows changes.now (B.seen area.old) (B.seen area.new) result }
    ensures count { IfOk result (λ lasts. length lasts ≡ length changes.now) }
    ensures known { (cs : Catalog) → IsKnown rows.now (B.seen area.old) base.now cs → first_reason (unfit cs) [] 0 changes.now ≡ None
        → IfOk result (λ lasts. AreKnownFor cs changes.now lasts) }
    ensures refused { (cs : Catalog) → IsKnown rows.now (B.seen area.old) base.now cs → first_reason (unfit cs) [] 0 changes.now ≡ None
        → RefusesFor (first_reason (already cs) [] 0 changes.now) result }
    ensures damaged { (m : Area) → (B.seen area.old).held ≡ Some m → IfDamagedCommit result (IsLastDamaged m base.now rows.now.rows) }
{
    let mut lasts = Many::new(alloc);
    for (place, change) in changes.iter().enumerate() {
        let last = unless_already(alloc, area, base, rows, place as u32, change)?;
        lasts.push(last)?;
    }
    Ok(lasts)
}
