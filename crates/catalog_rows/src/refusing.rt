// Why the rows of a catalog take no changes.
ghost use Rattle.catalog_doc.specs.declared.change.Change.{Change};
ghost use Rattle.std.specs.Prelude.{◌≡◌, ◌≤◌, ◌<◌, ◌+◌, ◌^◌, [], List, Some, None, length, max, option_map, IfOk, IfSome, IfNone, Option};
ghost use Rattle.std.specs.List.{count_by};
ghost use Rattle.std.specs.Option.{option_copied};
ghost use Rattle.pkg_meta.specs.Catalog.{Catalog};
ghost use Rattle.pkg_meta.specs.Lawful.{newest, Placed};
ghost use Rattle.catalog_doc.specs.CatDocs.{all_rows};
ghost use Rattle.catalog_doc.specs.Catalogs.{IsCatalog};
ghost use Rattle.catalog_doc.specs.Commits.{live_details};
ghost use Rattle.catalog_doc.specs.Verdict.{absent, ended, existing, first_reason, full, id_full, last_number_of, twice, unfit};
ghost use Rattle.catalog_rows.specs.Last.{placed_row};
ghost use Rattle.catalog_rows.specs.Reasons.{HasCounts, is_delete_of, is_publish_of, IsOfRows, misshapen, unready};

use crate::rows::Rows;
use crate::shape::{id_of, version_of};
use catalog_doc::{Change, CommitErr, Row, last_of};
use pkg_meta::{NoMemory, PackageId, Ticks, after};
use std::alloc::Global;

// How many live versions an id has at the most.
const ID_ROOM: usize = 2048;

// How many items a catalog has at the most.
const ROOM: usize = 200_000;

fn existing(place: u32, last: Option<&Row>) -> Option<CommitErr>
    ensures kind { IfSome result IsOfRows }
    ensures exact { (found : Option Placed) → option_copied last.entry ≡ option_map placed_row found
        → result ≡ existing place (last_number_of found) (live_details found) }
{
    match last {
        Some(row) if !row.gone => Some(CommitErr::Exists(place, row.number)),
        _ => None,
    }
}

fn absent(place: u32, last: Option<&Row>) -> Option<CommitErr>
    ensures kind { IfSome result IsOfRows }
    ensures exact { (found : Option Placed) → option_copied last.entry ≡ option_map placed_row found
        → result ≡ absent place (last_number_of found) (live_details found) }
{
    match last {
        Some(row) if !row.gone => None,
        Some(row) => Some(CommitErr::Absent(place, row.number)),
        None => Some(CommitErr::Absent(place, 0)),
    }
}

fn is_publish_of(change: &Change, id: &PackageId) -> bool
    ensures { result ≡ is_publish_of id.now.key change.now }
{
    match change {
        Change::Publish { meta, .. } => id.same(&meta.id),
        _ => false,
    }
}

fn is_delete_of(change: &Change, id: &PackageId) -> bool
    ensures { result ≡ is_delete_of id.now.key change.now }
{
    match change {
        Change::Delete { id: other, .. } => id.same(other),
        _ => false,
    }
}

fn publishes(changes: &[Change], id: &PackageId) -> usize
    ensures { result ≡ count_by (is_publish_of id.now.key) changes.now }
{
    changes
        .iter()
        .filter(|change| is_publish_of(change, id))
        .count()
}

fn deletes(changes: &[Change], id: &PackageId) -> usize
    ensures { result ≡ count_by (is_delete_of id.now.key) changes.now }
{
    changes
        .iter()
        .filter(|change| is_delete_of(change, id))
        .count()
}

// A number, or the greatest of 32 bits where it has more.
fn at_most_u32(number: usize) -> u32
    ensures { number < 2 ^ 32 → result ≡ number }
{
    u32::try_from(number).unwrap_or(u32::MAX)
}

impl Rows {
    // The id has no room for a publish behind the earlier changes.
    fn id_full(&self, place: u32, earlier: &[Change], id: &PackageId) -> Option<CommitErr>
        requires few { length earlier.now ≤ 64 }
        ensures kind { IfSome result IsOfRows }
        ensures exact { (cs : Catalog) → all_rows cs ≡ self.now.rows → HasCounts cs earlier.now
            → result ≡ id_full cs place earlier.now id.now.key }
    {
        let live = self.live(id).saturating_add(publishes(earlier, id));
        if live >= ID_ROOM + deletes(earlier, id) {
            return Some(CommitErr::IdFull(place));
        }
        None
    }

    // Why a change behind these doesn't fit.
    fn unfit(
        &self,
        alloc: Global,
        place: u32,
        earlier: &[Change],
        change: &Change,
    ) -> Result<Option<CommitErr>, NoMemory>
        requires few { length earlier.now ≤ 64 }
        ensures kind { IfOk result (λ found. IfSome found IsOfRows) }
        ensures exact { IfOk result (λ found. (cs : Catalog) → all_rows cs ≡ self.now.rows → HasCounts cs earlier.now
            → found ≡ unfit cs place earlier.now change.now) }
    {
        let last = self.last(alloc, id_of(change), version_of(change))?;
        let Change::Publish { meta, .. } = change else {
            return Ok(absent(place, last));
        };
        match existing(place, last) {
            Some(reason) => Ok(Some(reason)),
            None => Ok(self.id_full(place, earlier, &meta.id)),
        }
    }

    // The first place that doesn't fit.
    fn first_unfit(&self, alloc: Global, changes: &[Change]) -> Result<Option<CommitErr>, NoMemory>
        requires few { length changes.now ≤ 64 }
        ensures kind { IfOk result (λ found. IfSome found IsOfRows) }
        ensures exact { IfOk result (λ found. (cs : Catalog) → all_rows cs ≡ self.now.rows
            → first_reason twice [] 0 changes.now ≡ None → found ≡ first_reason (unfit cs) [] 0 changes.now) }
    {
        for (at, change) in changes.iter().enumerate() {
            if let Some(reason) = self.unfit(alloc, at as u32, &changes[..at], change)? {
                return Ok(Some(reason));
            }
        }
        Ok(None)
    }

    // There is no room for so many items more.
    fn full(&self, more: usize) -> Option<CommitErr>
        requires few { more ≤ 64 }
        ensures kind { IfSome result IsOfRows }
        ensures exact { (cs : Catalog) → IsCatalog cs → all_rows cs ≡ self.now.rows → (changes : List Change)
            → length changes ≡ more → result ≡ full cs changes }
    {
        let items = self.len();
        if items <= ROOM - more {
            return None;
        }
        Some(CommitErr::Full(at_most_u32(items)))
    }

    // No moment comes after the last commit's.
    fn ended(&self) -> Option<CommitErr>
        ensures kind { IfSome result IsOfRows }
        ensures exact { (cs : Catalog) → IsCatalog cs → all_rows cs ≡ self.now.rows → result ≡ ended (newest cs) }
    {
        let (_, last) = last_of(self.as_slice());
        match after(last, last) {
            Some(_) => None,
            None => Some(CommitErr::ClockEnd),
        }
    }

    /// Why the catalog of these rows refuses changes whose shape is right, as far as the rows tell it: a place
    /// that doesn't fit, no room for so many items, or no moment after the last.
    pub fn refusal(&self, alloc: Global, changes: &[Change]) -> Result<Option<CommitErr>, NoMemory>
        requires shaped { misshapen changes.now ≡ None }
        ensures kind { IfOk result (λ found. IfSome found IsOfRows) }
        ensures exact { IfOk result (λ found. (cs : Catalog) → IsCatalog cs → all_rows cs ≡ self.now.rows → found ≡ unready cs changes.now) }
    {
        if let Some(reason) = self.first_unfit(alloc, changes)? {
            return Ok(Some(reason));
        }
        match self.full(changes.len()) {
            Some(reason) => Ok(Some(reason)),
            None => Ok(self.ended()),
        }
    }

    /// The number of the commit behind these rows.
    pub fn next_number(&self) -> u32
        ensures { (cs : Catalog) → IsCatalog cs → all_rows cs ≡ self.now.rows → result ≡ length cs + 1 }
    {
        let (number, _) = last_of(self.as_slice());
        number.saturating_add(1)
    }

    /// The stamp of the commit behind these rows, on a clock that shows `now`, if there is a moment for it.
    pub fn next_stamp(&self, now: Ticks) -> Option<Ticks>
        ensures stamp { IfSome result (λ stamp. (cs : Catalog) → IsCatalog cs → all_rows cs ≡ self.now.rows
            → stamp ≡ max now (newest cs + 1)) }
        ensures none { IfNone result ((cs : Catalog) → IsCatalog cs → all_rows cs ≡ self.now.rows
            → ended (newest cs) ≡ Some CommitErr.ClockEnd) }
    {
        let (_, last) = last_of(self.as_slice());
        after(last, now)
    }
}
