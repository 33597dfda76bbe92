// The settling of a catalog, whose last commit may have been stopped.
ghost use Rattle.std.specs.Prelude.{◌≡◌, ◌≤◌, ◌++◌, ◌∷◌, [], List, Option, Some, IfOk, IsErrOf, OnOk, drop, length, map};
ghost use Rattle.blob_store.specs.Area.{Area};
ghost use Rattle.pkg_meta.specs.Catalog.{Catalog};
ghost use Rattle.pkg_meta.specs.declared.commit.Stored.{Stored};
ghost use Rattle.catalog_doc.specs.Documents.{head_of, last_head};
ghost use Rattle.catalog_doc.specs.declared.row.Row.{Row};
ghost use Rattle.catalog_opening.specs.Errors.{IfDamagedRead};
ghost use Rattle.catalog_opening.specs.Openings.{IsSettledStoreOf, IsStoreOf, KeepsSpelling, Mends};
ghost use Rattle.catalog_opening.specs.Pages.{IsDamagedIn, IsHeldAs, rows_on};
ghost use Rattle.catalog_opening.specs.Plans.{RunsReading, index_change, last_gets};
ghost use Rattle.catalog_opening.specs.Reads.{counted_rows};
ghost use Rattle.catalog_opening.specs.Settlings.{IsDamagedOrTooMany, IsKnownBefore, AreReadRows, more_rows, settling_plan, with_more};

use crate::error::ReadErr;
use crate::index::{damaged_index, put_index};
use crate::pages::read_ending;
use blob_store::Blobs;
use catalog_doc::{PageHead, Row};
use pkg_meta::{Many, NoMemory};
use std::alloc::Global;

// How many pages are known at the most: as many as a catalog may have items.
const PAGES_AT_MOST: usize = 200_000;

// The rows behind the first so many.
fn rows_behind(rows: Many<Row>, count: usize) -> Result<Many<Row>, NoMemory>
    ensures { IfOk result (λ behind. behind ≡ drop count rows) }
{
    let mut rows = rows.into_vec();
    let kept = count.min(rows.len());
    let behind = rows.split_off(kept)?;
    Ok(Many::of(behind))
}

fn last_count(pages: &[PageHead]) -> usize
    ensures { result ≡ (last_head pages.now).count }
{
    match pages.last() {
        Some(head) => head.count as usize,
        None => 0,
    }
}

// Settles an area whose pages fit those known.
fn settle_pages<B: Blobs>(
    alloc: Global,
    area: &mut B,
    base: &str,
    pages: &[PageHead],
) -> Result<Many<Row>, ReadErr>
    requires { length pages.now ≤ 200_000 }
    ensures more { (m : Area) (held : List (List Row)) → (B.seen area.old).held ≡ Some m → IsHeldAs m base.now pages.now held
        → IfOk result (λ more. more ≡ drop (counted_rows pages.now) (rows_on held)) }
    ensures runs { (m : Area) (held : List (List Row)) → (B.seen area.old).held ≡ Some m → IsHeldAs m base.now pages.now held
        → RunsReading (last_gets (length pages.now) ++ index_change base.now (map head_of held) ∷ []) (B.seen area.old) (B.seen area.new) result }
    ensures mends { Mends (B.seen area.old) (B.seen area.new) (IsErrOf result ReadErr.Fault) }
    ensures damaged { (m : Area) → (B.seen area.old).held ≡ Some m → IfDamagedRead result (IsDamagedIn m base.now pages.now) }
{
    let found = read_ending(alloc, area, base, pages)?;
    let more = rows_behind(found.rows, last_count(pages))?;
    put_index(alloc, area, base, found.heads.as_slice())?;
    Ok(more)
}

/// Reads the last of the pages known and the page behind it, and puts the index of what stands there. It answers
/// the rows of the one commit more that stands there, and no row where there is none.
pub fn settle<B: Blobs>(
    alloc: Global,
    area: &mut B,
    base: &str,
    pages: &[PageHead],
) -> Result<Many<Row>, ReadErr>
    // Of an area that spells the catalog known, or that with one commit more, the rows of that commit are told.
    ensures answers { (cs : Catalog) (more : Option Stored) → IsKnownBefore cs more pages.now → IsStoreOf (B.seen area.old) base.now (with_more cs more)
        → AreReadRows (more_rows more) result }

    // It then spells that catalog, and its index doesn't lag.
    ensures settled { (cs : Catalog) (more : Option Stored) → IsKnownBefore cs more pages.now → IsStoreOf (B.seen area.old) base.now (with_more cs more)
        → OnOk result (IsSettledStoreOf (B.seen area.new) base.now (with_more cs more)) }

    // Whatever it answers, and at a crash at each moment, the area spells it.
    ensures spelled { (cs : Catalog) (more : Option Stored) → IsKnownBefore cs more pages.now → IsStoreOf (B.seen area.old) base.now (with_more cs more)
        → IsStoreOf (B.seen area.new) base.now (with_more cs more) }
    ensures moments { (cs : Catalog) (more : Option Stored) → IsKnownBefore cs more pages.now → IsStoreOf (B.seen area.old) base.now (with_more cs more)
        → KeepsSpelling (B.seen area.old) (B.seen area.new) base.now (with_more cs more) }

    // The store is called as planned, up to the first call that isn't done.
    ensures runs { (cs : Catalog) (more : Option Stored) → IsKnownBefore cs more pages.now → IsStoreOf (B.seen area.old) base.now (with_more cs more)
        → RunsReading (settling_plan base.now cs more) (B.seen area.old) (B.seen area.new) result }

    // Of every area: the count of faults rises exactly at a fault, and nothing but the index is put.
    ensures mends { Mends (B.seen area.old) (B.seen area.new) (IsErrOf result ReadErr.Fault) }
    ensures damaged { (m : Area) → (B.seen area.old).held ≡ Some m → IfDamagedRead result (IsDamagedOrTooMany m base.now pages.now) }
{
    if pages.len() > PAGES_AT_MOST {
        return Err(damaged_index(alloc));
    }
    settle_pages(alloc, area, base, pages)
}
