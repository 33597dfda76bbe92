// All pages of an index and the page behind them, read from a store.
ghost use Rattle.std.specs.Prelude.{◌≡◌, ◌≤◌, ◌+◌, ◌↔◌, ◌∷◌, ◌++◌, [], suc, ℕ, List, Some, None, IsTrue, IfOk, OnOk, flat_map, length, map};
ghost use Rattle.blob_store.specs.Area.{Area};
ghost use Rattle.catalog_doc.specs.Documents.{head_of};
ghost use Rattle.catalog_doc.specs.declared.head.PageHead.{PageHead};
ghost use Rattle.catalog_doc.specs.declared.row.Row.{Row};
ghost use Rattle.catalog_opening.specs.Errors.{IfDamagedRead};
ghost use Rattle.catalog_opening.specs.Pages.{IsDamagedIn, IsHeldAs, rows_on};
ghost use Rattle.catalog_opening.specs.Plans.{RunsReading, last_gets, page_gets};
ghost use Rattle.catalog_opening.specs.Reads.{IsEndingOf, IsHeldEnd, end_pages, heads_on, listed, page_rows_on};

use crate::error::ReadErr;
use crate::page::Page;
use crate::reading::{End, read_first, read_front, read_last};
use blob_store::Blobs;
use catalog_doc::{PageHead, Row};
use pkg_meta::{Many, NoMemory};
use std::alloc::Global;

/// What stands on the pages: the rows in order, what an index says of each page, and whether that is
/// what the index held says.
#[derive(Drop)]
pub(crate) struct Found {
    pub(crate) rows: Many<Row>,
    pub(crate) heads: Many<PageHead>,
    pub(crate) settled: bool,
}

// Puts the rows and the head of a page behind the others.
fn add_page(
    rows: &mut Vec<Row>,
    heads: &mut Vec<PageHead>,
    page: Option<Page>,
) -> Result<(), NoMemory>
    ensures rows { OnOk result (rows.new.items ≡ rows.old.items ++ page_rows_on (listed page)) }
    ensures heads { OnOk result (heads.new.items ≡ heads.old.items ++ heads_on (listed page)) }
{
    let Some(page) = page else {
        return Ok(());
    };
    let mut own = page.rows.into_vec();
    rows.append(&mut own)?;
    heads.push(page.head)?;
    Ok(())
}

// The pages before the last, and what stands at the end.
fn found_of(alloc: Global, rows: Vec<Row>, front: &[PageHead], end: End) -> Result<Found, NoMemory>
    ensures rows { IfOk result (λ f. f.rows ≡ rows.items ++ page_rows_on (end_pages end)) }
    ensures heads { IfOk result (λ f. f.heads ≡ front.now ++ heads_on (end_pages end)) }
    ensures settled { IfOk result (λ f. f.settled ≡ end.settled) }
{
    let mut rows = rows;
    let mut heads = Vec::from_slice(alloc, front)?;
    add_page(&mut rows, &mut heads, end.last)?;
    add_page(&mut rows, &mut heads, end.next)?;
    Ok(Found {
        rows: Many::of(rows),
        heads: Many::of(heads),
        settled: end.settled,
    })
}

// Of an index without pages.
fn read_no_pages<B: Blobs>(alloc: Global, area: &mut B, base: &str) -> Result<Found, ReadErr>
    ensures runs { RunsReading (page_gets 0 1) (B.seen area.old) (B.seen area.new) result }
    ensures exact { (m : Area) (pages : List (List Row)) → (B.seen area.old).held ≡ Some m → IsHeldAs m base.now [] pages
        → IfOk result (λ f. (f.rows ≡ rows_on pages) × (f.heads ≡ map head_of pages)) }
    ensures settled { IfOk result (λ f. IsTrue f.settled ↔ (f.heads ≡ [])) }
    ensures few { IfOk result (λ f. length f.heads ≤ 1) }
    ensures damaged { (m : Area) → (B.seen area.old).held ≡ Some m → IfDamagedRead result (IsDamagedIn m base.now []) }
{
    let end = read_first(alloc, area, base)?;
    let found = found_of(alloc, Vec::new(alloc), &[], end)?;
    Ok(found)
}

// The end of an index whose last page has this head, behind these rows.
fn read_end<B: Blobs>(
    alloc: Global,
    area: &mut B,
    base: &str,
    rows: Vec<Row>,
    front: &[PageHead],
    last: &PageHead,
) -> Result<Found, ReadErr>
    requires { length front.now ≤ 200_000 }
    ensures runs { RunsReading (page_gets (length front.now) 2) (B.seen area.old) (B.seen area.new) result }
    ensures exact { (m : Area) (ends : List (List Row)) → (B.seen area.old).held ≡ Some m → IsHeldEnd m base.now (length front.now) last.now ends
        → IfOk result (λ f. (f.rows ≡ rows.items ++ rows_on ends) × (f.heads ≡ front.now ++ map head_of ends)) }
    ensures settled { IfOk result (λ f. IsTrue f.settled ↔ (f.heads ≡ front.now ++ last.now ∷ [])) }
    ensures few { IfOk result (λ f. length f.heads ≤ length front.now + 2) }
    ensures damaged { (m : Area) → (B.seen area.old).held ≡ Some m → IfDamagedRead result (IsDamagedIn m base.now (front.now ++ last.now ∷ [])) }
{
    let end = read_last(alloc, area, base, front.len() as u32, last)?;
    let found = found_of(alloc, rows, front, end)?;
    Ok(found)
}

// Of an index whose last page has this head.
fn read_some_pages<B: Blobs>(
    alloc: Global,
    area: &mut B,
    base: &str,
    front: &[PageHead],
    last: &PageHead,
) -> Result<Found, ReadErr>
    requires { length front.now ≤ 200_000 }
    ensures runs { RunsReading (page_gets 0 (length front.now + 2)) (B.seen area.old) (B.seen area.new) result }
    ensures exact { (m : Area) (pages : List (List Row)) → (B.seen area.old).held ≡ Some m → IsHeldAs m base.now (front.now ++ last.now ∷ []) pages
        → IfOk result (λ f. (f.rows ≡ rows_on pages) × (f.heads ≡ map head_of pages)) }
    ensures settled { IfOk result (λ f. IsTrue f.settled ↔ (f.heads ≡ front.now ++ last.now ∷ [])) }
    ensures few { IfOk result (λ f. length f.heads ≤ length front.now + 2) }
    ensures damaged { (m : Area) → (B.seen area.old).held ≡ Some m → IfDamagedRead result (IsDamagedIn m base.now (front.now ++ last.now ∷ [])) }
{
    let rows = read_front(alloc, area, base, front)?;
    let found = read_end(alloc, area, base, rows, front, last)?;
    Ok(found)
}

/// Gets the last page of an index and the page behind it: their rows, and what an index says of all pages.
pub(crate) fn read_ending<B: Blobs>(
    alloc: Global,
    area: &mut B,
    base: &str,
    heads: &[PageHead],
) -> Result<Found, ReadErr>
    requires { length heads.now ≤ 200_000 }
    ensures runs { RunsReading (last_gets (length heads.now)) (B.seen area.old) (B.seen area.new) result }
    ensures exact { (m : Area) (pages : List (List Row)) → (B.seen area.old).held ≡ Some m → IsHeldAs m base.now heads.now pages
        → IfOk result (IsEndingOf heads.now pages) }
    ensures few { IfOk result (λ f. length f.heads ≤ length heads.now + 1) }
    ensures damaged { (m : Area) → (B.seen area.old).held ≡ Some m → IfDamagedRead result (IsDamagedIn m base.now heads.now) }
{
    match heads.split_last() {
        Some((last, front)) => read_end(alloc, area, base, Vec::new(alloc), front, last),
        None => read_no_pages(alloc, area, base),
    }
}

/// Gets the pages of an index in order, and the page behind them.
pub(crate) fn read_pages<B: Blobs>(
    alloc: Global,
    area: &mut B,
    base: &str,
    heads: &[PageHead],
) -> Result<Found, ReadErr>
    requires { length heads.now ≤ 200_000 }
    ensures runs { RunsReading (page_gets 0 (length heads.now + 1)) (B.seen area.old) (B.seen area.new) result }
    ensures exact { (m : Area) (pages : List (List Row)) → (B.seen area.old).held ≡ Some m → IsHeldAs m base.now heads.now pages
        → IfOk result (λ f. (f.rows ≡ rows_on pages) × (f.heads ≡ map head_of pages)) }
    ensures settled { IfOk result (λ f. IsTrue f.settled ↔ (f.heads ≡ heads.now)) }
    ensures few { IfOk result (λ f. length f.heads ≤ length heads.now + 1) }
    ensures damaged { (m : Area) → (B.seen area.old).held ≡ Some m → IfDamagedRead result (IsDamagedIn m base.now heads.now) }
{
    match heads.split_last() {
        Some((last, front)) => read_some_pages(alloc, area, base, front, last),
        None => read_no_pages(alloc, area, base),
    }
}
