// The pages of an index, read from a store.
ghost use Rattle.std.specs.Prelude.{◌≡◌, ◌<◌, ◌≤◌, ◌+◌, ◌^◌, ◌↔◌, ◌⊎◌, ◌∷◌, ◌++◌, [], ℕ, suc, List, Some, None, IsTrue, IfOk, IsErrOf, IsSome, length, map, string_bytes};
ghost use Rattle.std.specs.FinMap.{get};
ghost use Rattle.blob_store.specs.Area.{Area};
ghost use Rattle.catalog_doc.specs.Documents.{head_of};
ghost use Rattle.catalog_doc.specs.Names.{page_name};
ghost use Rattle.catalog_doc.specs.declared.row.Row.{Row};
ghost use Rattle.catalog_opening.specs.Errors.{IfDamagedError, IfDamagedRead};
ghost use Rattle.catalog_opening.specs.Pages.{HoldsPage, HoldsPages, IsHeldAs, IsOneCommit, rows_on};
ghost use Rattle.catalog_opening.specs.Plans.{RunsReading, page_gets};
ghost use Rattle.catalog_opening.specs.Reads.{end_pages, Fits, heads_on, IsEndDamaged, IsFrontDamaged, IsHeldEnd, IsNoPage, IsReadPage, page_of};

use crate::error::ReadErr;
use crate::page::{Fit, Page, agrees, as_next, as_page};
use blob_store::{Blobs, get_one};
use catalog_doc::{DocErr, PageHead, Row, page_name};
use catalog_reading::read_page;
use pkg_meta::{Bytes, Many, Text};
use std::alloc::Global;

// What a page is found to hold.
fn read_found(
    alloc: Global,
    base: &str,
    page: u32,
    name: String,
    found: Option<Bytes>,
) -> Result<Option<Many<Row>>, ReadErr>
    ensures ok { IfOk result (λ read. IsReadPage base.now page found read) }
    ensures damaged { IfDamagedRead result (λ n. (n ≡ string_bytes name) × IsNoPage base.now page found) }
    ensures fault { IsErrOf result ReadErr.Fault → ⊥ }
{
    let Some(bytes) = found else {
        return Ok(None);
    };
    match read_page(alloc, base, page, bytes.as_slice()) {
        Ok(rows) => Ok(Some(rows)),
        Err(DocErr::Damaged) => Err(ReadErr::Damaged(Text::of(name))),
        Err(DocErr::Memory) => Err(ReadErr::Memory),
    }
}

// Gets a page: its rows, and none where it isn't held.
fn get_page<B: Blobs>(
    alloc: Global,
    area: &mut B,
    base: &str,
    page: u32,
) -> Result<Option<Many<Row>>, ReadErr>
    ensures runs { RunsReading (page_gets page 1) (B.seen area.old) (B.seen area.new) result }
    ensures ok { (m : Area) → (B.seen area.old).held ≡ Some m → IfOk result (λ read. IsReadPage base.now page (get m (page_name page)) read) }
    ensures damaged { (m : Area) → (B.seen area.old).held ≡ Some m
        → IfDamagedRead result (λ name. (name ≡ page_name page) × IsNoPage base.now page (get m (page_name page))) }
{
    let name = page_name(alloc, page)?;
    let found = get_one(alloc, area, name.as_str())?;
    let read = read_found(alloc, base, page, name, found)?;
    Ok(read)
}

fn damaged_page(alloc: Global, page: u32) -> ReadErr
    ensures { IfDamagedError result (λ name. name ≡ page_name page) }
{
    match page_name(alloc, page) {
        Ok(name) => ReadErr::Damaged(Text::of(name)),
        Err(_) => ReadErr::Memory,
    }
}

// Gets a page of the index, whose rows have to fit what the index says of it.
fn get_fitting<B: Blobs>(
    alloc: Global,
    area: &mut B,
    base: &str,
    page: u32,
    head: &PageHead,
    fit: Fit,
) -> Result<Page, ReadErr>
    ensures runs { RunsReading (page_gets page 1) (B.seen area.old) (B.seen area.new) result }
    ensures exact { (m : Area) (rows : List Row) → (B.seen area.old).held ≡ Some m → HoldsPage m base.now page rows
        → IfOk result (λ p. p ≡ page_of rows) }
    ensures own { IfOk result (λ p. p ≡ page_of p.rows) }
    ensures damaged { (m : Area) → (B.seen area.old).held ≡ Some m
        → IfDamagedRead result (λ name. (name ≡ page_name page)
        × ((rows : List Row) → HoldsPage m base.now page rows → Fits fit head.now rows → ⊥)) }
{
    let Some(rows) = get_page(alloc, area, base, page)? else {
        return Err(damaged_page(alloc, page));
    };
    match as_page(rows, head, fit) {
        Some(page) => Ok(page),
        None => Err(damaged_page(alloc, page)),
    }
}

// Gets the page behind the last, where one of one commit may stand. A page there that isn't awaited is damaged.
fn get_next<B: Blobs>(
    alloc: Global,
    area: &mut B,
    base: &str,
    page: u32,
    awaited: bool,
) -> Result<Option<Page>, ReadErr>
    ensures runs { RunsReading (page_gets page 1) (B.seen area.old) (B.seen area.new) result }
    ensures none { (m : Area) → (B.seen area.old).held ≡ Some m → get m (page_name page) ≡ None → IfOk result (λ p. p ≡ None) }
    ensures exact { (m : Area) (rows : List Row) → (B.seen area.old).held ≡ Some m → HoldsPage m base.now page rows
        → IfOk result (λ p. p ≡ Some (page_of rows)) }
    ensures damaged { (m : Area) → (B.seen area.old).held ≡ Some m
        → IfDamagedRead result (λ name. (name ≡ page_name page) × IsSome (get m (page_name page))
        × ((rows : List Row) → HoldsPage m base.now page rows → IsTrue awaited → IsOneCommit rows → ⊥)) }
{
    let Some(rows) = get_page(alloc, area, base, page)? else {
        return Ok(None);
    };
    match as_next(rows, awaited) {
        Some(next) => Ok(Some(next)),
        None => Err(damaged_page(alloc, page)),
    }
}

// Gets the pages before the last: their rows.
pub(crate) fn read_front<B: Blobs>(
    alloc: Global,
    area: &mut B,
    base: &str,
    heads: &[PageHead],
) -> Result<Vec<Row>, ReadErr>
    requires { length heads.now < 2 ^ 32 }
    ensures runs { RunsReading (page_gets 0 (length heads.now)) (B.seen area.old) (B.seen area.new) result }
    ensures exact { (m : Area) (pages : List (List Row)) → (B.seen area.old).held ≡ Some m → HoldsPages m base.now 0 pages
        → length pages ≡ length heads.now
        → IfOk result (λ rows. rows.items ≡ rows_on pages) }
    ensures damaged { (m : Area) → (B.seen area.old).held ≡ Some m
        → IfDamagedRead result (λ name. (k : ℕ) × (name ≡ page_name k) × IsFrontDamaged m base.now heads.now k) }
{
    let mut rows = Vec::new(alloc);
    let mut page: u32 = 0;
    for head in heads {
        let found = get_fitting(alloc, area, base, page, head, Fit::AsItIs)?;
        let mut own = found.rows.into_vec();
        rows.append(&mut own)?;
        page += 1;
    }
    Ok(rows)
}

/// What stands on the last page of an index and on the page behind it, and whether it is as the index says.
#[derive(Drop)]
pub(crate) struct End {
    pub(crate) last: Option<Page>,
    pub(crate) next: Option<Page>,
    pub(crate) settled: bool,
}

// Gets the last page and the page behind it.
pub(crate) fn read_last<B: Blobs>(
    alloc: Global,
    area: &mut B,
    base: &str,
    page: u32,
    head: &PageHead,
) -> Result<End, ReadErr>
    requires { page + 1 < 2 ^ 32 }
    ensures runs { RunsReading (page_gets page 2) (B.seen area.old) (B.seen area.new) result }
    ensures exact { (m : Area) (pages : List (List Row)) → (B.seen area.old).held ≡ Some m → IsHeldEnd m base.now page head.now pages
        → IfOk result (λ end. end_pages end ≡ map page_of pages) }
    ensures settled { IfOk result (λ end. IsTrue end.settled ↔ (heads_on (end_pages end) ≡ head.now ∷ [])) }
    ensures damaged { (m : Area) → (B.seen area.old).held ≡ Some m → IfDamagedRead result (IsEndDamaged m base.now page head.now) }
{
    let last = get_fitting(alloc, area, base, page, head, Fit::OrOneMore)?;
    let as_is = agrees(last.rows.as_slice(), head);
    let next = get_next(alloc, area, base, page + 1, as_is)?;
    let settled = as_is && next.is_none();
    Ok(End {
        last: Some(last),
        next,
        settled,
    })
}

// Gets the first page, where the index has none.
pub(crate) fn read_first<B: Blobs>(alloc: Global, area: &mut B, base: &str) -> Result<End, ReadErr>
    ensures runs { RunsReading (page_gets 0 1) (B.seen area.old) (B.seen area.new) result }
    ensures exact { (m : Area) (pages : List (List Row)) → (B.seen area.old).held ≡ Some m → IsHeldAs m base.now [] pages
        → IfOk result (λ end. end_pages end ≡ map page_of pages) }
    ensures settled { IfOk result (λ end. IsTrue end.settled ↔ (heads_on (end_pages end) ≡ [])) }
    ensures first { IfOk result (λ end. end.last ≡ None) }
    ensures damaged { (m : Area) → (B.seen area.old).held ≡ Some m
        → IfDamagedRead result (λ name. (name ≡ page_name 0) × IsSome (get m (page_name 0))
        × ((rows : List Row) → HoldsPage m base.now 0 rows → IsOneCommit rows → ⊥)) }
{
    let next = get_next(alloc, area, base, 0, true)?;
    let settled = next.is_none();
    Ok(End {
        last: None,
        next,
        settled,
    })
}
