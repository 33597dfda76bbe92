// The opening of a catalog.
ghost use Rattle.std.specs.Prelude.{◌≡◌, ◌≢◌, ◌≤◌, ◌+◌, ◌++◌, ◌∷◌, ◌↔◌, [], ℕ, List, Some, None, IsTrue, IfErr, IfOk, IsErrOf, OnOk, length, map, option_map};
ghost use Rattle.std.specs.FinMap.{get};
ghost use Rattle.blob_store.specs.Area.{Area};
ghost use Rattle.blob_store.specs.Events.{Act};
ghost use Rattle.pkg_meta.specs.Catalog.{Catalog};
ghost use Rattle.catalog_doc.specs.CatDocs.{all_rows, heads_of};
ghost use Rattle.catalog_doc.specs.Catalogs.{IsCatalog};
ghost use Rattle.catalog_doc.specs.Documents.{head_of};
ghost use Rattle.catalog_doc.specs.Names.{index_name};
ghost use Rattle.catalog_doc.specs.Spelled.{SpellsCatalog};
ghost use Rattle.catalog_doc.specs.declared.head.PageHead.{PageHead};
ghost use Rattle.catalog_doc.specs.declared.row.Row.{Row};
ghost use Rattle.catalog_opening.specs.Errors.{IfDamagedOpening, IfDamagedRead};
ghost use Rattle.catalog_opening.specs.Openings.{Answers, ChecksBase, IsDamagedOf, IsKnownAs, IsMending, IsOpenable, IsOpeningPlan, IsSettledStoreOf, IsStoreOf, IsToldBase, KeepsSpelling, Mends, Opens, RunsOpening, TellsBases, mending};
ghost use Rattle.catalog_opening.specs.Pages.{IsDamagedIn, IsHeldAs, rows_on};
ghost use Rattle.catalog_opening.specs.Plans.{RunsReading, page_gets};

use crate::error::{OpenErr, ReadErr};
use crate::index::{Index, get_index, put_index};
use crate::pages::{Found, read_pages};
use blob_store::Blobs;
use catalog_doc::{PageHead, Row};
use pkg_meta::{Many, Text};
use std::alloc::Global;

/// What is known of a catalog: the feed's base address, the rows in order of number and place, and what
/// the index says of each page.
#[derive(Drop)]
pub struct Known {
    pub base: Text,
    pub rows: Many<Row>,
    pub pages: Many<PageHead>,
}

fn base_differs(alloc: Global, stored: &str, given: &str) -> OpenErr
    ensures { TellsBases stored.now given.now result }
{
    let Ok(stored) = Text::copy_of(alloc, stored) else {
        return OpenErr::Memory;
    };
    match Text::copy_of(alloc, given) {
        Ok(given) => OpenErr::BaseDiffers(stored, given),
        Err(_) => OpenErr::Memory,
    }
}

fn is_same(text: &str, other: &str) -> bool
    ensures { IsTrue result ↔ (text.now ≡ other.now) }
{
    text == other
}

fn check_base(alloc: Global, stored: &str, given: Option<&str>) -> Result<(), OpenErr>
    ensures { ChecksBase (option_map (λ t. t.now) given.entry) stored.now result }
{
    let Some(other) = given else {
        return Ok(());
    };
    if is_same(other, stored) {
        return Ok(());
    }
    Err(base_differs(alloc, stored, other))
}

// Puts the index where the one held isn't that of the pages.
fn mend<B: Blobs>(alloc: Global, area: &mut B, base: &str, found: &Found) -> Result<(), ReadErr>
    requires { length found.now.heads ≤ 200_001 }
    ensures runs { RunsReading (mending base.now found.now.settled found.now.heads) (B.seen area.old) (B.seen area.new) result }
    ensures whole { IfDamagedRead result (λ name. ⊥) }
{
    if found.settled {
        return Ok(());
    }
    put_index(alloc, area, base, found.heads.as_slice())
}

// Reads the pages of an index, and mends it.
fn open_pages<B: Blobs>(alloc: Global, area: &mut B, index: Index) -> Result<Known, ReadErr>
    requires { length index.heads ≤ 200_000 }
    ensures known { (m : Area) (pages : List (List Row)) → (B.seen area.old).held ≡ Some m → IsHeldAs m index.base index.heads pages
        → IfOk result (IsKnownAs index.base (rows_on pages) (map head_of pages)) }
    ensures runs { (m : Area) (pages : List (List Row)) (acts : List Act) → (B.seen area.old).held ≡ Some m → IsHeldAs m index.base index.heads pages
        → IsMending index.base index.heads (map head_of pages) acts
        → RunsReading (page_gets 0 (length index.heads + 1) ++ acts) (B.seen area.old) (B.seen area.new) result }
    ensures mends { Mends (B.seen area.old) (B.seen area.new) (IsErrOf result ReadErr.Fault) }
    ensures damaged { (m : Area) → (B.seen area.old).held ≡ Some m → IfDamagedRead result (IsDamagedIn m index.base index.heads) }
{
    let Index { base, heads } = index;
    let found = read_pages(alloc, area, base.as_str(), heads.as_slice())?;
    mend(alloc, area, base.as_str(), &found)?;
    Ok(Known {
        base,
        rows: found.rows,
        pages: found.heads,
    })
}

// An opening, over each area that holds an index and pages that fit it.
fn open<B: Blobs>(alloc: Global, area: &mut B, given: Option<&str>) -> Result<Known, OpenErr>
    ensures opens { (m : Area) (base : List ℕ) (heads : List PageHead) (pages : List (List Row)) (acts : List Act) → (B.seen area.old).held ≡ Some m
        → IsOpenable m base heads pages acts → Opens (option_map (λ t. t.now) given.entry) base heads pages acts
        (B.seen area.old) (B.seen area.new) result }
    ensures mends { Mends (B.seen area.old) (B.seen area.new) (IsErrOf result OpenErr.Fault) }
    ensures missing { IsErrOf result OpenErr.Missing → (m : Area) → (B.seen area.old).held ≡ Some m → get m index_name ≡ None }
    ensures damaged { (m : Area) → (B.seen area.old).held ≡ Some m → IfDamagedOpening result (IsDamagedOf m) }
    ensures other_base { (m : Area) → (B.seen area.old).held ≡ Some m → IfErr result (IsToldBase (option_map (λ t. t.now) given.entry) m) }
{
    let Some(index) = get_index(alloc, area)? else {
        return Err(OpenErr::Missing);
    };
    check_base(alloc, index.base.as_str(), given)?;
    let known = open_pages(alloc, area, index)?;
    Ok(known)
}

/// Reads what an area holds of a catalog: the index, its pages in order and the page behind them, each
/// once. Then it puts the index where it lags.
///
/// The answers come in this order: `Fault`, `Missing` or `Damaged` of the index; `BaseDiffers`, where a base
/// address is given; page by page `Fault` or `Damaged`; `Fault` of the put. `Memory` may come at any point.
pub fn read_catalog<B: Blobs>(
    alloc: Global,
    area: &mut B,
    given: Option<&str>,
) -> Result<Known, OpenErr>
    // An area that spells a catalog, also one whose index lags, is opened as that catalog, and as nothing else.
    ensures answers { (base : List ℕ) (cs : Catalog) → IsCatalog cs → IsStoreOf (B.seen area.old) base cs
        → Answers (option_map (λ t. t.now) given.entry) base (all_rows cs) (heads_of cs) result }

    // It then spells the catalog, and its index doesn't lag.
    ensures opened { (base : List ℕ) (cs : Catalog) → IsCatalog cs → IsStoreOf (B.seen area.old) base cs
        → OnOk result (IsSettledStoreOf (B.seen area.new) base cs) }

    // Whatever it answers, and at a crash at each moment, the area spells the catalog.
    ensures spelled { (base : List ℕ) (cs : Catalog) → IsCatalog cs → IsStoreOf (B.seen area.old) base cs → IsStoreOf (B.seen area.new) base cs }
    ensures moments { (base : List ℕ) (cs : Catalog) → IsCatalog cs → IsStoreOf (B.seen area.old) base cs
        → KeepsSpelling (B.seen area.old) (B.seen area.new) base cs }

    // The store is called as planned, up to the first call that isn't done.
    ensures runs { (m : Area) (base : List ℕ) (cs : Catalog) (plan : List Act) → IsCatalog cs
        → (B.seen area.old).held ≡ Some m → SpellsCatalog m base cs
        → IsOpeningPlan m base cs plan → RunsOpening plan (B.seen area.old) (B.seen area.new) result }

    // Of every area: the count of faults rises exactly at a fault, and nothing but the index is put.
    ensures mends { Mends (B.seen area.old) (B.seen area.new) (IsErrOf result OpenErr.Fault) }
    ensures missing { IsErrOf result OpenErr.Missing → (m : Area) → (B.seen area.old).held ≡ Some m → get m index_name ≡ None }
    ensures damaged { (m : Area) → (B.seen area.old).held ≡ Some m → IfDamagedOpening result (IsDamagedOf m) }
    ensures other_base { (m : Area) → (B.seen area.old).held ≡ Some m → IfErr result (IsToldBase (option_map (λ t. t.now) given.entry) m) }
{
    open(alloc, area, given)
}
