// The making and the opening of a catalog.
ghost use Rattle.std.specs.Prelude.{◌≡◌, [], ℕ, List, None, Some, true, IfErr, IfOk, IsErrOf, IsSome, option_map};
ghost use Rattle.std.specs.FinMap.{empty, get};
ghost use Rattle.feed_base.specs.Counts.{CountsFault};
ghost use Rattle.blob_store.specs.Area.{Area, with_blob};
ghost use Rattle.blob_store.specs.Events.{Act};
ghost use Rattle.blob_store.specs.Moments.{LeavesOnly};
ghost use Rattle.blob_store.specs.Plans.{Makes};
ghost use Rattle.pkg_meta.specs.declared.commit.Stored.{Stored};
ghost use Rattle.catalog_doc.specs.Catalogs.{IsCatalog};
ghost use Rattle.catalog_doc.specs.Commits.{index_put};
ghost use Rattle.catalog_doc.specs.Documents.{index_text};
ghost use Rattle.catalog_doc.specs.Names.{index_name};
ghost use Rattle.catalog_doc.specs.Spelled.{SpellsCatalog};
ghost use Rattle.catalog_opening.specs.Errors.{IfDamagedIn, IfDamagedOpening};
ghost use Rattle.catalog_opening.specs.Openings.{IsAllowedBase, IsDamagedOf, IsOpeningPlan, IsStoreOf, IsToldBase, KeepsSpelling, Mends, RunsOpening};
ghost use Rattle.catalog_core.specs.Opened.{IsOpenFor};
ghost use Rattle.catalog_core.specs.Openings.{IsFirstArea, IsRefusedOpening, MakesFirst, OpensAs, RunsInit, StopsInit, StopsOpening};

use crate::catalog::Catalog;
use crate::error::InitErr;
use blob_store::{Blobs, Call, call_one, get_one};
use catalog_doc::{INDEX_NAME, index_bytes};
use catalog_opening::{Known, OpenErr, read_catalog};
use catalog_rows::Rows;
use pkg_meta::{NoMemory, Text};
use std::alloc::Global;

// The put of the index of no commits.
fn first_index(alloc: Global, base: &str) -> Result<Call, NoMemory>
    ensures { IfOk result (λ call. call ≡ index_put base.now []) }
{
    let name = Text::copy_of(alloc, INDEX_NAME)?;
    let bytes = index_bytes(alloc, base, &[])?;
    Ok(Call::Put { name, bytes })
}

// Puts the index of no commits, where there is none.
fn put_first_index<B: Blobs>(alloc: Global, area: &mut B, base: &str) -> Result<(), InitErr>
    ensures runs { (m : Area) → (B.seen area.old).held ≡ Some m → RunsInit base.now (get m index_name) (B.seen area.old) (B.seen area.new) result }
    ensures counted { CountsFault (B.seen area.old).faults (B.seen area.new).faults (IsErrOf result InitErr.Fault) }
{
    let call = first_index(alloc, base)?;
    let found = get_one(alloc, area, INDEX_NAME)?;
    if found.is_some() {
        return Err(InitErr::Already);
    }
    call_one(alloc, area, &call)?;
    Ok(())
}

/// Makes the catalog of no commits in an area, for a feed at this base address. Where a catalog is there
/// already, nothing changes.
pub fn init<B: Blobs>(alloc: Global, area: B, base: &str) -> Result<Catalog<B>, (InitErr, B)>
    ensures base { IfOk result (λ c. c.base ≡ base.now) }
    ensures opened { IfOk result (λ c. (B.seen area).held ≡ Some empty → IsOpenFor c (B.seen c.area) []) }
    ensures ok { IfOk result (λ c. (m : Area) → (B.seen area).held ≡ Some m → (get m index_name ≡ None)
        × ((B.seen c.area).held ≡ Some (with_blob index_name (index_text base.now []) m))) }
    ensures already { IfErr result (λ e. (m : Area) → (B.seen area).held ≡ Some m → e.0 ≡ InitErr.Already
        → IsSome (get m index_name) × ((B.seen e.1).held ≡ Some m)) }
    ensures left { IfErr result (λ e. (m : Area) → (B.seen area).held ≡ Some m → (now : Area)
        × ((B.seen e.1).held ≡ Some now) × IsFirstArea base.now m now) }

    // A crash at each moment leaves the area as it was, or with that index.
    ensures moments { IfOk result (λ c. (m : Area) → (B.seen area).held ≡ Some m → LeavesOnly (B.seen area) (B.seen c.area) (IsFirstArea base.now m)) }
    ensures moments_refused { IfErr result (λ e. (m : Area) → (B.seen area).held ≡ Some m
        → LeavesOnly (B.seen area) (B.seen e.1) (IsFirstArea base.now m)) }

    // The index is got, and then put, up to the first call that isn't done.
    ensures runs { IfOk result (λ c. (m : Area) → (B.seen area).held ≡ Some m → MakesFirst base.now (get m index_name) (B.seen area) (B.seen c.area)) }
    ensures runs_refused { IfErr result (λ e. (m : Area) → (B.seen area).held ≡ Some m
        → StopsInit base.now (get m index_name) e.0 (B.seen area) (B.seen e.1)) }
    ensures counted { IfOk result (λ c. CountsFault (B.seen area).faults (B.seen c.area).faults ⊥) }
    ensures counted_refused { IfErr result (λ e. CountsFault (B.seen area).faults (B.seen e.1).faults (e.0 ≡ InitErr.Fault)) }
{
    let mut area = area;
    let Ok(copy) = Text::copy_of(alloc, base) else {
        return Err((InitErr::Memory, area));
    };
    match put_first_index(alloc, &mut area, base) {
        Ok(()) => Ok(Catalog::of(area, copy, Rows::new(alloc))),
        Err(error) => Err((error, area)),
    }
}

/// What an opening found: the feed's base address, and what is kept of the catalog.
#[derive(Drop)]
struct Opening {
    base: Text,
    rows: Rows,
}

fn open<B: Blobs>(alloc: Global, area: &mut B, given: Option<&str>) -> Result<Opening, OpenErr>
    ensures opens { (base : List ℕ) (cs : List Stored) → IsCatalog cs → IsStoreOf (B.seen area.old) base cs
        → OpensAs (option_map (λ t. t.now) given.entry) base cs (B.seen area.old) (B.seen area.new) result }
    ensures runs { (m : Area) (base : List ℕ) (cs : List Stored) (plan : List Act) → IsCatalog cs
        → (B.seen area.old).held ≡ Some m → SpellsCatalog m base cs
        → IsOpeningPlan m base cs plan → RunsOpening plan (B.seen area.old) (B.seen area.new) result }
    ensures mends { Mends (B.seen area.old) (B.seen area.new) (IsErrOf result OpenErr.Fault) }
    ensures missing { IsErrOf result OpenErr.Missing → (m : Area) → (B.seen area.old).held ≡ Some m → get m index_name ≡ None }
    ensures damaged { (m : Area) → (B.seen area.old).held ≡ Some m → IfDamagedOpening result (IsDamagedOf m) }
    ensures other_base { (m : Area) → (B.seen area.old).held ≡ Some m → IfErr result (IsToldBase (option_map (λ t. t.now) given.entry) m) }
{
    let Known { base, rows, pages } = read_catalog(alloc, area, given)?;
    match Rows::of(alloc, rows, pages) {
        Ok(rows) => Ok(Opening { base, rows }),
        Err(_) => Err(OpenErr::Memory),
    }
}

/// Opens the catalog that an area holds, and puts its index where it lags. See `catalog_opening::read_catalog` for
/// the order of its answers.
pub fn open_catalog<B: Blobs>(
    alloc: Global,
    area: B,
    base: Option<&str>,
) -> Result<Catalog<B>, (OpenErr, B)>
    ensures opened { IfOk result (λ c. (b : List ℕ) (cs : List Stored) → IsCatalog cs → IsStoreOf (B.seen area) b cs
        → IsAllowedBase (option_map (λ t. t.now) base.entry) b × (c.base ≡ b) × (c.settled ≡ true) × IsOpenFor c (B.seen c.area) cs) }
    ensures refused { IfErr result (λ e. (b : List ℕ) (cs : List Stored) → IsCatalog cs → IsStoreOf (B.seen area) b cs
        → IsRefusedOpening (option_map (λ t. t.now) base.entry) b e.0 × IsStoreOf (B.seen e.1) b cs) }

    ensures settled { IfOk result (λ c. c.settled ≡ true) }

    // A crash at each moment leaves an area that spells the catalog.
    ensures moments { IfOk result (λ c. (b : List ℕ) (cs : List Stored) → IsCatalog cs → IsStoreOf (B.seen area) b cs
        → KeepsSpelling (B.seen area) (B.seen c.area) b cs) }
    ensures moments_refused { IfErr result (λ e. (b : List ℕ) (cs : List Stored) → IsCatalog cs → IsStoreOf (B.seen area) b cs
        → KeepsSpelling (B.seen area) (B.seen e.1) b cs) }

    // The index is got, its pages in order and the page behind them, each once, and the index is put where it lags.
    ensures runs { IfOk result (λ c. (m : Area) (b : List ℕ) (cs : List Stored) (plan : List Act) → IsCatalog cs → (B.seen area).held ≡ Some m
        → SpellsCatalog m b cs
        → IsOpeningPlan m b cs plan → Makes plan (B.seen area) (B.seen c.area)) }
    ensures runs_refused { IfErr result (λ e. (m : Area) (b : List ℕ) (cs : List Stored) (plan : List Act) → IsCatalog cs
        → (B.seen area).held ≡ Some m → SpellsCatalog m b cs
        → IsOpeningPlan m b cs plan → StopsOpening plan e.0 (B.seen area) (B.seen e.1)) }

    // Of every area: the count of faults rises exactly at a fault, and nothing but the index is put.
    ensures mends { IfOk result (λ c. Mends (B.seen area) (B.seen c.area) ⊥) }
    ensures mends_refused { IfErr result (λ e. Mends (B.seen area) (B.seen e.1) (e.0 ≡ OpenErr.Fault)) }
    ensures missing { IfErr result (λ e. e.0 ≡ OpenErr.Missing → (m : Area) → (B.seen area).held ≡ Some m → get m index_name ≡ None) }
    ensures damaged { IfErr result (λ e. (m : Area) → (B.seen area).held ≡ Some m → IfDamagedIn e.0 (IsDamagedOf m)) }
    ensures other_base { IfErr result (λ e. (m : Area) → (B.seen area).held ≡ Some m → IsToldBase (option_map (λ t. t.now) base.entry) m e.0) }
{
    let mut area = area;
    match open(alloc, &mut area, base) {
        Ok(Opening { base, rows }) => Ok(Catalog::of(area, base, rows)),
        Err(error) => Err((error, area)),
    }
}
