// The catalog of a feed, open, and what is read of it.
ghost use Rattle.std.specs.Prelude.{◌≡◌, ◌⊎◌, ◌∷◌, [], None, Some, true, IfErr, IfOk, IfSome, IsErrOf, OnErr, OnOk, Option, length, slice_get, List};
ghost use Rattle.std.specs.FinMap.{get};
ghost use Rattle.std.specs.List.{Contains};
ghost use Rattle.blob_store.specs.Area.{Area};
ghost use Rattle.blob_store.specs.Events.{Get};
ghost use Rattle.pkg_meta.specs.declared.commit.Staged.{Staged};
ghost use Rattle.pkg_meta.specs.declared.commit.Stored.{Stored};
ghost use Rattle.catalog_doc.specs.CatDocs.{all_rows, doc_at};
ghost use Rattle.catalog_doc.specs.Catalogs.{IsCatalog};
ghost use Rattle.catalog_doc.specs.Names.{staged_name};
ghost use Rattle.catalog_opening.specs.Errors.{IfDamagedRead};
ghost use Rattle.catalog_opening.specs.Plans.{RunsReading};
ghost use Rattle.catalog_opening.specs.Settlings.{more_rows, with_more};
ghost use Rattle.catalog_rows.specs.Kept.{IsKeptOf};
ghost use Rattle.catalog_items.specs.ByRows.{rows_above};
ghost use Rattle.catalog_items.specs.Reads.{IsAbsent, IsRead};
ghost use Rattle.catalog_core.specs.Framing.{RunsDoc, RunsSettling, StaysOpen};
ghost use Rattle.catalog_core.specs.Opened.{IsOpenFor, IsUnsettled, staged_bytes};

use blob_store::Blobs;
use catalog_doc::{Row, staged_name};
use catalog_items::{bytes_at, document_at, page_count, rows_above};
use catalog_opening::{ReadErr, settle};
use catalog_rows::Rows;
use pkg_meta::{Bytes, Many, Text};
use std::alloc::Global;
use std::marker::Model;

/// An open catalog: the area that it stands in, and what is known of its commits.
#[derive(Drop)]
pub struct Catalog<B: Blobs> {
    pub(crate) area: B,
    pub(crate) base: Text,
    pub(crate) rows: Rows,
    // Whether all that the area holds is known, and the index doesn't lag.
    pub(crate) settled: bool,
}

impl<B: Blobs> Model for Catalog<B> {
    ghost use Rattle.catalog_core.specs.Opened.{Opened};

    ghost Value = { Opened B };

    ghost view = { λ c. record { area = c.area; base = c.base; kept = c.rows; settled = c.settled } };
}

// How many rows a commit has at the most.
const MOST_ROWS: usize = 64;

// Takes in the rows of a commit that settling found, if there are any. It tells no more than a commit has.
fn take_in(alloc: Global, rows: &mut Rows, more: Many<Row>) -> Result<(), ReadErr>
    ensures took { (cs : List Stored) (last : Option Stored) → IsCatalog (with_more cs last) → IsKeptOf rows.old cs → more ≡ more_rows last
        → OnOk result (IsKeptOf rows.new (with_more cs last)) }
    ensures same { OnErr result (rows.new ≡ rows.old) }
    ensures kind { IfErr result (λ e. e ≡ ReadErr.Memory) }
{
    if more.len() == 0 {
        return Ok(());
    }
    if more.len() > MOST_ROWS {
        return Err(ReadErr::Memory);
    }
    match rows.add(alloc, more) {
        Ok(()) => Ok(()),
        Err(_) => Err(ReadErr::Memory),
    }
}

impl<B: Blobs> Catalog<B> {
    /// The catalog that is kept of an area.
    pub(crate) fn of(area: B, base: Text, rows: Rows) -> Self
        ensures { result ≡ (record { area = area; base = base; kept = rows; settled = true }) }
    {
        Catalog {
            area,
            base,
            rows,
            settled: true,
        }
    }

    pub fn base(&self) -> &str
        ensures { result.now ≡ self.now.base }
    {
        self.base.as_str()
    }

    /// Gives the area back.
    pub fn into_area(self) -> B
        ensures { result ≡ self.area }
    {
        let Catalog { area, .. } = self;
        area
    }

    /// Takes over what a call that stopped left, and puts the index.
    pub(crate) fn settle(&mut self, alloc: Global) -> Result<(), ReadErr>
        ensures stays { StaysOpen self.old self.new (B.seen self.old.area) (B.seen self.new.area) (IsErrOf result ReadErr.Fault) }
        ensures settled { OnOk result (self.new.settled ≡ true) }
        ensures whole { (cs : List Stored) → IsOpenFor self.old (B.seen self.old.area) cs → IfDamagedRead result (λ name. ⊥) }
        ensures damaged { (m : Area) → (B.seen self.old.area).held ≡ Some m → IfDamagedRead result (IsUnsettled m self.old) }
        ensures runs { (cs : List Stored) → IsOpenFor self.old (B.seen self.old.area) cs
            → RunsSettling self.old cs (B.seen self.old.area) (B.seen self.new.area) result }
        ensures same { self.old.settled ≡ true → (self.new ≡ self.old) × IfErr result (λ e. ⊥) }
    {
        if self.settled {
            return Ok(());
        }
        let more = settle(alloc, &mut self.area, self.base.as_str(), self.rows.pages())?;
        take_in(alloc, &mut self.rows, more)?;
        self.settled = true;
        Ok(())
    }

    /// The number of commits.
    pub fn count(&mut self, alloc: Global) -> Result<u32, ReadErr>
        ensures reads { (cs : List Stored) → IsOpenFor self.old (B.seen self.old.area) cs → IsRead (length cs) result }
        // Settled, nothing is called.
        ensures runs { self.old.settled ≡ true → RunsReading [] (B.seen self.old.area) (B.seen self.new.area) result }
        ensures stays { StaysOpen self.old self.new (B.seen self.old.area) (B.seen self.new.area) (IsErrOf result ReadErr.Fault) }
        ensures damaged { (m : Area) → (B.seen self.old.area).held ≡ Some m → IfDamagedRead result (IsUnsettled m self.old) }
    {
        self.settle(alloc)?;
        Ok(self.rows.next_number().saturating_sub(1))
    }

    /// The rows of the commits above a number, in order.
    pub fn items_after(&mut self, alloc: Global, cursor: u32) -> Result<Many<Row>, ReadErr>
        ensures reads { (cs : List Stored) → IsOpenFor self.old (B.seen self.old.area) cs → IsRead (rows_above cursor (all_rows cs)) result }
        // Settled, nothing is called.
        ensures runs { self.old.settled ≡ true → RunsReading [] (B.seen self.old.area) (B.seen self.new.area) result }
        // Of every area: they are of the rows kept.
        ensures kept { IfOk result (λ rows. rows ≡ rows_above cursor self.new.kept.rows) }
        ensures stays { StaysOpen self.old self.new (B.seen self.old.area) (B.seen self.new.area) (IsErrOf result ReadErr.Fault) }
        ensures settled { OnOk result (self.new.settled ≡ true) }
        ensures damaged { (m : Area) → (B.seen self.old.area).held ≡ Some m → IfDamagedRead result (IsUnsettled m self.old) }
    {
        self.settle(alloc)?;
        let rows = rows_above(alloc, self.rows.as_slice(), cursor)?;
        Ok(rows)
    }

    /// The bytes of the catalog's document of this name, or `None` where the catalog has no such document.
    pub fn doc(&mut self, alloc: Global, name: &str) -> Result<Option<Bytes>, ReadErr>
        ensures reads { (cs : List Stored) → IsOpenFor self.old (B.seen self.old.area) cs → IsRead (doc_at self.old.base cs name.now) result }
        // Settled, the document is got once where the catalog has it, and nothing else is called, of every area.
        ensures runs { self.old.settled ≡ true → RunsDoc self.old name.now (B.seen self.old.area) (B.seen self.new.area) result }
        ensures stays { StaysOpen self.old self.new (B.seen self.old.area) (B.seen self.new.area) (IsErrOf result ReadErr.Fault) }
        ensures held { (now : Area) → (B.seen self.new.area).held ≡ Some now
            → IfOk result (λ found. IfSome found (λ bytes. get now name.now ≡ Some bytes)) }
        ensures damaged { (m now : Area) → (B.seen self.old.area).held ≡ Some m → (B.seen self.new.area).held ≡ Some now
            → IfDamagedRead result (λ n. IsUnsettled m self.old n ⊎ IsAbsent name.now now n) }
    {
        self.settle(alloc)?;
        let pages = page_count(self.rows.pages());
        document_at(alloc, &mut self.area, self.rows.as_slice(), pages, name)
    }

    /// The bytes of the package that the publish at a place brought, or of its manifest; at a place of no publish those of
    /// the blob of that name.
    pub fn staged(
        &mut self,
        alloc: Global,
        number: u32,
        place: u32,
        nuspec: bool,
    ) -> Result<Bytes, ReadErr>
        ensures reads { (cs : List Stored) (c : Stored) (brought : Staged) → IsOpenFor self.old (B.seen self.old.area) cs → Contains cs c
            → c.commit.number ≡ number → slice_get c.staged place ≡ Some (Some brought) → IsRead (staged_bytes nuspec brought) result }
        // Settled, the blob is got once, and nothing else is called.
        ensures runs { self.old.settled ≡ true
            → RunsReading (Get (staged_name number place nuspec) ∷ []) (B.seen self.old.area) (B.seen self.new.area) result }
        ensures stays { StaysOpen self.old self.new (B.seen self.old.area) (B.seen self.new.area) (IsErrOf result ReadErr.Fault) }
        ensures held { (now : Area) → (B.seen self.new.area).held ≡ Some now
            → IfOk result (λ bytes. get now (staged_name number place nuspec) ≡ Some bytes) }
        ensures damaged { (m now : Area) → (B.seen self.old.area).held ≡ Some m → (B.seen self.new.area).held ≡ Some now
            → IfDamagedRead result (λ n. IsUnsettled m self.old n ⊎ IsAbsent (staged_name number place nuspec) now n) }
    {
        self.settle(alloc)?;
        let name = staged_name(alloc, number, place, nuspec)?;
        bytes_at(alloc, &mut self.area, &name)
    }
}
