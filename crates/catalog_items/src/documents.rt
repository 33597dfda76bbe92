// What an area holds at the names of a catalog's documents.
ghost use Rattle.std.specs.Prelude.{◌≡◌, Some, None, true, false, [], ◌∷◌, IfOk, IfSome, IfNone, if◌then◌else◌};
ghost use Rattle.std.specs.FinMap.{get};
ghost use Rattle.blob_store.specs.Area.{Area};
ghost use Rattle.blob_store.specs.Events.{Get};
ghost use Rattle.catalog_opening.specs.Errors.{IfDamagedError, IfDamagedRead};
ghost use Rattle.catalog_opening.specs.Plans.{RunsReading};
ghost use Rattle.catalog_items.specs.ByRows.{has_doc};
ghost use Rattle.catalog_items.specs.Reads.{IsAbsent};

use crate::names::is_document;
use blob_store::{Blobs, get_one};
use catalog_doc::Row;
use catalog_opening::ReadErr;
use pkg_meta::{Bytes, Text};
use std::alloc::Global;

/// The error that tells the name of a damaged blob.
pub(crate) fn damaged(alloc: Global, name: &str) -> ReadErr
    ensures { IfDamagedError result (λ n. n ≡ name.now) }
{
    match Text::copy_of(alloc, name) {
        Ok(name) => ReadErr::Damaged(name),
        Err(_) => ReadErr::Memory,
    }
}

/// The bytes that the area holds under a name.
pub fn bytes_at<B: Blobs>(alloc: Global, area: &mut B, name: &str) -> Result<Bytes, ReadErr>
    ensures runs { RunsReading (Get name.now ∷ []) (B.seen area.old) (B.seen area.new) result }
    ensures found { (m : Area) → (B.seen area.old).held ≡ Some m → IfOk result (λ bytes. get m name.now ≡ Some bytes) }
    ensures damaged { (m : Area) → (B.seen area.old).held ≡ Some m → IfDamagedRead result (IsAbsent name.now m) }
{
    let found = get_one(alloc, area, name)?;
    match found {
        Some(bytes) => Ok(bytes),
        None => Err(damaged(alloc, name)),
    }
}

/// The document of this name of a catalog of these rows and pages.
pub fn document_at<B: Blobs>(
    alloc: Global,
    area: &mut B,
    rows: &[Row],
    pages: u32,
    name: &str,
) -> Result<Option<Bytes>, ReadErr>
    ensures runs { RunsReading (if has_doc name.now rows.now pages then Get name.now ∷ [] else []) (B.seen area.old) (B.seen area.new) result }
    ensures none { IfOk result (λ found. IfNone found (has_doc name.now rows.now pages ≡ false)) }
    ensures some { IfOk result (λ found. IfSome found (λ bytes. has_doc name.now rows.now pages ≡ true)) }
    ensures found { (m : Area) → (B.seen area.old).held ≡ Some m → IfOk result (λ found. IfSome found (λ bytes. get m name.now ≡ Some bytes)) }
    ensures own { IfDamagedRead result (λ n. has_doc name.now rows.now pages ≡ true) }
    ensures damaged { (m : Area) → (B.seen area.old).held ≡ Some m → IfDamagedRead result (IsAbsent name.now m) }
{
    let there = is_document(alloc, rows, pages, name)?;
    if !there {
        return Ok(None);
    }
    let bytes = bytes_at(alloc, area, name)?;
    Ok(Some(bytes))
}
