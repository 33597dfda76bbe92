// The index of an area, read and put.
ghost use Rattle.std.specs.Prelude.{◌≡◌, ◌<◌, ◌≤◌, ◌^◌, ◌∷◌, [], Some, IfOk, IfSome, IsErrOf, length};
ghost use Rattle.std.specs.FinMap.{get};
ghost use Rattle.blob_store.specs.Area.{Area};
ghost use Rattle.blob_store.specs.Events.{Get, Change};
ghost use Rattle.catalog_doc.specs.Names.{index_name};
ghost use Rattle.catalog_opening.specs.Errors.{IfDamagedError, IfDamagedRead};
ghost use Rattle.catalog_opening.specs.Plans.{RunsReading, index_change};
ghost use Rattle.catalog_opening.specs.Reads.{IsNoIndex, IsReadAsIndex, IsReadIndex};

use crate::error::ReadErr;
use blob_store::{Blobs, Call, call_one, get_one};
use catalog_doc::{DocErr, INDEX_NAME, PageHead, index_bytes};
use catalog_reading::read_index;
use pkg_meta::{Many, NoMemory, Text};
use std::alloc::Global;

// How many pages an index has at the most.
const PAGES_AT_MOST: usize = 200_000;

/// What an index says: the feed's base address, and of each page its head.
#[derive(Drop)]
pub(crate) struct Index {
    pub(crate) base: Text,
    pub(crate) heads: Many<PageHead>,
}

/// The index is damaged.
pub(crate) fn damaged_index(alloc: Global) -> ReadErr
    ensures { IfDamagedError result (λ name. name ≡ index_name) }
{
    match Text::copy_of(alloc, INDEX_NAME) {
        Ok(name) => ReadErr::Damaged(name),
        Err(_) => ReadErr::Memory,
    }
}

fn index_in(alloc: Global, bytes: &[u8]) -> Result<Index, ReadErr>
    ensures ok { IfOk result (λ index. IsReadIndex (Some bytes.now) index) }
    ensures few { IfOk result (λ index. length index.heads ≤ 200_000) }
    ensures damaged { IfDamagedRead result (λ name. (name ≡ index_name) × IsNoIndex (Some bytes.now)) }
    ensures fault { IsErrOf result ReadErr.Fault → ⊥ }
{
    match read_index(alloc, bytes) {
        Ok((base, heads)) => {
            if heads.len() > PAGES_AT_MOST {
                return Err(damaged_index(alloc));
            }
            Ok(Index { base, heads })
        }
        Err(DocErr::Damaged) => Err(damaged_index(alloc)),
        Err(DocErr::Memory) => Err(ReadErr::Memory),
    }
}

/// Gets the index, and none where it isn't held.
pub(crate) fn get_index<B: Blobs>(alloc: Global, area: &mut B) -> Result<Option<Index>, ReadErr>
    ensures runs { RunsReading (Get index_name ∷ []) (B.seen area.old) (B.seen area.new) result }
    ensures ok { (m : Area) → (B.seen area.old).held ≡ Some m → IfOk result (λ index. IsReadAsIndex (get m index_name) index) }
    ensures few { IfOk result (λ found. IfSome found (λ index. length index.heads ≤ 200_000)) }
    ensures damaged { (m : Area) → (B.seen area.old).held ≡ Some m
        → IfDamagedRead result (λ name. (name ≡ index_name) × IsNoIndex (get m index_name)) }
{
    let Some(bytes) = get_one(alloc, area, INDEX_NAME)? else {
        return Ok(None);
    };
    let index = index_in(alloc, bytes.as_slice())?;
    Ok(Some(index))
}

fn index_call(alloc: Global, base: &str, heads: &[PageHead]) -> Result<Call, NoMemory>
    requires { length heads.now < 2 ^ 32 }
    ensures { IfOk result (λ call. Change call ≡ index_change base.now heads.now) }
{
    let name = Text::copy_of(alloc, INDEX_NAME)?;
    let bytes = index_bytes(alloc, base, heads)?;
    Ok(Call::Put { name, bytes })
}

/// Puts the index of pages with these heads.
pub(crate) fn put_index<B: Blobs>(
    alloc: Global,
    area: &mut B,
    base: &str,
    heads: &[PageHead],
) -> Result<(), ReadErr>
    requires { length heads.now < 2 ^ 32 }
    ensures runs { RunsReading (index_change base.now heads.now ∷ []) (B.seen area.old) (B.seen area.new) result }
    ensures whole { IfDamagedRead result (λ name. ⊥) }
{
    let call = index_call(alloc, base, heads)?;
    call_one(alloc, area, &call)?;
    Ok(())
}
