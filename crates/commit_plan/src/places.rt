// What a commit has at its places: the rows, and the puts of the packages, the manifests and the leaves.
ghost use Rattle.std.specs.Prelude.{◌≡◌, ◌<◌, ◌^◌, [], ◌∷◌, ◌++◌, IfOk, OnOk, length, map, string_bytes};
ghost use Rattle.blob_store.specs.declared.call.Call.TheVariants.{Put};
ghost use Rattle.catalog_doc.specs.CatDocs.{rows_from};
ghost use Rattle.catalog_doc.specs.Commits.{place_puts, staged_of, staged_puts};
ghost use Rattle.catalog_doc.specs.Documents.{leaf_text};
ghost use Rattle.catalog_doc.specs.Names.{leaf_name, nupkg_name, nuspec_name};
ghost use Rattle.commit_plan.specs.Plans.{made_with};

use crate::last::LastItem;
use crate::making::item_of;
use blob_store::Call;
use catalog_doc::{Change, Row, leaf_bytes, leaf_name, nupkg_name, nuspec_name};
use pkg_meta::{Bytes, Item, Many, NoMemory, Text, Ticks};
use std::alloc::Global;

/// The rows of a commit, and the puts before its page.
#[derive(Drop)]
pub(crate) struct Places {
    pub(crate) rows: Many<Row>,
    pub(crate) calls: Many<Call>,
}

/// A put as a value.
pub(crate) fn put(name: String, bytes: Bytes) -> Call
    ensures { result ≡ Put (string_bytes name) bytes }
{
    Call::Put {
        name: Text::of(name),
        bytes,
    }
}

fn placed_row(
    alloc: Global,
    number: u32,
    place: u32,
    stamp: Ticks,
    item: &Item,
) -> Result<Row, NoMemory>
    ensures { IfOk result (λ row. row ∷ [] ≡ rows_from number stamp place (item.now ∷ [])) }
{
    let id = item.id().copy(alloc)?;
    let version = item.version().copy(alloc)?;
    Ok(Row {
        number,
        place,
        stamp,
        id,
        version,
        gone: item.is_gone(),
    })
}

// The puts of the package and the manifest, behind others.
fn add_staged(
    alloc: Global,
    calls: &mut Many<Call>,
    number: u32,
    place: u32,
    nupkg: &Bytes,
    nuspec: &Bytes,
) -> Result<(), NoMemory>
    ensures { OnOk result (calls.new ≡ calls.old ++ Put (nupkg_name number place) nupkg.now ∷ Put (nuspec_name number place) nuspec.now ∷ []) }
{
    calls.push(put(nupkg_name(alloc, number, place)?, nupkg.copy(alloc)?))?;
    calls.push(put(nuspec_name(alloc, number, place)?, nuspec.copy(alloc)?))?;
    Ok(())
}

// Those that a change brings.
fn add_brought(
    alloc: Global,
    calls: &mut Many<Call>,
    number: u32,
    place: u32,
    change: &Change,
) -> Result<(), NoMemory>
    ensures { OnOk result (calls.new ≡ calls.old ++ staged_puts number place (staged_of change.now)) }
{
    match change {
        Change::Publish {
            nuspec,
            package,
            ..
        } => add_staged(alloc, calls, number, place, package, nuspec),
        Change::Unlist { .. } => Ok(()),
        Change::Relist { .. } => Ok(()),
        Change::Delete { .. } => Ok(()),
    }
}

// The put of the leaf, behind others.
fn add_leaf(
    alloc: Global,
    base: &str,
    calls: &mut Many<Call>,
    number: u32,
    place: u32,
    stamp: Ticks,
    item: &Item,
) -> Result<(), NoMemory>
    ensures { OnOk result (calls.new ≡ calls.old ++ Put (leaf_name number place) (leaf_text base.now number place stamp item.now) ∷ []) }
{
    let name = leaf_name(alloc, number, place)?;
    let bytes = leaf_bytes(alloc, base, number, place, stamp, item)?;
    calls.push(put(name, bytes))?;
    Ok(())
}

// The row of an item, behind others.
fn add_row(
    alloc: Global,
    rows: &mut Many<Row>,
    number: u32,
    place: u32,
    stamp: Ticks,
    item: &Item,
) -> Result<(), NoMemory>
    ensures { OnOk result (rows.new ≡ rows.old ++ rows_from number stamp place (item.now ∷ [])) }
{
    let row = placed_row(alloc, number, place, stamp, item)?;
    rows.push(row)?;
    Ok(())
}

// The puts of an item that a change makes, behind others.
fn add_calls(
    alloc: Global,
    base: &str,
    calls: &mut Many<Call>,
    number: u32,
    place: u32,
    stamp: Ticks,
    change: &Change,
    item: &Item,
) -> Result<(), NoMemory>
    ensures { OnOk result (calls.new ≡ calls.old ++ place_puts base.now number stamp place (item.now ∷ []) (staged_of change.now ∷ [])) }
{
    add_brought(alloc, calls, number, place, change)?;
    add_leaf(alloc, base, calls, number, place, stamp, item)?;
    Ok(())
}

/// What changes make at the places of a commit, of versions with these last items.
pub(crate) fn places_of(
    alloc: Global,
    base: &str,
    changes: &[Change],
    lasts: &[LastItem],
    number: u32,
    stamp: Ticks,
) -> Result<Places, NoMemory>
    requires few { length changes.now < 2 ^ 32 }
    requires lasts { length lasts.now ≡ length changes.now }
    ensures rows { IfOk result (λ p. p.rows ≡ rows_from number stamp 0 (made_with number stamp 0 lasts.now changes.now)) }
    ensures calls { IfOk result (λ p. p.calls
        ≡ place_puts base.now number stamp 0 (made_with number stamp 0 lasts.now changes.now) (map staged_of changes.now)) }
{
    let mut rows = Many::new(alloc);
    let mut calls = Many::new(alloc);
    for (place, change) in changes.iter().enumerate() {
        let at = place as u32;
        let item = item_of(alloc, change, &lasts[place], number, at, stamp)?;
        add_row(alloc, &mut rows, number, at, stamp, &item)?;
        add_calls(alloc, base, &mut calls, number, at, stamp, change, &item)?;
    }
    Ok(Places { rows, calls })
}
