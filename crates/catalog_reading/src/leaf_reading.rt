// A reader of an item's leaf, which accepts exactly what the writer writes.
ghost use Rattle.std.specs.Prelude.{◌≡◌, ◌≤◌, ℕ, List, Bool, Some, IfOk, IsErrOf, option_map, slice_get};
ghost use Rattle.serde_json.specs.Data.{string};
ghost use Rattle.serde_json.specs.View.{view};
ghost use Rattle.package_id.specs.declared.id.PackageId.{PackageId};
ghost use Rattle.nuget_version.specs.declared.version.Version.{Version};
ghost use Rattle.pkg_meta.specs.Items.{is_gone};
ghost use Rattle.pkg_meta.specs.declared.item.Details.{Details};
ghost use Rattle.pkg_meta.specs.declared.item.Item.{Item};
ghost use Rattle.pkg_meta.specs.declared.item.Item.TheVariants as the;
ghost use Rattle.catalog_doc.specs.Documents.{leaf_data, leaf_text};
ghost use Rattle.catalog_doc.specs.Reading.{IsDetailsValue, IsItemValue};
ghost use Rattle.catalog_reading.specs.Shown.{leaf_kind};

use crate::details::read_details;
use crate::fields::moment_of;
use crate::reading::is_same;
use catalog_doc::{DocErr, leaf_bytes};
use json_law::value_of;
use pkg_meta::{Item, NoMemory, PackageId, Ticks, Version, items_in, text_in};
use serde_json::Value;
use std::alloc::Global;

// The stamp of the commit that a leaf is of.
fn stamp_in(value: &Value) -> Option<Ticks>
    ensures { (base : List ℕ) (n p stamp : ℕ) (it : Item) → stamp ≤ 3_155_378_975_999_999_999 → view value.now ≡ leaf_data base n p stamp it → result ≡ Some stamp }
{
    match text_in(value, "catalog:commitTimeStamp") {
        Some(text) => moment_of(text),
        None => None,
    }
}

// Whether the value says that it is a delete's.
fn is_gone_in(value: &Value) -> bool
    ensures { (base : List ℕ) (n p stamp : ℕ) (it : Item) → view value.now ≡ leaf_data base n p stamp it → result ≡ is_gone it }
{
    match first_of(items_in(value, "@type")) {
        Some(kind) => is_delete(kind),
        None => false,
    }
}

fn first_of(kinds: &[Value]) -> Option<&Value>
    ensures { option_map (λ kind. kind.now) result ≡ slice_get kinds.now 0 }
{
    kinds.get(0)
}

fn is_delete(kind: &Value) -> bool
    ensures { (gone : Bool) → view kind.now ≡ string (leaf_kind gone) → result ≡ gone }
{
    match kind.as_str() {
        Some(text) => is_delete_kind(text),
        None => false,
    }
}

fn is_delete_kind(text: &str) -> bool
    ensures { (gone : Bool) → text.now ≡ leaf_kind gone → result ≡ gone }
{
    text == "PackageDelete"
}

fn id_in(alloc: Global, value: &Value) -> Result<Option<PackageId>, NoMemory>
    ensures { (base : List ℕ) (n p stamp : ℕ) (i : PackageId) (v : Version) → view value.now ≡ leaf_data base n p stamp (the.Gone i v) → IfOk result (λ found. found ≡ Some i) }
{
    match text_in(value, "id") {
        Some(text) => PackageId::read(alloc, text),
        None => Ok(None),
    }
}

fn version_in(alloc: Global, value: &Value) -> Result<Option<Version>, NoMemory>
    ensures { (base : List ℕ) (n p stamp : ℕ) (i : PackageId) (v : Version) → view value.now ≡ leaf_data base n p stamp (the.Gone i v) → IfOk result (λ found. found ≡ Some v) }
{
    match text_in(value, "version") {
        Some(text) => Version::read(alloc, text),
        None => Ok(None),
    }
}

fn gone_in(alloc: Global, value: &Value) -> Result<Option<Item>, NoMemory>
    ensures { (base : List ℕ) (n p stamp : ℕ) (i : PackageId) (v : Version) → view value.now ≡ leaf_data base n p stamp (the.Gone i v) → IfOk result (λ found. found ≡ Some (the.Gone i v)) }
{
    let Some(id) = id_in(alloc, value)? else {
        return Ok(None);
    };
    let Some(version) = version_in(alloc, value)? else {
        return Ok(None);
    };
    Ok(Some(Item::Gone { id, version }))
}

fn details_in(alloc: Global, value: &Value) -> Result<Option<Item>, NoMemory>
    ensures { (base : List ℕ) (n p stamp : ℕ) (d : Details) → IsDetailsValue d → view value.now ≡ leaf_data base n p stamp (the.Details d) → IfOk result (λ found. found ≡ Some (the.Details d)) }
{
    let Some(details) = read_details(alloc, value)? else {
        return Ok(None);
    };
    Ok(Some(Item::Details(details)))
}

fn item_in(alloc: Global, value: &Value) -> Result<Option<Item>, NoMemory>
    ensures { (base : List ℕ) (n p stamp : ℕ) (it : Item) → IsItemValue it → view value.now ≡ leaf_data base n p stamp it → IfOk result (λ found. found ≡ Some it) }
{
    if is_gone_in(value) {
        gone_in(alloc, value)
    } else {
        details_in(alloc, value)
    }
}

/// The item whose leaf at this place of a commit the bytes are, and the commit's stamp. `Damaged` comes where they are
/// no such leaf.
pub fn read_leaf(
    alloc: Global,
    base: &str,
    number: u32,
    place: u32,
    bytes: &[u8],
) -> Result<(Ticks, Item), DocErr>
    ensures ok { IfOk result (λ read. bytes.now ≡ leaf_text base.now number place read.0 read.1) }
    ensures exact { (stamp : ℕ) (it : Item) → stamp ≤ 3_155_378_975_999_999_999 → IsItemValue it → bytes.now ≡ leaf_text base.now number place stamp it → IfOk result (λ read. (read.0 ≡ stamp) × (read.1 ≡ it)) }
    ensures damaged { IsErrOf result DocErr.Damaged → (stamp : ℕ) (it : Item) → stamp ≤ 3_155_378_975_999_999_999 → IsItemValue it → bytes.now ≡ leaf_text base.now number place stamp it → ⊥ }
{
    let Some(value) = value_of(alloc, bytes)? else {
        return Err(DocErr::Damaged);
    };
    let Some(stamp) = stamp_in(&value) else {
        return Err(DocErr::Damaged);
    };
    let Some(item) = item_in(alloc, &value)? else {
        return Err(DocErr::Damaged);
    };
    let again = leaf_bytes(alloc, base, number, place, stamp, &item)?;
    if is_same(again.as_slice(), bytes) {
        Ok((stamp, item))
    } else {
        Err(DocErr::Damaged)
    }
}
