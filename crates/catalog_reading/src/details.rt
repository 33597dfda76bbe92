// The details that a stored document shows. Each field is said for what the writers write; of other values
// something else may be read.
ghost use Rattle.std.specs.Prelude.{◌≡◌, ◌<◌, ◌^◌, ℕ, List, Some, IfOk, MatchOption, decimal};
ghost use Rattle.serde_json.specs.View.{view};
ghost use Rattle.pkg_meta.specs.Made.{identity_of};
ghost use Rattle.pkg_meta.specs.Trees.{details_tree};
ghost use Rattle.pkg_meta.specs.declared.item.Details.{Details};
ghost use Rattle.catalog_doc.specs.Reading.{IsDetailsValue};
ghost use Rattle.catalog_reading.specs.Shown.{number_under, ShowsDetails};

use crate::dependencies::groups_of;
use crate::fields::{Origin, moment_of, origin_of};
use pkg_meta::{
    DepGroup, Details, Identity, Many, Meta, NoMemory, PackageId, Text, Ticks, Version,
    copy_text_in, copy_texts_of, flag_in, items_in, read_texts, text_in,
};
use serde_json::Value;
use std::alloc::Global;

fn origin_in(value: &Value) -> Option<Origin>
    ensures { (d : Details) → IsDetailsValue d → ShowsDetails d (view value.now) → result ≡ Some (record { number = d.origin_number; place = d.origin_place }) }
{
    match text_in(value, "origin") {
        Some(text) => origin_of(text),
        None => None,
    }
}

fn created_in(value: &Value) -> Option<Ticks>
    ensures { (d : Details) → IsDetailsValue d → ShowsDetails d (view value.now) → result ≡ Some d.created }
{
    match text_in(value, "created") {
        Some(text) => moment_of(text),
        None => None,
    }
}

// The number under a name, where there is one.
fn number_in(value: &Value, name: &str) -> Option<u64>
    ensures { result ≡ number_under name.now (view value.now) }
{
    value.get(name).and_then(Value::as_u64)
}

fn size_in(value: &Value) -> Option<u64>
    ensures { (d : Details) → ShowsDetails d (view value.now) → result ≡ Some d.size }
{
    number_in(value, "packageSize")
}

fn listed_in(value: &Value) -> Option<bool>
    ensures { (d : Details) → ShowsDetails d (view value.now) → result ≡ Some d.listed }
{
    flag_in(value, "listed")
}

// What details say beside their texts.
#[derive(Clone, Copy)]
struct Marks {
    listed: bool,
    created: Ticks,
    origin: Origin,
    size: u64,
}

fn marks_in(value: &Value) -> Option<Marks>
    ensures { (d : Details) → IsDetailsValue d → ShowsDetails d (view value.now) → result ≡ Some (record { listed = d.listed; created = d.created; origin = record { number = d.origin_number; place = d.origin_place }; size = d.size }) }
{
    let listed = listed_in(value)?;
    let created = created_in(value)?;
    let origin = origin_in(value)?;
    let size = size_in(value)?;
    Some(Marks {
        listed,
        created,
        origin,
        size,
    })
}

fn id_in(alloc: Global, value: &Value) -> Result<Option<PackageId>, NoMemory>
    ensures { (d : Details) → ShowsDetails d (view value.now) → IfOk result (λ found. found ≡ Some d.meta.id) }
{
    match text_in(value, "id") {
        Some(text) => PackageId::read(alloc, text),
        None => Ok(None),
    }
}

fn version_in(alloc: Global, value: &Value) -> Result<Option<Version>, NoMemory>
    ensures { (d : Details) → ShowsDetails d (view value.now) → IfOk result (λ found. found ≡ Some d.meta.version) }
{
    match text_in(value, "version") {
        Some(text) => Version::read(alloc, text),
        None => Ok(None),
    }
}

fn verbatim_in(alloc: Global, value: &Value) -> Result<Option<Text>, NoMemory>
    ensures { (d : Details) → ShowsDetails d (view value.now) → IfOk result (λ found. found ≡ Some d.meta.verbatim) }
{
    copy_text_in(alloc, value, "verbatimVersion")
}

fn hash_in(alloc: Global, value: &Value) -> Result<Option<Text>, NoMemory>
    ensures { (d : Details) → ShowsDetails d (view value.now) → IfOk result (λ found. found ≡ Some d.hash) }
{
    copy_text_in(alloc, value, "packageHash")
}

fn tags_in(alloc: Global, value: &Value) -> Result<Many<Text>, NoMemory>
    ensures { (d : Details) → ShowsDetails d (view value.now) → IfOk result (λ tags. tags ≡ d.meta.tags) }
{
    copy_texts_of(alloc, items_in(value, "tags"))
}

fn groups_in(alloc: Global, value: &Value) -> Result<Option<Many<DepGroup>>, NoMemory>
    ensures { (d : Details) → ShowsDetails d (view value.now) → IfOk result (λ found. found ≡ Some d.meta.groups) }
{
    groups_of(alloc, items_in(value, "dependencyGroups"))
}

fn require_license_in(value: &Value) -> Option<bool>
    ensures { (d : Details) → ShowsDetails d (view value.now) → result ≡ d.meta.require_license }
{
    flag_in(value, "requireLicenseAcceptance")
}

fn identity_in(alloc: Global, value: &Value) -> Result<Option<Identity>, NoMemory>
    ensures { (d : Details) → ShowsDetails d (view value.now) → IfOk result (λ found. found ≡ Some (identity_of d.meta)) }
{
    let Some(verbatim) = verbatim_in(alloc, value)? else {
        return Ok(None);
    };
    let Some(id) = id_in(alloc, value)? else {
        return Ok(None);
    };
    let Some(version) = version_in(alloc, value)? else {
        return Ok(None);
    };
    Ok(Some(Identity {
        id,
        version,
        verbatim,
    }))
}

fn meta_in(alloc: Global, value: &Value) -> Result<Option<Meta>, NoMemory>
    ensures { (d : Details) → ShowsDetails d (view value.now) → IfOk result (λ found. found ≡ Some d.meta) }
{
    let tags = tags_in(alloc, value)?;
    let Some(groups) = groups_in(alloc, value)? else {
        return Ok(None);
    };
    let Some(identity) = identity_in(alloc, value)? else {
        return Ok(None);
    };
    let texts = read_texts(alloc, value)?;
    let require_license = require_license_in(value);
    Ok(Some(Meta::made_of(identity, texts, require_license, tags, groups)))
}

/// The details that a value shows whose members are those of details, and perhaps others. Of other values something
/// else may be read: a reader of a stored document writes what it read again, and compares.
pub fn read_details(alloc: Global, value: &Value) -> Result<Option<Details>, NoMemory>
    ensures shown { (d : Details) → IsDetailsValue d → ShowsDetails d (view value.now) → IfOk result (λ found. found ≡ Some d) }
    ensures tree { (d : Details) → IsDetailsValue d → view value.now ≡ details_tree d → IfOk result (λ found. found ≡ Some d) }
{
    let Some(marks) = marks_in(value) else {
        return Ok(None);
    };
    let Some(hash) = hash_in(alloc, value)? else {
        return Ok(None);
    };
    let Some(meta) = meta_in(alloc, value)? else {
        return Ok(None);
    };
    Ok(Some(Details {
        meta,
        listed: marks.listed,
        created: marks.created,
        origin_number: marks.origin.number,
        origin_place: marks.origin.place,
        size: marks.size,
        hash,
    }))
}
