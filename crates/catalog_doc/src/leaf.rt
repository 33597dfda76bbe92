// The leaf of an item.
ghost use Rattle.std.specs.Prelude.{◌≡◌, IfOk, OnOk};
ghost use Rattle.serde_json.specs.View.{view, members_view};
ghost use Rattle.pkg_meta.specs.Members.{put_slots};
ghost use Rattle.pkg_meta.specs.declared.item.Item.TheVariants as the;
ghost use Rattle.catalog_doc.specs.Documents.{gone_object, leaf_data, leaf_text};
ghost use Rattle.catalog_doc.specs.Members.{commit_slots};

use crate::names::{commit_id, leaf_url};
use pkg_meta::{Bytes, Details, Item, NoMemory, PackageId, Ticks, Version, put_text};
use serde_json::{Map, Value, json};
use std::alloc::{AllocError, Global};

// Puts address, kind and commit.
fn put_commit(
    alloc: Global,
    members: &mut Map<String, Value>,
    url: &str,
    commit: &str,
    stamp: &str,
) -> Result<(), AllocError>
    ensures { OnOk result (members_view members.new.entries ≡ put_slots (commit_slots url.now commit.now stamp.now) (members_view members.old.entries)) }
{
    let kind = json!(in alloc; ["PackageDetails"])?;
    put_text(alloc, members, "@id", url)?;
    serde_json::put(members, alloc, "@type", kind)?;
    put_text(alloc, members, "catalog:commitId", commit)?;
    put_text(alloc, members, "catalog:commitTimeStamp", stamp)
}

fn details_value(
    alloc: Global,
    base: &str,
    number: u32,
    place: u32,
    stamp: Ticks,
    details: &Details,
) -> Result<Value, NoMemory>
    ensures { IfOk result (λ v. view v ≡ leaf_data base.now number place stamp (the.Details details.now)) }
{
    let url = leaf_url(alloc, base, number, place)?;
    let commit = commit_id(alloc, number)?;
    let stamp = stamp.print(alloc)?;
    let mut members = details.members(alloc)?;
    put_commit(alloc, &mut members, &url, &commit, stamp.as_str())?;
    Ok(Value::Object(members))
}

fn gone_object(
    alloc: Global,
    url: &str,
    commit: &str,
    stamp: &str,
    id: &str,
    version: &str,
) -> Result<Value, AllocError>
    ensures { IfOk result (λ v. view v ≡ gone_object url.now commit.now stamp.now id.now version.now) }
{
    json!(in alloc; {
        "@id": url,
        "@type": ["PackageDelete"],
        "catalog:commitId": commit,
        "catalog:commitTimeStamp": stamp,
        "id": id,
        "published": stamp,
        "version": version
    })
}

fn gone_value(
    alloc: Global,
    base: &str,
    number: u32,
    place: u32,
    stamp: Ticks,
    id: &PackageId,
    version: &Version,
) -> Result<Value, NoMemory>
    ensures { IfOk result (λ v. view v ≡ leaf_data base.now number place stamp (the.Gone id.now version.now)) }
{
    let url = leaf_url(alloc, base, number, place)?;
    let commit = commit_id(alloc, number)?;
    let stamp = stamp.print(alloc)?;
    let version = version.full(alloc)?;
    let value = gone_object(
        alloc,
        &url,
        &commit,
        stamp.as_str(),
        id.text.as_str(),
        version.as_str(),
    )?;
    Ok(value)
}

fn leaf_value(
    alloc: Global,
    base: &str,
    number: u32,
    place: u32,
    stamp: Ticks,
    item: &Item,
) -> Result<Value, NoMemory>
    ensures { IfOk result (λ v. view v ≡ leaf_data base.now number place stamp item.now) }
{
    match item {
        Item::Details(details) => details_value(alloc, base, number, place, stamp, details),
        Item::Gone { id, version } => gone_value(alloc, base, number, place, stamp, id, version),
    }
}

/// The bytes of the leaf that stands at a place of a commit.
#[tactic(auto, unfolding(crate::specs::Documents::leaf_text))]
pub fn leaf_bytes(
    alloc: Global,
    base: &str,
    number: u32,
    place: u32,
    stamp: Ticks,
    item: &Item,
) -> Result<Bytes, NoMemory>
    ensures { IfOk result (λ b. b ≡ leaf_text base.now number place stamp item.now) }
{
    let value = leaf_value(alloc, base, number, place, stamp, item)?;
    let bytes = value.to_vec(alloc)?;
    Ok(Bytes::of(bytes))
}

/// The bytes of the leaf of details.
#[tactic(auto, unfolding(crate::specs::Documents::leaf_text))]
pub fn details_bytes(
    alloc: Global,
    base: &str,
    number: u32,
    place: u32,
    stamp: Ticks,
    details: &Details,
) -> Result<Bytes, NoMemory>
    ensures { IfOk result (λ b. b ≡ leaf_text base.now number place stamp (the.Details details.now)) }
{
    let value = details_value(alloc, base, number, place, stamp, details)?;
    let bytes = value.to_vec(alloc)?;
    Ok(Bytes::of(bytes))
}
