// What a registration says of a version.
ghost use Rattle.std.specs.Prelude.{◌≡◌, map, IfOk, OnOk, string_bytes};
ghost use Rattle.serde_json.specs.View.{members_view, view};
ghost use Rattle.pkg_meta.specs.Members.{present, put_slots};
ghost use Rattle.reg_docs.specs.Entries.{array_slots, entry_dep_data, entry_dep_object, reg_entry_data, entry_slots, entry_group_data, item_url, standing_slots, wording_slots};

use crate::addresses::registration_index_url;
use catalog_doc::leaf_url;
use fold_core::{Details, Entry, NoMemory};
use pkg_meta::{
    Dep, DepGroup, Meta, put_addresses, put_array_if, put_text, put_text_if, text_values,
};
use serde_json::{Map, Value, json};
use std::alloc::{AllocError, Global};

fn entry_dep_object(
    alloc: Global,
    id: &str,
    range: &str,
    registration: String,
) -> Result<Value, AllocError>
    ensures { IfOk result (λ v. view v ≡ entry_dep_object id.now range.now (string_bytes registration)) }
{
    json!(in alloc; {"id": id, "range": range, "registration": registration})
}

fn entry_dep_value(alloc: Global, root: &str, dep: &Dep) -> Result<Value, NoMemory>
    ensures { IfOk result (λ v. view v ≡ entry_dep_data root.now dep.now) }
{
    let range = dep.range.text(alloc)?;
    let registration = registration_index_url(alloc, root, dep.id.key.as_str())?;
    let id = dep.id.text.as_str();
    Ok(entry_dep_object(alloc, id, range.as_str(), registration)?)
}

fn entry_dep_values(alloc: Global, root: &str, deps: &[Dep]) -> Result<Vec<Value>, NoMemory>
    ensures { IfOk result (λ values. map view values.items ≡ map (entry_dep_data root.now) deps.now) }
{
    let mut values = Vec::new(alloc);
    for dep in deps {
        let value = entry_dep_value(alloc, root, dep)?;
        serde_json::push(&mut values, value)?;
    }
    Ok(values)
}

fn entry_group_value(alloc: Global, root: &str, group: &DepGroup) -> Result<Value, NoMemory>
    ensures { IfOk result (λ v. view v ≡ entry_group_data root.now group.now) }
{
    let mut members = Map::new(alloc);
    let deps = entry_dep_values(alloc, root, group.deps.as_slice())?;
    put_array_if(alloc, &mut members, "dependencies", deps)?;
    put_text_if(alloc, &mut members, "targetFramework", &group.framework)?;
    Ok(Value::Object(members))
}

fn entry_group_values(
    alloc: Global,
    root: &str,
    groups: &[DepGroup],
) -> Result<Vec<Value>, NoMemory>
    ensures { IfOk result (λ values. map view values.items ≡ map (entry_group_data root.now) groups.now) }
{
    let mut values = Vec::new(alloc);
    for group in groups {
        let value = entry_group_value(alloc, root, group)?;
        serde_json::push(&mut values, value)?;
    }
    Ok(values)
}

// What every version has.
fn put_standing(
    alloc: Global,
    members: &mut Map<String, Value>,
    url: &str,
    details: &Details,
) -> Result<(), NoMemory>
    ensures { OnOk result (members_view members.new.entries ≡ put_slots (standing_slots url.now details.now) (members_view members.old.entries)) }
{
    let published = details.published_text(alloc)?;
    let version = details.meta.version.full(alloc)?;
    put_text(alloc, members, "@id", url)?;
    put_text(alloc, members, "id", details.meta.id.text.as_str())?;
    serde_json::put(members, alloc, "listed", Value::from(details.listed))?;
    put_text(alloc, members, "published", published.as_str())?;
    put_text(alloc, members, "version", version.as_str())?;
    Ok(())
}

// What is told in words.
fn put_wording(
    alloc: Global,
    members: &mut Map<String, Value>,
    meta: &Meta,
) -> Result<(), AllocError>
    ensures { OnOk result (members_view members.new.entries ≡ put_slots (wording_slots meta.now) (members_view members.old.entries)) }
{
    put_text_if(alloc, members, "authors", &meta.authors)?;
    put_text_if(alloc, members, "description", &meta.description)?;
    put_text_if(alloc, members, "summary", &meta.summary)?;
    put_text_if(alloc, members, "title", &meta.title)?;
    Ok(())
}

// The tags and the dependencies.
fn put_arrays(
    alloc: Global,
    members: &mut Map<String, Value>,
    root: &str,
    meta: &Meta,
) -> Result<(), NoMemory>
    ensures { OnOk result (members_view members.new.entries ≡ put_slots (array_slots root.now meta.now) (members_view members.old.entries)) }
{
    let tags = text_values(alloc, meta.tags.as_slice())?;
    let groups = entry_group_values(alloc, root, meta.groups.as_slice())?;
    put_array_if(alloc, members, "tags", tags)?;
    put_array_if(alloc, members, "dependencyGroups", groups)?;
    Ok(())
}

pub(crate) fn item_url(alloc: Global, base: &str, entry: &Entry) -> Result<String, AllocError>
    ensures { IfOk result (λ url. string_bytes url ≡ item_url base.now entry.now) }
{
    leaf_url(alloc, base, entry.number, entry.place)
}

fn entry_members(
    alloc: Global,
    base: &str,
    root: &str,
    entry: &Entry,
) -> Result<Map<String, Value>, NoMemory>
    ensures { IfOk result (λ ms. members_view ms.entries ≡ present (entry_slots base.now root.now entry.now)) }
{
    let url = item_url(alloc, base, entry)?;
    let mut members = Map::new(alloc);
    put_standing(alloc, &mut members, &url, &entry.details)?;
    put_wording(alloc, &mut members, &entry.details.meta)?;
    put_addresses(alloc, &mut members, &entry.details.meta)?;
    put_arrays(alloc, &mut members, root, &entry.details.meta)?;
    Ok(members)
}

pub(crate) fn entry_value(
    alloc: Global,
    base: &str,
    root: &str,
    entry: &Entry,
) -> Result<Value, NoMemory>
    ensures { IfOk result (λ v. view v ≡ reg_entry_data base.now root.now entry.now) }
{
    let members = entry_members(alloc, base, root, entry)?;
    Ok(Value::Object(members))
}
