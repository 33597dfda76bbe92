// Metadata and details as JSON values.
ghost use Rattle.std.specs.Prelude.{◌≡◌, map, option_map, IfOk, OnOk, codes};
ghost use Rattle.serde_json.specs.Data.{Data, boolean, no_members, put, string};
ghost use Rattle.serde_json.specs.View.{members_view, view};
ghost use Rattle.pkg_meta.specs.Members.{present, put_if, put_slots};
ghost use Rattle.pkg_meta.specs.Slots.{address_slots, dep_object, identity_slots, list_slots, origin_slots, package_slots, prose_slots};
ghost use Rattle.pkg_meta.specs.Trees.{array_if, dep_tree, details_table, details_tree, group_tree, meta_table, meta_tree, origin_text, published_text, text_if};

use crate::dependency::{Dep, DepGroup};
use crate::item::Details;
use crate::meta::Meta;
use nuget_version::{Many, NoMemory, Text};
use serde_json::{Map, Value, json};
use std::alloc::{AllocError, Global};

// What is printed of an unlisted version in place of its moment.
const UNLISTED: &str = "1900-01-01T00:00:00.0000000Z";

/// Puts a member whose value is a text.
pub fn put_text(
    alloc: Global,
    members: &mut Map<String, Value>,
    key: &str,
    text: &str,
) -> Result<(), AllocError>
    ensures { OnOk result (members_view members.new.entries ≡ put key.now (string text.now) (members_view members.old.entries)) }
{
    let value = Value::try_from_str(alloc, text)?;
    serde_json::put(members, alloc, key, value)
}

/// Puts a text where it is given.
pub fn put_text_if(
    alloc: Global,
    members: &mut Map<String, Value>,
    key: &str,
    text: &Option<Text>,
) -> Result<(), AllocError>
    ensures { OnOk result (members_view members.new.entries ≡ put_if key.now (text_if text.now) (members_view members.old.entries)) }
{
    match text {
        None => Ok(()),
        Some(text) => put_text(alloc, members, key, text.as_str()),
    }
}

// Puts a truth value where it is given.
fn put_flag_if(
    alloc: Global,
    members: &mut Map<String, Value>,
    key: &str,
    flag: Option<bool>,
) -> Result<(), AllocError>
    ensures { OnOk result (members_view members.new.entries ≡ put_if key.now (option_map boolean flag) (members_view members.old.entries)) }
{
    match flag {
        None => Ok(()),
        Some(flag) => serde_json::put(members, alloc, key, Value::from(flag)),
    }
}

/// Puts an array where it isn't empty.
pub fn put_array_if(
    alloc: Global,
    members: &mut Map<String, Value>,
    key: &str,
    values: Vec<Value>,
) -> Result<(), AllocError>
    ensures { OnOk result (members_view members.new.entries ≡ put_if key.now (array_if (map view values.items)) (members_view members.old.entries)) }
{
    if values.is_empty() {
        return Ok(());
    }
    serde_json::put(members, alloc, key, Value::from(values))
}

/// The texts as values.
pub fn text_values(alloc: Global, texts: &[Text]) -> Result<Vec<Value>, AllocError>
    ensures { IfOk result (λ values. map view values.items ≡ map string texts.now) }
{
    let mut values = Vec::new(alloc);
    for text in texts {
        let value = Value::try_from_str(alloc, text.as_str())?;
        serde_json::push(&mut values, value)?;
    }
    Ok(values)
}

fn dep_value(alloc: Global, dep: &Dep) -> Result<Value, NoMemory>
    ensures { IfOk result (λ v. view v ≡ dep_tree dep.now) }
{
    let range = dep.range.text(alloc)?;
    Ok(dep_object(alloc, dep.id.text.as_str(), range.as_str())?)
}

fn dep_object(alloc: Global, id: &str, range: &str) -> Result<Value, AllocError>
    ensures { IfOk result (λ v. view v ≡ dep_object id.now range.now) }
{
    json!(in alloc; {"id": id, "range": range})
}

fn dep_values(alloc: Global, deps: &[Dep]) -> Result<Vec<Value>, NoMemory>
    ensures { IfOk result (λ values. map view values.items ≡ map dep_tree deps.now) }
{
    let mut values = Vec::new(alloc);
    for dep in deps {
        let value = dep_value(alloc, dep)?;
        serde_json::push(&mut values, value)?;
    }
    Ok(values)
}

fn group_value(alloc: Global, group: &DepGroup) -> Result<Value, NoMemory>
    ensures { IfOk result (λ v. view v ≡ group_tree group.now) }
{
    let mut members = Map::new(alloc);
    let deps = dep_values(alloc, group.deps.as_slice())?;
    put_array_if(alloc, &mut members, "dependencies", deps)?;
    put_text_if(alloc, &mut members, "targetFramework", &group.framework)?;
    Ok(Value::Object(members))
}

fn group_values(alloc: Global, groups: &[DepGroup]) -> Result<Vec<Value>, NoMemory>
    ensures { IfOk result (λ values. map view values.items ≡ map group_tree groups.now) }
{
    let mut values = Vec::new(alloc);
    for group in groups {
        let value = group_value(alloc, group)?;
        serde_json::push(&mut values, value)?;
    }
    Ok(values)
}

// The id and the version.
fn put_identity(
    alloc: Global,
    members: &mut Map<String, Value>,
    meta: &Meta,
) -> Result<(), NoMemory>
    ensures { OnOk result (members_view members.new.entries ≡ put_slots (identity_slots meta.now) (members_view members.old.entries)) }
{
    let version = meta.version.full(alloc)?;
    put_text(alloc, members, "id", meta.id.text.as_str())?;
    put_text(alloc, members, "verbatimVersion", meta.verbatim.as_str())?;
    put_text(alloc, members, "version", version.as_str())?;
    Ok(())
}

// What is told of the package in words.
fn put_prose(alloc: Global, members: &mut Map<String, Value>, meta: &Meta) -> Result<(), AllocError>
    ensures { OnOk result (members_view members.new.entries ≡ put_slots (prose_slots meta.now) (members_view members.old.entries)) }
{
    put_text_if(alloc, members, "authors", &meta.authors)?;
    put_text_if(alloc, members, "description", &meta.description)?;
    put_text_if(alloc, members, "releaseNotes", &meta.release_notes)?;
    put_text_if(alloc, members, "summary", &meta.summary)?;
    put_text_if(alloc, members, "title", &meta.title)?;
    Ok(())
}

/// Puts the addresses, and what a client has to heed.
pub fn put_addresses(
    alloc: Global,
    members: &mut Map<String, Value>,
    meta: &Meta,
) -> Result<(), AllocError>
    ensures { OnOk result (members_view members.new.entries ≡ put_slots (address_slots meta.now) (members_view members.old.entries)) }
{
    let key = "requireLicenseAcceptance";
    put_text_if(alloc, members, "iconUrl", &meta.icon_url)?;
    put_text_if(alloc, members, "licenseUrl", &meta.license_url)?;
    put_text_if(alloc, members, "minClientVersion", &meta.min_client)?;
    put_text_if(alloc, members, "projectUrl", &meta.project_url)?;
    put_flag_if(alloc, members, key, meta.require_license)
}

// The tags and the dependencies.
fn put_lists(alloc: Global, members: &mut Map<String, Value>, meta: &Meta) -> Result<(), NoMemory>
    ensures { OnOk result (members_view members.new.entries ≡ put_slots (list_slots meta.now) (members_view members.old.entries)) }
{
    let tags = text_values(alloc, meta.tags.as_slice())?;
    let groups = group_values(alloc, meta.groups.as_slice())?;
    put_array_if(alloc, members, "tags", tags)?;
    put_array_if(alloc, members, "dependencyGroups", groups)?;
    Ok(())
}

fn meta_members(alloc: Global, meta: &Meta) -> Result<Map<String, Value>, NoMemory>
    ensures { IfOk result (λ ms. members_view ms.entries ≡ present (meta_table meta.now)) }
{
    let mut members = Map::new(alloc);
    put_identity(alloc, &mut members, meta)?;
    put_prose(alloc, &mut members, meta)?;
    put_addresses(alloc, &mut members, meta)?;
    put_lists(alloc, &mut members, meta)?;
    Ok(members)
}

fn origin(alloc: Global, details: &Details) -> Result<Text, NoMemory>
    ensures { IfOk result (λ t. t ≡ origin_text details.now) }
{
    let number = details.origin_number;
    let place = details.origin_place;
    Ok(Text::of(format!(in alloc; "{number}/{place}")?))
}

// Where the version comes from, and how it is shown.
fn put_origin(
    alloc: Global,
    members: &mut Map<String, Value>,
    details: &Details,
) -> Result<(), NoMemory>
    ensures { OnOk result (members_view members.new.entries ≡ put_slots (origin_slots details.now) (members_view members.old.entries)) }
{
    let created = details.created.print(alloc)?;
    let origin = origin(alloc, details)?;
    let published = details.published_text(alloc)?;
    put_text(alloc, members, "created", created.as_str())?;
    put_text(alloc, members, "origin", origin.as_str())?;
    put_text(alloc, members, "published", published.as_str())?;
    Ok(())
}

// The package's hash and size, and two marks.
fn put_package(
    alloc: Global,
    members: &mut Map<String, Value>,
    details: &Details,
) -> Result<(), AllocError>
    ensures { OnOk result (members_view members.new.entries ≡ put_slots (package_slots details.now) (members_view members.old.entries)) }
{
    let is_prerelease = Value::from(details.meta.version.is_pre());
    serde_json::put(members, alloc, "isPrerelease", is_prerelease)?;
    serde_json::put(members, alloc, "listed", Value::from(details.listed))?;
    put_text(alloc, members, "packageHash", details.hash.as_str())?;
    put_text(alloc, members, "packageHashAlgorithm", "SHA512")?;
    serde_json::put(members, alloc, "packageSize", Value::from(details.size))
}

impl Meta {
    /// The metadata as a JSON object. An absent member, and an empty list, isn't there.
    #[tactic(auto, unfolding(crate::specs::Trees::meta_tree))]
    pub fn tree(&self, alloc: Global) -> Result<Value, NoMemory>
        ensures { IfOk result (λ v. view v ≡ meta_tree self.now) }
    {
        let members = meta_members(alloc, self)?;
        Ok(Value::Object(members))
    }
}

impl Details {
    /// When the version counts as published: an unlisted one in the year 1900.
    pub fn published_text(&self, alloc: Global) -> Result<Text, NoMemory>
        ensures { IfOk result (λ t. t ≡ published_text self.now) }
    {
        if self.listed {
            self.created.print(alloc)
        } else {
            Text::copy_of(alloc, UNLISTED)
        }
    }

    /// The members of the details, for an object that has others too.
    pub fn members(&self, alloc: Global) -> Result<Map<String, Value>, NoMemory>
        ensures { IfOk result (λ ms. members_view ms.entries ≡ present (details_table self.now)) }
    {
        let mut members = Map::new(alloc);
        put_identity(alloc, &mut members, &self.meta)?;
        put_prose(alloc, &mut members, &self.meta)?;
        put_addresses(alloc, &mut members, &self.meta)?;
        put_lists(alloc, &mut members, &self.meta)?;
        put_origin(alloc, &mut members, self)?;
        put_package(alloc, &mut members, self)?;
        Ok(members)
    }

    /// The details as a JSON object: what a catalog leaf has of them.
    #[tactic(auto, unfolding(crate::specs::Trees::details_tree))]
    pub fn tree(&self, alloc: Global) -> Result<Value, NoMemory>
        ensures { IfOk result (λ v. view v ≡ details_tree self.now) }
    {
        let members = self.members(alloc)?;
        Ok(Value::Object(members))
    }
}
