// Reading a publisher's metadata.
ghost use Rattle.std.specs.Prelude.{◌≡◌, ◌≢◌, ◌≤◌, map, codes, length, IfErr, IfNone, IfOk, IfSome, IsNone, Some, None};
ghost use Rattle.nuget_version.specs.Grammar.{Spells};
ghost use Rattle.nuget_version.specs.declared.version.Version.{Version};
ghost use Rattle.package_id.specs.Ids.{IsShortId};
ghost use Rattle.serde_json.specs.Data.{Data};
ghost use Rattle.serde_json.specs.View.{view};
ghost use Rattle.version_range.specs.declared.range.VersionRange.{VersionRange};
ghost use Rattle.pkg_meta.specs.Publisher.{IsDepOf, IsGroupOf, IsMetaOf, IsMetaText, IsObjectText, IsRangeOf, Match};
ghost use Rattle.pkg_meta.specs.Refusals.{dep_path, IsFirstRefused, IsNoRange, IsRefusedMeta, IsRefusedDep, IsRefusedGroup, IsRefusedObject};
ghost use Rattle.pkg_meta.specs.Identity.{IsIdentityOf};
ghost use Rattle.pkg_meta.specs.Values.{text_at};
ghost use Rattle.pkg_meta.specs.Texts.{addresses_at, prose_at, release_at, texts_at};

use crate::dependency::{Dep, DepGroup};
use crate::error::MetaErr;
use crate::kinds::misfit;
use crate::meta::{Addresses, Identity, Meta, Prose, Release, Texts};
use crate::values::{copy_text_in, copy_texts_of, flag_in, items_in, text_in, text_or_empty};
use json_law::value_of;
use nuget_version::{Many, NoMemory, Text, Version};
use package_id::PackageId;
use serde_json::Value;
use std::alloc::Global;
use version_range::{RangeErr, VersionRange};

/// The greatest length of metadata, in bytes.
pub const MAX_META_LEN: usize = 32_768;

fn any_version() -> VersionRange
    ensures { IsRangeOf None result }
{
    VersionRange {
        low: None,
        low_in: false,
        high: None,
        high_in: false,
    }
}

// The range of a text, where it has one.
fn read_range_text(alloc: Global, text: &str) -> Result<Option<VersionRange>, NoMemory>
    ensures found { IfOk result (λ o. IfSome o (λ r. IsRangeOf (Some text.now) r)) }
    ensures none { IfOk result (λ o. IfNone o (IsNoRange (Some text.now))) }
{
    match VersionRange::parse(alloc, text) {
        Ok(range) => Ok(Some(range)),
        Err(error) => no_range(error),
    }
}

// No range, unless it is out of memory.
fn no_range(error: RangeErr) -> Result<Option<VersionRange>, NoMemory>
    ensures { IfOk result (λ o. (error ≢ RangeErr.Memory) × IsNone o) }
{
    match error {
        RangeErr::Memory => Err(NoMemory),
        _ => Ok(None),
    }
}

// The range that a dependency's value says, where it says one.
fn read_range(alloc: Global, value: &Value) -> Result<Option<VersionRange>, NoMemory>
    ensures found { IfOk result (λ o. IfSome o (λ r. IsRangeOf (text_at (codes "range") (view value.now)) r)) }
    ensures none { IfOk result (λ o. IfNone o (IsNoRange (text_at (codes "range") (view value.now)))) }
{
    match text_in(value, "range") {
        None => Ok(Some(any_version())),
        Some(text) => read_range_text(alloc, text),
    }
}

fn dep_path(alloc: Global, group: usize, place: usize, member: &str) -> Result<Text, NoMemory>
    ensures { IfOk result (λ path. path ≡ dep_path group place member.now) }
{
    let path = format!(in alloc; "dependencyGroups/{group}/dependencies/{place}{member}")?;
    Ok(Text::of(path))
}

fn read_dep(alloc: Global, group: usize, place: usize, value: &Value) -> Result<Dep, MetaErr>
    ensures ok { IfOk result (IsDepOf (view value.now)) }
    ensures refused { IfErr result (λ e. e ≢ MetaErr.Memory → IsRefusedDep group place (view value.now) e) }
{
    let Some(id) = PackageId::read(alloc, text_or_empty(value, "id"))? else {
        let path = dep_path(alloc, group, place, "/id")?;
        return Err(MetaErr::BadId(path));
    };
    let Some(range) = read_range(alloc, value)? else {
        let path = dep_path(alloc, group, place, "/range")?;
        return Err(MetaErr::BadRange(path));
    };
    Ok(Dep { id, range })
}

fn read_deps(alloc: Global, group: usize, values: &[Value]) -> Result<Many<Dep>, MetaErr>
    ensures ok { IfOk result (Match IsDepOf (map view values.now)) }
    ensures refused { IfErr result (λ e. e ≢ MetaErr.Memory → IsFirstRefused IsDepOf (IsRefusedDep group) (map view values.now) e) }
{
    let mut deps = Many::new(alloc);
    for (place, value) in values.iter().enumerate() {
        let dep = read_dep(alloc, group, place, value)?;
        deps.push(dep)?;
    }
    Ok(deps)
}

fn read_group(alloc: Global, group: usize, value: &Value) -> Result<DepGroup, MetaErr>
    ensures ok { IfOk result (IsGroupOf (view value.now)) }
    ensures refused { IfErr result (λ e. e ≢ MetaErr.Memory → IsRefusedGroup group (view value.now) e) }
{
    let framework = copy_text_in(alloc, value, "targetFramework")?;
    let deps = read_deps(alloc, group, items_in(value, "dependencies"))?;
    Ok(DepGroup { framework, deps })
}

fn read_groups(alloc: Global, values: &[Value]) -> Result<Many<DepGroup>, MetaErr>
    ensures ok { IfOk result (Match IsGroupOf (map view values.now)) }
    ensures refused { IfErr result (λ e. e ≢ MetaErr.Memory → IsFirstRefused IsGroupOf IsRefusedGroup (map view values.now) e) }
{
    let mut groups = Many::new(alloc);
    for (place, value) in values.iter().enumerate() {
        let group = read_group(alloc, place, value)?;
        groups.push(group)?;
    }
    Ok(groups)
}

fn read_addresses(alloc: Global, value: &Value) -> Result<Addresses, NoMemory>
    ensures { IfOk result (λ t. t ≡ addresses_at (view value.now)) }
{
    Ok(Addresses {
        icon_url: copy_text_in(alloc, value, "iconUrl")?,
        license_url: copy_text_in(alloc, value, "licenseUrl")?,
        project_url: copy_text_in(alloc, value, "projectUrl")?,
    })
}

fn read_prose(alloc: Global, value: &Value) -> Result<Prose, NoMemory>
    ensures { IfOk result (λ t. t ≡ prose_at (view value.now)) }
{
    Ok(Prose {
        authors: copy_text_in(alloc, value, "authors")?,
        description: copy_text_in(alloc, value, "description")?,
        summary: copy_text_in(alloc, value, "summary")?,
        title: copy_text_in(alloc, value, "title")?,
    })
}

fn read_release(alloc: Global, value: &Value) -> Result<Release, NoMemory>
    ensures { IfOk result (λ t. t ≡ release_at (view value.now)) }
{
    Ok(Release {
        min_client: copy_text_in(alloc, value, "minClientVersion")?,
        release_notes: copy_text_in(alloc, value, "releaseNotes")?,
    })
}

/// The texts of metadata that an object says, each under its name.
pub fn read_texts(alloc: Global, value: &Value) -> Result<Texts, NoMemory>
    ensures { IfOk result (λ t. t ≡ texts_at (view value.now)) }
{
    let addresses = read_addresses(alloc, value)?;
    let prose = read_prose(alloc, value)?;
    let release = read_release(alloc, value)?;
    Ok(Texts {
        addresses,
        prose,
        release,
    })
}

fn read_identity(alloc: Global, value: &Value) -> Result<Identity, MetaErr>
    ensures ok { IfOk result (IsIdentityOf (view value.now)) }
    ensures refused { IfErr result (λ e. e ≢ MetaErr.Memory → IsRefusedObject (view value.now) e) }
{
    let text = text_or_empty(value, "version");
    let verbatim = Text::copy_of(alloc, text)?;
    let Some(id) = PackageId::read(alloc, text_or_empty(value, "id"))? else {
        return Err(MetaErr::BadId(Text::copy_of(alloc, "id")?));
    };
    let Some(version) = Version::read(alloc, text)? else {
        return Err(MetaErr::BadVersion);
    };
    Ok(Identity {
        id,
        version,
        verbatim,
    })
}

// The metadata of an object whose members are of their kinds.
fn read_object(alloc: Global, value: &Value) -> Result<Meta, MetaErr>
    ensures ok { IfOk result (IsMetaOf (view value.now)) }
    ensures refused { IfErr result (λ e. e ≢ MetaErr.Memory → IsRefusedObject (view value.now) e) }
{
    let identity = read_identity(alloc, value)?;
    let groups = read_groups(alloc, items_in(value, "dependencyGroups"))?;
    let tags = copy_texts_of(alloc, items_in(value, "tags"))?;
    let texts = read_texts(alloc, value)?;
    let require_license = flag_in(value, "requireLicenseAcceptance");
    Ok(Meta::made_of(identity, texts, require_license, tags, groups))
}

// The object of a JSON text, where the bytes are one.
fn object_of(alloc: Global, bytes: &[u8]) -> Result<Option<Value>, NoMemory>
    requires { length bytes.now ≤ 32_768 }
    ensures found { IfOk result (λ o. IfSome o (λ v. IsObjectText bytes.now (view v))) }
    ensures none { IfOk result (λ o. IfNone o ((d : Data) → ¬ IsObjectText bytes.now d)) }
{
    let Some(value) = value_of(alloc, bytes)? else {
        return Ok(None);
    };
    if value.is_object() {
        Ok(Some(value))
    } else {
        Ok(None)
    }
}

impl Meta {
    /// Reads a publisher's metadata: a JSON object of at most 32,768 bytes. A null counts as absent,
    /// a repeated key with its last value, and other members than those of metadata are ignored.
    pub fn read(alloc: Global, bytes: &[u8]) -> Result<Self, MetaErr>
        ensures ok { IfOk result (IsMetaText bytes.now) }
        ensures refused { IfErr result (λ e. e ≢ MetaErr.Memory → IsRefusedMeta bytes.now e) }
    {
        if bytes.len() > MAX_META_LEN {
            return Err(MetaErr::TooLarge(bytes.len() as u64));
        }
        let Some(value) = object_of(alloc, bytes)? else {
            return Err(MetaErr::NotJson);
        };
        match misfit(&value) {
            Some(name) => Err(MetaErr::Field(Text::copy_of(alloc, name)?)),
            None => read_object(alloc, &value),
        }
    }
}
