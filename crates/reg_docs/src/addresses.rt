// Where documents are served, and their names.
ghost use Rattle.std.specs.Prelude.{◌≡◌, IfOk, string_bytes};
ghost use Rattle.fold_core.specs.Docs as docs;
ghost use Rattle.pkg_meta.specs.Entries.{key_in};
ghost use Rattle.reg_docs.specs.Addresses.{registration_index_url, inlined_url, registration_leaf_name, registration_leaf_url, package_url, registration_page_name, registration_page_url, root_of};

use fold_core::{Entry, NoMemory, Text};
use std::alloc::{AllocError, Global};

/// The two registration hives.
#[derive(Clone, Copy, Debug, PartialEq, Eq)]
pub enum RegistrationHive {
    Plain,
    SemVer2,
}

pub(crate) fn key_in(alloc: Global, entry: &Entry) -> Result<Text, NoMemory>
    ensures { IfOk result (λ key. key ≡ key_in entry.now) }
{
    entry.details.meta.version.key(alloc)
}

pub(crate) fn root_of(
    alloc: Global,
    base: &str,
    hive: RegistrationHive,
) -> Result<String, AllocError>
    ensures { IfOk result (λ url. string_bytes url ≡ root_of base.now hive) }
{
    match hive {
        RegistrationHive::Plain => format!(in alloc; "{base}v3/registration/"),
        RegistrationHive::SemVer2 => format!(in alloc; "{base}v3/registration-semver2/"),
    }
}

pub(crate) fn registration_index_url(
    alloc: Global,
    root: &str,
    key: &str,
) -> Result<String, AllocError>
    ensures { IfOk result (λ url. string_bytes url ≡ registration_index_url root.now key.now) }
{
    format!(in alloc; "{root}{key}/index.json")
}

pub(crate) fn registration_leaf_url(
    alloc: Global,
    root: &str,
    key: &str,
    version: &str,
) -> Result<String, AllocError>
    ensures { IfOk result (λ url. string_bytes url ≡ registration_leaf_url root.now key.now version.now) }
{
    format!(in alloc; "{root}{key}/{version}.json")
}

pub(crate) fn registration_page_url(
    alloc: Global,
    root: &str,
    key: &str,
    lower: &str,
    upper: &str,
) -> Result<String, AllocError>
    ensures { IfOk result (λ url. string_bytes url ≡ registration_page_url root.now key.now lower.now upper.now) }
{
    format!(in alloc; "{root}{key}/page/{lower}/{upper}.json")
}

pub(crate) fn inlined_url(
    alloc: Global,
    root: &str,
    key: &str,
    lower: &str,
    upper: &str,
) -> Result<String, AllocError>
    ensures { IfOk result (λ url. string_bytes url ≡ inlined_url root.now key.now lower.now upper.now) }
{
    format!(in alloc; "{root}{key}/index.json#page/{lower}/{upper}")
}

pub(crate) fn package_url(
    alloc: Global,
    base: &str,
    key: &str,
    version: &str,
) -> Result<String, AllocError>
    ensures { IfOk result (λ url. string_bytes url ≡ package_url base.now key.now version.now) }
{
    format!(in alloc; "{base}v3/flat/{key}/{version}/{key}.{version}.nupkg")
}

pub(crate) fn index_name(alloc: Global, key: &str) -> Result<Text, NoMemory>
    ensures { IfOk result (λ name. name ≡ docs.id_index_name key.now) }
{
    let name = format!(in alloc; "d/{key}/index.json")?;
    Ok(Text::of(name))
}

pub(crate) fn registration_leaf_name(
    alloc: Global,
    key: &str,
    version: &str,
) -> Result<Text, NoMemory>
    ensures { IfOk result (λ name. name ≡ registration_leaf_name key.now version.now) }
{
    let name = format!(in alloc; "d/{key}/{version}.json")?;
    Ok(Text::of(name))
}

pub(crate) fn registration_page_name(
    alloc: Global,
    key: &str,
    lower: &str,
    upper: &str,
) -> Result<Text, NoMemory>
    ensures { IfOk result (λ name. name ≡ registration_page_name key.now lower.now upper.now) }
{
    let name = format!(in alloc; "d/{key}/page/{lower}/{upper}.json")?;
    Ok(Text::of(name))
}
