// The pages of a registration, in the index and stored.
ghost use Rattle.std.specs.Prelude.{◌≡◌, IfOk, map, string_bytes};
ghost use Rattle.serde_json.specs.View.{view};
ghost use Rattle.nuget_version.specs.Printed.{key_text, normal_text};
ghost use Rattle.reg_docs.specs.Documents.{registration_head_data, registration_head_object, in_index, inlined_at, listed_data, listed_object, registration_page_data, registration_page_object, registration_page_text, pages_data, stored_at};
ghost use Rattle.reg_docs.specs.Pages.{first_in, form_of, is_inlined, last_in};

use crate::addresses::{
    inlined_url, key_in, package_url, registration_index_url, registration_leaf_url,
    registration_page_url,
};
use crate::catalog_entry::entry_value;
use fold_core::{Bytes, Entry, NoMemory, Text};
use serde_json::{Value, json};
use std::alloc::{AllocError, Global};

/// How many entries a page holds, but for the last one.
pub(crate) const PAGE_LEN: usize = 64;

/// So many entries are too many for pages in the index.
const INLINE_END: usize = 128;

pub(crate) fn is_inlined(entries: &[Entry]) -> bool
    ensures { result ≡ is_inlined entries.now }
{
    entries.len() < INLINE_END
}

pub(crate) fn lower_key(alloc: Global, run: &[Entry]) -> Result<Text, NoMemory>
    ensures { IfOk result (λ t. t ≡ form_of key_text (first_in run.now)) }
{
    match run.first() {
        Some(entry) => key_in(alloc, entry),
        None => Text::copy_of(alloc, ""),
    }
}

pub(crate) fn upper_key(alloc: Global, run: &[Entry]) -> Result<Text, NoMemory>
    ensures { IfOk result (λ t. t ≡ form_of key_text (last_in run.now)) }
{
    match run.last() {
        Some(entry) => key_in(alloc, entry),
        None => Text::copy_of(alloc, ""),
    }
}

fn lower(alloc: Global, run: &[Entry]) -> Result<Text, NoMemory>
    ensures { IfOk result (λ t. t ≡ form_of normal_text (first_in run.now)) }
{
    match run.first() {
        Some(first) => first.details.meta.version.normal(alloc),
        None => Text::copy_of(alloc, ""),
    }
}

fn upper(alloc: Global, run: &[Entry]) -> Result<Text, NoMemory>
    ensures { IfOk result (λ t. t ≡ form_of normal_text (last_in run.now)) }
{
    match run.last() {
        Some(last) => last.details.meta.version.normal(alloc),
        None => Text::copy_of(alloc, ""),
    }
}

fn listed_object(
    alloc: Global,
    url: String,
    entry: Value,
    content: String,
) -> Result<Value, AllocError>
    ensures { IfOk result (λ v. view v ≡ listed_object (string_bytes url) (view entry) (string_bytes content)) }
{
    json!(in alloc; {"@id": url, "catalogEntry": entry, "packageContent": content})
}

fn listed_value(
    alloc: Global,
    base: &str,
    root: &str,
    key: &str,
    entry: &Entry,
) -> Result<Value, NoMemory>
    ensures { IfOk result (λ v. view v ≡ listed_data base.now root.now key.now entry.now) }
{
    let version = key_in(alloc, entry)?;
    let url = registration_leaf_url(alloc, root, key, version.as_str())?;
    let content = package_url(alloc, base, key, version.as_str())?;
    let value = entry_value(alloc, base, root, entry)?;
    Ok(listed_object(alloc, url, value, content)?)
}

fn listed_values(
    alloc: Global,
    base: &str,
    root: &str,
    key: &str,
    run: &[Entry],
) -> Result<Vec<Value>, NoMemory>
    ensures { IfOk result (λ values. map view values.items ≡ map (listed_data base.now root.now key.now) run.now) }
{
    let mut values = Vec::new(alloc);
    for entry in run {
        let value = listed_value(alloc, base, root, key, entry)?;
        serde_json::push(&mut values, value)?;
    }
    Ok(values)
}

fn registration_page_object(
    alloc: Global,
    url: String,
    count: usize,
    listed: Vec<Value>,
    lower: Text,
    parent: String,
    upper: Text,
) -> Result<Value, AllocError>
    ensures { IfOk result (λ v. view v ≡ registration_page_object (string_bytes url) count (map view listed.items) lower (string_bytes parent) upper) }
{
    let lower = lower.into_string();
    let upper = upper.into_string();
    json!(in alloc; {
        "@id": url,
        "count": count,
        "items": listed,
        "lower": lower,
        "parent": parent,
        "upper": upper
    })
}

fn registration_page_value(
    alloc: Global,
    url: String,
    base: &str,
    root: &str,
    key: &str,
    run: &[Entry],
) -> Result<Value, NoMemory>
    ensures { IfOk result (λ v. view v ≡ registration_page_data (string_bytes url) base.now root.now key.now run.now) }
{
    let listed = listed_values(alloc, base, root, key, run)?;
    let lower = lower(alloc, run)?;
    let upper = upper(alloc, run)?;
    let parent = registration_index_url(alloc, root, key)?;
    Ok(registration_page_object(alloc, url, run.len(), listed, lower, parent, upper)?)
}

fn inlined_at(alloc: Global, root: &str, key: &str, run: &[Entry]) -> Result<String, NoMemory>
    ensures { IfOk result (λ url. string_bytes url ≡ inlined_at root.now key.now run.now) }
{
    let lower = lower_key(alloc, run)?;
    let upper = upper_key(alloc, run)?;
    Ok(inlined_url(alloc, root, key, lower.as_str(), upper.as_str())?)
}

fn stored_at(alloc: Global, root: &str, key: &str, run: &[Entry]) -> Result<String, NoMemory>
    ensures { IfOk result (λ url. string_bytes url ≡ stored_at root.now key.now run.now) }
{
    let lower = lower_key(alloc, run)?;
    let upper = upper_key(alloc, run)?;
    Ok(registration_page_url(alloc, root, key, lower.as_str(), upper.as_str())?)
}

fn registration_head_object(
    alloc: Global,
    url: String,
    count: usize,
    lower: Text,
    upper: Text,
) -> Result<Value, AllocError>
    ensures { IfOk result (λ v. view v ≡ registration_head_object (string_bytes url) count lower upper) }
{
    let lower = lower.into_string();
    let upper = upper.into_string();
    json!(in alloc; {"@id": url, "count": count, "lower": lower, "upper": upper})
}

fn registration_head_value(
    alloc: Global,
    root: &str,
    key: &str,
    run: &[Entry],
) -> Result<Value, NoMemory>
    ensures { IfOk result (λ v. view v ≡ registration_head_data root.now key.now run.now) }
{
    let url = stored_at(alloc, root, key, run)?;
    let lower = lower(alloc, run)?;
    let upper = upper(alloc, run)?;
    Ok(registration_head_object(alloc, url, run.len(), lower, upper)?)
}

// A page as the index has it.
fn in_index(
    alloc: Global,
    inlined: bool,
    base: &str,
    root: &str,
    key: &str,
    run: &[Entry],
) -> Result<Value, NoMemory>
    ensures { IfOk result (λ v. view v ≡ in_index inlined base.now root.now key.now run.now) }
{
    if !inlined {
        return registration_head_value(alloc, root, key, run);
    }
    let url = inlined_at(alloc, root, key, run)?;
    registration_page_value(alloc, url, base, root, key, run)
}

/// The pages of the index.
pub(crate) fn page_values(
    alloc: Global,
    base: &str,
    root: &str,
    key: &str,
    entries: &[Entry],
) -> Result<Vec<Value>, NoMemory>
    ensures { IfOk result (λ values. map view values.items ≡ pages_data base.now root.now key.now entries.now) }
{
    let inlined = is_inlined(entries);
    let mut values = Vec::new(alloc);
    for run in entries.chunks(PAGE_LEN) {
        let value = in_index(alloc, inlined, base, root, key, run)?;
        serde_json::push(&mut values, value)?;
    }
    Ok(values)
}

/// The bytes of a stored page.
#[tactic(auto, unfolding(crate::specs::Documents::registration_page_text))]
pub(crate) fn registration_page_bytes(
    alloc: Global,
    base: &str,
    root: &str,
    key: &str,
    run: &[Entry],
) -> Result<Bytes, NoMemory>
    ensures { IfOk result (λ b. b ≡ registration_page_text base.now root.now key.now run.now) }
{
    let url = stored_at(alloc, root, key, run)?;
    let value = registration_page_value(alloc, url, base, root, key, run)?;
    let bytes = value.to_vec(alloc)?;
    Ok(Bytes::of(bytes))
}
