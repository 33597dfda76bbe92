// The index of a registration.
ghost use Rattle.std.specs.Prelude.{◌≡◌, IfOk, map, string_bytes};
ghost use Rattle.serde_json.specs.View.{view};
ghost use Rattle.reg_docs.specs.Addresses.{root_of};
ghost use Rattle.reg_docs.specs.Documents.{registration_index_data, registration_index_object, registration_index_text};

use crate::addresses::{RegistrationHive, registration_index_url, root_of};
use crate::page::page_values;
use catalog_doc::commit_id;
use fold_core::{Bytes, Entry, NoMemory, Ticks};
use serde_json::{Value, json};
use std::alloc::{AllocError, Global};

fn registration_index_object(
    alloc: Global,
    url: String,
    commit: String,
    stamp: String,
    count: usize,
    pages: Vec<Value>,
) -> Result<Value, AllocError>
    ensures { IfOk result (λ v. view v ≡ registration_index_object (string_bytes url) (string_bytes commit) (string_bytes stamp) count (map view pages.items)) }
{
    json!(in alloc; {
        "@id": url,
        "commitId": commit,
        "commitTimeStamp": stamp,
        "count": count,
        "items": pages
    })
}

fn registration_index_value(
    alloc: Global,
    base: &str,
    root: &str,
    key: &str,
    touched: u32,
    touched_stamp: Ticks,
    entries: &[Entry],
) -> Result<Value, NoMemory>
    ensures { IfOk result (λ v. view v ≡ registration_index_data base.now root.now key.now touched touched_stamp entries.now) }
{
    let url = registration_index_url(alloc, root, key)?;
    let commit = commit_id(alloc, touched)?;
    let stamp = touched_stamp.print(alloc)?.into_string();
    let pages = page_values(alloc, base, root, key, entries)?;
    let count = pages.len();
    Ok(registration_index_object(alloc, url, commit, stamp, count, pages)?)
}

#[tactic(auto, unfolding(crate::specs::Documents::registration_index_text))]
pub(crate) fn registration_index_bytes(
    alloc: Global,
    base: &str,
    root: &str,
    key: &str,
    touched: u32,
    touched_stamp: Ticks,
    entries: &[Entry],
) -> Result<Bytes, NoMemory>
    ensures { IfOk result (λ b. b ≡ registration_index_text base.now root.now key.now touched touched_stamp entries.now) }
{
    let value = registration_index_value(alloc, base, root, key, touched, touched_stamp, entries)?;
    let bytes = value.to_vec(alloc)?;
    Ok(Bytes::of(bytes))
}

/// The registration index of the id with this key, whose last item stands in the commit `touched`.
pub fn reg_index(
    alloc: Global,
    base: &str,
    hive: RegistrationHive,
    key: &str,
    touched: u32,
    touched_stamp: Ticks,
    entries: &[Entry],
) -> Result<Bytes, NoMemory>
    ensures { IfOk result (λ b. b ≡ registration_index_text base.now (root_of base.now hive) key.now touched touched_stamp entries.now) }
{
    let root = root_of(alloc, base, hive)?;
    registration_index_bytes(alloc, base, &root, key, touched, touched_stamp, entries)
}
