// All documents of an id.
ghost use Rattle.std.specs.Prelude.{◌≡◌, ◌++◌, IfOk, OnOk, map};
ghost use Rattle.reg_docs.specs.Addresses.{root_of};
ghost use Rattle.reg_docs.specs.Documents.{docs_below, registration_index_doc, registration_leaf_doc, registration_page_doc, registration_page_docs, registration_docs};

use crate::addresses::{
    RegistrationHive, index_name, key_in, registration_leaf_name, registration_page_name, root_of,
};
use crate::index::registration_index_bytes;
use crate::leaf::registration_leaf_bytes;
use crate::page::{PAGE_LEN, is_inlined, lower_key, registration_page_bytes, upper_key};
use fold_core::{Body, Doc, Entry, Many, NoMemory, Ticks};
use std::alloc::Global;

fn registration_index_doc(
    alloc: Global,
    base: &str,
    root: &str,
    key: &str,
    touched: u32,
    touched_stamp: Ticks,
    entries: &[Entry],
) -> Result<Doc, NoMemory>
    ensures { IfOk result (λ doc. doc ≡ registration_index_doc base.now root.now key.now touched touched_stamp entries.now) }
{
    let name = index_name(alloc, key)?;
    let bytes = registration_index_bytes(alloc, base, root, key, touched, touched_stamp, entries)?;
    let body = Body::Made(bytes);
    Ok(Doc { name, body })
}

fn registration_page_doc(
    alloc: Global,
    base: &str,
    root: &str,
    key: &str,
    run: &[Entry],
) -> Result<Doc, NoMemory>
    ensures { IfOk result (λ doc. doc ≡ registration_page_doc base.now root.now key.now run.now) }
{
    let lower = lower_key(alloc, run)?;
    let upper = upper_key(alloc, run)?;
    let name = registration_page_name(alloc, key, lower.as_str(), upper.as_str())?;
    let body = Body::Made(registration_page_bytes(alloc, base, root, key, run)?);
    Ok(Doc { name, body })
}

fn registration_leaf_doc(
    alloc: Global,
    base: &str,
    root: &str,
    key: &str,
    entry: &Entry,
) -> Result<Doc, NoMemory>
    ensures { IfOk result (λ doc. doc ≡ registration_leaf_doc base.now root.now key.now entry.now) }
{
    let version = key_in(alloc, entry)?;
    let name = registration_leaf_name(alloc, key, version.as_str())?;
    let body = Body::Made(registration_leaf_bytes(alloc, base, root, key, entry)?);
    Ok(Doc { name, body })
}

fn push_pages(
    alloc: Global,
    docs: &mut Many<Doc>,
    base: &str,
    root: &str,
    key: &str,
    entries: &[Entry],
) -> Result<(), NoMemory>
    ensures { OnOk result (docs.new ≡ docs.old ++ registration_page_docs base.now root.now key.now entries.now) }
{
    if is_inlined(entries) {
        return Ok(());
    }
    for run in entries.chunks(PAGE_LEN) {
        docs.push(registration_page_doc(alloc, base, root, key, run)?)?;
    }
    Ok(())
}

fn push_leaves(
    alloc: Global,
    docs: &mut Many<Doc>,
    base: &str,
    root: &str,
    key: &str,
    entries: &[Entry],
) -> Result<(), NoMemory>
    ensures { OnOk result (docs.new ≡ docs.old ++ map (registration_leaf_doc base.now root.now key.now) entries.now) }
{
    for entry in entries {
        docs.push(registration_leaf_doc(alloc, base, root, key, entry)?)?;
    }
    Ok(())
}

/// The stored pages of the id with this key, none where it has fewer than 128 entries.
pub fn reg_pages(
    alloc: Global,
    base: &str,
    hive: RegistrationHive,
    key: &str,
    entries: &[Entry],
) -> Result<Many<Doc>, NoMemory>
    ensures { IfOk result (λ docs. docs ≡ registration_page_docs base.now (root_of base.now hive) key.now entries.now) }
{
    let root = root_of(alloc, base, hive)?;
    let mut docs = Many::new(alloc);
    push_pages(alloc, &mut docs, base, &root, key, entries)?;
    Ok(docs)
}

fn docs_below(
    alloc: Global,
    base: &str,
    root: &str,
    key: &str,
    touched: u32,
    touched_stamp: Ticks,
    entries: &[Entry],
) -> Result<Many<Doc>, NoMemory>
    ensures { IfOk result (λ docs. docs ≡ docs_below base.now root.now key.now touched touched_stamp entries.now) }
{
    let mut docs = Many::new(alloc);
    if entries.is_empty() {
        return Ok(docs);
    }
    docs.push(registration_index_doc(alloc, base, root, key, touched, touched_stamp, entries)?)?;
    push_pages(alloc, &mut docs, base, root, key, entries)?;
    push_leaves(alloc, &mut docs, base, root, key, entries)?;
    Ok(docs)
}

pub(crate) fn registration_docs(
    alloc: Global,
    hive: RegistrationHive,
    base: &str,
    key: &str,
    touched: u32,
    touched_stamp: Ticks,
    entries: &[Entry],
) -> Result<Many<Doc>, NoMemory>
    ensures { IfOk result (λ docs. docs ≡ registration_docs hive base.now key.now touched touched_stamp entries.now) }
{
    let root = root_of(alloc, base, hive)?;
    docs_below(alloc, base, &root, key, touched, touched_stamp, entries)
}
