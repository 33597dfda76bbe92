// What a hive's area holds, and what it is to hold.
use crate::changes::{KEYS, VERSION_KEYS};
use crate::rounds::BASE;
use blob_store::{Blobs, Fail as Failing, MemBlobs};
use catalog_core::Catalog;
use fold_core::{Body, Commit, Doc, Hive, docs_from_scratch};
use pkg_meta::{Bytes, NoMemory};
use std::alloc::{AllocError, Global};

/// A name, and what stands or is to stand there.
#[derive(Drop)]
pub struct Named {
    name: String,
    bytes: Option<Bytes>,
}

// The names that documents of an id may have.
fn names_of(alloc: Global, key: &str) -> Result<Vec<String>, AllocError> {
    let mut names = Vec::new(alloc);
    names.push(format!(in alloc; "d/{key}/index.json")?)?;
    for version in &VERSION_KEYS {
        names.push(format!(in alloc; "d/{key}/{version}.json")?)?;
        names.push(format!(in alloc; "d/{key}/{version}/{key}.{version}.nupkg")?)?;
        names.push(format!(in alloc; "d/{key}/{version}/{key}.nuspec")?)?;
    }
    Ok(names)
}

fn add_names(names: &mut Vec<String>, more: Vec<String>) -> Result<(), AllocError> {
    let mut more = more;
    names.append(&mut more)
}

// All names that an area may have.
fn all_names(alloc: Global) -> Result<Vec<String>, AllocError> {
    let mut names = Vec::new(alloc);
    names.push(String::from_str(alloc, "cursor.json")?)?;
    for key in &KEYS {
        names.push(format!(in alloc; "s/{key}.json")?)?;
        add_names(&mut names, names_of(alloc, key)?)?;
    }
    Ok(names)
}

// The bytes of a document.
fn bytes_of(
    alloc: Global,
    catalog: &mut Catalog<MemBlobs>,
    body: &Body,
) -> Result<Option<Bytes>, NoMemory> {
    match body {
        Body::Made(bytes) => Ok(Some(bytes.copy(alloc)?)),
        Body::Staged {
            number,
            place,
            nuspec,
        } => Ok(catalog.staged(alloc, *number, *place, *nuspec).ok()),
    }
}

// What is to stand under a name, where these are the documents.
fn wanted_at(
    alloc: Global,
    catalog: &mut Catalog<MemBlobs>,
    docs: &[Doc],
    name: &str,
) -> Result<Option<Bytes>, NoMemory> {
    for doc in docs {
        if doc.name.as_str() == name {
            return bytes_of(alloc, catalog, &doc.body);
        }
    }
    Ok(None)
}

// Adds what is to stand under the names of an id, and answers whether each of its documents has one of them.
fn add_wanted<H: Hive>(
    alloc: Global,
    catalog: &mut Catalog<MemBlobs>,
    commits: &[Commit],
    key: &str,
    wanted: &mut Vec<Named>,
) -> Result<bool, NoMemory> {
    let docs = docs_from_scratch::<H>(alloc, BASE, commits, key)?;
    let mut count = 0usize;
    for name in names_of(alloc, key)? {
        let bytes = wanted_at(alloc, catalog, docs.as_slice(), &name)?;
        if bytes.is_some() {
            count = count.saturating_add(1);
        }
        wanted.push(Named { name, bytes })?;
    }
    Ok(count == docs.len())
}

/// The from-scratch documents of all ids, and which names are to have none.
pub fn wanted<H: Hive>(
    alloc: Global,
    catalog: &mut Catalog<MemBlobs>,
) -> Result<Option<Vec<Named>>, NoMemory> {
    let Ok(commits) = catalog.commits(alloc) else {
        return Ok(None);
    };
    let mut wanted = Vec::new(alloc);
    for key in &KEYS {
        if !add_wanted::<H>(alloc, catalog, commits.as_slice(), key, &mut wanted)? {
            return Ok(None);
        }
    }
    Ok(Some(wanted))
}

fn is_as(alloc: Global, area: &mut MemBlobs, wanted: &Named) -> bool {
    match (area.get(alloc, &wanted.name), &wanted.bytes) {
        (Ok(Some(found)), Some(bytes)) => found.as_slice() == bytes.as_slice(),
        (Ok(None), None) => true,
        _ => false,
    }
}

/// Whether the area holds these documents, and none under the other names.
pub fn are_as(alloc: Global, area: &mut MemBlobs, wanted: &[Named]) -> bool {
    for named in wanted {
        if !is_as(alloc, area, named) {
            return false;
        }
    }
    true
}

/// All that the area holds.
pub fn held(alloc: Global, area: &mut MemBlobs) -> Result<Vec<Named>, NoMemory> {
    let mut held = Vec::new(alloc);
    for name in all_names(alloc)? {
        if let Ok(Some(bytes)) = area.get(alloc, &name) {
            let bytes = Some(bytes);
            held.push(Named { name, bytes })?;
        }
    }
    Ok(held)
}

// The calls behind so many from the first on, of which each fails.
fn failing(
    alloc: Global,
    before: u64,
    first: u64,
    calls: u64,
    took: bool,
) -> Result<Vec<Failing>, NoMemory> {
    let mut fails = Vec::new(alloc);
    for at in 0..calls {
        let call = before.saturating_add(first).saturating_add(at);
        fails.push(Failing { call, took })?;
    }
    Ok(fails)
}

/// A store that holds this, of whose calls from there on these fail.
pub fn store_of(
    alloc: Global,
    held: &[Named],
    first: u64,
    calls: u64,
    took: bool,
) -> Result<MemBlobs, NoMemory> {
    let fails = failing(alloc, held.len() as u64, first, calls, took)?;
    let mut area = MemBlobs::failing(alloc, &fails)?;
    for named in held {
        if let Some(bytes) = &named.bytes {
            let _done = area.put(alloc, &named.name, bytes.as_slice());
        }
    }
    Ok(area)
}
