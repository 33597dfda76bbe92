// Commits, and the documents that a hive makes of them.
use fold_core::{Body, Commit, Details, Doc, Hive, Item, Many, NoMemory, docs_from_scratch};
use pkg_meta::{Meta, Text, Ticks};
use std::alloc::Global;
use std::convert::AsStr;

pub const BASE: &str = "http://f.test/";

// Commits come a second apart, from the begin of 2024 on.
pub fn stamp(number: u32) -> Ticks {
    Ticks::of(638_396_639_990_000_000 + u64::from(number) * 10_000_000).unwrap()
}

// The details of the publish of a package with this metadata.
pub fn details(alloc: Global, text: &str, number: u32, place: u32) -> Result<Details, NoMemory> {
    let hash = Text::copy_of(alloc, "")?;
    let Ok(meta) = Meta::read(alloc, text.as_bytes()) else {
        return Err(NoMemory);
    };
    Ok(Details::published(meta, number, place, stamp(number), 3, hash))
}

// The delete of the version that the details are of.
fn gone_of(alloc: Global, details: &Details) -> Result<Item, NoMemory> {
    let id = details.meta.id.copy(alloc)?;
    let version = details.meta.version.copy(alloc)?;
    Ok(Item::Gone { id, version })
}

/// The delete of the version that this metadata is of.
pub fn gone(alloc: Global, text: &str) -> Result<Item, NoMemory> {
    gone_of(alloc, &details(alloc, text, 1, 0)?)
}

pub fn commit(number: u32, items: Many<Item>) -> Commit {
    let stamp = stamp(number);
    Commit {
        number,
        stamp,
        items,
    }
}

// A commit of publishes, at most 64.
pub fn publishes<T: AsStr>(alloc: Global, number: u32, texts: &[T]) -> Result<Commit, NoMemory> {
    let mut items = Many::new(alloc);
    for (place, text) in (0..64).zip(texts) {
        let details = details(alloc, text.as_str(), number, place)?;
        items.push(Item::Details(details))?;
    }
    Ok(commit(number, items))
}

pub fn docs<H: Hive>(alloc: Global, commits: &[Commit]) -> Result<Many<Doc>, NoMemory> {
    docs_from_scratch::<H>(alloc, BASE, commits, "foo")
}

pub fn text_of(doc: &Doc) -> &str {
    match &doc.body {
        Body::Made(bytes) => std::str::from_utf8(bytes.as_slice()).unwrap_or("no text"),
        Body::Staged { .. } => "staged",
    }
}

// The names and texts of a hive's documents, each behind the one before.
pub fn told<H: Hive>(alloc: Global, commits: &[Commit]) -> Result<String, NoMemory> {
    let mut told = String::new(alloc);
    for doc in docs::<H>(alloc, commits)?.as_slice() {
        told.push_str(doc.name.as_str())?;
        told.push_str(text_of(doc))?;
    }
    Ok(told)
}
