// Rounds behind publishes and deletes of one package.
use crate::same::same;
use blob_store::{Blobs, MemBlobs};
use catalog_core::{Catalog, Change, CommitErr, init};
use flat_container::Content;
use fold_core::{Body, Doc, Hive, docs_from_scratch};
use id_pass::{RoundErr, RoundOut};
use job_round::run_round;
use pkg_meta::{Bytes, Many, Meta, NoMemory, PackageId, Ticks, Version};
use reg_docs::Plain;
use std::alloc::Global;
use std::process::Abort;
use std::test::Fail;

pub const BASE: &str = "http://f.test/";

pub fn moment() -> Ticks {
    Ticks::of(638_396_640_000_000_000).unwrap()
}

fn meta_of(alloc: Global, minor: u32) -> Result<Meta, NoMemory> {
    let text = format!(in alloc; "{{\"id\":\"Foo\",\"version\":\"1.{minor}.0\"}}")?;
    Meta::read(alloc, text.as_bytes()).ok().ok_or(NoMemory)
}

pub fn publish(alloc: Global, minor: u32) -> Result<Change, NoMemory> {
    let nuspec = Bytes::copy_of(alloc, b"<package/>")?;
    let package = Bytes::copy_of(alloc, b"abc")?;
    let meta = meta_of(alloc, minor)?;
    Ok(Change::Publish {
        meta,
        nuspec,
        package,
    })
}

fn version_of(alloc: Global, minor: u32) -> Result<Version, NoMemory> {
    let text = format!(in alloc; "1.{minor}.0")?;
    Version::read(alloc, text.as_str())?.ok_or(NoMemory)
}

pub fn delete(alloc: Global, minor: u32) -> Result<Change, NoMemory> {
    let version = version_of(alloc, minor)?;
    let id = PackageId::read(alloc, "foo")?.ok_or(NoMemory)?;
    Ok(Change::Delete { id, version })
}

// The number that a commit of this one change was told.
pub fn number_of(
    alloc: Global,
    catalog: &mut Catalog<MemBlobs>,
    change: Change,
) -> Result<u32, CommitErr> {
    let mut changes = Many::new(alloc);
    changes.push(change)?;
    let done = catalog.commit(alloc, &changes, moment())?;
    Ok(done.number)
}

// Publishes these versions, one commit each.
pub fn publish_all(
    alloc: Global,
    catalog: &mut Catalog<MemBlobs>,
    minors: std::ops::Range<u32>,
) -> Result<(), CommitErr> {
    for minor in minors {
        let change = publish(alloc, minor)?;
        number_of(alloc, catalog, change)?;
    }
    Ok(())
}

// Whether the area holds this document, where its bytes are made.
fn holds(alloc: Global, area: &mut MemBlobs, doc: &Doc) -> bool {
    let found = match area.get(alloc, doc.name.as_str()) {
        Ok(Some(found)) => found,
        _ => return false,
    };
    match &doc.body {
        Body::Made(bytes) => found.as_slice() == bytes.as_slice(),
        Body::Staged { .. } => true,
    }
}

// How many from-scratch documents the package has, where the area holds each of them.
pub fn documents<H: Hive>(
    alloc: Global,
    catalog: &mut Catalog<MemBlobs>,
    area: &mut MemBlobs,
) -> Option<usize> {
    let Ok(commits) = catalog.commits(alloc) else {
        return None;
    };
    let Ok(docs) = docs_from_scratch::<H>(alloc, BASE, commits.as_slice(), "foo") else {
        return None;
    };
    for doc in docs.as_slice() {
        if !holds(alloc, area, doc) {
            return None;
        }
    }
    Some(docs.len())
}

pub fn is_done(out: Result<RoundOut, RoundErr>, number: u32) -> bool {
    matches!(out, Ok(RoundOut::Done(n)) if n == number)
}

fn is_idle(out: Result<RoundOut, RoundErr>, number: u32) -> bool {
    matches!(out, Ok(RoundOut::Idle(n)) if n == number)
}

pub fn is_held(alloc: Global, area: &mut MemBlobs, name: &str) -> bool {
    matches!(area.get(alloc, name), Ok(Some(_)))
}

// The catalog of no commits.
pub fn made(alloc: Global) -> Result<Catalog<MemBlobs>, NoMemory> {
    match init(alloc, MemBlobs::new(alloc), BASE) {
        Ok(catalog) => Ok(catalog),
        Err(_) => Err(NoMemory),
    }
}

// Asserts that a round is done at this commit, and that so many documents are held behind it.
fn takes_up<H: Hive>(
    rt: &impl Abort,
    alloc: Global,
    catalog: &mut Catalog<MemBlobs>,
    area: &mut MemBlobs,
    number: u32,
    count: usize,
) {
    let out = run_round::<H, MemBlobs>(alloc, catalog, area);
    same(rt, is_done(out, number), true, number);
    same(
        rt,
        documents::<H>(alloc, catalog, area),
        Some(count),
        number,
    );
}

// Asserts that there is nothing to do behind this commit.
fn is_idle_at(
    rt: &impl Abort,
    alloc: Global,
    catalog: &mut Catalog<MemBlobs>,
    area: &mut MemBlobs,
    number: u32,
) {
    let out = run_round::<Plain, MemBlobs>(alloc, catalog, area);
    same(rt, is_idle(out, number), true, number);
}

// Asserts that these versions are published, one commit each.
fn are_published(
    rt: &impl Abort,
    alloc: Global,
    catalog: &mut Catalog<MemBlobs>,
    minors: std::ops::Range<u32>,
) {
    let first = minors.start;
    same(rt, publish_all(alloc, catalog, minors).is_ok(), true, first);
}

// Asserts that a version is deleted by a commit of this number.
fn is_deleted(
    rt: &impl Abort,
    alloc: Global,
    catalog: &mut Catalog<MemBlobs>,
    minor: u32,
    number: u32,
) -> Result<(), NoMemory> {
    let change = delete(alloc, minor)?;
    same(
        rt,
        number_of(alloc, catalog, change).ok(),
        Some(number),
        minor,
    );
    Ok(())
}

// Asserts whether the area holds this name.
fn check_held(rt: &impl Abort, alloc: Global, area: &mut MemBlobs, name: &str, want: bool) {
    same(rt, is_held(alloc, area, name), want, name);
}

#[test]
fn pages_are_cut_again(rt: HostRuntime) -> Result<(), Fail> {
    let alloc = rt.alloc();
    let mut catalog = made(alloc)?;
    let mut area = MemBlobs::new(alloc);
    is_idle_at(&rt, alloc, &mut catalog, &mut area, 0);
    are_published(&rt, alloc, &mut catalog, 0..64);
    are_published(&rt, alloc, &mut catalog, 65..128);
    takes_up::<Plain>(&rt, alloc, &mut catalog, &mut area, 127, 128);
    are_published(&rt, alloc, &mut catalog, 64..65);
    takes_up::<Plain>(&rt, alloc, &mut catalog, &mut area, 128, 131);
    check_held(&rt, alloc, &mut area, "d/foo/page/1.0.0/1.63.0.json", true);
    check_held(
        &rt,
        alloc,
        &mut area,
        "d/foo/page/1.64.0/1.127.0.json",
        true,
    );
    is_deleted(&rt, alloc, &mut catalog, 5, 129)?;
    takes_up::<Plain>(&rt, alloc, &mut catalog, &mut area, 129, 128);
    check_held(&rt, alloc, &mut area, "d/foo/page/1.0.0/1.63.0.json", false);
    check_held(&rt, alloc, &mut area, "d/foo/1.5.0.json", false);
    is_idle_at(&rt, alloc, &mut catalog, &mut area, 129);
    Ok(())
}

#[test]
fn a_package_goes(rt: HostRuntime) -> Result<(), Fail> {
    let alloc = rt.alloc();
    let mut catalog = made(alloc)?;
    let mut area = MemBlobs::new(alloc);
    are_published(&rt, alloc, &mut catalog, 0..1);
    takes_up::<Content>(&rt, alloc, &mut catalog, &mut area, 1, 3);
    is_deleted(&rt, alloc, &mut catalog, 0, 2)?;
    takes_up::<Content>(&rt, alloc, &mut catalog, &mut area, 2, 0);
    check_held(&rt, alloc, &mut area, "d/foo/index.json", false);
    check_held(&rt, alloc, &mut area, "s/foo.json", true);
    Ok(())
}
