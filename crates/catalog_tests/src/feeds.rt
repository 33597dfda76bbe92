// Catalogs in memory, and changes of packages that are named by texts.
use blob_store::{Fail as Fault, MemBlobs};
use catalog_core::{Catalog, Change, Changes, init, open_catalog};
use pkg_meta::{Bytes, Many, Meta, NoMemory, PackageId, Ticks, Version};
use std::alloc::{AllocError, Global};

pub const BASE: &str = "http://f.test/";

// 2024-01-01T00:00:00Z.
pub const START: u64 = 638_396_640_000_000_000;

/// The catalog of no commits, in a store whose calls of these numbers fail; its own calls are the first two.
pub fn empty(alloc: Global, fails: &[Fault]) -> Result<Catalog<MemBlobs>, NoMemory> {
    let area = MemBlobs::failing(alloc, fails)?;
    match init(alloc, area, BASE) {
        Ok(catalog) => Ok(catalog),
        Err(_) => Err(NoMemory),
    }
}

/// The catalog of a store that is opened again until it opens, or 100 times.
pub fn opened(alloc: Global, area: MemBlobs) -> Option<Catalog<MemBlobs>> {
    let mut area = area;
    for _ in 0..100u32 {
        match open_catalog(alloc, area, None) {
            Ok(catalog) => return Some(catalog),
            Err((_, left)) => area = left,
        }
    }
    None
}

// The metadata of a package without more of it.
fn meta_of(alloc: Global, id: &str, version: &str) -> Result<Meta, NoMemory> {
    let text = format!(in alloc; "{{\"id\":\"{id}\",\"version\":\"{version}\"}}")?;
    Meta::read(alloc, text.as_bytes()).ok().ok_or(NoMemory)
}

/// A publish of a package without more metadata.
pub fn publish(alloc: Global, id: &str, version: &str) -> Result<Change, NoMemory> {
    let nuspec = Bytes::copy_of(alloc, b"<package/>")?;
    let package = Bytes::copy_of(alloc, b"abc")?;
    let meta = meta_of(alloc, id, version)?;
    Ok(Change::Publish {
        meta,
        nuspec,
        package,
    })
}

/// An id and a version.
pub fn pair(alloc: Global, id: &str, version: &str) -> Result<(PackageId, Version), NoMemory> {
    let id = PackageId::read(alloc, id)?;
    let version = Version::read(alloc, version)?;
    match (id, version) {
        (Some(id), Some(version)) => Ok((id, version)),
        _ => Err(NoMemory),
    }
}

pub fn unlisting(alloc: Global, id: &str, version: &str) -> Result<Change, NoMemory> {
    let (id, version) = pair(alloc, id, version)?;
    Ok(Change::Unlist { id, version })
}

pub fn relisting(alloc: Global, id: &str, version: &str) -> Result<Change, NoMemory> {
    let (id, version) = pair(alloc, id, version)?;
    Ok(Change::Relist { id, version })
}

pub fn delete(alloc: Global, id: &str, version: &str) -> Result<Change, NoMemory> {
    let (id, version) = pair(alloc, id, version)?;
    Ok(Change::Delete { id, version })
}

/// A list of one change.
pub fn one(alloc: Global, change: Change) -> Result<Changes, NoMemory> {
    let mut changes = Many::new(alloc);
    changes.push(change)?;
    Ok(changes)
}

/// So many publishes of Foo, of its versions 1.0.`first` and those that follow.
pub fn publishes(alloc: Global, first: u32, count: u32) -> Result<Changes, NoMemory> {
    let mut changes = Many::new(alloc);
    for number in 0..count {
        let number = first.saturating_add(number);
        let version = format!(in alloc; "1.0.{number}")?;
        changes.push(publish(alloc, "Foo", &version)?)?;
    }
    Ok(changes)
}

/// Commits changes at this moment, and tells what was answered.
pub fn told(
    alloc: Global,
    catalog: &mut Catalog<MemBlobs>,
    changes: &Changes,
    now: u64,
) -> Result<String, AllocError> {
    let Some(now) = Ticks::of(now) else {
        return format!(in alloc; "no moment");
    };
    match catalog.commit(alloc, changes, now) {
        Ok(done) => match done.stamp.print(alloc) {
            Ok(stamp) => format!(in alloc; "committed {} {}", done.number, stamp.as_str()),
            Err(error) => format!(in alloc; "{error}"),
        },
        Err(error) => format!(in alloc; "{error}"),
    }
}
