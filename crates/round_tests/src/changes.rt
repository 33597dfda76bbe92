// Random commits of a few packages.
use crate::random::Random;
use crate::rounds::moment;
use blob_store::MemBlobs;
use catalog_core::{Catalog, Change, Changes};
use pkg_meta::{Bytes, Commit, Item, Many, Meta, NoMemory, PackageId, Version};
use std::alloc::{AllocError, Global};

/// The keys of the ids.
pub const KEYS: [&str; 6] = [
    "alpha",
    "beta.core",
    "gamma-x",
    "delta_1",
    "epsilon",
    "zeta",
];

// The ids, some in two spellings.
const IDS: [&str; 8] = [
    "Alpha",
    "ALPHA",
    "Beta.Core",
    "gamma-x",
    "Gamma-X",
    "Delta_1",
    "Epsilon",
    "Zeta",
];

/// The keys of the versions.
pub const VERSION_KEYS: [&str; 4] = ["1.0.0", "1.1.0-beta", "2.0.0-rc.1", "10.0.0"];

const VERSIONS: [&str; 4] = ["1.0", "1.1.0-Beta", "2.0.0-rc.1", "10.0.0+b.7"];

// A bound that makes a SemVer 2.0.0 package of its owner.
const DEPENDING: &str =
    ",\"dependencyGroups\":[{\"dependencies\":[{\"id\":\"Bar\",\"range\":\"[1.0.0-a.b, )\"}]}]";

fn metadata(alloc: Global, random: &mut Random) -> Result<String, AllocError> {
    let id = random.pick(&IDS);
    let version = random.pick(&VERSIONS);
    let more = if random.one_in(4) { DEPENDING } else { "" };
    format!(in alloc; "{{\"id\":\"{id}\",\"version\":\"{version}\"{more}}}")
}

// Some bytes.
fn bytes(alloc: Global, random: &mut Random) -> Result<Bytes, NoMemory> {
    let number = random.below(1_000_000);
    let text = format!(in alloc; "bytes {number}")?;
    Bytes::copy_of(alloc, text.as_bytes())
}

fn publish(alloc: Global, random: &mut Random) -> Result<Change, NoMemory> {
    let text = metadata(alloc, random)?;
    let nuspec = bytes(alloc, random)?;
    let package = bytes(alloc, random)?;
    let meta = Meta::read(alloc, text.as_bytes()).ok().ok_or(NoMemory)?;
    Ok(Change::Publish {
        meta,
        nuspec,
        package,
    })
}

fn named(alloc: Global, random: &mut Random) -> Result<(PackageId, Version), NoMemory> {
    let id = PackageId::read(alloc, random.pick(&IDS))?;
    let version = Version::read(alloc, random.pick(&VERSIONS))?;
    match (id, version) {
        (Some(id), Some(version)) => Ok((id, version)),
        _ => Err(NoMemory),
    }
}

fn change(alloc: Global, random: &mut Random) -> Result<Change, NoMemory> {
    let kind = random.below(6);
    if kind < 3 {
        return publish(alloc, random);
    }
    let (id, version) = named(alloc, random)?;
    Ok(match kind {
        3 => Change::Unlist { id, version },
        4 => Change::Relist { id, version },
        _ => Change::Delete { id, version },
    })
}

fn changes(alloc: Global, random: &mut Random) -> Result<Changes, NoMemory> {
    let mut changes = Many::new(alloc);
    for _ in 0..=random.below(3) {
        changes.push(change(alloc, random)?)?;
    }
    Ok(changes)
}

/// Commits random changes, up to three, and others where they are refused; it answers whether one list was committed.
pub fn commit_next(
    alloc: Global,
    catalog: &mut Catalog<MemBlobs>,
    random: &mut Random,
) -> Result<bool, NoMemory> {
    for _ in 0..1000u32 {
        let changes = changes(alloc, random)?;
        if catalog.commit(alloc, &changes, moment()).is_ok() {
            return Ok(true);
        }
    }
    Ok(false)
}

/// How many items are publishes, unlistings, listings and deletes.
#[derive(Drop)]
pub struct Kinds {
    pub publishes: u32,
    pub unlistings: u32,
    pub listings: u32,
    pub deletes: u32,
}

fn count(kinds: &mut Kinds, number: u32, item: &Item) {
    match item {
        Item::Gone { .. } => kinds.deletes = kinds.deletes.saturating_add(1),
        Item::Details(details) => {
            if !details.listed {
                kinds.unlistings = kinds.unlistings.saturating_add(1);
            } else if details.origin_number == number {
                kinds.publishes = kinds.publishes.saturating_add(1);
            } else {
                kinds.listings = kinds.listings.saturating_add(1);
            }
        }
    }
}

fn count_all(kinds: &mut Kinds, commit: &Commit) {
    for item in commit.items.as_slice() {
        count(kinds, commit.number, item);
    }
}

/// How many items of each kind the commits have.
pub fn all_kinds(commits: &[Commit]) -> Kinds {
    let mut kinds = Kinds {
        publishes: 0,
        unlistings: 0,
        listings: 0,
        deletes: 0,
    };
    for commit in commits {
        count_all(&mut kinds, commit);
    }
    kinds
}
