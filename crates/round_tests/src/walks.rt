// Random catalogs, with jobs at random places, each of whose store calls fails, and a last job behind further commits.
use crate::areas::{Named, are_as, held, store_of, wanted};
use crate::changes::{Kinds, all_kinds, commit_next};
use crate::failures::ends;
use crate::random::Random;
use crate::rounds::made;
use crate::same::same;
use auto_docs::Auto;
use blob_store::MemBlobs;
use catalog_core::Catalog;
use flat_container::Content;
use fold_core::Hive;
use job_round::run_round;
use pkg_meta::NoMemory;
use reg_docs::{Plain, SemVer2};
use std::alloc::Global;
use std::test::Fail;

const COMMITS: u32 = 40;

// How many calls fail from one on, and whether they take effect.
const FAULTS: [(u64, bool); 4] = [(1, false), (1, true), (5, false), (5, true)];

// Adds the area that a job leaves whose call fails, in each way, and answers whether the job has that call.
fn stop_at<H: Hive>(
    alloc: Global,
    catalog: &mut Catalog<MemBlobs>,
    held: &[Named],
    call: u64,
    stopped: &mut Vec<MemBlobs>,
) -> Result<bool, NoMemory> {
    for (calls, took) in &FAULTS {
        let mut area = store_of(alloc, held, call, *calls, *took)?;
        if run_round::<H, MemBlobs>(alloc, catalog, &mut area).is_ok() {
            return Ok(false);
        }
        stopped.push(area)?;
    }
    Ok(true)
}

// Adds what a job leaves of this area where its first call fails, its second, and so on.
fn stop_each<H: Hive>(
    alloc: Global,
    catalog: &mut Catalog<MemBlobs>,
    area: &mut MemBlobs,
    stopped: &mut Vec<MemBlobs>,
) -> Result<(), NoMemory> {
    let held = held(alloc, area)?;
    for call in 1..500u64 {
        if !stop_at::<H>(alloc, catalog, &held, call, stopped)? {
            return Ok(());
        }
    }
    Ok(())
}

// Runs the last job on each of these areas, and answers how many there are, if it leaves the documents in each.
fn finish_each<H: Hive>(
    alloc: Global,
    catalog: &mut Catalog<MemBlobs>,
    stopped: Vec<MemBlobs>,
    commit: u32,
    wanted: &[Named],
) -> Option<u32> {
    let mut count = 0u32;
    for area in stopped {
        let mut area = area;
        if !ends::<H>(alloc, catalog, &mut area, commit) || !are_as(alloc, &mut area, wanted) {
            return None;
        }
        count = count.saturating_add(1);
    }
    Some(count)
}

// Runs the last job on the areas of those that were stopped before, and answers their number; then a job on the hive's area,
// and the areas that it leaves where it is stopped.
fn turn<H: Hive>(
    alloc: Global,
    catalog: &mut Catalog<MemBlobs>,
    area: &mut MemBlobs,
    stopped: Vec<MemBlobs>,
    commit: u32,
) -> Result<Option<(u32, Vec<MemBlobs>)>, NoMemory> {
    let Some(wanted) = wanted::<H>(alloc, catalog)? else {
        return Ok(None);
    };
    let Some(count) = finish_each::<H>(alloc, catalog, stopped, commit, &wanted) else {
        return Ok(None);
    };
    let mut left = Vec::new(alloc);
    if commit < COMMITS {
        stop_each::<H>(alloc, catalog, area, &mut left)?;
    }
    if ends::<H>(alloc, catalog, area, commit) && are_as(alloc, area, &wanted) {
        Ok(Some((count, left)))
    } else {
        Ok(None)
    }
}

// Commits to a catalog, with a job behind one commit in twelve and behind the last. It answers how many stopped jobs were
// made good.
fn walk<H: Hive>(
    alloc: Global,
    catalog: &mut Catalog<MemBlobs>,
    seed: u64,
) -> Result<Option<u32>, NoMemory> {
    let mut random = Random::new(1);
    let mut places = Random::new(seed);
    let mut area = MemBlobs::new(alloc);
    let mut stopped = Vec::new(alloc);
    let mut count = 0u32;
    for commit in 1..=COMMITS {
        if !commit_next(alloc, catalog, &mut random)? {
            return Ok(None);
        }
        if places.one_in(12) || commit == COMMITS {
            match turn::<H>(alloc, catalog, &mut area, stopped, commit)? {
                Some((more, left)) => {
                    count = count.saturating_add(more);
                    stopped = left;
                }
                None => return Ok(None),
            }
        }
    }
    Ok(Some(count))
}

// The same from the catalog of no commits on.
fn walked<H: Hive>(alloc: Global, seed: u64) -> Result<Option<u32>, NoMemory> {
    let mut catalog = made(alloc)?;
    walk::<H>(alloc, &mut catalog, seed)
}

// Whether the walk comes to its end, with more than 100 jobs stopped and made good on its way.
fn is_walked<H: Hive>(alloc: Global, seed: u64) -> Result<bool, NoMemory> {
    let count = walked::<H>(alloc, seed)?;
    Ok(count.is_some_and(|count| count > 100))
}

#[test]
fn plain_jobs_are_made_good(rt: HostRuntime) -> Result<(), Fail> {
    assert!(rt; is_walked::<Plain>(rt.alloc(), 53)?);
    Ok(())
}

#[test]
fn semver2_jobs_are_made_good(rt: HostRuntime) -> Result<(), Fail> {
    assert!(rt; is_walked::<SemVer2>(rt.alloc(), 42)?);
    Ok(())
}

#[test]
fn content_jobs_are_made_good(rt: HostRuntime) -> Result<(), Fail> {
    assert!(rt; is_walked::<Content>(rt.alloc(), 33)?);
    Ok(())
}

#[test]
fn auto_jobs_are_made_good(rt: HostRuntime) -> Result<(), Fail> {
    assert!(rt; is_walked::<Auto>(rt.alloc(), 57)?);
    Ok(())
}

// Commits what all walks commit.
fn commits_made(alloc: Global, catalog: &mut Catalog<MemBlobs>) -> Result<bool, NoMemory> {
    let mut random = Random::new(1);
    for _ in 0..COMMITS {
        if !commit_next(alloc, catalog, &mut random)? {
            return Ok(false);
        }
    }
    Ok(true)
}

// How many commits there are, and how many items of each kind.
fn kinds_of(alloc: Global, catalog: &mut Catalog<MemBlobs>) -> Result<(usize, Kinds), NoMemory> {
    let Ok(commits) = catalog.commits(alloc) else {
        return Err(NoMemory);
    };
    Ok((commits.len(), all_kinds(commits.as_slice())))
}

// How many items of each kind there are, by an independent script.
#[test]
fn a_walk_has_every_kind(rt: HostRuntime) -> Result<(), Fail> {
    let alloc = rt.alloc();
    let mut catalog = made(alloc)?;
    same(&rt, commits_made(alloc, &mut catalog)?, true, "all commits");
    let (count, kinds) = kinds_of(alloc, &mut catalog)?;
    same(&rt, count, 40, "the number of commits");
    same(
        &rt,
        (kinds.publishes, kinds.unlistings),
        (31, 10),
        "publishes and unlistings",
    );
    same(
        &rt,
        (kinds.listings, kinds.deletes),
        (4, 15),
        "listings and deletes",
    );
    Ok(())
}
