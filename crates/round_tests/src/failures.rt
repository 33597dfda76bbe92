// Rounds whose store calls fail, one by one, and the rounds behind them.
use crate::rounds::{BASE, delete, documents, is_held, number_of, publish_all};
use crate::same::same;
use auto_docs::Auto;
use blob_store::{Fail as Failing, MemBlobs};
use catalog_core::{Catalog, init};
use flat_container::Content;
use fold_core::Hive;
use id_pass::RoundOut;
use job_round::run_round;
use reg_docs::Plain;
use std::alloc::Global;
use std::test::Fail;

// The most rounds that are begun until one ends.
const TRIES: u32 = 40;

// Begins rounds until one ends, and answers whether one did, at this commit.
pub fn ends<H: Hive>(
    alloc: Global,
    catalog: &mut Catalog<MemBlobs>,
    area: &mut MemBlobs,
    commit: u32,
) -> bool {
    for _ in 0..TRIES {
        if let Ok(out) = run_round::<H, MemBlobs>(alloc, catalog, area) {
            return match out {
                RoundOut::Done(n) | RoundOut::Idle(n) => n == commit,
            };
        }
    }
    false
}

// Publishes three versions and takes them up, deletes one and publishes another, and takes these up. It
// answers how many documents are held as from scratch, where no other is.
fn documents_behind<H: Hive>(alloc: Global, area: &mut MemBlobs) -> Option<usize> {
    let Ok(mut catalog) = init(alloc, MemBlobs::new(alloc), BASE) else {
        return None;
    };
    publish_all(alloc, &mut catalog, 0..3).ok()?;
    if !ends::<H>(alloc, &mut catalog, area, 3) {
        return None;
    }
    let change = delete(alloc, 1).ok()?;
    number_of(alloc, &mut catalog, change).ok()?;
    publish_all(alloc, &mut catalog, 7..8).ok()?;
    if !ends::<H>(alloc, &mut catalog, area, 5) || is_held(alloc, area, "d/foo/1.1.0.json") {
        return None;
    }
    documents::<H>(alloc, &mut catalog, area)
}

// The same where one call of the hive's store fails, with effect or without, or so many from there on.
fn with_failing<H: Hive>(alloc: Global, first: u64, calls: u64, took: bool) -> Option<usize> {
    let mut fails = Vec::new(alloc);
    for call in first..first.saturating_add(calls) {
        fails.push(Failing { call, took }).ok()?;
    }
    let mut area = MemBlobs::failing(alloc, &fails).ok()?;
    documents_behind::<H>(alloc, &mut area)
}

// Whether each of the first 11 calls may fail.
fn all_end<H: Hive>(alloc: Global, calls: u64, took: bool, wanted: usize) -> bool {
    for first in 1..12 {
        if with_failing::<H>(alloc, first, calls, took) != Some(wanted) {
            return false;
        }
    }
    true
}

#[test]
fn a_failed_call_is_made_good(rt: HostRuntime) -> Result<(), Fail> {
    let alloc = rt.alloc();
    same(
        &rt,
        all_end::<Plain>(alloc, 1, false, 4),
        true,
        "plain, without effect",
    );
    same(
        &rt,
        all_end::<Plain>(alloc, 1, true, 4),
        true,
        "plain, with effect",
    );
    same(&rt, all_end::<Content>(alloc, 1, false, 7), true, "content");
    same(&rt, all_end::<Auto>(alloc, 1, true, 1), true, "auto");
    Ok(())
}

#[test]
fn failed_calls_from_one_on_are_made_good(rt: HostRuntime) -> Result<(), Fail> {
    let alloc = rt.alloc();
    same(
        &rt,
        all_end::<Plain>(alloc, 12, false, 4),
        true,
        "without effect",
    );
    same(
        &rt,
        all_end::<Plain>(alloc, 12, true, 4),
        true,
        "with effect",
    );
    Ok(())
}
