// The last commit that has an item of an id, and the id's documents.
ghost use Rattle.std.specs.Prelude.{◌≡◌, IfOk};
ghost use Rattle.fold_core.specs.Docs.{docs_of};
ghost use Rattle.fold_core.specs.Items.{has_item, stamp_at, stamp_in, touched};

use crate::scratch::{from_scratch, is_of};
use crate::{Doc, Hive};
use pkg_meta::{Commit, Many, NoMemory, Ticks};
use std::alloc::Global;

fn has_item(commit: &Commit, key: &str) -> bool
    ensures { result ≡ has_item commit.now key.now }
{
    commit.items.as_slice().iter().any(|item| is_of(item, key))
}

// The number of the last commit that has an item of the id, 0 where none has.
fn touched(commits: &[Commit], key: &str) -> usize
    ensures { result ≡ touched commits.now key.now }
{
    let mut last = 0;
    for (at, commit) in commits.iter().enumerate() {
        if has_item(commit, key) {
            last = at + 1;
        }
    }
    last
}

// The stamp of the commit with this number, 0 where there is none.
fn stamp_at(commits: &[Commit], number: usize) -> Ticks
    ensures { result ≡ stamp_at commits.now number }
{
    if number == 0 {
        return Ticks::of(0).unwrap();
    }
    match commits.get(number - 1) {
        Some(commit) => commit.stamp,
        None => Ticks::of(0).unwrap(),
    }
}

/// The documents of the id with this key after these commits.
///
/// More commits than numbers of 32 bits count, which no lawful catalog has, are answered as out of memory.
pub fn docs_from_scratch<H: Hive>(
    alloc: Global,
    base: &str,
    commits: &[Commit],
    key: &str,
) -> Result<Many<Doc>, NoMemory>
    ensures { IfOk result (λ docs. docs ≡ docs_of H.keeps H.makes base.now commits.now key.now) }
{
    let last = touched(commits, key);
    let stamp = stamp_at(commits, last);
    let Ok(number) = u32::try_from(last) else {
        return Err(NoMemory);
    };
    let entries = from_scratch::<H>(alloc, commits, key)?;
    H::docs(alloc, base, key, number, stamp, entries.as_slice())
}
