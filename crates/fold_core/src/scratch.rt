// The entries of an id, from the whole list of commits.
ghost use Rattle.std.specs.Prelude.{◌≡◌, ◌≤◌, ◌<◌, ◌^◌, ◌++◌, ◌∷◌, [], ℕ, List, Option, IfOk, OnOk, length};
ghost use Rattle.std.specs.List.{All};
ghost use Rattle.std.specs.Str.{bytes_eq};
ghost use Rattle.pkg_meta.specs.Lawful.{Placed};
ghost use Rattle.pkg_meta.specs.declared.commit.Commit.{Commit};
ghost use Rattle.fold_core.specs.Entries.{entries_of};
ghost use Rattle.fold_core.specs.Items.{is_of, items_in_of, items_of};

use crate::entries::apply;
use crate::{Entry, Hive};
use pkg_meta::{Commit, Item, Many, NoMemory};
use std::alloc::Global;

pub(crate) fn is_of(item: &Item, key: &str) -> bool
    ensures { result ≡ is_of key.now item.now }
{
    key == item.id().key.as_str()
}

// Applies an item that is of the id.
fn apply_if<H: Hive>(
    alloc: Global,
    entries: &mut Many<Entry>,
    number: u32,
    place: u32,
    item: &Item,
    key: &str,
) -> Result<(), NoMemory>
    ensures { (before : List Placed) (stamp : ℕ) → entries.old ≡ entries_of H.keeps before
        → OnOk result (entries.new ≡ entries_of H.keeps (before ++ items_in_of key.now number stamp place (item.now ∷ []))) }
{
    if is_of(item, key) {
        apply::<H>(alloc, entries, number, place, item)?;
    }
    Ok(())
}

// Applies the items of a commit that are of the id.
fn apply_all<H: Hive>(
    alloc: Global,
    entries: &mut Many<Entry>,
    commit: &Commit,
    key: &str,
) -> Result<(), NoMemory>
    ensures { (before : List Commit) → entries.old ≡ entries_of H.keeps (items_of before key.now)
        → OnOk result (entries.new ≡ entries_of H.keeps (items_of (before ++ commit.now ∷ []) key.now)) }
{
    let number = commit.number;
    for (place, item) in commit.items.as_slice().iter().enumerate() {
        let Ok(at) = u32::try_from(place) else {
            return Err(NoMemory);
        };
        apply_if::<H>(alloc, entries, number, at, item, key)?;
    }
    Ok(())
}

/// The entries of the id with this key, by rising precedence: one for each version whose last item the
/// hive keeps.
///
/// An item at a place beyond 32 bits, which no lawful commit has, is answered as out of memory.
pub fn from_scratch<H: Hive>(
    alloc: Global,
    commits: &[Commit],
    key: &str,
) -> Result<Many<Entry>, NoMemory>
    ensures { IfOk result (λ entries. entries ≡ entries_of H.keeps (items_of commits.now key.now)) }
{
    let mut entries = Many::new(alloc);
    for commit in commits {
        apply_all::<H>(alloc, &mut entries, commit, key)?;
    }
    Ok(entries)
}
