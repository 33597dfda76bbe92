// The entries of an id, with an item more.
ghost use Rattle.std.specs.Prelude.{◌≡◌, IfOk, None, OnOk, OnErr, Some};
ghost use Rattle.std.specs.List.{position, slice_get};
ghost use Rattle.pkg_meta.specs.Entries.{AreRising};
ghost use Rattle.pkg_meta.specs.Items.{version_of};
ghost use Rattle.fold_core.specs.Entries.{entry_at};
ghost use Rattle.fold_core.specs.Places.{is_tied, is_up_to, place_in, replaced};

use crate::{Entry, Hive};
use nuget_version::Version;
use pkg_meta::{Item, Many, NoMemory};
use std::alloc::Global;
use std::cmp::Ordering;
use std::mem;

// The entry of an item, if the hive keeps it.
fn entry_of<H: Hive>(
    alloc: Global,
    number: u32,
    place: u32,
    item: &Item,
) -> Result<Option<Entry>, NoMemory>
    ensures { IfOk result (λ e. e ≡ entry_at H.keeps number place item.now) }
{
    match item {
        Item::Details(details) => {
            if !H::keep(details) {
                return Ok(None);
            }
            let details = details.copy(alloc)?;
            Ok(Some(Entry {
                number,
                place,
                details,
            }))
        }
        Item::Gone { .. } => Ok(None),
    }
}

fn first_from(entries: &[Entry], version: &Version) -> Option<usize>
    ensures { result ≡ position (is_up_to version.now) entries.now }
{
    entries.iter().position(|entry| version.compare(&entry.details.meta.version).is_le())
}

// Where the version stands among rising entries, or comes to stand.
fn place_of(entries: &[Entry], version: &Version) -> usize
    ensures { result ≡ place_in version.now entries.now }
{
    first_from(entries, version).unwrap_or(entries.len())
}

// Whether the entry at a place is of the version.
fn is_tied(entries: &[Entry], at: usize, version: &Version) -> bool
    ensures { result ≡ is_tied version.now (slice_get entries.now at) }
{
    match entries.get(at) {
        Some(entry) => version.compare(&entry.details.meta.version).is_eq(),
        None => false,
    }
}

// Puts the entry in the version's place. Without memory the entries stay.
fn put_entry(entries: &mut Vec<Entry>, version: &Version, entry: Entry) -> Result<(), NoMemory>
    ensures ok { OnOk result (entries.new.items ≡ replaced version.now (Some entry) entries.old.items) }
    ensures err { OnErr result (entries.new.items ≡ entries.old.items) }
{
    let at = place_of(entries, version);
    if is_tied(entries, at, version) {
        entries[at] = entry;
    } else {
        entries.insert(at, entry)?;
    }
    Ok(())
}

// Takes out the entry of the version, where there is one.
fn remove_entry(entries: &mut Vec<Entry>, version: &Version)
    ensures { entries.new.items ≡ replaced version.now None entries.old.items }
{
    let at = place_of(entries, version);
    if is_tied(entries, at, version) {
        entries.remove(at);
    }
}

// Puts an entry in the version's place, or takes the one there out. Without memory the entries stay.
fn put_version(
    entries: &mut Vec<Entry>,
    version: &Version,
    new: Option<Entry>,
) -> Result<(), NoMemory>
    ensures ok { OnOk result (entries.new.items ≡ replaced version.now new entries.old.items) }
    ensures err { OnErr result (entries.new.items ≡ entries.old.items) }
{
    match new {
        Some(entry) => put_entry(entries, version, entry),
        None => {
            remove_entry(entries, version);
            Ok(())
        }
    }
}

/// Replaces or adds the entry of an item's version, or takes it out where the hive doesn't keep the item.
/// Without memory the entries stay.
pub fn apply<H: Hive>(
    alloc: Global,
    entries: &mut Many<Entry>,
    number: u32,
    place: u32,
    item: &Item,
) -> Result<(), NoMemory>
    ensures ok { OnOk result (entries.new ≡ replaced (version_of item.now) (entry_at H.keeps number place item.now) entries.old) }
    ensures err { OnErr result (entries.new ≡ entries.old) }
    ensures rising { AreRising entries.old → AreRising entries.new }
{
    let new = entry_of::<H>(alloc, number, place, item)?;
    let mut list = mem::replace(entries, Many::new(alloc)).into_vec();
    let done = put_version(&mut list, item.version(), new);
    *entries = Many::of(list);
    done
}
