// What a state has of an id, with further items.
ghost use Rattle.std.specs.Prelude.{◌≡◌, option_map, IfOk, OnOk};
ghost use Rattle.pkg_meta.specs.Entries.{AreRising};
ghost use Rattle.fold_core.specs.Items.{last_placed};
ghost use Rattle.fold_core.specs.Places.{all_applied};
ghost use Rattle.id_pass.specs.Passes.{entries_in, number_after, stamp_after};
ghost use Rattle.id_pass.specs.Placing.{all_as_placed};

use crate::placed::Placed;
use fold_core::{Hive, apply};
use hive_state::StateDoc;
use pkg_meta::{Entry, Many, NoMemory, Ticks};
use std::alloc::Global;

/// What the documents of an id are made of.
#[derive(Drop)]
pub(crate) struct Taken {
    /// The last commit that has an item of the id, and its stamp.
    pub(crate) touched: u32,
    pub(crate) touched_stamp: Ticks,
    pub(crate) entries: Many<Entry>,
}

fn copy_entries(alloc: Global, entries: &[Entry]) -> Result<Many<Entry>, NoMemory>
    ensures { IfOk result (λ copies. copies ≡ entries.now) }
{
    let mut copies = Many::new(alloc);
    for entry in entries {
        copies.push(entry.copy(alloc)?)?;
    }
    Ok(copies)
}

fn entries_in(alloc: Global, old: Option<&StateDoc>) -> Result<Many<Entry>, NoMemory>
    ensures entries { IfOk result (λ entries. entries ≡ entries_in (option_map (λ s. s.now) old.entry)) }
    ensures rising { IfOk result AreRising }
{
    match old {
        Some(state) => copy_entries(alloc, state.entries.as_slice()),
        None => Ok(Many::new(alloc)),
    }
}

fn apply_all<H: Hive>(
    alloc: Global,
    entries: &mut Many<Entry>,
    items: &[Placed],
) -> Result<(), NoMemory>
    ensures applied { OnOk result (entries.new ≡ all_applied H.keeps entries.old (all_as_placed items.now)) }
    ensures rising { AreRising entries.old → AreRising entries.new }
{
    for placed in items {
        apply::<H>(alloc, entries, placed.number, placed.place, &placed.item)?;
    }
    Ok(())
}

fn number_after(old: Option<&StateDoc>, items: &[Placed]) -> u32
    ensures { result ≡ number_after (option_map (λ s. s.now) old.entry) (last_placed (all_as_placed items.now)) }
{
    match (items.last(), old) {
        (Some(last), _) => last.number,
        (None, Some(state)) => state.touched,
        (None, None) => 0,
    }
}

fn stamp_after(old: Option<&StateDoc>, items: &[Placed]) -> Ticks
    ensures { result ≡ stamp_after (option_map (λ s. s.now) old.entry) (last_placed (all_as_placed items.now)) }
{
    match (items.last(), old) {
        (Some(last), _) => last.stamp,
        (None, Some(state)) => state.touched_stamp,
        (None, None) => Ticks::of(0).unwrap(),
    }
}

// What there is of the id after these items.
pub(crate) fn take_in<H: Hive>(
    alloc: Global,
    old: Option<&StateDoc>,
    items: &[Placed],
) -> Result<Taken, NoMemory>
    ensures touched { IfOk result (λ taken. taken.touched ≡ number_after (option_map (λ s. s.now) old.entry) (last_placed (all_as_placed items.now))) }
    ensures stamp { IfOk result (λ taken. taken.touched_stamp ≡ stamp_after (option_map (λ s. s.now) old.entry) (last_placed (all_as_placed items.now))) }
    ensures entries { IfOk result (λ taken. taken.entries
        ≡ all_applied H.keeps (entries_in (option_map (λ s. s.now) old.entry)) (all_as_placed items.now)) }
    ensures rising { IfOk result (λ taken. AreRising taken.entries) }
{
    let mut entries = entries_in(alloc, old)?;
    apply_all::<H>(alloc, &mut entries, items)?;
    Ok(Taken {
        touched: number_after(old, items),
        touched_stamp: stamp_after(old, items),
        entries,
    })
}
