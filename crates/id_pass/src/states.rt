// The two states of a pass.
ghost use Rattle.std.specs.Prelude.{◌≡◌, true, false, IfOk};
ghost use Rattle.std.specs.Cmp.Lexicographic.{slice_cmp};
ghost use Rattle.std.specs.List.Sorted.{IsStrictlySortedBy};
ghost use Rattle.std.specs.Ordering.{nat_cmp};
ghost use Rattle.pkg_meta.specs.Entries.{AreRising};
ghost use Rattle.id_pass.specs.Passes.{state_put};

use crate::call::Call;
use crate::taking::Taken;
use fold_core::Body;
use hive_state::{StateDoc, state_bytes, state_name};
use pkg_meta::{Many, NoMemory, Text};
use std::alloc::Global;

// The dirty state at the target.
pub(crate) fn dirty_state(target: u32, taken: Taken, names: Many<Text>) -> StateDoc
    requires entries { AreRising taken.entries }
    requires names { IsStrictlySortedBy (slice_cmp nat_cmp) names }
    ensures at { result.at ≡ target }
    ensures touched { (result.touched ≡ taken.touched) × (result.touched_stamp ≡ taken.touched_stamp) }
    ensures dirty { result.dirty ≡ true }
    ensures names { result.names ≡ names }
    ensures entries { result.entries ≡ taken.entries }
{
    StateDoc {
        at: target,
        touched: taken.touched,
        touched_stamp: taken.touched_stamp,
        dirty: true,
        names,
        entries: taken.entries,
    }
}

// The same as clean, with these names.
pub(crate) fn clean_state(state: StateDoc, names: Many<Text>) -> StateDoc
    requires names { IsStrictlySortedBy (slice_cmp nat_cmp) names }
    ensures at { result.at ≡ state.at }
    ensures touched { (result.touched ≡ state.touched) × (result.touched_stamp ≡ state.touched_stamp) }
    ensures dirty { result.dirty ≡ false }
    ensures names { result.names ≡ names }
    ensures entries { result.entries ≡ state.entries }
{
    StateDoc {
        at: state.at,
        touched: state.touched,
        touched_stamp: state.touched_stamp,
        dirty: false,
        names,
        entries: state.entries,
    }
}

// The put of a state.
pub(crate) fn state_put(alloc: Global, key: &str, state: &StateDoc) -> Result<Call, NoMemory>
    ensures { IfOk result (λ call. call ≡ state_put key.now state.now) }
{
    let name = state_name(alloc, key)?;
    let body = Body::Made(state_bytes(alloc, state)?);
    Ok(Call::Put { name, body })
}
