// The reader of a state document, which accepts exactly what the writer writes.
ghost use Rattle.std.specs.Prelude.{◌≡◌, ◌↔◌, Some, IfOk, IsErrOf, IsTrue};
ghost use Rattle.std.specs.Ordering.{nat_cmp};
ghost use Rattle.std.specs.Cmp.Lexicographic.{slice_cmp};
ghost use Rattle.std.specs.List.Sorted.{IsStrictlySortedBy};
ghost use Rattle.serde_json.specs.View.{view};
ghost use Rattle.pkg_meta.specs.declared.state.StateDoc.{StateDoc};
ghost use Rattle.hive_state.specs.Reading.{IsStateValue};
ghost use Rattle.hive_state.specs.State.{state_data, state_text};

use crate::entries::{are_rising, entries_of, number_in};
use crate::writing::state_value;
use catalog_doc::DocErr;
use json_law::{is_text_of, value_of};
use pkg_meta::{
    Entry, Many, NoMemory, StateDoc, Text, Ticks, copy_texts_of, flag_in, items_in, text_in,
};
use serde_json::Value;
use std::alloc::Global;

// What a state says beside its names and entries.
#[derive(Clone, Copy)]
struct Marks {
    at: u32,
    touched: u32,
    stamp: Ticks,
    dirty: bool,
}

// The fields are said for what the writer writes; of other values something else may be read.
fn stamp_in(value: &Value) -> Option<Ticks>
    ensures { (s : StateDoc) → IsStateValue s → view value.now ≡ state_data s → result ≡ Some s.touched_stamp }
{
    match text_in(value, "touchedTimeStamp") {
        Some(text) => Ticks::read(text).ok(),
        None => None,
    }
}

fn marks_in(value: &Value) -> Option<Marks>
    ensures { (s : StateDoc) → IsStateValue s → view value.now ≡ state_data s → result ≡ Some (record { at = s.at; touched = s.touched; stamp = s.touched_stamp; dirty = s.dirty }) }
{
    let at = number_in(value, "at")?;
    let touched = number_in(value, "touched")?;
    let stamp = stamp_in(value)?;
    let dirty = flag_in(value, "dirty")?;
    Some(Marks {
        at,
        touched,
        stamp,
        dirty,
    })
}

fn names_in(alloc: Global, value: &Value) -> Result<Many<Text>, NoMemory>
    ensures { (s : StateDoc) → view value.now ≡ state_data s → IfOk result (λ names. names ≡ s.names) }
{
    copy_texts_of(alloc, items_in(value, "names"))
}

fn entries_in(alloc: Global, value: &Value) -> Result<Option<Many<Entry>>, NoMemory>
    ensures { (s : StateDoc) → IsStateValue s → view value.now ≡ state_data s → IfOk result (λ found. found ≡ Some s.entries) }
{
    entries_of(alloc, items_in(value, "entries"))
}

// Whether names rise in byte order.
fn do_names_rise(names: &[Text]) -> bool
    ensures { IsTrue result ↔ IsStrictlySortedBy (slice_cmp nat_cmp) names.now }
{
    names.is_sorted_by(|name, next| name.as_str() < next.as_str())
}

// The state of these, where the names and the entries rise.
fn state_of(marks: Marks, names: Many<Text>, entries: Many<Entry>) -> Option<StateDoc>
    ensures { (s : StateDoc) → marks ≡ record { at = s.at; touched = s.touched; stamp = s.touched_stamp; dirty = s.dirty } → names ≡ s.names → entries ≡ s.entries → result ≡ Some s }
{
    if !do_names_rise(names.as_slice()) || !are_rising(entries.as_slice()) {
        return None;
    }
    Some(StateDoc {
        at: marks.at,
        touched: marks.touched,
        touched_stamp: marks.stamp,
        dirty: marks.dirty,
        names,
        entries,
    })
}

fn state_in(alloc: Global, value: &Value) -> Result<Option<StateDoc>, NoMemory>
    ensures { (s : StateDoc) → IsStateValue s → view value.now ≡ state_data s → IfOk result (λ found. found ≡ Some s) }
{
    let Some(marks) = marks_in(value) else {
        return Ok(None);
    };
    let names = names_in(alloc, value)?;
    let Some(entries) = entries_in(alloc, value)? else {
        return Ok(None);
    };
    Ok(state_of(marks, names, entries))
}

// Whether the bytes are the document of this state.
#[tactic(auto, unfolding(crate::specs::State::state_text))]
fn is_state(alloc: Global, state: &StateDoc, bytes: &[u8]) -> Result<bool, NoMemory>
    ensures { IfOk result (λ same. IsTrue same ↔ (bytes.now ≡ state_text state.now)) }
{
    let again = state_value(alloc, state)?;
    let same = is_text_of(alloc, bytes, &again)?;
    Ok(same)
}

/// The state whose document the bytes are: those that `state_bytes` writes, and no other spelling.
///
/// `Damaged` comes where they are the document of no state, as with a space, with names or entries in another order,
/// with a name twice, or with a number above 4294967295.
pub fn read_state(alloc: Global, bytes: &[u8]) -> Result<StateDoc, DocErr>
    ensures ok { IfOk result (λ s. bytes.now ≡ state_text s) }
    ensures exact { (s : StateDoc) → IsStateValue s → bytes.now ≡ state_text s → IfOk result (λ found. found ≡ s) }
    ensures damaged { IsErrOf result DocErr.Damaged → (s : StateDoc) → IsStateValue s → bytes.now ≡ state_text s → ⊥ }
{
    let Some(value) = value_of(alloc, bytes)? else {
        return Err(DocErr::Damaged);
    };
    let Some(state) = state_in(alloc, &value)? else {
        return Err(DocErr::Damaged);
    };
    if is_state(alloc, &state, bytes)? {
        Ok(state)
    } else {
        Err(DocErr::Damaged)
    }
}
