// The writer of a state document, and its name.
ghost use Rattle.std.specs.Prelude.{◌≡◌, IfOk, map, string_bytes};
ghost use Rattle.serde_json.specs.View.{view};
ghost use Rattle.hive_state.specs.State.{entry_data, entry_object, state_data, state_name, state_object, state_text};

use pkg_meta::{Bytes, Entry, NoMemory, StateDoc, Text, text_values};
use serde_json::{Value, json};
use std::alloc::{AllocError, Global};

/// The name of an id's state document in a hive's area, by the id's key.
pub fn state_name(alloc: Global, key: &str) -> Result<Text, NoMemory>
    ensures { IfOk result (λ name. name ≡ state_name key.now) }
{
    let name = format!(in alloc; "s/{key}.json")?;
    Ok(Text::of(name))
}

fn entry_object(alloc: Global, details: Value, number: u32, place: u32) -> Result<Value, AllocError>
    ensures { IfOk result (λ v. view v ≡ entry_object (view details) number place) }
{
    json!(in alloc; {"details": details, "number": number, "place": place})
}

fn entry_value(alloc: Global, entry: &Entry) -> Result<Value, NoMemory>
    ensures { IfOk result (λ v. view v ≡ entry_data entry.now) }
{
    let details = entry.details.tree(alloc)?;
    let value = entry_object(alloc, details, entry.number, entry.place)?;
    Ok(value)
}

fn entry_values(alloc: Global, entries: &[Entry]) -> Result<Vec<Value>, NoMemory>
    ensures { IfOk result (λ values. map view values.items ≡ map entry_data entries.now) }
{
    let mut values = Vec::new(alloc);
    for entry in entries {
        let value = entry_value(alloc, entry)?;
        serde_json::push(&mut values, value)?;
    }
    Ok(values)
}

// The state's object, of its lists and its stamp as they are written.
fn state_object(
    alloc: Global,
    state: &StateDoc,
    entries: Vec<Value>,
    names: Vec<Value>,
    stamp: String,
) -> Result<Value, AllocError>
    ensures { IfOk result (λ v. view v ≡ state_object state.now (map view entries.items) (map view names.items) (string_bytes stamp)) }
{
    let at = state.at;
    let dirty = state.dirty;
    let touched = state.touched;
    json!(in alloc; {"at": at, "dirty": dirty, "entries": entries, "names": names, "touched": touched, "touchedTimeStamp": stamp})
}

pub(crate) fn state_value(alloc: Global, state: &StateDoc) -> Result<Value, NoMemory>
    ensures { IfOk result (λ v. view v ≡ state_data state.now) }
{
    let entries = entry_values(alloc, state.entries.as_slice())?;
    let names = text_values(alloc, state.names.as_slice())?;
    let stamp = state.touched_stamp.print(alloc)?.into_string();
    let value = state_object(alloc, state, entries, names, stamp)?;
    Ok(value)
}

/// The bytes of the state document, compact JSON (RFC 8259) with its keys in byte order:
/// `{"at":..,"dirty":..,"entries":[..],"names":[..],"touched":..,"touchedTimeStamp":"<stamp>"}`, where an entry is
/// `{"details":{..},"number":..,"place":..}` with the members that a catalog leaf has of the details.
#[tactic(auto, unfolding(crate::specs::State::state_text))]
pub fn state_bytes(alloc: Global, state: &StateDoc) -> Result<Bytes, NoMemory>
    ensures { IfOk result (λ b. b ≡ state_text state.now) }
{
    let value = state_value(alloc, state)?;
    let bytes = value.to_vec(alloc)?;
    Ok(Bytes::of(bytes))
}
