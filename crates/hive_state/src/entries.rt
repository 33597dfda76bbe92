// The entries of a stored state. Each field is said for what the writer writes; of other values something else may be
// read.
ghost use Rattle.std.specs.Prelude.{◌≡◌, ◌<◌, ◌^◌, ◌↔◌, ℕ, List, Some, IfOk, IfSome, IsTrue, map};
ghost use Rattle.serde_json.specs.Data.{number, unsigned};
ghost use Rattle.serde_json.specs.Find.{get};
ghost use Rattle.serde_json.specs.View.{view};
ghost use Rattle.pkg_meta.specs.Entries.{AreRising};
ghost use Rattle.pkg_meta.specs.declared.entry.Entry.{Entry};
ghost use Rattle.catalog_doc.specs.Reading.{IsDetailsValue};
ghost use Rattle.hive_state.specs.Reading.{AreEntryValues, IsEntryValue};
ghost use Rattle.hive_state.specs.State.{entry_data};

use catalog_reading::read_details;
use pkg_meta::{Details, Entry, Many, NoMemory};
use serde_json::Value;
use std::alloc::Global;

// The number of 32 bits under a name, where there is one.
pub(crate) fn number_in(value: &Value, name: &str) -> Option<u32>
    ensures { (n : ℕ) → n < 2 ^ 32 → get name.now (view value.now) ≡ Some (number (unsigned n)) → result ≡ Some n }
{
    let number = value.get(name).and_then(Value::as_u64)?;
    u32::try_from(number).ok()
}

fn details_in(alloc: Global, value: &Value) -> Result<Option<Details>, NoMemory>
    ensures { (e : Entry) → IsDetailsValue e.details → view value.now ≡ entry_data e → IfOk result (λ found. found ≡ Some e.details) }
{
    match value.get("details") {
        Some(tree) => read_details(alloc, tree),
        None => Ok(None),
    }
}

fn entry_in(alloc: Global, value: &Value) -> Result<Option<Entry>, NoMemory>
    ensures { (e : Entry) → IsEntryValue e → view value.now ≡ entry_data e → IfOk result (λ found. found ≡ Some e) }
{
    let Some(number) = number_in(value, "number") else {
        return Ok(None);
    };
    let Some(place) = number_in(value, "place") else {
        return Ok(None);
    };
    let Some(details) = details_in(alloc, value)? else {
        return Ok(None);
    };
    Ok(Some(Entry {
        number,
        place,
        details,
    }))
}

pub(crate) fn entries_of(alloc: Global, values: &[Value]) -> Result<Option<Many<Entry>>, NoMemory>
    ensures { (es : List Entry) → AreEntryValues es → map view values.now ≡ map entry_data es → IfOk result (λ found. found ≡ Some es) }
{
    let mut entries = Many::new(alloc);
    for value in values {
        let Some(entry) = entry_in(alloc, value)? else {
            return Ok(None);
        };
        entries.push(entry)?;
    }
    Ok(Some(entries))
}

// Whether the entries are in strictly rising precedence.
pub(crate) fn are_rising(entries: &[Entry]) -> bool
    ensures { IsTrue result ↔ AreRising entries.now }
{
    entries.is_sorted_by(|entry, next| {
        entry
            .details
            .meta
            .version
            .compare(&next.details.meta.version)
            .is_lt()
    })
}
