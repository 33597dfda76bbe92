// The list of an id's listed versions.
ghost use Rattle.std.specs.Prelude.{◌≡◌, ℕ, List, IfOk, map};
ghost use Rattle.serde_json.specs.View.{view};
ghost use Rattle.fold_core.specs.Docs.{id_index_name};
ghost use Rattle.auto_docs.specs.Documents.{auto_docs, auto_index_doc, auto_index_object, index_text, last_id, auto_version_data};

use fold_core::{Body, Bytes, Doc, Entry, Many, NoMemory, Text};
use serde_json::{Value, json};
use std::alloc::{AllocError, Global};

fn version_value(alloc: Global, entry: &Entry) -> Result<Value, NoMemory>
    ensures { IfOk result (λ v. view v ≡ auto_version_data entry.now) }
{
    let version = entry.details.meta.version.full(alloc)?;
    Ok(Value::String(version.into_string()))
}

fn version_values(alloc: Global, entries: &[Entry]) -> Result<Vec<Value>, NoMemory>
    ensures { IfOk result (λ values. map view values.items ≡ map auto_version_data entries.now) }
{
    let mut values = Vec::new(alloc);
    for entry in entries {
        values.push(version_value(alloc, entry)?)?;
    }
    Ok(values)
}

// The id as the last entry spells it.
fn last_id(entries: &[Entry]) -> &str
    ensures { result.now ≡ last_id entries.now }
{
    match entries.last() {
        Some(entry) => entry.details.meta.id.text.as_str(),
        None => "",
    }
}

fn auto_index_object(alloc: Global, id: &str, versions: Vec<Value>) -> Result<Value, AllocError>
    ensures { IfOk result (λ v. view v ≡ auto_index_object id.now (map view versions.items)) }
{
    json!(in alloc; {"id": id, "versions": versions})
}

#[tactic(auto, unfolding(crate::specs::Documents::index_text))]
fn index_bytes(alloc: Global, entries: &[Entry]) -> Result<Bytes, NoMemory>
    ensures { IfOk result (λ bytes. bytes ≡ index_text entries.now) }
{
    let versions = version_values(alloc, entries)?;
    let value = auto_index_object(alloc, last_id(entries), versions)?;
    let bytes = value.to_vec(alloc)?;
    Ok(Bytes::of(bytes))
}

fn index_name(alloc: Global, key: &str) -> Result<Text, NoMemory>
    ensures { IfOk result (λ name. name ≡ id_index_name key.now) }
{
    let name = format!(in alloc; "d/{key}/index.json")?;
    Ok(Text::of(name))
}

fn auto_index_doc(alloc: Global, key: &str, entries: &[Entry]) -> Result<Doc, NoMemory>
    ensures { IfOk result (λ doc. doc ≡ auto_index_doc key.now entries.now) }
{
    let name = index_name(alloc, key)?;
    let body = Body::Made(index_bytes(alloc, entries)?);
    Ok(Doc { name, body })
}

pub(crate) fn auto_docs(alloc: Global, key: &str, entries: &[Entry]) -> Result<Many<Doc>, NoMemory>
    ensures { (base : List ℕ) (number stamp : ℕ) → IfOk result (λ docs. docs ≡ auto_docs base key.now number stamp entries.now) }
{
    let mut docs = Many::new(alloc);
    if entries.is_empty() {
        return Ok(docs);
    }
    docs.push(auto_index_doc(alloc, key, entries)?)?;
    Ok(docs)
}
