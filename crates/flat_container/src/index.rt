// The list of an id's versions.
ghost use Rattle.std.specs.Prelude.{◌≡◌, IfOk, map};
ghost use Rattle.serde_json.specs.View.{view};
ghost use Rattle.pkg_meta.specs.Entries.{key_in};
ghost use Rattle.fold_core.specs.Docs.{id_index_name};
ghost use Rattle.flat_container.specs.Documents.{index_doc, content_index_object, index_text, version_data};

use fold_core::{Body, Bytes, Doc, Entry, NoMemory, Text};
use serde_json::{Value, json};
use std::alloc::{AllocError, Global};

pub(crate) fn key_in(alloc: Global, entry: &Entry) -> Result<Text, NoMemory>
    ensures { IfOk result (λ key. key ≡ key_in entry.now) }
{
    entry.details.meta.version.key(alloc)
}

fn version_value(alloc: Global, entry: &Entry) -> Result<Value, NoMemory>
    ensures { IfOk result (λ v. view v ≡ version_data entry.now) }
{
    let key = key_in(alloc, entry)?;
    Ok(Value::String(key.into_string()))
}

fn version_values(alloc: Global, entries: &[Entry]) -> Result<Vec<Value>, NoMemory>
    ensures { IfOk result (λ values. map view values.items ≡ map version_data entries.now) }
{
    let mut values = Vec::new(alloc);
    for entry in entries {
        values.push(version_value(alloc, entry)?)?;
    }
    Ok(values)
}

fn content_index_object(alloc: Global, versions: Vec<Value>) -> Result<Value, AllocError>
    ensures { IfOk result (λ v. view v ≡ content_index_object (map view versions.items)) }
{
    json!(in alloc; {"versions": versions})
}

#[tactic(auto, unfolding(crate::specs::Documents::index_text))]
fn index_bytes(alloc: Global, entries: &[Entry]) -> Result<Bytes, NoMemory>
    ensures { IfOk result (λ bytes. bytes ≡ index_text entries.now) }
{
    let versions = version_values(alloc, entries)?;
    let value = content_index_object(alloc, versions)?;
    let bytes = value.to_vec(alloc)?;
    Ok(Bytes::of(bytes))
}

fn index_name(alloc: Global, key: &str) -> Result<Text, NoMemory>
    ensures { IfOk result (λ name. name ≡ id_index_name key.now) }
{
    let name = format!(in alloc; "d/{key}/index.json")?;
    Ok(Text::of(name))
}

pub(crate) fn index_doc(alloc: Global, key: &str, entries: &[Entry]) -> Result<Doc, NoMemory>
    ensures { IfOk result (λ doc. doc ≡ index_doc key.now entries.now) }
{
    let name = index_name(alloc, key)?;
    let body = Body::Made(index_bytes(alloc, entries)?);
    Ok(Doc { name, body })
}
