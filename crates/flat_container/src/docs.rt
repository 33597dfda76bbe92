// The package and the manifest of each version, and all documents of an id.
ghost use Rattle.std.specs.Prelude.{◌≡◌, ◌++◌, IfOk, OnOk};
ghost use Rattle.flat_container.specs.Documents.{brought, content_docs, file_docs, manifest_doc, package_doc};
ghost use Rattle.flat_container.specs.Names.{content_package_name, content_manifest_name};
ghost use Rattle.std.specs.Prelude.{ℕ, List};

use crate::index::{index_doc, key_in};
use fold_core::{Body, Doc, Entry, Many, NoMemory, Text};
use std::alloc::Global;

fn content_package_name(alloc: Global, key: &str, version: &str) -> Result<Text, NoMemory>
    ensures { IfOk result (λ name. name ≡ content_package_name key.now version.now) }
{
    let name = format!(in alloc; "d/{key}/{version}/{key}.{version}.nupkg")?;
    Ok(Text::of(name))
}

fn content_manifest_name(alloc: Global, key: &str, version: &str) -> Result<Text, NoMemory>
    ensures { IfOk result (λ name. name ≡ content_manifest_name key.now version.now) }
{
    let name = format!(in alloc; "d/{key}/{version}/{key}.nuspec")?;
    Ok(Text::of(name))
}

// What the publish at the entry's origin brought.
fn brought(entry: &Entry, nuspec: bool) -> Body
    ensures { result ≡ brought nuspec entry.now }
{
    Body::Staged {
        number: entry.details.origin_number,
        place: entry.details.origin_place,
        nuspec,
    }
}

fn package_doc(alloc: Global, key: &str, entry: &Entry) -> Result<Doc, NoMemory>
    ensures { IfOk result (λ doc. doc ≡ package_doc key.now entry.now) }
{
    let version = key_in(alloc, entry)?;
    let name = content_package_name(alloc, key, version.as_str())?;
    let body = brought(entry, false);
    Ok(Doc { name, body })
}

fn manifest_doc(alloc: Global, key: &str, entry: &Entry) -> Result<Doc, NoMemory>
    ensures { IfOk result (λ doc. doc ≡ manifest_doc key.now entry.now) }
{
    let version = key_in(alloc, entry)?;
    let name = content_manifest_name(alloc, key, version.as_str())?;
    let body = brought(entry, true);
    Ok(Doc { name, body })
}

fn push_files(alloc: Global, docs: &mut Many<Doc>, key: &str, entry: &Entry) -> Result<(), NoMemory>
    ensures { OnOk result (docs.new ≡ docs.old ++ file_docs key.now entry.now) }
{
    docs.push(package_doc(alloc, key, entry)?)?;
    docs.push(manifest_doc(alloc, key, entry)?)?;
    Ok(())
}

pub(crate) fn content_docs(
    alloc: Global,
    key: &str,
    entries: &[Entry],
) -> Result<Many<Doc>, NoMemory>
    ensures { (base : List ℕ) (number stamp : ℕ) → IfOk result (λ docs. docs ≡ content_docs base key.now number stamp entries.now) }
{
    let mut docs = Many::new(alloc);
    if entries.is_empty() {
        return Ok(docs);
    }
    docs.push(index_doc(alloc, key, entries)?)?;
    for entry in entries {
        push_files(alloc, &mut docs, key, entry)?;
    }
    Ok(docs)
}
