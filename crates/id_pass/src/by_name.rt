// An id's documents by name.
ghost use Rattle.std.specs.Prelude.{◌≡◌, IfOk, OnOk};
ghost use Rattle.std.specs.FinMap.{insert};
ghost use Rattle.id_pass.specs.Named.{bodies_of, by_name, has_document, is_same_body};

use fold_core::{Body, Doc};
use pkg_meta::{Many, NoMemory};
use std::alloc::Global;
use std::collections::BTreeMap;

// Puts a document under its name, in the place of one that is there.
fn put_doc(named: &mut BTreeMap<String, Body>, doc: Doc) -> Result<(), NoMemory>
    ensures { OnOk result (bodies_of named.new ≡ insert (bodies_of named.old) doc.name doc.body) }
{
    named.insert(doc.name.into_string(), doc.body)?;
    Ok(())
}

// Each of the documents under its name.
pub(crate) fn by_name(alloc: Global, docs: Many<Doc>) -> Result<BTreeMap<String, Body>, NoMemory>
    ensures { IfOk result (λ named. bodies_of named ≡ by_name docs) }
{
    let mut docs = docs.into_vec();
    let mut named = BTreeMap::new(alloc);
    while let Some(doc) = docs.pop() {
        put_doc(&mut named, doc)?;
    }
    Ok(named)
}

fn is_same_body(body: &Body, other: &Body) -> bool
    ensures { result ≡ is_same_body body.now other.now }
{
    match (body, other) {
        (Body::Made(bytes), Body::Made(others)) => bytes.as_slice() == others.as_slice(),
        (
            Body::Staged {
                number,
                place,
                nuspec,
            },
            Body::Staged {
                number: n,
                place: p,
                nuspec: s,
            },
        ) => number == n && place == p && nuspec == s,
        _ => false,
    }
}

// Whether there is this body under this name.
pub(crate) fn has_document(named: &BTreeMap<String, Body>, name: &str, body: &Body) -> bool
    ensures { result ≡ has_document (bodies_of named.now) name.now body.now }
{
    match named.get(name) {
        Some(found) => is_same_body(body, found),
        None => false,
    }
}
