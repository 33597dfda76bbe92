// The puts and the removals of documents.
ghost use Rattle.std.specs.Prelude.{◌≡◌, ◌++◌, ◌∷◌, [], IfOk, OnOk, option_map, map};
ghost use Rattle.std.specs.FinMap.{contains_key, entries, get, remove};
ghost use Rattle.std.specs.List.{filter, list_any};
ghost use Rattle.std.specs.Str.{bytes_eq};
ghost use Rattle.fold_core.specs.Docs.{id_index_name};
ghost use Rattle.id_pass.specs.Named.{bodies_of};
ghost use Rattle.id_pass.specs.Passes.{doc_put, doc_puts, docs_by, docs_given, docs_unless_dirty, drops_index, index_removal, is_left_over, is_missing, removals};
ghost use Rattle.id_pass.specs.declared.call.Call.TheVariants.{Put, Remove};

use crate::by_name::{by_name, has_document};
use crate::call::Call;
use fold_core::{Body, Hive};
use hive_state::StateDoc;
use pkg_meta::{Many, NoMemory, Text};
use std::alloc::Global;
use std::collections::BTreeMap;

fn docs_by<H: Hive>(
    alloc: Global,
    base: &str,
    key: &str,
    state: &StateDoc,
) -> Result<BTreeMap<String, Body>, NoMemory>
    ensures { IfOk result (λ docs. bodies_of docs ≡ docs_by H.makes base.now key.now state.now) }
{
    let entries = state.entries.as_slice();
    let docs = H::docs(
        alloc,
        base,
        key,
        state.touched,
        state.touched_stamp,
        entries,
    )?;
    by_name(alloc, docs)
}

// Those of a state that isn't dirty.
#[tactic(auto, using(crate::proofs::Named::spells_none))]
fn docs_unless_dirty<H: Hive>(
    alloc: Global,
    base: &str,
    key: &str,
    state: &StateDoc,
) -> Result<BTreeMap<String, Body>, NoMemory>
    ensures { IfOk result (λ docs. bodies_of docs ≡ docs_unless_dirty H.makes base.now key.now state.now) }
{
    if state.dirty {
        return Ok(BTreeMap::new(alloc));
    }
    docs_by::<H>(alloc, base, key, state)
}

// The documents that are held for sure beside a stored state.
#[tactic(auto, using(crate::proofs::Named::spells_none))]
pub(crate) fn docs_given<H: Hive>(
    alloc: Global,
    base: &str,
    key: &str,
    old: Option<&StateDoc>,
) -> Result<BTreeMap<String, Body>, NoMemory>
    ensures { IfOk result (λ docs. bodies_of docs ≡ docs_given H.makes base.now key.now (option_map (λ s. s.now) old.entry)) }
{
    match old {
        Some(state) => docs_unless_dirty::<H>(alloc, base, key, state),
        None => Ok(BTreeMap::new(alloc)),
    }
}

pub(crate) fn index_name(alloc: Global, key: &str) -> Result<Text, NoMemory>
    ensures { IfOk result (λ name. name ≡ id_index_name key.now) }
{
    let name = format!(in alloc; "d/{key}/index.json")?;
    Ok(Text::of(name))
}

// Puts the document, unless it is given.
fn push_put(
    calls: &mut Many<Call>,
    given: &BTreeMap<String, Body>,
    name: Text,
    body: Body,
) -> Result<(), NoMemory>
    ensures { OnOk result (calls.new ≡ calls.old ++ map doc_put (filter (is_missing (bodies_of given.now)) ((name, body) ∷ []))) }
{
    if has_document(given, name.as_str(), &body) {
        return Ok(());
    }
    calls.push(Call::Put { name, body })
}

// The puts of all of these documents that aren't given, in order of name.
fn puts_of(
    alloc: Global,
    docs: BTreeMap<String, Body>,
    given: &BTreeMap<String, Body>,
) -> Result<Many<Call>, NoMemory>
    ensures { IfOk result (λ calls. calls ≡ map doc_put (filter (is_missing (bodies_of given.now)) (entries (bodies_of docs)))) }
{
    let mut calls = Many::new(alloc);
    for (name, body) in docs {
        push_put(&mut calls, given, Text::of(name), body)?;
    }
    Ok(calls)
}

// Takes the index out of the documents.
fn take_index(docs: &mut BTreeMap<String, Body>, index: &str) -> Option<Body>
    ensures was { result ≡ get (bodies_of docs.old) index.now }
    ensures others { bodies_of docs.new ≡ remove (bodies_of docs.old) index.now }
{
    docs.remove(index)
}

// The puts of the documents that aren't given, the index last.
pub(crate) fn doc_puts(
    alloc: Global,
    index: Text,
    docs: BTreeMap<String, Body>,
    given: &BTreeMap<String, Body>,
) -> Result<Many<Call>, NoMemory>
    ensures { IfOk result (λ calls. calls ≡ doc_puts index (bodies_of given.now) (bodies_of docs)) }
{
    let mut docs = docs;
    let last = take_index(&mut docs, index.as_str());
    let mut calls = puts_of(alloc, docs, given)?;
    if let Some(body) = last {
        push_put(&mut calls, given, index, body)?;
    }
    Ok(calls)
}

// Whether there is a document of this name.
fn is_named(docs: &BTreeMap<String, Body>, name: &str) -> bool
    ensures { result ≡ contains_key (bodies_of docs.now) name.now }
{
    docs.contains_key(name)
}

fn has_name(names: &[Text], name: &str) -> bool
    ensures { result ≡ list_any (bytes_eq name.now) names.now }
{
    names.iter().any(|held| name == held.as_str())
}

// Whether the index was held, and isn't one of the documents.
fn drops_index(index: &str, names: &[Text], docs: &BTreeMap<String, Body>) -> bool
    ensures { result ≡ drops_index index.now (bodies_of docs.now) names.now }
{
    has_name(names, index) && !is_named(docs, index)
}

// Whether a name is another one that isn't a document's.
fn is_left_over(index: &str, name: &str, docs: &BTreeMap<String, Body>) -> bool
    ensures { result ≡ is_left_over index.now (bodies_of docs.now) name.now }
{
    name != index && !is_named(docs, name)
}

// Removes what stands under the name, where it is left over.
fn push_removal(
    alloc: Global,
    calls: &mut Many<Call>,
    index: &str,
    name: &Text,
    docs: &BTreeMap<String, Body>,
) -> Result<(), NoMemory>
    ensures { OnOk result (calls.new ≡ calls.old ++ map Remove (filter (is_left_over index.now (bodies_of docs.now)) (name.now ∷ []))) }
{
    if is_left_over(index, name.as_str(), docs) {
        let name = name.copy(alloc)?;
        return calls.push(Call::Remove { name });
    }
    Ok(())
}

// The removal of the index, where it is dropped.
fn index_removal(
    alloc: Global,
    index: &str,
    names: &[Text],
    docs: &BTreeMap<String, Body>,
) -> Result<Many<Call>, NoMemory>
    ensures { IfOk result (λ calls. calls ≡ index_removal index.now (bodies_of docs.now) names.now) }
{
    let mut calls = Many::new(alloc);
    if drops_index(index, names, docs) {
        let name = Text::copy_of(alloc, index)?;
        calls.push(Call::Remove { name })?;
    }
    Ok(calls)
}

// The removals of the names that aren't those of documents, that of the index first.
pub(crate) fn removals(
    alloc: Global,
    index: &str,
    names: &[Text],
    docs: &BTreeMap<String, Body>,
) -> Result<Many<Call>, NoMemory>
    ensures { IfOk result (λ calls. calls ≡ removals index.now (bodies_of docs.now) names.now) }
{
    let mut calls = index_removal(alloc, index, names, docs)?;
    for name in names {
        push_removal(alloc, &mut calls, index, name, docs)?;
    }
    Ok(calls)
}
