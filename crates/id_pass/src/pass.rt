// The plan of a pass.
ghost use Rattle.std.specs.Prelude.{◌≡◌, ◌++◌, ◌∷◌, [], false, true, option_map, IfOk};
ghost use Rattle.std.specs.FinMap.{keys};
ghost use Rattle.pkg_meta.specs.Entries.{AreRising};
ghost use Rattle.pkg_meta.specs.declared.state.StateDoc.{StateDoc};
ghost use Rattle.fold_core.specs.Docs.{id_index_name};
ghost use Rattle.fold_core.specs.Events.{names_in};
ghost use Rattle.id_pass.specs.Named.{bodies_of};
ghost use Rattle.id_pass.specs.Passes.{ArePassCalls, doc_puts, is_idle, removals, state_put};
ghost use Rattle.id_pass.specs.Placing.{all_as_placed};
ghost use Rattle.id_pass.specs.Told.{AreStatesOf};

use crate::by_name::by_name;
use crate::call::{Call, Plan};
use crate::docs::{doc_puts, docs_given, index_name, removals};
use crate::names::{all_names, names_of};
use crate::placed::Placed;
use crate::states::{clean_state, dirty_state, state_put};
use crate::taking::{Taken, take_in};
use fold_core::{Body, Hive};
use hive_state::StateDoc;
use pkg_meta::{Many, NoMemory, Text};
use std::alloc::Global;
use std::collections::BTreeMap;

// Whether there is nothing to do.
fn is_idle(old: Option<&StateDoc>, items: &[Placed]) -> bool
    ensures { result ≡ is_idle (option_map (λ s. s.now) old.entry) (all_as_placed items.now) }
{
    match old {
        Some(state) => items.is_empty() && !state.dirty,
        None => items.is_empty(),
    }
}

// The names that a state tells.
fn names_in<'a>(old: Option<&'a StateDoc>) -> &'a [Text]
    ensures { result.now ≡ names_in (option_map (λ s. s.now) old.entry) }
{
    match old {
        Some(state) => state.names.as_slice(),
        None => &[],
    }
}

// The calls one behind the other.
fn join(
    alloc: Global,
    first: Call,
    puts: Many<Call>,
    removals: Many<Call>,
    last: Call,
) -> Result<Plan, NoMemory>
    ensures { IfOk result (λ plan. plan ≡ first ∷ (puts ++ (removals ++ last ∷ []))) }
{
    let mut calls = Vec::new(alloc);
    calls.push(first)?;
    calls.append(&mut puts.into_vec())?;
    calls.append(&mut removals.into_vec())?;
    calls.push(last)?;
    Ok(Plan::of(calls))
}

// The plan, where the new documents are these, and those are given.
fn plan_of(
    alloc: Global,
    key: &str,
    old: &[Text],
    taken: Taken,
    target: u32,
    docs: BTreeMap<String, Body>,
    given: &BTreeMap<String, Body>,
) -> Result<Plan, NoMemory>
    requires rising { AreRising taken.entries }
    ensures { IfOk result (λ plan. (dirty : StateDoc) × (clean : StateDoc) × AreStatesOf taken target old.now (keys (bodies_of docs)) dirty clean
        × (plan ≡ state_put key.now dirty ∷ (doc_puts (id_index_name key.now) (bodies_of given.now) (bodies_of docs)
        ++ (removals (id_index_name key.now) (bodies_of docs) old.now ++ state_put key.now clean ∷ [])))) }
{
    let new = names_of(alloc, &docs)?;
    let all = all_names(alloc, old, new.as_slice())?;
    let dirty = dirty_state(target, taken, all);
    let first = state_put(alloc, key, &dirty)?;
    let clean = clean_state(dirty, new);
    let last = state_put(alloc, key, &clean)?;
    let index = index_name(alloc, key)?;
    let removals = removals(alloc, index.as_str(), old, &docs)?;
    let puts = doc_puts(alloc, index, docs, given)?;
    join(alloc, first, puts, removals, last)
}

/// The plan of a pass over the id with this key, from the state that is stored of it, if any, to the
/// commit `target`. The items are those of the id behind the state's `at` and up to the target, in order.
///
/// Its calls are, in this order:
///
/// 1. the put of the state as dirty, at the target, with the old names and the new ones;
/// 2. the puts of the new documents in order of name, the index last, without those that a state that
///    isn't dirty has already;
/// 3. where there is no new index, the removal of the old one;
/// 4. the removals of the other old names that aren't new, in order;
/// 5. the put of the state as clean, with the new names alone.
///
/// There are none where no item came and the state, if any, isn't dirty.
pub fn make_plan<H: Hive>(
    alloc: Global,
    base: &str,
    key: &str,
    old: Option<&StateDoc>,
    items: &[Placed],
    target: u32,
) -> Result<Plan, NoMemory>
    ensures idle { IfOk result (λ plan. is_idle (option_map (λ s. s.now) old.entry) (all_as_placed items.now) ≡ true → plan ≡ []) }
    ensures calls { IfOk result (λ plan. is_idle (option_map (λ s. s.now) old.entry) (all_as_placed items.now) ≡ false
        → ArePassCalls H.keeps H.makes base.now key.now (option_map (λ s. s.now) old.entry) (all_as_placed items.now) target plan) }
{
    if is_idle(old, items) {
        return Ok(Plan::of(Vec::new(alloc)));
    }
    let given = docs_given::<H>(alloc, base, key, old)?;
    let taken = take_in::<H>(alloc, old, items)?;
    let entries = taken.entries.as_slice();
    let docs = H::docs(
        alloc,
        base,
        key,
        taken.touched,
        taken.touched_stamp,
        entries,
    )?;
    let docs = by_name(alloc, docs)?;
    plan_of(alloc, key, names_in(old), taken, target, docs, &given)
}
