// Names of documents, in byte order and without repeats.
ghost use Rattle.std.specs.Prelude.{◌≡◌, ◌⊎◌, ◌↔◌, ◌||◌, ℕ, List, map, All, Contains, IsUtf8, IfOk, OnOk, string_bytes};
ghost use Rattle.std.specs.BTreeSet.{contains_text};
ghost use Rattle.std.specs.Cmp.Lexicographic.{slice_cmp};
ghost use Rattle.std.specs.FinMap.{keys};
ghost use Rattle.std.specs.List.{list_any};
ghost use Rattle.std.specs.List.Sorted.{IsStrictlySortedBy};
ghost use Rattle.std.specs.Ordering.{nat_cmp};
ghost use Rattle.std.specs.Str.{bytes_eq};
ghost use Rattle.id_pass.specs.Named.{bodies_of};

use fold_core::Body;
use pkg_meta::{Many, NoMemory, Text};
use std::alloc::Global;
use std::collections::{BTreeMap, BTreeSet};

// The names of these documents.
pub(crate) fn names_of(
    alloc: Global,
    named: &BTreeMap<String, Body>,
) -> Result<Many<Text>, NoMemory>
    ensures names { IfOk result (λ names. names ≡ keys (bodies_of named.now)) }
    ensures rising { IfOk result (λ names. IsStrictlySortedBy (slice_cmp nat_cmp) names) }
    ensures texts { IfOk result (λ names. All IsUtf8 names) }
{
    let mut names = Many::new(alloc);
    for name in named.keys() {
        names.push(Text::copy_of(alloc, name.as_str())?)?;
    }
    Ok(names)
}

// Puts these names into a set.
fn add_names(alloc: Global, all: &mut BTreeSet<String>, names: &[Text]) -> Result<(), NoMemory>
    ensures { (name : List ℕ) → OnOk result (contains_text all.new name ≡ (list_any (bytes_eq name) names.now || contains_text all.old name)) }
{
    for name in names {
        all.insert(String::from_str(alloc, name.as_str())?)?;
    }
    Ok(())
}

// The names of a set.
fn names_in(alloc: Global, all: BTreeSet<String>) -> Result<Many<Text>, NoMemory>
    ensures names { IfOk result (λ names. names ≡ map string_bytes all.keys) }
    ensures rising { IfOk result (λ names. IsStrictlySortedBy (slice_cmp nat_cmp) names) }
{
    let mut names = Many::new(alloc);
    for name in all {
        names.push(Text::of(name))?;
    }
    Ok(names)
}

// These names together.
pub(crate) fn all_names(alloc: Global, old: &[Text], new: &[Text]) -> Result<Many<Text>, NoMemory>
    ensures members { (name : List ℕ) → IfOk result (λ names. Contains names name ↔ (Contains old.now name ⊎ Contains new.now name)) }
    ensures rising { IfOk result (λ names. IsStrictlySortedBy (slice_cmp nat_cmp) names) }
{
    let mut all = BTreeSet::new(alloc);
    add_names(alloc, &mut all, old)?;
    add_names(alloc, &mut all, new)?;
    names_in(alloc, all)
}
