// The dependency groups of stored details.
ghost use Rattle.std.specs.Prelude.{◌≡◌, ◌≢◌, List, Some, IfOk, IsNone, map};
ghost use Rattle.serde_json.specs.View.{view};
ghost use Rattle.version_range.specs.Printed.{range_text};
ghost use Rattle.version_range.specs.declared.range.VersionRange.{VersionRange};
ghost use Rattle.pkg_meta.specs.Trees.{dep_tree, group_tree};
ghost use Rattle.pkg_meta.specs.declared.dependency.Dep.{Dep};
ghost use Rattle.pkg_meta.specs.declared.dependency.DepGroup.{DepGroup};

use pkg_meta::{
    Dep, DepGroup, Many, NoMemory, PackageId, VersionRange, copy_text_in, items_in, text_in,
};
use serde_json::Value;
use std::alloc::Global;
use version_range::RangeErr;

// The range that is printed so.
fn read_range(alloc: Global, text: &str) -> Result<Option<VersionRange>, NoMemory>
    ensures { (range : VersionRange) → text.now ≡ range_text range → IfOk result (λ found. found ≡ Some range) }
{
    match VersionRange::parse(alloc, text) {
        Ok(range) => Ok(Some(range)),
        Err(error) => refused(error),
    }
}

// No range, unless it is out of memory.
fn refused(error: RangeErr) -> Result<Option<VersionRange>, NoMemory>
    ensures { IfOk result (λ o. (error ≢ RangeErr.Memory) × IsNone o) }
{
    match error {
        RangeErr::Memory => Err(NoMemory),
        _ => Ok(None),
    }
}

fn id_in(alloc: Global, value: &Value) -> Result<Option<PackageId>, NoMemory>
    ensures { (dep : Dep) → view value.now ≡ dep_tree dep → IfOk result (λ found. found ≡ Some dep.id) }
{
    match text_in(value, "id") {
        Some(text) => PackageId::read(alloc, text),
        None => Ok(None),
    }
}

fn range_in(alloc: Global, value: &Value) -> Result<Option<VersionRange>, NoMemory>
    ensures { (dep : Dep) → view value.now ≡ dep_tree dep → IfOk result (λ found. found ≡ Some dep.range) }
{
    match text_in(value, "range") {
        Some(text) => read_range(alloc, text),
        None => Ok(None),
    }
}

fn dep_in(alloc: Global, value: &Value) -> Result<Option<Dep>, NoMemory>
    ensures { (dep : Dep) → view value.now ≡ dep_tree dep → IfOk result (λ found. found ≡ Some dep) }
{
    let Some(id) = id_in(alloc, value)? else {
        return Ok(None);
    };
    let Some(range) = range_in(alloc, value)? else {
        return Ok(None);
    };
    Ok(Some(Dep { id, range }))
}

fn deps_of(alloc: Global, values: &[Value]) -> Result<Option<Many<Dep>>, NoMemory>
    ensures { (deps : List Dep) → map view values.now ≡ map dep_tree deps → IfOk result (λ found. found ≡ Some deps) }
{
    let mut deps = Many::new(alloc);
    for value in values {
        let Some(dep) = dep_in(alloc, value)? else {
            return Ok(None);
        };
        deps.push(dep)?;
    }
    Ok(Some(deps))
}

fn group_in(alloc: Global, value: &Value) -> Result<Option<DepGroup>, NoMemory>
    ensures { (group : DepGroup) → view value.now ≡ group_tree group → IfOk result (λ found. found ≡ Some group) }
{
    let framework = copy_text_in(alloc, value, "targetFramework")?;
    let Some(deps) = deps_of(alloc, items_in(value, "dependencies"))? else {
        return Ok(None);
    };
    Ok(Some(DepGroup { framework, deps }))
}

pub(crate) fn groups_of(alloc: Global, values: &[Value]) -> Result<Option<Many<DepGroup>>, NoMemory>
    ensures { (groups : List DepGroup) → map view values.now ≡ map group_tree groups → IfOk result (λ found. found ≡ Some groups) }
{
    let mut groups = Many::new(alloc);
    for value in values {
        let Some(group) = group_in(alloc, value)? else {
            return Ok(None);
        };
        groups.push(group)?;
    }
    Ok(Some(groups))
}
