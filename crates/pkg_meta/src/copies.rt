// Copies of optional texts and of lists.
ghost use Rattle.std.specs.Prelude.{◌≡◌, IfOk};

use crate::dependency::{Dep, DepGroup};
use nuget_version::{Many, NoMemory, Text};
use std::alloc::Global;

pub(crate) fn copy_text_if(alloc: Global, text: &Option<Text>) -> Result<Option<Text>, NoMemory>
    ensures { IfOk result (λ copy. copy ≡ text.now) }
{
    match text {
        None => Ok(None),
        Some(text) => {
            let text = text.copy(alloc)?;
            Ok(Some(text))
        }
    }
}

pub(crate) fn copy_texts(alloc: Global, texts: &Many<Text>) -> Result<Many<Text>, NoMemory>
    ensures { IfOk result (λ copies. copies ≡ texts.now) }
{
    let mut copies = Many::new(alloc);
    for text in texts.as_slice() {
        copies.push(text.copy(alloc)?)?;
    }
    Ok(copies)
}

pub(crate) fn copy_deps(alloc: Global, deps: &Many<Dep>) -> Result<Many<Dep>, NoMemory>
    ensures { IfOk result (λ copies. copies ≡ deps.now) }
{
    let mut copies = Many::new(alloc);
    for dep in deps.as_slice() {
        copies.push(dep.copy(alloc)?)?;
    }
    Ok(copies)
}

pub(crate) fn copy_groups(
    alloc: Global,
    groups: &Many<DepGroup>,
) -> Result<Many<DepGroup>, NoMemory>
    ensures { IfOk result (λ copies. copies ≡ groups.now) }
{
    let mut copies = Many::new(alloc);
    for group in groups.as_slice() {
        copies.push(group.copy(alloc)?)?;
    }
    Ok(copies)
}
