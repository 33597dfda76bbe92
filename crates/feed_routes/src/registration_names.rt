// The names of registration documents.
ghost use Rattle.std.specs.Prelude.{◌↔◌, IfOk, IsTrue};
ghost use Rattle.feed_routes.specs.Names.{IsBounds, IsRegistrationTail, IsStoredPage, IsVersionLeaf};

use crate::segments::is_version_key;
use crate::split::{at_slash, before_suffix, between};
use nuget_version::NoMemory;
use std::alloc::Global;

// Whether the text is two keys of versions with a slash between them.
fn is_bounds(alloc: Global, text: &str) -> Result<bool, NoMemory>
    ensures { IfOk result (λ is. IsTrue is ↔ IsBounds text.now) }
{
    let Some((lower, upper)) = at_slash(text) else {
        return Ok(false);
    };
    if is_version_key(alloc, lower)? {
        is_version_key(alloc, upper)
    } else {
        Ok(false)
    }
}

fn is_stored_page(alloc: Global, tail: &str) -> Result<bool, NoMemory>
    ensures { IfOk result (λ is. IsTrue is ↔ IsStoredPage tail.now) }
{
    match between(tail, "page/", ".json") {
        Some(bounds) => is_bounds(alloc, bounds),
        None => Ok(false),
    }
}

fn is_version_leaf(alloc: Global, tail: &str) -> Result<bool, NoMemory>
    ensures { IfOk result (λ is. IsTrue is ↔ IsVersionLeaf tail.now) }
{
    match before_suffix(tail, ".json") {
        Some(version) => is_version_key(alloc, version),
        None => Ok(false),
    }
}

/// Whether a registration document has this behind its id.
pub(crate) fn is_registration_tail(alloc: Global, tail: &str) -> Result<bool, NoMemory>
    ensures { IfOk result (λ is. IsTrue is ↔ IsRegistrationTail tail.now) }
{
    if tail == "index.json" || is_stored_page(alloc, tail)? {
        Ok(true)
    } else {
        is_version_leaf(alloc, tail)
    }
}
