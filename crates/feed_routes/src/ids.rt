// The names of hives' documents, which begin with an id.
ghost use Rattle.std.specs.Prelude.{◌↔◌, IfOk, IsTrue};
ghost use Rattle.feed_routes.specs.Names.{IsContentRest, IsRegistrationRest};

use crate::content_names::is_content_tail;
use crate::id_keys::is_id_key;
use crate::registration_names::is_registration_tail;
use crate::split::at_slash;
use nuget_version::NoMemory;
use std::alloc::Global;

/// Whether a registration document has this name behind its `d/`, for some packages.
pub(crate) fn is_registration_rest(alloc: Global, rest: &str) -> Result<bool, NoMemory>
    ensures { IfOk result (λ is. IsTrue is ↔ IsRegistrationRest rest.now) }
{
    let Some((id, tail)) = at_slash(rest) else {
        return Ok(false);
    };
    if is_id_key(id) {
        is_registration_tail(alloc, tail)
    } else {
        Ok(false)
    }
}

/// Whether a content document has this name behind its `d/`, for some packages.
pub(crate) fn is_content_rest(alloc: Global, rest: &str) -> Result<bool, NoMemory>
    ensures { IfOk result (λ is. IsTrue is ↔ IsContentRest rest.now) }
{
    let Some((id, tail)) = at_slash(rest) else {
        return Ok(false);
    };
    if is_id_key(id) {
        is_content_tail(alloc, id, tail)
    } else {
        Ok(false)
    }
}
