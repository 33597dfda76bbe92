// The segments of a path.
ghost use Rattle.std.specs.Prelude.{◌≡◌, ◌↔◌, ◌⊎◌, ◌++◌, codes, List, ℕ, IsTrue, IfOk};
ghost use Rattle.std.specs.List.{list_all};
ghost use Rattle.std.specs.Char.{is_ascii_digit};
ghost use Rattle.nuget_version.specs.Printed.{key_text};
ghost use Rattle.feed_routes.specs.Segments.{IsNumber, IsVersionKey};

use nuget_version::{NoMemory, Version};
use std::alloc::Global;

fn are_digits(text: &[u8]) -> bool
    ensures { result ≡ list_all is_ascii_digit text.now }
{
    text.iter().all(|byte| byte.is_ascii_digit())
}

// Whether the text is digits without leading zeros.
pub(crate) fn is_number(text: &str) -> bool
    ensures { IsTrue result ↔ IsNumber text.now }
{
    match text.as_bytes() {
        [] => false,
        [b'0', rest @ ..] => rest.is_empty(),
        digits => are_digits(digits),
    }
}

// Whether the text is the version's key.
fn is_key_of(alloc: Global, version: &Version, text: &str) -> Result<bool, NoMemory>
    ensures { IfOk result (λ is. IsTrue is ↔ (key_text version.now ≡ text.now)) }
{
    let key = version.key(alloc)?;
    Ok(key.as_str() == text)
}

// Whether the text is a version and its own key.
pub(crate) fn is_version_key(alloc: Global, text: &str) -> Result<bool, NoMemory>
    ensures { IfOk result (λ is. IsTrue is ↔ IsVersionKey text.now) }
{
    match Version::read(alloc, text)? {
        Some(version) => is_key_of(alloc, &version, text),
        None => Ok(false),
    }
}
