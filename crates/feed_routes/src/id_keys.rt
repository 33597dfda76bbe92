// Ids that are their own keys.
ghost use Rattle.std.specs.Prelude.{◌≡◌, ◌↔◌, IsTrue};
ghost use Rattle.package_id.specs.Ids.{id_key};
ghost use Rattle.feed_routes.specs.Segments.{IsIdKey};

use package_id::{MAX_ID_LEN, is_id};

// Whether no byte is a capital letter.
fn is_small(text: &[u8]) -> bool
    ensures { IsTrue result ↔ (id_key text.now ≡ text.now) }
{
    text.iter().all(|byte| !byte.is_ascii_uppercase())
}

/// Whether the text is an id and its own key.
pub(crate) fn is_id_key(text: &str) -> bool
    ensures { IsTrue result ↔ IsIdKey text.now }
{
    text.len() <= MAX_ID_LEN && is_id(text) && is_small(text.as_bytes())
}
