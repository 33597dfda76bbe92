// The names of the catalog's documents.
ghost use Rattle.std.specs.Prelude.{◌↔◌, IsTrue};
ghost use Rattle.feed_routes.specs.Names.{IsCatalogName, IsLeafName, IsPageName, IsPlace};

use crate::segments::is_number;
use crate::split::{at_slash, between};

fn is_page_name(name: &str) -> bool
    ensures { IsTrue result ↔ IsPageName name.now }
{
    match between(name, "page", ".json") {
        Some(number) => is_number(number),
        None => false,
    }
}

// Whether the text is two numbers with a slash between them.
fn is_place(text: &str) -> bool
    ensures { IsTrue result ↔ IsPlace text.now }
{
    match at_slash(text) {
        Some((number, place)) => is_number(number) && is_number(place),
        None => false,
    }
}

fn is_leaf_name(name: &str) -> bool
    ensures { IsTrue result ↔ IsLeafName name.now }
{
    match between(name, "data/", ".json") {
        Some(place) => is_place(place),
        None => false,
    }
}

/// Whether a document of the catalog has this name, in some catalog.
pub(crate) fn is_catalog_name(name: &str) -> bool
    ensures { IsTrue result ↔ IsCatalogName name.now }
{
    name == "index.json" || is_page_name(name) || is_leaf_name(name)
}
