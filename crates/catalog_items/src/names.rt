// Which documents a catalog has, by their names.
ghost use Rattle.std.specs.Prelude.{◌≡◌, ◌<◌, ◌^◌, IfOk, length};
ghost use Rattle.std.specs.Str.{bytes_eq};
ghost use Rattle.catalog_items.specs.ByRows.{has_doc, has_leaf, has_page};

use catalog_doc::{INDEX_NAME, PageHead, Row, leaf_name, page_name};
use pkg_meta::NoMemory;
use std::alloc::Global;

fn is_equal_to(name: &str, other: &str) -> bool
    ensures { result ≡ bytes_eq name.now other.now }
{
    name == other
}

// Whether it is the name of one of so many pages.
#[tactic(auto, using(crate::proofs::DocsByRows::page_more))]
fn is_page(alloc: Global, pages: u32, name: &str) -> Result<bool, NoMemory>
    ensures { IfOk result (λ there. there ≡ has_page name.now 0 pages) }
{
    for page in 0..pages {
        let other = page_name(alloc, page)?;
        if is_equal_to(name, &other) {
            return Ok(true);
        }
    }
    Ok(false)
}

// Whether one of the rows' leaves has this name.
fn is_leaf(alloc: Global, rows: &[Row], name: &str) -> Result<bool, NoMemory>
    ensures { IfOk result (λ there. there ≡ has_leaf name.now rows.now) }
{
    for row in rows {
        let leaf = leaf_name(alloc, row.number, row.place)?;
        if is_equal_to(name, &leaf) {
            return Ok(true);
        }
    }
    Ok(false)
}

/// Whether a catalog of these rows and of so many pages has a document of this name.
pub(crate) fn is_document(
    alloc: Global,
    rows: &[Row],
    pages: u32,
    name: &str,
) -> Result<bool, NoMemory>
    ensures { IfOk result (λ there. there ≡ has_doc name.now rows.now pages) }
{
    if is_equal_to(name, INDEX_NAME) {
        return Ok(true);
    }
    if is_page(alloc, pages, name)? {
        return Ok(true);
    }
    is_leaf(alloc, rows, name)
}

/// How many pages these are, or the greatest number of 32 bits where there are more.
pub fn page_count(pages: &[PageHead]) -> u32
    ensures { length pages.now < 2 ^ 32 → result ≡ length pages.now }
{
    u32::try_from(pages.len()).unwrap_or(u32::MAX)
}
