// The page that a commit's rows go to, and the puts of the page and the index.
ghost use Rattle.std.specs.Prelude.{◌≡◌, ◌≤◌, ◌<◌, ◌+◌, ◌^◌, ◌++◌, OnOk, length};
ghost use Rattle.commit_plan.specs.Plans.{fits_last_page, kept_heads, kept_rows, last_puts};

use crate::places::put;
use blob_store::Call;
use catalog_doc::{
    INDEX_NAME, PageHead, Row, index_bytes, joined_head, joined_page_bytes, page_name,
};
use pkg_meta::{Many, NoMemory};
use std::alloc::Global;

// How many items a page has at the most.
const PAGE_ROOM: usize = 512;

// Whether there is a last page, and it has room for so many rows more.
fn fits_last_page(rows: &[Row], pages: &[PageHead], count: usize) -> bool
    requires few { count ≤ 512 }
    ensures { result ≡ fits_last_page rows.now pages.now count }
{
    if pages.is_empty() {
        return false;
    }
    rows.len() + count <= PAGE_ROOM
}

// The puts of the page with these rows and more behind them, and of the index, where these are the heads of the
// pages before it.
fn add_last_puts(
    alloc: Global,
    base: &str,
    calls: &mut Many<Call>,
    heads: &[PageHead],
    rows: &[Row],
    more: &[Row],
) -> Result<(), NoMemory>
    requires pages { length heads.now + 1 < 2 ^ 32 }
    requires rows { length rows.now + length more.now < 2 ^ 32 }
    ensures { OnOk result (calls.new ≡ calls.old ++ last_puts base.now heads.now (rows.now ++ more.now)) }
{
    let page = heads.len() as u32;
    let name = page_name(alloc, page)?;
    let bytes = joined_page_bytes(alloc, base, page, rows, more)?;
    calls.push(put(name, bytes))?;
    let mut heads = heads.to_vec(alloc)?;
    heads.push(joined_head(rows, more))?;
    let index = index_bytes(alloc, base, heads.as_slice())?;
    calls.push(put(String::from_str(alloc, INDEX_NAME)?, index))?;
    Ok(())
}

/// The puts of the page that the rows of a commit go to and of the index, behind others, where these are the rows of
/// the last page and the heads of all pages.
pub(crate) fn add_page_puts(
    alloc: Global,
    base: &str,
    calls: &mut Many<Call>,
    pages: &[PageHead],
    rows: &[Row],
    more: &[Row],
) -> Result<(), NoMemory>
    requires pages { length pages.now + 1 < 2 ^ 32 }
    requires few { length more.now ≤ 512 }
    ensures { let fits = fits_last_page rows.now pages.now (length more.now) in
        OnOk result (calls.new ≡ calls.old ++ last_puts base.now (kept_heads fits pages.now) (kept_rows fits rows.now ++ more.now)) }
{
    if fits_last_page(rows, pages, more.len()) {
        add_last_puts(alloc, base, calls, &pages[..pages.len() - 1], rows, more)
    } else {
        add_last_puts(alloc, base, calls, pages, &rows[..0], more)
    }
}
