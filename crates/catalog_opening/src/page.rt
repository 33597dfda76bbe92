// Whether the rows of a page fit what the index says of it.
ghost use Rattle.std.specs.Prelude.{◌≡◌, ◌<◌, ◌^◌, ◌↔◌, IsTrue, IfSome, IfNone, length};
ghost use Rattle.catalog_doc.specs.Documents.{head_of};
ghost use Rattle.catalog_opening.specs.Pages.{AreOfCommit, HasOneMore, IsOfCommit, IsOneCommit};
ghost use Rattle.catalog_opening.specs.Reads.{Fits, page_of};

use catalog_doc::{PageHead, Row, last_of};
use pkg_meta::{Many, Ticks};

// How many rows a page has at the most.
const PAGE_ROOM: usize = 512;

/// A page that was read, with what an index says of it.
#[derive(Drop)]
pub(crate) struct Page {
    pub(crate) head: PageHead,
    pub(crate) rows: Many<Row>,
}

/// Which rows a page may have beside what the index says of it.
#[derive(Clone, Copy)]
pub(crate) enum Fit {
    AsItIs,
    OrOneMore,
}

pub(crate) fn agrees(rows: &[Row], head: &PageHead) -> bool
    ensures { IsTrue result ↔ (head_of rows.now ≡ head.now) }
{
    let (number, stamp) = last_of(rows);
    number == head.number && stamp == head.stamp && rows.len() == head.count as usize
}

fn is_of_commit(number: u32, stamp: Ticks, row: &Row) -> bool
    ensures { IsTrue result ↔ IsOfCommit number stamp row.now }
{
    row.number == number && row.stamp == stamp
}

fn are_of_commit(number: u32, stamp: Ticks, rows: &[Row]) -> bool
    ensures { IsTrue result ↔ AreOfCommit number stamp rows.now }
{
    for row in rows {
        if !is_of_commit(number, stamp, row) {
            return false;
        }
    }
    true
}

pub(crate) fn is_one_commit(rows: &[Row]) -> bool
    ensures { IsTrue result ↔ IsOneCommit rows.now }
{
    match rows {
        [row, ..] => rows.len() <= 64 && are_of_commit(row.number, row.stamp, rows),
        [] => false,
    }
}

fn has_one_more(rows: &[Row], head: &PageHead) -> bool
    ensures { IsTrue result ↔ HasOneMore head.now rows.now }
{
    let count = head.count as usize;
    if count > rows.len() || rows.len() > PAGE_ROOM {
        return false;
    }
    agrees(&rows[..count], head) && is_one_commit(&rows[count..])
}

fn page_of(rows: Many<Row>) -> Page
    requires { length rows < 2 ^ 32 }
    ensures { result ≡ page_of rows }
{
    let (number, stamp) = last_of(rows.as_slice());
    let count = rows.len() as u32;
    Page {
        head: PageHead {
            number,
            stamp,
            count,
        },
        rows,
    }
}

/// The page of these rows, where they fit what the index says of it.
pub(crate) fn as_page(rows: Many<Row>, head: &PageHead, fit: Fit) -> Option<Page>
    ensures some { IfSome result (λ page. (page ≡ page_of rows) × Fits fit head.now rows) }
    ensures none { IfNone result (Fits fit head.now rows → ⊥) }
{
    if agrees(rows.as_slice(), head) {
        return Some(Page { head: *head, rows });
    }
    match fit {
        Fit::OrOneMore if has_one_more(rows.as_slice(), head) => Some(page_of(rows)),
        _ => None,
    }
}

/// The page of these rows, where they are those of one commit, and such a page is awaited.
pub(crate) fn as_next(rows: Many<Row>, awaited: bool) -> Option<Page>
    ensures some { IfSome result (λ page. (page ≡ page_of rows) × IsTrue awaited × IsOneCommit rows) }
    ensures none { IfNone result (IsTrue awaited → IsOneCommit rows → ⊥) }
{
    if awaited && is_one_commit(rows.as_slice()) {
        Some(page_of(rows))
    } else {
        None
    }
}
