// The heads of pages, with a commit more.
ghost use Rattle.std.specs.Prelude.{◌≡◌, ◌≤◌, ◌<◌, length};
ghost use Rattle.std.specs.Vec.{vec_len, vec_capacity};
ghost use Rattle.catalog_doc.specs.Documents.{head_of, last_head};
ghost use Rattle.catalog_rows.specs.Kept.{add_head, joined_if, longer};

use catalog_doc::{PageHead, Row, last_of};

// How many items a page has at the most.
const PAGE_ROOM: usize = 512;

/// The head of a commit's rows.
pub(crate) fn head_of(rows: &[Row]) -> PageHead
    requires few { length rows.now ≤ 64 }
    ensures { result ≡ head_of rows.now }
{
    let (number, stamp) = last_of(rows);
    PageHead {
        number,
        stamp,
        count: rows.len() as u32,
    }
}

// The head of the page with the commit, if the page has room for it.
fn joined_if(page: &PageHead, head: &PageHead) -> Option<PageHead>
    ensures { result ≡ joined_if page.now head.now }
{
    let count = page.count as usize + head.count as usize;
    if count > PAGE_ROOM {
        return None;
    }
    Some(PageHead {
        number: head.number,
        stamp: head.stamp,
        count: count as u32,
    })
}

// The head of the last page with the commit, if there is a page and it has room for it.
fn longer(pages: &[PageHead], head: &PageHead) -> Option<PageHead>
    ensures { result ≡ longer pages.now head.now }
{
    match pages.last() {
        Some(page) => joined_if(page, head),
        None => None,
    }
}

/// Adds a commit with this head to the pages, which have memory for one more.
pub(crate) fn add_head(pages: &mut Vec<PageHead>, head: &PageHead)
    requires room { vec_len pages.old < vec_capacity pages.old }
    ensures { pages.new.items ≡ add_head pages.old.items head.now }
{
    match longer(pages.as_slice(), head) {
        Some(page) => {
            let at = pages.len() - 1;
            pages[at] = page;
        }
        None => match pages.push(*head) {
            Ok(()) => {}
            Err(_) => unreachable!(),
        },
    }
}

/// How many items the last page has, 0 where there is no page.
pub(crate) fn last_count(pages: &[PageHead]) -> usize
    ensures { result ≡ (last_head pages.now).count }
{
    match pages.last() {
        Some(page) => page.count as usize,
        None => 0,
    }
}
