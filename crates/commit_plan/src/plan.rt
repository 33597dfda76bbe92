// The commit that changes make of a catalog.
ghost use Rattle.std.specs.Prelude.{◌≡◌, ◌≤◌, ◌<◌, ◌+◌, ◌^◌, ℕ, IfOk, length};
ghost use Rattle.pkg_meta.specs.Catalog.{Catalog};
ghost use Rattle.catalog_doc.specs.CatDocs.{rows_of};
ghost use Rattle.catalog_doc.specs.Commits.{commit_puts, made};
ghost use Rattle.commit_plan.specs.Plans.{IsKnownOf, IsNumberedAfter};

use crate::last::LastItem;
use crate::pages::add_page_puts;
use crate::places::places_of;
use blob_store::Call;
use catalog_doc::{Change, PageHead, Row};
use pkg_meta::{Many, NoMemory, Ticks};
use std::alloc::Global;

/// A commit that is ready to be put: its number and stamp, its rows, and its puts in order.
#[derive(Drop)]
pub struct CommitPlan {
    pub number: u32,
    pub stamp: Ticks,
    pub rows: Many<Row>,
    pub calls: Many<Call>,
}

/// Plans the commit of these changes onto a catalog, of which it is told the last page's rows, what the index says of
/// each page, and the last item of each change's version. It takes all the memory that the puts need but the store's own.
pub(crate) fn plan_commit(
    alloc: Global,
    base: &str,
    last_page: &[Row],
    pages: &[PageHead],
    changes: &[Change],
    lasts: &[LastItem],
    number: u32,
    stamp: Ticks,
) -> Result<CommitPlan, NoMemory>
    requires few { length changes.now ≤ 64 }
    requires lasts { length lasts.now ≡ length changes.now }
    requires pages { length pages.now + 1 < 2 ^ 32 }
    ensures number { IfOk result (λ p. p.number ≡ number) }
    ensures stamp { IfOk result (λ p. p.stamp ≡ stamp) }
    ensures count { IfOk result (λ p. length p.rows ≡ length changes.now) }
    ensures rows { IfOk result (λ p. (cs : Catalog) (now : ℕ) → IsKnownOf cs changes.now last_page.now pages.now lasts.now
        → IsNumberedAfter cs now number stamp → p.rows ≡ rows_of (made cs changes.now now)) }
    ensures calls { IfOk result (λ p. (cs : Catalog) (now : ℕ) → IsKnownOf cs changes.now last_page.now pages.now lasts.now
        → IsNumberedAfter cs now number stamp → p.calls ≡ commit_puts base.now cs (made cs changes.now now)) }
{
    let places = places_of(alloc, base, changes, lasts, number, stamp)?;
    let mut calls = places.calls;
    add_page_puts(
        alloc,
        base,
        &mut calls,
        pages,
        last_page,
        places.rows.as_slice(),
    )?;
    Ok(CommitPlan {
        number,
        stamp,
        rows: places.rows,
        calls,
    })
}
