// Which commit changes make of a catalog.
ghost use Rattle.std.specs.Prelude.{◌≡◌, ◌≤◌, ◌+◌, ℕ, None, Some, IfOk, length, max};
ghost use Rattle.blob_store.specs.Area.{Area};
ghost use Rattle.pkg_meta.specs.Catalog.{Catalog};
ghost use Rattle.pkg_meta.specs.Lawful.{newest};
ghost use Rattle.catalog_doc.specs.Catalogs.{IsCatalog};
ghost use Rattle.catalog_doc.specs.Commits.{made};
ghost use Rattle.catalog_doc.specs.Verdict.{refusal};
ghost use Rattle.catalog_rows.specs.Kept.{IsKeptOf};
ghost use Rattle.catalog_rows.specs.Reasons.{misshapen};
ghost use Rattle.commit_plan.specs.Lookups.{IfDamagedCommit, IsKnown, IsLastDamaged, RefusesFor, RunsLooking};
ghost use Rattle.commit_plan.specs.Planned.{IsPlanOf, PlansMade};
ghost use Rattle.commit_plan.specs.Plans.{AreKnownFor};

use crate::known::last_items;
use crate::last::LastItem;
use crate::plan::{CommitPlan, plan_commit};
use blob_store::Blobs;
use catalog_doc::{Change, CommitErr};
use catalog_rows::Rows;
use pkg_meta::{NoMemory, Ticks};
use std::alloc::Global;

// How many pages a catalog has at the most.
const PAGES_AT_MOST: usize = 200_000;

// The commit of changes that aren't refused, at this stamp.
fn plan_known(
    alloc: Global,
    base: &str,
    rows: &Rows,
    changes: &[Change],
    lasts: &[LastItem],
    stamp: Ticks,
) -> Result<CommitPlan, NoMemory>
    requires few { length changes.now ≤ 64 }
    requires lasts { length lasts.now ≡ length changes.now }
    requires pages { length rows.now.pages ≤ 200_000 }
    ensures count { IfOk result (λ p. length p.rows ≡ length changes.now) }
    ensures plans { IfOk result (λ p. (cs : Catalog) (now : ℕ) → IsCatalog cs → IsKeptOf rows.now cs → AreKnownFor cs changes.now lasts.now
        → stamp ≡ max now (newest cs + 1) → IsPlanOf base.now cs (made cs changes.now now) p) }
{
    let number = rows.next_number();
    let plan = plan_commit(
        alloc,
        base,
        rows.last_page(),
        rows.pages(),
        changes,
        lasts,
        number,
        stamp,
    )?;
    Ok(plan)
}

/// The commit that changes make of a catalog, if they aren't refused. It takes all the memory that the commit needs but
/// the store's own and that of the catalog's rows.
pub fn plan_changes<B: Blobs>(
    alloc: Global,
    area: &mut B,
    base: &str,
    rows: &Rows,
    changes: &[Change],
    now: Ticks,
) -> Result<CommitPlan, CommitErr>
    requires shaped { misshapen changes.now ≡ None }
    // Nothing but the leaves that the changes need are got.
    ensures runs { RunsLooking rows.now.rows changes.now (B.seen area.old) (B.seen area.new) result }
    ensures count { IfOk result (λ p. length p.rows ≡ length changes.now) }

    // Of an area that spells the catalog, the commit is that of the changes, and a refusal is the verdict's.
    ensures plans { (cs : Catalog) → IsKnown rows.now (B.seen area.old) base.now cs → PlansMade base.now cs changes.now now result }
    ensures refused { (cs : Catalog) → IsKnown rows.now (B.seen area.old) base.now cs → RefusesFor (refusal cs changes.now) result }
    ensures damaged { (m : Area) → (B.seen area.old).held ≡ Some m → IfDamagedCommit result (IsLastDamaged m base.now rows.now.rows) }
{
    if let Some(error) = rows.refusal(alloc, changes)? {
        return Err(error);
    }
    let Some(stamp) = rows.next_stamp(now) else {
        return Err(CommitErr::ClockEnd);
    };
    if rows.pages().len() > PAGES_AT_MOST {
        return Err(CommitErr::Full(u32::MAX));
    }
    let lasts = last_items(alloc, area, base, rows, changes)?;
    let plan = plan_known(alloc, base, rows, changes, lasts.as_slice(), stamp)?;
    Ok(plan)
}
