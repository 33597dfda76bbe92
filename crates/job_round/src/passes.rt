// Passes: each takes up one id.
ghost use Rattle.std.specs.Prelude.{◌≡◌, ℕ, true, map, IfErr, IsErrOf};
ghost use Rattle.catalog_core.specs.Framing.{StaysOpen};
ghost use Rattle.catalog_core.specs.Opened.{IsOpenFor};
ghost use Rattle.fold_core.specs.Folds.{fold_of};
ghost use Rattle.job_round.specs.Ids.{key_of_id};
ghost use Rattle.job_round.specs.Plans.{AreTold, IsOfPasses, IsTold, RunsPass, RunsPasses};
ghost use Rattle.job_round.specs.Reads.{HaveOwnRows, ReadsPass, ReadsPasses, own_rows};

use crate::calls::run_plan;
use crate::ids::IdRows;
use crate::items::items_behind;
use crate::states::{at_in, state_of};
use crate::stop::Stop;
use blob_store::Blobs;
use catalog_core::Catalog;
use id_pass::{Hive, make_plan};
use std::alloc::Global;

// Takes up an id: gets its state, and makes the calls that its items behind that state want.
fn pass<H: Hive, B: Blobs>(
    alloc: Global,
    catalog: &mut Catalog<B>,
    area: &mut B,
    id: &IdRows,
    target: u32,
) -> Result<(), Stop>
    ensures stays { StaysOpen catalog.old catalog.new (B.seen catalog.old.area) (B.seen catalog.new.area) (IsErrOf result Stop.CatalogFault) }
    ensures runs { (c : ℕ) → RunsPass (fold_of H.keeps H.makes catalog.old.base)
        (IsTold c id.now (IsOpenFor catalog.old (B.seen catalog.old.area))) c target id.now.key (B.seen area.old) (B.seen area.new) result }
    ensures reads { (c : ℕ) → catalog.old.settled ≡ true → id.now.rows ≡ own_rows c catalog.old.kept.rows id.now.key
        → ReadsPass (fold_of H.keeps H.makes catalog.old.base) (IsTold c id.now (IsOpenFor catalog.old (B.seen catalog.old.area))) c target
        catalog.old.kept.rows id.now.key (B.seen area.old) (B.seen area.new) (B.seen catalog.old.area) (B.seen catalog.new.area) result }
    ensures cause { (c : ℕ) → catalog.old.settled ≡ true → id.now.rows ≡ own_rows c catalog.old.kept.rows id.now.key
        → IfErr result (IsOfPasses catalog.new (B.seen catalog.new.area) (B.seen area.new) target) }
{
    let key = id.key.as_str();
    let stored = state_of(alloc, area, key, target)?;
    let items = items_behind(alloc, catalog, id.rows.as_slice(), at_in(&stored))?;
    let plan = make_plan::<H>(
        alloc,
        catalog.base(),
        key,
        stored.as_ref(),
        items.as_slice(),
        target,
    )?;
    run_plan(alloc, catalog, area, plan)
}

/// Takes up these ids, one after the other.
pub(crate) fn passes<H: Hive, B: Blobs>(
    alloc: Global,
    catalog: &mut Catalog<B>,
    area: &mut B,
    ids: &[IdRows],
    target: u32,
) -> Result<(), Stop>
    ensures stays { StaysOpen catalog.old catalog.new (B.seen catalog.old.area) (B.seen catalog.new.area) (IsErrOf result Stop.CatalogFault) }
    ensures runs { (c : ℕ) → RunsPasses (fold_of H.keeps H.makes catalog.old.base)
        (AreTold c ids.now (IsOpenFor catalog.old (B.seen catalog.old.area))) c target (map key_of_id ids.now) (B.seen area.old) (B.seen area.new) result }
    ensures reads { (c : ℕ) → catalog.old.settled ≡ true → HaveOwnRows c catalog.old.kept.rows ids.now
        → ReadsPasses (fold_of H.keeps H.makes catalog.old.base) (AreTold c ids.now (IsOpenFor catalog.old (B.seen catalog.old.area))) c target
        catalog.old.kept.rows (map key_of_id ids.now) (B.seen area.old) (B.seen area.new) (B.seen catalog.old.area) (B.seen catalog.new.area) result }
    ensures cause { (c : ℕ) → catalog.old.settled ≡ true → HaveOwnRows c catalog.old.kept.rows ids.now
        → IfErr result (IsOfPasses catalog.new (B.seen catalog.new.area) (B.seen area.new) target) }
{
    for id in ids {
        pass::<H, B>(alloc, catalog, area, id, target)?;
    }
    Ok(())
}
