// A round of a hive.
ghost use Rattle.std.specs.Prelude.{◌≡◌, ◌<◌, ℕ, List, [], map, length, true, IfErr, IfOk, IfSome, IsErrOf};
ghost use Rattle.std.specs.FinMap.{get};
ghost use Rattle.feed_base.specs.Counts.{CountsFault};
ghost use Rattle.pkg_meta.specs.declared.commit.Stored.{Stored};
ghost use Rattle.catalog_items.specs.ByRows.{rows_above};
ghost use Rattle.catalog_core.specs.Framing.{StaysOpen};
ghost use Rattle.catalog_core.specs.Opened.{IsOpenFor};
ghost use Rattle.cursor_doc.specs.Cursor.{cursor_name};
ghost use Rattle.fold_core.specs.Folds.{fold_of};
ghost use Rattle.id_pass.specs.declared.error.RoundOut.TheVariants.{Done, Idle};
ghost use Rattle.job_round.specs.Answers.{IfDamagedText, IfDone, IfIdle, IsDamagedBlob, IsLostInCatalog, IsLostInHive, IsStopTold, hive_word, told_number};
ghost use Rattle.job_round.specs.Cursors.{IsCursor};
ghost use Rattle.job_round.specs.Ids.{by_id, key_of_id};
ghost use Rattle.job_round.specs.Plans.{AreTold, IsOfPasses};
ghost use Rattle.job_round.specs.Reads.{RunsReads, ReadsRound, ReadsTaking};
ghost use Rattle.job_round.specs.Rounds.{IsEndStop, Rounds, RunsRound, RunsTaking};
ghost use Rattle.job_round.specs.Stops.{IfDamaged};

use crate::cursor::{cursor_in, damaged_cursor, put_cursor};
use crate::ids::Ids;
use crate::passes::passes;
use crate::stop::{Stop, catalog_stop};
use blob_store::Blobs;
use catalog_core::Catalog;
use catalog_doc::Row;
use cursor_doc::Mark;
use id_pass::{Hive, RoundOut};
use pkg_meta::Many;
use std::alloc::Global;

// The answer where no row stands behind the cursor.
#[tactic(auto, using(crate::proofs::ReadTelling::damage_reads))]
fn at_end<B: Blobs>(alloc: Global, catalog: &mut Catalog<B>, cursor: u32) -> Result<RoundOut, Stop>
    ensures stays { StaysOpen catalog.old catalog.new (B.seen catalog.old.area) (B.seen catalog.new.area) (IsErrOf result Stop.CatalogFault) }
    ensures idle { IfOk result (λ out. out ≡ Idle cursor) }
    ensures last { (cs : List Stored) → IsOpenFor catalog.old (B.seen catalog.old.area) cs → IfOk result (λ out. cursor ≡ length cs) }
    ensures reads { catalog.old.settled ≡ true → RunsReads [] (B.seen catalog.old.area) (B.seen catalog.new.area) result }
    ensures cause { IfErr result (IsEndStop catalog.old (B.seen catalog.old.area) cursor) }
{
    let count = match catalog.count(alloc) {
        Ok(count) => count,
        Err(error) => return Err(catalog_stop(error)),
    };
    if count == cursor {
        Ok(RoundOut::Idle(cursor))
    } else {
        Err(damaged_cursor(alloc))
    }
}

// Takes up the ids of these rows, and puts the cursor.
fn take_up<H: Hive, B: Blobs>(
    alloc: Global,
    catalog: &mut Catalog<B>,
    area: &mut B,
    rows: Many<Row>,
    target: &Mark,
) -> Result<RoundOut, Stop>
    ensures stays { StaysOpen catalog.old catalog.new (B.seen catalog.old.area) (B.seen catalog.new.area) (IsErrOf result Stop.CatalogFault) }
    ensures done { IfOk result (λ out. out ≡ Done target.now.number) }
    ensures runs { (c : ℕ) → RunsTaking (fold_of H.keeps H.makes catalog.old.base)
        (AreTold c (by_id rows) (IsOpenFor catalog.old (B.seen catalog.old.area)))
        c target.now.number target.now.stamp (map key_of_id (by_id rows)) (B.seen area.old) (B.seen area.new) result }
    ensures reads { (c : ℕ) → catalog.old.settled ≡ true → rows ≡ rows_above c catalog.old.kept.rows
        → ReadsTaking (fold_of H.keeps H.makes catalog.old.base) (AreTold c (by_id rows) (IsOpenFor catalog.old (B.seen catalog.old.area)))
        c target.now.number catalog.old.kept.rows target.now.stamp (map key_of_id (by_id rows)) (B.seen area.old) (B.seen area.new)
        (B.seen catalog.old.area) (B.seen catalog.new.area) result }
    ensures cause { (c : ℕ) → catalog.old.settled ≡ true → rows ≡ rows_above c catalog.old.kept.rows
        → IfErr result (IsOfPasses catalog.new (B.seen catalog.new.area) (B.seen area.new) target.now.number) }
{
    let ids = Ids::of(alloc, rows)?;
    passes::<H, B>(alloc, catalog, area, &ids, target.number)?;
    put_cursor(alloc, area, target)?;
    Ok(RoundOut::Done(target.number))
}

// A round, with the area of a damaged blob beside its name.
pub(crate) fn round<H: Hive, B: Blobs>(
    alloc: Global,
    catalog: &mut Catalog<B>,
    area: &mut B,
) -> Result<RoundOut, Stop>
    ensures stays { StaysOpen catalog.old catalog.new (B.seen catalog.old.area) (B.seen catalog.new.area) (IsErrOf result Stop.CatalogFault) }
    ensures runs { RunsRound (fold_of H.keeps H.makes catalog.old.base) (IsOpenFor catalog.old (B.seen catalog.old.area))
        (B.seen area.old) (B.seen area.new) result }
    ensures reads { catalog.old.settled ≡ true → ReadsRound (fold_of H.keeps H.makes catalog.old.base) (IsOpenFor catalog.old (B.seen catalog.old.area))
        catalog.old.kept.rows (B.seen area.old) (B.seen area.new) (B.seen catalog.old.area) (B.seen catalog.new.area) result }
    ensures cause { IfErr result (IfDamaged (IsLostInCatalog catalog.old catalog.new (B.seen catalog.old.area) (B.seen catalog.new.area))
        (IsLostInHive catalog.old (B.seen catalog.old.area) (B.seen area.new).held)) }
{
    let cursor = cursor_in(alloc, area)?;
    let rows = match catalog.items_after(alloc, cursor) {
        Ok(rows) => rows,
        Err(error) => return Err(catalog_stop(error)),
    };
    let target = match rows.as_slice().last() {
        Some(row) => Mark {
            number: row.number,
            stamp: row.stamp,
        },
        None => return at_end(alloc, catalog, cursor),
    };
    take_up::<H, B>(alloc, catalog, area, rows, &target)
}
