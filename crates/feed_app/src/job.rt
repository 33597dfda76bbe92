// The command `job`.
ghost use Rattle.std.specs.Prelude.{◌≡◌, ℕ, List, Option, option_map};
ghost use Rattle.feed_base.specs.Counts.{HasRisen};
ghost use Rattle.catalog_core.specs.Framing.{StaysOpen};
ghost use Rattle.fold_core.specs.Folds.{fold_of};
ghost use Rattle.feed_app.specs.Frame.{IsDone};
ghost use Rattle.feed_app.specs.Hives.{KeepsBut, hive_fold};
ghost use Rattle.feed_app.specs.Jobs.{RoundAnswers, job_meaning};
ghost use Rattle.feed_app.specs.Outside.{AreaRose, Stream, by_hive_name, over};

use crate::answer::Answer;
use admin_wire::{AreaName, Line};
use auto_docs::Auto;
use blob_store::Blobs;
use catalog_core::{Catalog, Stores, open_catalog};
use flat_container::Content;
use fold_core::{Hive, HiveName};
use job_round::run_round;
use reg_docs::{Plain, SemVer2};
use std::alloc::Global;

// One round of the hive, over an open catalog.
fn job_in<H: Hive, B: Blobs>(
    alloc: Global,
    catalog: &mut Catalog<B>,
    area: &mut B,
    hive: HiveName,
) -> Answer
    ensures is { RoundAnswers (fold_of H.keeps H.makes catalog.old.base) catalog.old catalog.new (B.seen catalog.old.area) (B.seen catalog.new.area)
        (B.seen area.old) (B.seen area.new) hive result }
    ensures stays { StaysOpen catalog.old catalog.new (B.seen catalog.old.area) (B.seen catalog.new.area)
        (result ≡ Answer.Reply (Line.Fault AreaName.Catalog)) }
    ensures hive_cause { result ≡ Answer.Reply (Line.Fault (AreaName.Hive hive)) → HasRisen (B.seen area.old).faults (B.seen area.new).faults }
{
    let result = run_round::<H, B>(alloc, catalog, area);
    Answer::of_round(alloc, hive, result)
}

// One round of this hive, in its area among those of the hives.
fn job_of<B: Blobs>(
    alloc: Global,
    catalog: &mut Catalog<B>,
    plain: &mut B,
    semver2: &mut B,
    content: &mut B,
    auto: &mut B,
    hive: HiveName,
) -> Answer
    ensures is { RoundAnswers (hive_fold hive catalog.old.base) catalog.old catalog.new (B.seen catalog.old.area) (B.seen catalog.new.area)
        (B.seen (by_hive_name plain.old semver2.old content.old auto.old hive)) (B.seen (by_hive_name plain.new semver2.new content.new auto.new hive))
        hive result }
    ensures stays { StaysOpen catalog.old catalog.new (B.seen catalog.old.area) (B.seen catalog.new.area)
        (result ≡ Answer.Reply (Line.Fault AreaName.Catalog)) }
    ensures hive_cause { result ≡ Answer.Reply (Line.Fault (AreaName.Hive hive))
        → AreaRose B.Blobs (by_hive_name plain.old semver2.old content.old auto.old hive) (by_hive_name plain.new semver2.new content.new auto.new hive) }
    ensures others { KeepsBut hive (by_hive_name plain.old semver2.old content.old auto.old) (by_hive_name plain.new semver2.new content.new auto.new) }
{
    match hive {
        HiveName::Plain => job_in::<Plain, B>(alloc, catalog, plain, hive),
        HiveName::SemVer2 => job_in::<SemVer2, B>(alloc, catalog, semver2, hive),
        HiveName::Content => job_in::<Content, B>(alloc, catalog, content, hive),
        HiveName::Auto => job_in::<Auto, B>(alloc, catalog, auto, hive),
    }
}

/// Opens the catalog, for a base address that is given, if any, and makes one round of the hive over it.
pub(crate) fn job<B: Blobs>(
    alloc: Global,
    stores: Stores<B>,
    base: Option<&str>,
    hive: HiveName,
) -> (Answer, Stores<B>)
    ensures { (input : Stream) (clock : Option (List ℕ))
        → IsDone B.Blobs (job_meaning B.Blobs hive) (over (option_map (λ t. t.now) base.entry) stores input clock) result.0
        (over (option_map (λ t. t.now) base.entry) result.1 input clock) }
{
    let mut stores = stores;
    match open_catalog(alloc, stores.catalog, base) {
        Ok(catalog) => {
            let mut catalog = catalog;
            let answer = job_of(
                alloc,
                &mut catalog,
                &mut stores.plain,
                &mut stores.semver2,
                &mut stores.content,
                &mut stores.auto,
                hive,
            );
            stores.catalog = catalog.into_area();
            (answer, stores)
        }
        Err((error, area)) => {
            stores.catalog = area;
            (Answer::of_opening(error), stores)
        }
    }
}
