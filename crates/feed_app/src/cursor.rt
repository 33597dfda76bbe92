// The command `cursor`.
ghost use Rattle.std.specs.Prelude.{◌≡◌, ◌∷◌, [], ℕ, List, Option, option_map};
ghost use Rattle.blob_store.specs.Events.{Get};
ghost use Rattle.blob_store.specs.Plans.{Makes};
ghost use Rattle.cursor_doc.specs.Cursor.{cursor_name};
ghost use Rattle.feed_base.specs.Counts.{HasRisen};
ghost use Rattle.fold_core.specs.declared.hive.HiveName.{HiveName};
ghost use Rattle.feed_app.specs.Calls.{RunsBehind};
ghost use Rattle.feed_app.specs.Cursors.{TellsCursor, cursor_meaning};
ghost use Rattle.feed_app.specs.Frame.{IsDone};
ghost use Rattle.feed_app.specs.Hives.{KeepsBut};
ghost use Rattle.feed_app.specs.Outside.{AreaRose, Stream, by_hive_name, held, over};

use crate::answer::Answer;
use admin_wire::{AreaName, Line};
use blob_store::Blobs;
use catalog_core::{Stores, open_catalog};
use fold_core::HiveName;
use job_round::cursor_of;
use std::alloc::Global;

// The number that the cursor in the area tells.
fn cursor_in<B: Blobs>(alloc: Global, area: &mut B, hive: HiveName) -> Answer
    ensures is { TellsCursor hive result (B.seen area.old).held }
    ensures runs { RunsBehind [] (Get cursor_name ∷ []) result (B.seen area.old) (B.seen area.new) }
    ensures got { (which : HiveName) (name : List ℕ) → result ≡ Answer.Reply (Line.Damaged (AreaName.Hive which) name)
        → Makes (Get cursor_name ∷ []) (B.seen area.old) (B.seen area.new) }
    ensures same { (B.seen area.new).held ≡ (B.seen area.old).held }
    ensures hive_cause { result ≡ Answer.Reply (Line.Fault (AreaName.Hive hive)) → HasRisen (B.seen area.old).faults (B.seen area.new).faults }
{
    match cursor_of(alloc, hive, area) {
        Ok(number) => Answer::Reply(Line::Cursor(hive, number)),
        Err(error) => Answer::of_stop(alloc, hive, error),
    }
}

// The number that this hive's cursor tells, in its area among those of the hives.
fn cursor_among<B: Blobs>(
    alloc: Global,
    plain: &mut B,
    semver2: &mut B,
    content: &mut B,
    auto: &mut B,
    hive: HiveName,
) -> Answer
    ensures is { TellsCursor hive result (held B.Blobs (by_hive_name plain.old semver2.old content.old auto.old hive)) }
    ensures runs { RunsBehind [] (Get cursor_name ∷ []) result (B.seen (by_hive_name plain.old semver2.old content.old auto.old hive))
        (B.seen (by_hive_name plain.new semver2.new content.new auto.new hive)) }
    ensures got { (which : HiveName) (name : List ℕ) → result ≡ Answer.Reply (Line.Damaged (AreaName.Hive which) name)
        → Makes (Get cursor_name ∷ []) (B.seen (by_hive_name plain.old semver2.old content.old auto.old hive))
        (B.seen (by_hive_name plain.new semver2.new content.new auto.new hive)) }
    ensures same { held B.Blobs (by_hive_name plain.new semver2.new content.new auto.new hive)
        ≡ held B.Blobs (by_hive_name plain.old semver2.old content.old auto.old hive) }
    ensures hive_cause { result ≡ Answer.Reply (Line.Fault (AreaName.Hive hive))
        → AreaRose B.Blobs (by_hive_name plain.old semver2.old content.old auto.old hive) (by_hive_name plain.new semver2.new content.new auto.new hive) }
    ensures others { KeepsBut hive (by_hive_name plain.old semver2.old content.old auto.old) (by_hive_name plain.new semver2.new content.new auto.new) }
{
    match hive {
        HiveName::Plain => cursor_in(alloc, plain, hive),
        HiveName::SemVer2 => cursor_in(alloc, semver2, hive),
        HiveName::Content => cursor_in(alloc, content, hive),
        HiveName::Auto => cursor_in(alloc, auto, hive),
    }
}

/// Opens the catalog, for a base address that is given, if any, and tells the number of the hive's cursor.
pub(crate) fn cursor<B: Blobs>(
    alloc: Global,
    stores: Stores<B>,
    base: Option<&str>,
    hive: HiveName,
) -> (Answer, Stores<B>)
    ensures { (input : Stream) (clock : Option (List ℕ))
        → IsDone B.Blobs (cursor_meaning B.Blobs hive) (over (option_map (λ t. t.now) base.entry) stores input clock) result.0
        (over (option_map (λ t. t.now) base.entry) result.1 input clock) }
{
    let mut stores = stores;
    match open_catalog(alloc, stores.catalog, base) {
        Ok(catalog) => {
            let answer = cursor_among(
                alloc,
                &mut stores.plain,
                &mut stores.semver2,
                &mut stores.content,
                &mut stores.auto,
                hive,
            );
            stores.catalog = catalog.into_area();
            (answer, stores)
        }
        Err((error, area)) => {
            stores.catalog = area;
            (Answer::of_opening(error), stores)
        }
    }
}
