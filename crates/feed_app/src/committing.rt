// A commit of changes, from the opening of the catalog on.
ghost use Rattle.std.specs.Prelude.{◌≡◌, ◌≤◌, option_map};
ghost use Rattle.feed_base.specs.Counts.{HasRisen};
ghost use Rattle.feed_base.specs.Clock.{Tells};
ghost use Rattle.feed_app.specs.Publishes.{Ends};

use crate::answer::Answer;
use admin_wire::{AreaName, Line};
use blob_store::Blobs;
use catalog_core::{Changes, open_catalog};
use feed_base::Clock;
use pkg_meta::Ticks;
use std::alloc::Global;

// The clock's moment.
fn moment<C: Clock>(clock: &mut C) -> Ticks
    ensures { Tells result (C.answers clock.old) (C.answers clock.new) }
{
    match Ticks::of(clock.now()) {
        Some(now) => now,
        None => unreachable!(),
    }
}

/// Opens the catalog that the area holds, for a base address that is given, if any, and commits the changes at the clock's moment.
pub(crate) fn commit_into<B: Blobs, C: Clock>(
    alloc: Global,
    area: B,
    base: Option<&str>,
    changes: &Changes,
    clock: &mut C,
) -> (Answer, B)
    ensures ends { Ends (option_map (λ t. t.now) base.entry) result.0 changes.now (B.seen area) (B.seen result.1) (C.answers clock.old) (C.answers clock.new) }
    ensures cause { result.0 ≡ Answer.Reply (Line.Fault AreaName.Catalog) → HasRisen (B.seen area).faults (B.seen result.1).faults }
{
    let mut catalog = match open_catalog(alloc, area, base) {
        Ok(catalog) => catalog,
        Err((error, area)) => return (Answer::of_opening(error), area),
    };
    let now = moment(clock);
    match catalog.commit(alloc, changes, now) {
        Ok(done) => {
            let line = Line::Committed {
                number: done.number,
                stamp: done.stamp,
            };
            (Answer::Reply(line), catalog.into_area())
        }
        Err(error) => (Answer::of_commit(error), catalog.into_area()),
    }
}
