// The command `init`.
ghost use Rattle.std.specs.Prelude.{◌≡◌, ◌≤◌, ℕ, List, Option};
ghost use Rattle.feed_base.specs.Counts.{HasRisen};
ghost use Rattle.feed_app.specs.Frame.{IsDone};
ghost use Rattle.feed_app.specs.Inits.{InitCalls, Inits, init_meaning};
ghost use Rattle.feed_app.specs.Outside.{Stream, over};

use crate::answer::Answer;
use admin_wire::{AreaName, Line};
use blob_store::Blobs;
use catalog_core::Stores;
use std::alloc::Global;

// Makes the catalog of no commits in the area.
fn init_at<B: Blobs>(alloc: Global, area: B, base: &str) -> (Answer, B)
    ensures is { Inits base.now (B.seen area).held result.0 (B.seen result.1).held }
    ensures calls { InitCalls base.now result.0 (B.seen area) (B.seen result.1) }
    ensures cause { result.0 ≡ Answer.Reply (Line.Fault AreaName.Catalog) → HasRisen (B.seen area).faults (B.seen result.1).faults }
{
    match catalog_core::init(alloc, area, base) {
        Ok(catalog) => (Answer::Reply(Line::Initialised), catalog.into_area()),
        Err((error, area)) => (Answer::of_init(error), area),
    }
}

/// Makes the catalog of no commits at this base address, where the catalog's area holds no index.
pub(crate) fn init<B: Blobs>(alloc: Global, stores: Stores<B>, base: &str) -> (Answer, Stores<B>)
    ensures { (given : Option (List ℕ)) (input : Stream) (clock : Option (List ℕ))
        → IsDone B.Blobs (init_meaning B.Blobs base.now) (over given stores input clock) result.0 (over given result.1 input clock) }
{
    let mut stores = stores;
    let (answer, catalog) = init_at(alloc, stores.catalog, base);
    stores.catalog = catalog;
    (answer, stores)
}
