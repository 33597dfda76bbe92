// The command `publish`.
ghost use Rattle.std.specs.Prelude.{◌≡◌, option_map};
ghost use Rattle.feed_app.specs.Frame.{IsDone};
ghost use Rattle.feed_app.specs.Outside.{input_of, over};
ghost use Rattle.feed_app.specs.Publishes.{publish_meaning};

use crate::answer::Answer;
use crate::committing::commit_into;
use crate::input::take_publish;
use blob_store::Blobs;
use catalog_core::Stores;
use feed_base::{Clock, Source};
use std::alloc::Global;

/// Takes the input, and commits the publishes that it holds onto the catalog, in one commit.
pub(crate) fn publish<B: Blobs, I: Source, C: Clock>(
    alloc: Global,
    stores: Stores<B>,
    base: Option<&str>,
    input: &mut I,
    clock: &mut C,
) -> (Answer, Stores<B>)
    ensures { IsDone B.Blobs (publish_meaning B.Blobs) (over (option_map (λ t. t.now) base.entry) stores (input_of I.Source input.old)
        (C.answers clock.old)) result.0
        (over (option_map (λ t. t.now) base.entry) result.1 (input_of I.Source input.new) (C.answers clock.new)) }
{
    let mut stores = stores;
    let changes = match take_publish(alloc, input) {
        Ok(changes) => changes,
        Err(answer) => return (answer, stores),
    };
    let (answer, catalog) = commit_into(alloc, stores.catalog, base, &changes, clock);
    stores.catalog = catalog;
    (answer, stores)
}
