// The commands `unlist`, `list` and `delete`.
ghost use Rattle.std.specs.Prelude.{◌≡◌, ℕ, List, IfErr, IfOk, option_map};
ghost use Rattle.admin_wire.specs.Bodies.{IsAsked};
ghost use Rattle.feed_app.specs.Commands.{pairs_of};
ghost use Rattle.feed_words.specs.Words.{texts};
ghost use Rattle.feed_app.specs.Frame.{IsDone};
ghost use Rattle.feed_app.specs.Names.{AreAsked, NotAsked, NotRead, names_meaning};
ghost use Rattle.feed_app.specs.Outside.{Stream, over};

use crate::answer::Answer;
use crate::committing::commit_into;
use admin_wire::{Line, NameKind, read_pair};
use blob_store::Blobs;
use catalog_core::{Change, Changes, Stores};
use feed_base::Clock;
use pkg_meta::Many;
use std::alloc::Global;

// The change that is asked for the pair at this place.
fn change_at(
    alloc: Global,
    kind: NameKind,
    place: u64,
    id: &str,
    version: &str,
) -> Result<Change, Answer>
    ensures ok { IfOk result (IsAsked kind id.now version.now) }
    ensures refused { IfErr result (λ a. NotAsked a place id.now version.now) }
{
    match read_pair(alloc, kind, place, id, version) {
        Ok(change) => Ok(change),
        Err(error) => Err(Answer::Reply(Line::from(error))),
    }
}

// The changes that are asked for the pairs.
fn read_pairs(alloc: Global, kind: NameKind, words: &[String]) -> Result<Changes, Answer>
    ensures ok { IfOk result (AreAsked kind (pairs_of (texts words.now))) }
    ensures refused { IfErr result (λ a. NotRead a kind (pairs_of (texts words.now))) }
{
    let mut changes = Many::new(alloc);
    let mut rest = words;
    while let [id, version, behind @ ..] = rest {
        let place = changes.len() as u64;
        let change = change_at(alloc, kind, place, id.as_str(), version.as_str())?;
        let Ok(()) = changes.push(change) else {
            return Err(Answer::Reply(Line::Memory));
        };
        rest = behind;
    }
    Ok(changes)
}

/// Commits what is asked for the versions that the words name, by pairs.
pub(crate) fn commit_names<B: Blobs, C: Clock>(
    alloc: Global,
    stores: Stores<B>,
    base: Option<&str>,
    kind: NameKind,
    words: &[String],
    clock: &mut C,
) -> (Answer, Stores<B>)
    ensures { (input : Stream) → IsDone B.Blobs (names_meaning B.Blobs kind (pairs_of (texts words.now)))
        (over (option_map (λ t. t.now) base.entry) stores input (C.answers clock.old)) result.0
        (over (option_map (λ t. t.now) base.entry) result.1 input (C.answers clock.new)) }
{
    let mut stores = stores;
    let changes = match read_pairs(alloc, kind, words) {
        Ok(changes) => changes,
        Err(answer) => return (answer, stores),
    };
    let (answer, catalog) = commit_into(alloc, stores.catalog, base, &changes, clock);
    stores.catalog = catalog;
    (answer, stores)
}
