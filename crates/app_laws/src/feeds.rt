// What stays true of a feed, over one command and over any history of commands and crashes.
ghost use Rattle.std.specs.Prelude.{◌≡◌, ◌≤◌, ℕ, List, [], length, take, Some, IsUtf8};
ghost use Rattle.std.specs.FinMap.{empty};
ghost use Rattle.pkg_meta.specs.Catalog.{Catalog};
ghost use Rattle.feed_app.specs.Commands.{Get, Init, command_of};
ghost use Rattle.feed_app.specs.Hives.{hive_name};
ghost use Rattle.feed_app.specs.Outside.{bounds, input_of, output_of};
ghost use Rattle.feed_app.specs.Runs.{ForRuns};
ghost use Rattle.feed_app.specs.Targets.{IsHivePath};
ghost use Rattle.feed_app.specs.Writes.{HasMore};
ghost use Rattle.feed_app.specs.declared.hives.ServedHive.{ServedHive};
ghost use Rattle.app_laws.specs.Feeds.{Areas, CursorNumbers, Hold, HoldsFeed, IsSoundFeed, NoneBehind};
ghost use Rattle.app_laws.specs.Histories.{Becomes, Ended, BecomesOver, Lead, Step};
ghost use Rattle.app_laws.specs.Scratch.{from_scratch};

use blob_store::Blobs;
use feed_base::{Clock, Sink, Source};

/// An `init` of status 0 on areas that hold nothing begins a sound feed: the catalog of no commits, and each cursor at 0.
pub fn feeds_begin<B: Blobs, I: Source, O: Sink, C: Clock>()
    ensures { let b = bounds B.Blobs I.Source O.Sink C.Clock in ForRuns b (λ words before status after. (base : List ℕ)
        → command_of words ≡ Some (Init base) → IsUtf8 base → Hold b.blobs before.stores (λ name. empty) → status ≡ 0
        → HoldsFeed b.blobs after.stores base [] (λ hive. 0)) }
{}

/// Whatever a command on a sound feed answers, the feed is sound. Its catalog is with one commit of the changes that the command asks for
/// where that was told, and without where it was refused; a command that commits nothing leaves it. No cursor falls.
pub fn commands_keep_feeds<B: Blobs, I: Source, O: Sink, C: Clock>()
    ensures { let b = bounds B.Blobs I.Source O.Sink C.Clock in ForRuns b (λ words before status after. (base : List ℕ) (cs : Catalog) (at : CursorNumbers)
        → HoldsFeed b.blobs before.stores base cs at
        → (ds : Catalog) × (to : CursorNumbers) × HoldsFeed b.blobs after.stores base ds to
        × Becomes (command_of words) (input_of b.source before.input).told (Ended status) cs ds × NoneBehind at to) }
{}

/// A sound feed is sound after any history, also where crashes stopped commands. Its catalog is the one it had with the commits that were
/// told, in their order, and perhaps one for each command that commits and was stopped or told otherwise; and no cursor has fallen.
pub fn feeds_stay_sound<B: Blobs, I: Source, O: Sink, C: Clock>()
    ensures { let b = bounds B.Blobs I.Source O.Sink C.Clock in (steps : List Step) (old new : Areas) (base : List ℕ) (cs : Catalog) (at : CursorNumbers)
        → Lead b steps old new → IsSoundFeed base cs at old
        → (ds : Catalog) × (to : CursorNumbers) × IsSoundFeed base ds to new × BecomesOver steps cs ds × NoneBehind at to }
{}

/// A document of a hive that a `get` of status 0 gives, after any history of a sound feed, is the one that the hive makes of a prefix of the
/// catalog which reaches the cursor that the hive had before this history.
pub fn reads_reach_cursors<B: Blobs, I: Source, O: Sink, C: Clock>()
    ensures { let b = bounds B.Blobs I.Source O.Sink C.Clock in (steps : List Step) (old new : Areas) (base : List ℕ) (cs : Catalog) (at : CursorNumbers)
        → Lead b steps old new → IsSoundFeed base cs at old
        → ForRuns b (λ words before status after. (hive : ServedHive) (path name : List ℕ)
        → command_of words ≡ Some (Get path) → IsHivePath hive path name → Hold b.blobs before.stores new → status ≡ 0
        → (ds : Catalog) × (k : ℕ) × (bytes : List ℕ) × BecomesOver steps cs ds × (at (hive_name hive) ≤ k) × (k ≤ length ds)
        × (from_scratch (hive_name hive) base (take k ds) name ≡ Some bytes)
        × HasMore bytes (output_of b.sink before.output) (output_of b.sink after.output)) }
{}
