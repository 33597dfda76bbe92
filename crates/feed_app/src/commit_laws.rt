// What holds of the commands that commit. The functions do nothing.
ghost use Rattle.std.specs.Prelude.{◌≡◌, ℕ, List, [], Some, IsUtf8};
ghost use Rattle.std.specs.FinMap.{empty};
ghost use Rattle.blob_store.specs.Area.{with_blob};
ghost use Rattle.catalog_doc.specs.Catalogs.{IsCatalog};
ghost use Rattle.catalog_doc.specs.Documents.{index_text};
ghost use Rattle.catalog_doc.specs.Names.{index_name};
ghost use Rattle.catalog_doc.specs.Spelled.{SpellsCatalog};
ghost use Rattle.feed_app.specs.Commands.{Command, CommitsChanges, command_of};
ghost use Rattle.feed_app.specs.Outside.{bounds};
ghost use Rattle.feed_app.specs.Publishes.{HasCommit, HasCommitOrNot};
ghost use Rattle.feed_app.specs.Runs.{ForRuns};

use blob_store::Blobs;
use feed_base::{Clock, Sink, Source};

/// A command that commits, of status 0, leaves an area that spells the catalog that was there with one commit behind the others, which
/// the verdict took: no commit that was told is lost, and their order stays. What `init` makes of an empty area spells the catalog of
/// no commits.
pub fn commits_are_found<B: Blobs, I: Source, O: Sink, C: Clock>()
    ensures found { let b = bounds B.Blobs I.Source O.Sink C.Clock in ForRuns b (λ words before status after. (command : Command)
        → command_of words ≡ Some command → CommitsChanges command → status ≡ 0
        → HasCommit (b.blobs.seen before.stores.catalog) (b.blobs.seen after.stores.catalog)) }
    ensures init { (base : List ℕ) → IsUtf8 base → IsCatalog []
        × SpellsCatalog (with_blob index_name (index_text base []) empty) base [] }
{}

/// Whatever such a command answers, the area spells the catalog that was there, or that with one commit behind the others, which
/// the verdict took; and so it is where a crash at any moment stops it.
pub fn commits_stop_between<B: Blobs, I: Source, O: Sink, C: Clock>()
    ensures { let b = bounds B.Blobs I.Source O.Sink C.Clock in ForRuns b (λ words before status after. (command : Command)
        → command_of words ≡ Some command → CommitsChanges command
        → HasCommitOrNot (b.blobs.seen before.stores.catalog) (b.blobs.seen after.stores.catalog)) }
{}
