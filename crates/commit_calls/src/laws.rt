// What holds of each store call of a commit, of a settling and of an opening.
ghost use Rattle.std.specs.Prelude.{◌≡◌, ℕ, List, Result, true};
ghost use Rattle.std.specs.declared.result.Result.TheVariants.{Ok};
ghost use Rattle.blob_store.specs.Area.{Area};
ghost use Rattle.blob_store.specs.Events.{Act};
ghost use Rattle.pkg_meta.specs.Catalog.{Catalog};
ghost use Rattle.catalog_doc.specs.declared.change.Change.{Change};
ghost use Rattle.catalog_doc.specs.declared.change.Committed.{Committed};
ghost use Rattle.catalog_doc.specs.declared.error.CommitErr.{CommitErr};
ghost use Rattle.catalog_opening.specs.declared.error.OpenErr.{OpenErr};
ghost use Rattle.catalog_opening.specs.declared.error.ReadErr.{ReadErr};
ghost use Rattle.catalog_core.specs.Committing.{with_made};
ghost use Rattle.catalog_core.specs.Opened.{Opened};
ghost use Rattle.commit_calls.specs.Called.{Committing, IsFeedOf, Opening, Settling};
ghost use Rattle.feed_laws.specs.Calls.{CallsMeetOnCatalog, RunsInCalls};
ghost use Rattle.feed_laws.specs.Worlds.{World};
ghost use Rattle.fold_core.specs.Folds.{Fold};

use blob_store::Blobs;

/// Each store call of `Catalog::commit` meets its condition, in the area that the calls before it left, whatever the answer and wherever a
/// call fails. Where it answered Ok they lead on to the catalog with the commit. It does nothing.
pub fn commits_meet_conditions<B: Blobs>()
    ensures calls { (o n : Opened B) (cs : Catalog) (changes : List Change) (now : ℕ) (m : Area) (result : Result Committed CommitErr)
        → Committing o n cs changes now m (B.seen o.area) (B.seen n.area) result
        → (last : Catalog) × CallsMeetOnCatalog o.base cs m (B.seen o.area) (B.seen n.area) last }
    ensures committed { (o n : Opened B) (cs : Catalog) (changes : List Change) (now : ℕ) (m : Area) (done : Committed)
        → Committing o n cs changes now m (B.seen o.area) (B.seen n.area) (Ok done)
        → CallsMeetOnCatalog o.base cs m (B.seen o.area) (B.seen n.area) (with_made cs changes now) }
{}

/// So does each of an opening, and each of a call that settles the catalog first, up to where it had settled it. The catalog stays. It
/// does nothing.
pub fn openings_meet_conditions<B: Blobs>()
    ensures opening { (before after : B) (base : List ℕ) (cs : Catalog) (plan : List Act) (m : Area) (result : Result Unit OpenErr)
        → Opening base cs plan m (B.seen before) (B.seen after) result
        → CallsMeetOnCatalog base cs m (B.seen before) (B.seen after) cs }
    ensures settling { (o : Opened B) (after : B) (cs : Catalog) (m : Area) (result : Result Unit ReadErr)
        → Settling o cs m (B.seen o.area) (B.seen after) result
        → CallsMeetOnCatalog o.base cs m (B.seen o.area) (B.seen after) cs }
{}

/// The store calls of a commit, and those of an opening, are steps of a feed that has this area and this catalog, whatever the answer and
/// wherever a call fails. Where the commit answered Ok the feed then has the commit. It does nothing.
pub fn commits_are_runs<B: Blobs>()
    ensures commit { (fs : List Fold) (w : World) (o n : Opened B) (changes : List Change) (now : ℕ) (result : Result Committed CommitErr)
        → IsFeedOf o w → Committing o n w.commits changes now w.area (B.seen o.area) (B.seen n.area) result
        → (last : Catalog) × RunsInCalls fs w (B.seen o.area) (B.seen n.area) last }
    ensures committed { (fs : List Fold) (w : World) (o n : Opened B) (changes : List Change) (now : ℕ) (done : Committed)
        → IsFeedOf o w → Committing o n w.commits changes now w.area (B.seen o.area) (B.seen n.area) (Ok done)
        → RunsInCalls fs w (B.seen o.area) (B.seen n.area) (with_made w.commits changes now) }
    ensures opening { (fs : List Fold) (w : World) (before after : B) (plan : List Act) (result : Result Unit OpenErr) → w.up ≡ true
        → Opening w.base w.commits plan w.area (B.seen before) (B.seen after) result
        → RunsInCalls fs w (B.seen before) (B.seen after) w.commits }
{}
