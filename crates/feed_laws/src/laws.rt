// What stays true of a feed, whatever happens to it.
ghost use Rattle.std.specs.Prelude.{◌≡◌, ◌++◌, ◌∷◌, [], ℕ, List, Some, map, true};
ghost use Rattle.std.specs.Str.{IsUtf8};
ghost use Rattle.blob_store.specs.Area.{Area};
ghost use Rattle.blob_store.specs.Events.{Change, Done, Event, after_events};
ghost use Rattle.blob_store.specs.Plans.{all_done};
ghost use Rattle.pkg_meta.specs.Catalog.{Catalog};
ghost use Rattle.pkg_meta.specs.declared.commit.Stored.{Stored};
ghost use Rattle.pkg_meta.specs.declared.state.StateDoc.{StateDoc};
ghost use Rattle.catalog_doc.specs.Catalogs.{IsCatalog};
ghost use Rattle.catalog_doc.specs.Commits.{commit_puts};
ghost use Rattle.catalog_doc.specs.Spelled.{HoldsIndex, SpellsCatalog, SpellsOnly};
ghost use Rattle.fold_core.specs.Docs.{owner};
ghost use Rattle.fold_core.specs.Folds.{Fold, Look};
ghost use Rattle.hive_laws.specs.FoldLaws.{FoldLaws};
ghost use Rattle.hive_laws.specs.Plans.{IsPassPlan, PassPlan};
ghost use Rattle.hive_laws.specs.Rounds.{StartsAreaPass, plan_calls};
ghost use Rattle.feed_laws.specs.Begins.{AreSoundAreas, IsWorldOf, new_world};
ghost use Rattle.feed_laws.specs.Calls.{AreStepsOf, MeetAllOnCatalog, MeetAllOnHive, with_catalog};
ghost use Rattle.feed_laws.specs.Claims.{CursorsRise, IsFromScratch, IsSettledNow, commits_in, fold_at, hive_at};
ghost use Rattle.feed_laws.specs.Courses.{after_commit, commit_steps, pass_course};
ghost use Rattle.feed_laws.specs.Happenings.{Finish, Happening, Hives, PutCursor};
ghost use Rattle.feed_laws.specs.Soundness.{HaveLaws, Sound};
ghost use Rattle.feed_laws.specs.Steps.{IsClaimed, May, Run, happens};
ghost use Rattle.feed_laws.specs.Worlds.{HiveNow, Round, World};

/// A feed without commits is sound, and so is the one that the program finds in areas that are those of a catalog and of sound hives:
/// whatever a crash left. It does nothing.
pub fn feeds_begin_sound()
    ensures new { (fs : List Fold) → HaveLaws fs → (base : List ℕ) → IsUtf8 base → Sound fs (new_world base fs) }
    ensures found { (fs : List Fold) → HaveLaws fs → (area : Area) (ms : List Area) (w : World) → IsWorldOf area ms w
        → AreSoundAreas w.commits fs ms w.hives → Sound fs w }
{}

/// Whatever may happen to a sound feed keeps it sound: with each fate of each store call, and with a crash before or after it. It does
/// nothing.
pub fn feeds_stay_sound()
    ensures step { (fs : List Fold) → HaveLaws fs → (w : World) (e : Happening) → Sound fs w → May fs w e → Sound fs (happens e w) }
    ensures run { (fs : List Fold) → HaveLaws fs → (w : World) (es : List Happening) (last : World) → Sound fs w
        → Run fs w es last → Sound fs last }
{}

/// Catalogs grow by the commits whose page puts took effect, in order, and by no others; and cursors never fall. It does nothing.
pub fn feeds_grow()
    ensures commits { (fs : List Fold) (w : World) (es : List Happening) (last : World) → Run fs w es last
        → last.commits ≡ w.commits ++ commits_in es }
    ensures cursors { (fs : List Fold) → HaveLaws fs → (w : World) (es : List Happening) (last : World) → Sound fs w
        → Run fs w es last → CursorsRise w.hives last.hives }
{}

/// Each document that is read of a sound feed, also one that isn't there, is the one that a prefix of the catalog has, and this prefix
/// reaches the hive's cursor. It does nothing.
pub fn reads_are_fresh()
    ensures { (fs : List Fold) (w : World) → Sound fs w → (k : ℕ) (f : Fold) (h : HiveNow) → fold_at k fs ≡ Some f → hive_at k w.hives ≡ Some h
        → (key name : List ℕ) → owner name ≡ Some key → IsFromScratch f w.commits h.cursor key name (h.held name) }
{}

/// After a cursor's put that is done the hive is exactly what the catalog's commits up to the cursor make. It does nothing.
pub fn rounds_settle()
    ensures { (fs : List Fold) → HaveLaws fs → (w : World) (k : ℕ) → Sound fs w → May fs w (Hives k (PutCursor Done))
        → (f : Fold) (h : HiveNow) → fold_at k fs ≡ Some f → hive_at k (happens (Hives k (PutCursor Done)) w).hives ≡ Some h
        → IsSettledNow f w.commits h.cursor h }
{}

/// The puts of a lawful commit, in their order, are steps of a sound feed whose index doesn't lag. It does nothing.
pub fn commits_are_steps()
    ensures { (fs : List Fold) (w : World) (c : Stored) → Sound fs w → w.up ≡ true → HoldsIndex w.area w.base w.commits → IsCatalog (w.commits ++ c ∷ [])
        → Run fs w (commit_steps w.base w.commits c) (after_commit w c) }
{}

/// The calls of a pass over a claimed id, by a plan to its round's target, are steps of a sound feed, whatever state was found; and
/// then the id may be finished. It does nothing.
pub fn passes_are_steps()
    ensures { (fs : List Fold) → HaveLaws fs → (w : World) → Sound fs w → w.up ≡ true → (k : ℕ) (f : Fold) (h : HiveNow) → fold_at k fs ≡ Some f
        → hive_at k w.hives ≡ Some h → (key : List ℕ) (r : Round) → IsClaimed h key r → (plan : PassPlan)
        → IsPassPlan f w.commits key r.target (h.states key) h.held plan
        → (last : World) × Run fs w (pass_course k key plan) last × May fs last (Hives k (Finish key)) }
{}

/// After a run the catalog's area spells one catalog, below one base address: the one that it spelled before, with the commits whose page
/// puts took effect behind it, in order. That is what an opening finds, also after a crash. It does nothing.
pub fn restarts_find_commits()
    ensures { (fs : List Fold) → HaveLaws fs → (w : World) (es : List Happening) (last : World) → Sound fs w
        → Run fs w es last → SpellsCatalog last.area w.base (w.commits ++ commits_in es) × SpellsOnly last.area w.base (w.commits ++ commits_in es) }
{}

/// The calls of a lawful commit meet their conditions, each in the area that those before it left, where the index doesn't lag; and they
/// lead on to the catalog with the commit. So do those of a pass by its plan, on a hive's area. It does nothing.
pub fn calls_meet_conditions()
    ensures commit { (m : Area) (base : List ℕ) (cs : Catalog) (c : Stored) → IsCatalog (cs ++ c ∷ []) → SpellsCatalog m base cs → HoldsIndex m base cs
        → MeetAllOnCatalog base cs m (all_done (map Change (commit_puts base cs c))) (cs ++ c ∷ []) }
    ensures pass { (f : Fold) (cs : Catalog) → FoldLaws f cs → (c k : ℕ) (key : List ℕ) (states : Look StateDoc) (m : Area) (plan : PassPlan)
        → StartsAreaPass f cs c k key states m plan → MeetAllOnHive f cs k m (all_done (map Change (plan_calls key plan))) }
{}

/// Calls on the catalog's area that meet their conditions, each in the area that those before it left, are steps of a feed with this area,
/// whatever the fates; the hives are as before. It does nothing.
pub fn calls_are_steps()
    ensures { (fs : List Fold) (w : World) (events : List Event) (last : Catalog) → w.up ≡ true → MeetAllOnCatalog w.base w.commits w.area events last
        → (es : List Happening) × AreStepsOf events es × Run fs w es (with_catalog last (after_events events w.area) w) }
{}
