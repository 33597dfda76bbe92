// What holds of one id of a hive, whatever becomes of it and of the others.
ghost use Rattle.std.specs.Prelude.{◌≡◌, ◌<◌, ◌≤◌, ◌++◌, ◌∷◌, ℕ, List, [], length, false, Option, Some, None};
ghost use Rattle.pkg_meta.specs.Catalog.{Catalog};
ghost use Rattle.pkg_meta.specs.declared.commit.Stored.{Stored};
ghost use Rattle.pkg_meta.specs.declared.state.StateDoc.{StateDoc};
ghost use Rattle.fold_core.specs.Docs.{owner};
ghost use Rattle.fold_core.specs.Events.{IsChanged, IsCleanPut, IsDirtyPut, IsDocDelete, IsDocPut};
ghost use Rattle.fold_core.specs.Folds.{Clean, Fold, Look, Settled, touched_by};
ghost use Rattle.fold_core.specs.Sound.{HasState, IsAtMost, IsSoundHive, IsSoundId};
ghost use Rattle.hive_laws.specs.FoldLaws.{FoldLaws};

/// An id with an item behind the cursor stays sound over a put of its state, and over a put or a removal of a document of it that is
/// allowed beside its stored state. It does nothing.
pub fn ids_stay_sound()
    ensures dirty { (f : Fold) (cs : Catalog) → FoldLaws f cs → (c : ℕ) (key : List ℕ) (stored : Option StateDoc) (held : Look (List ℕ))
        → (s : StateDoc) → IsSoundId f cs c key stored held → c < touched_by cs key s.at → s.at ≤ length cs → IsDirtyPut f cs key stored s
        → IsSoundId f cs c key (Some s) held }
    ensures clean { (f : Fold) (cs : Catalog) → FoldLaws f cs → (c : ℕ) (key : List ℕ) (stored : Option StateDoc) (held : Look (List ℕ))
        → (s : StateDoc) → IsSoundId f cs c key stored held → c < touched_by cs key s.at → s.at ≤ length cs → IsCleanPut f cs key held s
        → IsSoundId f cs c key (Some s) held }
    ensures put { (f : Fold) (cs : Catalog) → FoldLaws f cs → (c : ℕ) (key : List ℕ) (s : StateDoc) (name bytes : List ℕ) (held new : Look (List ℕ))
        → IsSoundId f cs c key (Some s) held → IsDocPut f cs key s name bytes held → IsChanged name (Some bytes) held new
        → IsSoundId f cs c key (Some s) new }
    ensures removal { (f : Fold) (cs : Catalog) → FoldLaws f cs → (c : ℕ) (key : List ℕ) (s : StateDoc) (name : List ℕ) (held new : Look (List ℕ))
        → IsSoundId f cs c key (Some s) held → IsDocDelete f cs key s name held → IsChanged name None held new
        → IsSoundId f cs c key (Some s) new }
{}

/// An id stays sound, and clean, where only documents of other ids change, and where the catalog grows. It does nothing.
pub fn others_stay_sound()
    ensures carried { (f : Fold) (cs : Catalog) → FoldLaws f cs → (c : ℕ) (key : List ℕ) (stored : Option StateDoc) (held new : Look (List ℕ))
        → ((name : List ℕ) → owner name ≡ Some key → new name ≡ held name)
        → IsSoundId f cs c key stored held → IsSoundId f cs c key stored new }
    ensures carried_clean { (f : Fold) (cs : Catalog) (k : ℕ) (key : List ℕ) (stored : Option StateDoc) (held new : Look (List ℕ))
        → ((name : List ℕ) → owner name ≡ Some key → new name ≡ held name)
        → Clean f cs key k stored held → Clean f cs key k stored new }
    ensures more { (f : Fold) (cs : Catalog) (x : Stored) (c : ℕ) (states : Look StateDoc) (held : Look (List ℕ))
        → IsSoundHive f cs c states held → IsSoundHive f (cs ++ x ∷ []) c states held }
    ensures more_clean { (f : Fold) (cs : Catalog) (x : Stored) (k : ℕ) (key : List ℕ) (stored : Option StateDoc) (held : Look (List ℕ))
        → k ≤ length cs → Clean f cs key k stored held → Clean f (cs ++ x ∷ []) key k stored held }
{}

/// When a sound id is clean: one without an item behind the cursor is so at every later commit that its state doesn't pass, and one whose
/// state isn't dirty is so up to its next item. It does nothing.
pub fn sound_ids_are_clean()
    ensures idle { (f : Fold) (cs : Catalog) → FoldLaws f cs → (c k : ℕ) (key : List ℕ) (stored : Option StateDoc) (held : Look (List ℕ))
        → IsSoundId f cs c key stored held → c ≤ k → touched_by cs key k ≤ c → IsAtMost k stored → Clean f cs key k stored held }
    ensures taken_up { (f : Fold) (cs : Catalog) → FoldLaws f cs → (c k : ℕ) (key : List ℕ) (s : StateDoc) (held : Look (List ℕ))
        → IsSoundId f cs c key (Some s) held → s.dirty ≡ false → s.at ≤ k → touched_by cs key k ≤ s.at → Clean f cs key k (Some s) held }
{}

/// A hive without anything is sound at cursor 0. Where each id is clean at a commit, the cursor may move there: the hive is sound, and
/// exactly what the commits up to it make. It does nothing.
pub fn cursors_move_on()
    ensures start { (f : Fold) (cs : Catalog) → FoldLaws f cs → IsSoundHive f cs 0 (λ key. None) (λ name. None) }
    ensures id { (f : Fold) (cs : Catalog) → FoldLaws f cs → (c k : ℕ) (key : List ℕ) (stored : Option StateDoc) (held : Look (List ℕ))
        → IsSoundId f cs c key stored held → k ≤ length cs → Clean f cs key k stored held → IsSoundId f cs k key stored held }
    ensures hive { (f : Fold) (cs : Catalog) → FoldLaws f cs → (c k : ℕ) (states : Look StateDoc) (held : Look (List ℕ))
        → IsSoundHive f cs c states held → k ≤ length cs → Settled f cs k states held → IsSoundHive f cs k states held }
{}
