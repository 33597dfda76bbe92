// What holds of the area of bytes of a hive.
ghost use Rattle.std.specs.Prelude.{◌≡◌, ◌≤◌, ◌++◌, ◌∷◌, ℕ, List, [], length, take, Option, Some, None, IsSome};
ghost use Rattle.std.specs.FinMap.{empty, get};
ghost use Rattle.blob_store.specs.Area.{Area, with_blob};
ghost use Rattle.blob_store.specs.Runs.{after_calls};
ghost use Rattle.pkg_meta.specs.Catalog.{Catalog};
ghost use Rattle.pkg_meta.specs.Lawful.{IsLawful};
ghost use Rattle.pkg_meta.specs.declared.commit.Stored.{Stored};
ghost use Rattle.pkg_meta.specs.declared.state.StateDoc.{StateDoc};
ghost use Rattle.cursor_doc.specs.Cursor.{cursor_name, cursor_text};
ghost use Rattle.cursor_doc.specs.Reading.{IsMarkValue};
ghost use Rattle.cursor_doc.specs.declared.mark.Mark.{Mark};
ghost use Rattle.fold_core.specs.Docs.{id_index_name, owner};
ghost use Rattle.fold_core.specs.Sound.{IsLinkedAt};
ghost use Rattle.fold_core.specs.Folds.{Clean, Fold, Look, made_at};
ghost use Rattle.hive_laws.specs.Areas.{IsHiveArea, IsHiveName, IsSoundArea, SettledArea, SoundArea, cursor_at};
ghost use Rattle.hive_laws.specs.FoldLaws.{FoldLaws};
ghost use Rattle.hive_laws.specs.Plans.{PassPlan};
ghost use Rattle.hive_laws.specs.Rounds.{AreDue, AreLed, ChangesIds, ChangesOneId, HaveItems, IsOnTheWay, StartsAreaPass, plan_calls};
ghost use Rattle.hive_laws.specs.Steps.{with_found};

/// The area of a hive that hasn't begun, and that of a catalog that grows. It does nothing.
pub fn areas_stay_sound()
    ensures start { (f : Fold) (cs : Catalog) → FoldLaws f cs → SoundArea f cs 0 empty }
    ensures more { (f : Fold) (cs : Catalog) (x : Stored) (c : ℕ) (m : Area) → SoundArea f cs c m → SoundArea f (cs ++ x ∷ []) c m }
    ensures ended { (f : Fold) (cs : Catalog) → FoldLaws f cs → (m : Area) → SoundArea f cs (length cs) m → SettledArea f cs (length cs) m }
{}

/// An area tells the hive's states and its cursor. It does nothing.
pub fn areas_tell_states()
    ensures states { (cs before : Catalog) (c k : ℕ) (states others : Look StateDoc) (m : Area) → IsHiveArea cs c states m → IsHiveArea before k others m
        → (key : List ℕ) → states key ≡ others key }
    ensures cursor { (cs : Catalog) (c : ℕ) (states : Look StateDoc) (m : Area) → IsLawful cs → c ≤ length cs → IsHiveArea cs c states m
        → (mark : Mark) → IsMarkValue mark → get m cursor_name ≡ Some (cursor_text mark.number mark.stamp) → mark.number ≡ c }
    ensures no_cursor { (cs : Catalog) (c : ℕ) (states : Look StateDoc) (m : Area) → IsHiveArea cs c states m → get m cursor_name ≡ None → c ≡ 0 }
{}

/// The calls of a pass, each prefix of them, keep the area sound, and leave the cursor and every other id alone. All of them leave the
/// id clean. It does nothing.
pub fn passes_keep_areas()
    ensures sound { (f : Fold) (cs : Catalog) → FoldLaws f cs → (c k : ℕ) (key : List ℕ) (states : Look StateDoc) (m : Area) (plan : PassPlan)
        → StartsAreaPass f cs c k key states m plan → (n : ℕ) → SoundArea f cs c (after_calls (take n (plan_calls key plan)) m) }
    ensures others { (f : Fold) (cs : Catalog) → FoldLaws f cs → (c k : ℕ) (key : List ℕ) (states : Look StateDoc) (m : Area) (plan : PassPlan)
        → StartsAreaPass f cs c k key states m plan → (n : ℕ) → ChangesOneId key m (after_calls (take n (plan_calls key plan)) m) }
    ensures done { (f : Fold) (cs : Catalog) → FoldLaws f cs → (c k : ℕ) (key : List ℕ) (states : Look StateDoc) (m : Area) (plan : PassPlan)
        → StartsAreaPass f cs c k key states m plan → IsSoundArea f cs c (with_found key (Some plan.clean) states) (after_calls (plan_calls key plan) m) }
    ensures clean { (f : Fold) (cs : Catalog) → FoldLaws f cs → (c k : ℕ) (key : List ℕ) (states : Look StateDoc) (m : Area) (plan : PassPlan)
        → StartsAreaPass f cs c k key states m plan → Clean f cs key k (Some plan.clean) (get (after_calls (plan_calls key plan) m)) }
{}

/// Where every id with an item behind the cursor was led to the catalog's end, the cursor's put leaves the area that of the whole
/// catalog; without it the area stays sound. It does nothing.
pub fn rounds_settle_areas()
    ensures led { (f : Fold) (cs : Catalog) → FoldLaws f cs → (c : ℕ) (keys : List (List ℕ)) (m new : Area) → SoundArea f cs c m
        → HaveItems cs c (length cs) keys → AreLed f cs (length cs) keys m new → SoundArea f cs c new }
    ensures on_the_way { (f : Fold) (cs : Catalog) → FoldLaws f cs → (c : ℕ) (keys : List (List ℕ)) (m left : Area) → SoundArea f cs c m
        → HaveItems cs c (length cs) keys → IsOnTheWay f cs (length cs) keys m left → SoundArea f cs c left }
    ensures others { (f : Fold) (cs : Catalog) → FoldLaws f cs → (c : ℕ) (keys : List (List ℕ)) (m left : Area) → SoundArea f cs c m
        → HaveItems cs c (length cs) keys → IsOnTheWay f cs (length cs) keys m left → ChangesIds keys m left }
    ensures settled { (f : Fold) (cs : Catalog) → FoldLaws f cs → (c : ℕ) (keys : List (List ℕ)) (m new : Area) → SoundArea f cs c m
        → AreDue cs c (length cs) keys → AreLed f cs (length cs) keys m new
        → (bytes : List ℕ) → cursor_at cs (length cs) ≡ Some bytes → SettledArea f cs (length cs) (with_blob cursor_name bytes new) }
{}

/// What is held in the area of a sound hive: each document is that of a prefix of the catalog that reaches the cursor, an index with all
/// that its prefix makes. In a settled one it is exactly what the commits up to the cursor make. It does nothing.
pub fn areas_hold_prefixes()
    ensures fresh { (f : Fold) (cs : Catalog) (c : ℕ) (m : Area) (key name : List ℕ) → SoundArea f cs c m → owner name ≡ Some key
        → (j : ℕ) × (c ≤ j) × (j ≤ length cs) × (get m name ≡ made_at f cs key j name) }
    ensures linked { (f : Fold) (cs : Catalog) (c : ℕ) (m : Area) (key : List ℕ) → SoundArea f cs c m → owner (id_index_name key) ≡ Some key
        → IsSome (get m (id_index_name key)) → (j : ℕ) × IsLinkedAt f cs c j key (get m) }
    ensures exact { (f : Fold) (cs : Catalog) (k : ℕ) (m : Area) (key name : List ℕ) → SettledArea f cs k m → owner name ≡ Some key
        → get m name ≡ made_at f cs key k name }
    ensures only { (f : Fold) (cs : Catalog) (k : ℕ) (m : Area) (name : List ℕ) → SettledArea f cs k m → IsSome (get m name) → IsHiveName name }
{}
