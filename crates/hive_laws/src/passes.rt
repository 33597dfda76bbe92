// What holds of a pass over one id.
ghost use Rattle.std.specs.Prelude.{◌≡◌, ◌<◌, ◌≤◌, ℕ, List, take, length, Some};
ghost use Rattle.pkg_meta.specs.Catalog.{Catalog};
ghost use Rattle.fold_core.specs.Folds.{Clean, Fold, touched_by};
ghost use Rattle.fold_core.specs.Sound.{IsSoundId};
ghost use Rattle.hive_laws.specs.FoldLaws.{FoldLaws};
ghost use Rattle.hive_laws.specs.Plans.{PassPlan, StartsPass, pass_steps};
ghost use Rattle.hive_laws.specs.Steps.{AreAllowed, KeptOfId, Step, after_steps};

/// An id with an item behind the cursor stays sound over each prefix of allowed steps. It does nothing.
pub fn steps_keep_sound()
    ensures { (f : Fold) (cs : Catalog) → FoldLaws f cs → (c k : ℕ) (key : List ℕ) (steps : List Step) (kept : KeptOfId)
        → IsSoundId f cs c key kept.stored kept.held → c < touched_by cs key k → k ≤ length cs → AreAllowed f cs key k steps kept
        → (n : ℕ) → IsSoundId f cs c key (after_steps (take n steps) kept).stored (after_steps (take n steps) kept).held }
{}

/// The steps of a pass are allowed. So the id is sound after each prefix of them, and all leave it clean, with the clean state stored.
/// It does nothing.
pub fn passes_keep_sound()
    ensures allowed { (f : Fold) (cs : Catalog) → FoldLaws f cs → (c k : ℕ) (key : List ℕ) (kept : KeptOfId) (plan : PassPlan)
        → StartsPass f cs c k key kept plan → AreAllowed f cs key k (pass_steps key plan) kept }
    ensures sound { (f : Fold) (cs : Catalog) → FoldLaws f cs → (c k : ℕ) (key : List ℕ) (kept : KeptOfId) (plan : PassPlan)
        → StartsPass f cs c k key kept plan → (n : ℕ)
        → IsSoundId f cs c key (after_steps (take n (pass_steps key plan)) kept).stored (after_steps (take n (pass_steps key plan)) kept).held }
    ensures clean { (f : Fold) (cs : Catalog) → FoldLaws f cs → (c k : ℕ) (key : List ℕ) (kept : KeptOfId) (plan : PassPlan)
        → StartsPass f cs c k key kept plan → Clean f cs key k (Some plan.clean) (after_steps (pass_steps key plan) kept).held }
    ensures stored { (f : Fold) (cs : Catalog) → FoldLaws f cs → (c k : ℕ) (key : List ℕ) (kept : KeptOfId) (plan : PassPlan)
        → StartsPass f cs c k key kept plan → (after_steps (pass_steps key plan) kept).stored ≡ Some plan.clean }
{}
