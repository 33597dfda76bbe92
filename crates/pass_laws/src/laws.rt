// What holds of the calls of a pass.
ghost use Rattle.std.specs.Prelude.{◌≡◌, ◌⊎◌, ℕ, List, length, Option};
ghost use Rattle.blob_store.specs.Area.{Area};
ghost use Rattle.blob_store.specs.Runs.{IsAfterSome, after_calls};
ghost use Rattle.blob_store.specs.declared.call.Call.{Call as StoreCall};
ghost use Rattle.pkg_meta.specs.Catalog.{Catalog};
ghost use Rattle.pkg_meta.specs.declared.state.StateDoc.{StateDoc};
ghost use Rattle.fold_core.specs.Folds.{fold_of};
ghost use Rattle.hive_laws.specs.Rounds.{IsLed, IsPartlyPassed};
ghost use Rattle.id_pass.specs.declared.call.Call.{Call};
ghost use Rattle.pass_laws.specs.Making.{AreMadeBy, AreSomeMadeBy, HaveCallBytes};
ghost use Rattle.pass_laws.specs.Starting.{AreCallsOf, StartsPassOf};

use fold_core::Hive;

/// The calls that `make_plan` plans for a sound id, made with the bytes that the catalog has, lead the id to
/// the catalog's end, and some of them are a part of a plan that does. The catalog has the bytes of all that
/// they put. It does nothing.
pub fn passes_lead_ids<H: Hive>()
    ensures bytes { (base : List ℕ) (cs : Catalog) (c : ℕ) (key : List ℕ) (old : Option StateDoc) (m : Area) (calls : List Call)
        → StartsPassOf (fold_of H.keeps H.makes base) cs c key old m → AreCallsOf (fold_of H.keeps H.makes base) cs c key old calls
        → HaveCallBytes cs calls }
    ensures led { (base : List ℕ) (cs : Catalog) (c : ℕ) (key : List ℕ) (old : Option StateDoc) (m : Area) (calls : List Call) (made : List StoreCall)
        → StartsPassOf (fold_of H.keeps H.makes base) cs c key old m → AreCallsOf (fold_of H.keeps H.makes base) cs c key old calls
        → AreMadeBy cs calls made
        → IsLed (fold_of H.keeps H.makes base) cs key (length cs) m (after_calls made m) }
    ensures partly { (base : List ℕ) (cs : Catalog) (c : ℕ) (key : List ℕ) (old : Option StateDoc) (m left : Area) (calls : List Call) (made : List StoreCall)
        → StartsPassOf (fold_of H.keeps H.makes base) cs c key old m → AreCallsOf (fold_of H.keeps H.makes base) cs c key old calls
        → AreSomeMadeBy cs calls made
        → IsAfterSome made m left → (left ≡ m) ⊎ IsPartlyPassed (fold_of H.keeps H.makes base) cs key (length cs) m left }
{}
