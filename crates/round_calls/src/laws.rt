// What holds of each store call of a pass and of a round on a hive's store.
ghost use Rattle.std.specs.Prelude.{ℕ, List, length, map, Option, Result};
ghost use Rattle.blob_store.specs.Area.{Area};
ghost use Rattle.blob_store.specs.Events.{Change};
ghost use Rattle.blob_store.specs.Plans.{all_done};
ghost use Rattle.blob_store.specs.declared.call.Call.{Call as StoreCall};
ghost use Rattle.pkg_meta.specs.Catalog.{Catalog};
ghost use Rattle.pkg_meta.specs.declared.state.StateDoc.{StateDoc};
ghost use Rattle.catalog_core.specs.Opened.{IsOpenFor, Opened};
ghost use Rattle.fold_core.specs.Folds.{fold_of};
ghost use Rattle.feed_laws.specs.Calls.{CallsMeetOnHive, MeetAllOnHive};
ghost use Rattle.id_pass.specs.declared.call.Call.{Call};
ghost use Rattle.id_pass.specs.declared.error.RoundErr.{RoundErr};
ghost use Rattle.id_pass.specs.declared.error.RoundOut.{RoundOut};
ghost use Rattle.job_round.specs.Rounds.{Rounds};
ghost use Rattle.pass_laws.specs.Making.{AreMadeBy, AreSomeMadeBy};
ghost use Rattle.pass_laws.specs.Starting.{AreCallsOf, StartsPassOf};
ghost use Rattle.round_laws.specs.OnAreas.{OnSoundArea};

use blob_store::Blobs;
use fold_core::Hive;

/// Each of the calls that `make_plan` plans for a sound id, made with the bytes that the catalog has, meets its condition, in the area that
/// the calls before it left; and so do some of them, from the first on. It does nothing.
pub fn passes_meet_conditions<H: Hive>()
    ensures whole { (base : List ℕ) (cs : Catalog) (c : ℕ) (key : List ℕ) (old : Option StateDoc) (m : Area) (calls : List Call) (made : List StoreCall)
        → StartsPassOf (fold_of H.keeps H.makes base) cs c key old m → AreCallsOf (fold_of H.keeps H.makes base) cs c key old calls
        → AreMadeBy cs calls made → MeetAllOnHive (fold_of H.keeps H.makes base) cs (length cs) m (all_done (map Change made)) }
    ensures partly { (base : List ℕ) (cs : Catalog) (c : ℕ) (key : List ℕ) (old : Option StateDoc) (m : Area) (calls : List Call) (made : List StoreCall)
        → StartsPassOf (fold_of H.keeps H.makes base) cs c key old m → AreCallsOf (fold_of H.keeps H.makes base) cs c key old calls
        → AreSomeMadeBy cs calls made → MeetAllOnHive (fold_of H.keeps H.makes base) cs (length cs) m (all_done (map Change made)) }
{}

/// Each store call of `run_round` over a sound area meets its condition, in the area that the calls before it left, whatever the answer
/// and wherever a call fails: so the cursor is put only where nothing is left to do for any id. It does nothing.
pub fn rounds_meet_conditions<H: Hive, B: Blobs>()
    ensures { (o : Opened B) (old new : B) (cs : Catalog) (c : ℕ) (m : Area) (result : Result RoundOut RoundErr)
        → OnSoundArea (fold_of H.keeps H.makes o.base) (IsOpenFor o (B.seen o.area)) cs c m (B.seen old)
        → Rounds (fold_of H.keeps H.makes o.base) (IsOpenFor o (B.seen o.area)) (B.seen old) (B.seen new) result
        → CallsMeetOnHive (fold_of H.keeps H.makes o.base) cs (length cs) m (B.seen old) (B.seen new) }
{}
