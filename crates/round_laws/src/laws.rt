// What holds of the rounds of a hive.
ghost use Rattle.std.specs.Prelude.{◌≡◌, ◌≢◌, ◌⊎◌, ℕ, List, length, Result, Some};
ghost use Rattle.std.specs.declared.result.Result.TheVariants.{Ok, Err};
ghost use Rattle.std.specs.FinMap.{get};
ghost use Rattle.blob_store.specs.Area.{Area};
ghost use Rattle.blob_store.specs.Moments.{LeavesOnly};
ghost use Rattle.pkg_meta.specs.Catalog.{Catalog};
ghost use Rattle.catalog_core.specs.Opened.{IsOpenFor, Opened};
ghost use Rattle.cursor_doc.specs.Cursor.{cursor_name};
ghost use Rattle.fold_core.specs.Folds.{fold_of};
ghost use Rattle.hive_laws.specs.Areas.{SettledArea, SoundArea, cursor_at};
ghost use Rattle.id_pass.specs.declared.error.RoundErr.{RoundErr};
ghost use Rattle.id_pass.specs.declared.error.RoundErr.TheVariants.{Damaged, HiveFault};
ghost use Rattle.id_pass.specs.declared.error.RoundOut.{RoundOut};
ghost use Rattle.id_pass.specs.declared.error.RoundOut.TheVariants.{Done, Idle};
ghost use Rattle.job_round.specs.Answers.{IsDamagedBlob, IsLostInCatalog, IsLostInHive, in_catalog};
ghost use Rattle.job_round.specs.Rounds.{Rounds};
ghost use Rattle.round_laws.specs.OnAreas.{HoldsArea, IsSoundOrSettled, OnSoundArea, RoundOver};

use blob_store::Blobs;
use fold_core::Hive;

/// A round over a sound area that ends leaves exactly the area of the whole catalog; where there was nothing to do it was that already.
/// It does nothing.
pub fn rounds_settle<H: Hive, B: Blobs>()
    ensures done { (o : Opened B) (old new : B) (cs : Catalog) (c n : ℕ) (m : Area)
        → OnSoundArea (fold_of H.keeps H.makes o.base) (IsOpenFor o (B.seen o.area)) cs c m (B.seen old)
        → Rounds (fold_of H.keeps H.makes o.base) (IsOpenFor o (B.seen o.area)) (B.seen old) (B.seen new) (Ok (Done n))
        → HoldsArea (B.seen new) (SettledArea (fold_of H.keeps H.makes o.base) cs (length cs)) }
    ensures idle { (o : Opened B) (old new : B) (cs : Catalog) (c n : ℕ) (m : Area)
        → OnSoundArea (fold_of H.keeps H.makes o.base) (IsOpenFor o (B.seen o.area)) cs c m (B.seen old)
        → Rounds (fold_of H.keeps H.makes o.base) (IsOpenFor o (B.seen o.area)) (B.seen old) (B.seen new) (Ok (Idle n))
        → ((B.seen new).held ≡ Some m) × SettledArea (fold_of H.keeps H.makes o.base) cs (length cs) m }
{}

/// Whatever a round over a sound area answers, the area that it leaves is sound, or exactly that of the whole catalog; so is the one
/// that a crash at any moment leaves. It does nothing.
pub fn rounds_stay_sound<H: Hive, B: Blobs>()
    ensures held { (o : Opened B) (old new : B) (cs : Catalog) (c : ℕ) (m : Area) (result : Result RoundOut RoundErr)
        → OnSoundArea (fold_of H.keeps H.makes o.base) (IsOpenFor o (B.seen o.area)) cs c m (B.seen old)
        → Rounds (fold_of H.keeps H.makes o.base) (IsOpenFor o (B.seen o.area)) (B.seen old) (B.seen new) result
        → HoldsArea (B.seen new) (IsSoundOrSettled (fold_of H.keeps H.makes o.base) cs c) }
    ensures moments { (o : Opened B) (old new : B) (cs : Catalog) (c : ℕ) (m : Area) (result : Result RoundOut RoundErr)
        → OnSoundArea (fold_of H.keeps H.makes o.base) (IsOpenFor o (B.seen o.area)) cs c m (B.seen old)
        → Rounds (fold_of H.keeps H.makes o.base) (IsOpenFor o (B.seen o.area)) (B.seen old) (B.seen new) result
        → LeavesOnly (B.seen old) (B.seen new) (IsSoundOrSettled (fold_of H.keeps H.makes o.base) cs c) }
    ensures stopped { (o : Opened B) (old new : B) (cs : Catalog) (c : ℕ) (m : Area) (error : RoundErr)
        → OnSoundArea (fold_of H.keeps H.makes o.base) (IsOpenFor o (B.seen o.area)) cs c m (B.seen old)
        → Rounds (fold_of H.keeps H.makes o.base) (IsOpenFor o (B.seen o.area)) (B.seen old) (B.seen new) (Err error) → error ≢ HiveFault
        → HoldsArea (B.seen new) (SoundArea (fold_of H.keeps H.makes o.base) cs c) }
{}

/// A round that stopped leaves the cursor as it was. Only where the hive's store failed it may be the one of the last commit, and then
/// the area is that of the whole catalog. It does nothing.
pub fn rounds_keep_cursors<H: Hive, B: Blobs>()
    ensures stands { (o : Opened B) (old new : B) (cs : Catalog) (c : ℕ) (m : Area) (error : RoundErr)
        → OnSoundArea (fold_of H.keeps H.makes o.base) (IsOpenFor o (B.seen o.area)) cs c m (B.seen old)
        → Rounds (fold_of H.keeps H.makes o.base) (IsOpenFor o (B.seen o.area)) (B.seen old) (B.seen new) (Err error) → error ≢ HiveFault
        → HoldsArea (B.seen new) (λ left. get left cursor_name ≡ get m cursor_name) }
    ensures or_moved { (o : Opened B) (old new : B) (cs : Catalog) (c : ℕ) (m : Area) (error : RoundErr)
        → OnSoundArea (fold_of H.keeps H.makes o.base) (IsOpenFor o (B.seen o.area)) cs c m (B.seen old)
        → Rounds (fold_of H.keeps H.makes o.base) (IsOpenFor o (B.seen o.area)) (B.seen old) (B.seen new) (Err error)
        → HoldsArea (B.seen new) (λ left. (get left cursor_name ≡ get m cursor_name)
        ⊎ ((get left cursor_name ≡ cursor_at cs (length cs)) × SettledArea (fold_of H.keeps H.makes o.base) cs (length cs) left)) }
{}

/// Of a round over a sound area no blob of the hive is damaged: what is told so is one of the catalog. Where the catalog is settled, none is
/// told at all. It does nothing.
pub fn sound_rounds_are_whole<H: Hive, B: Blobs>()
    ensures none_of_hive { (o : Opened B) (old new : B) (cs : Catalog) (c : ℕ) (m : Area) (error : RoundErr)
        → OnSoundArea (fold_of H.keeps H.makes o.base) (IsOpenFor o (B.seen o.area)) cs c m (B.seen old)
        → Rounds (fold_of H.keeps H.makes o.base) (IsOpenFor o (B.seen o.area)) (B.seen old) (B.seen new) (Err error) → error ≢ HiveFault
        → (name : List ℕ) → IsLostInHive o (B.seen o.area) (B.seen new).held name → ⊥ }
    ensures of_catalog { (o after : Opened B) (old new : B) (cs : Catalog) (c : ℕ) (m : Area) (text : List ℕ)
        → OnSoundArea (fold_of H.keeps H.makes o.base) (IsOpenFor o (B.seen o.area)) cs c m (B.seen old)
        → Rounds (fold_of H.keeps H.makes o.base) (IsOpenFor o (B.seen o.area)) (B.seen old) (B.seen new) (Err (Damaged text))
        → IsDamagedBlob o after (B.seen o.area) (B.seen after.area) (B.seen new).held text
        → (name : List ℕ) × (text ≡ in_catalog name) × IsLostInCatalog o after (B.seen o.area) (B.seen after.area) name }
    ensures none { (o after : Opened B) (old new : B) (cs : Catalog) (c : ℕ) (m : Area) (text : List ℕ)
        → OnSoundArea (fold_of H.keeps H.makes o.base) (IsOpenFor o (B.seen o.area)) cs c m (B.seen old)
        → RoundOver (fold_of H.keeps H.makes o.base) o after (B.seen o.area) (B.seen after.area) (B.seen old) (B.seen new) (Err (Damaged text)) → ⊥ }
{}
