// Which documents of a hive a `get` gives.
ghost use Rattle.std.specs.Prelude.{◌≡◌, ◌≤◌, ℕ, List, length, take, None, Some};
ghost use Rattle.pkg_meta.specs.Catalog.{Catalog};
ghost use Rattle.feed_app.specs.Commands.{Get, base_of, command_of};
ghost use Rattle.feed_app.specs.Hives.{hive_name};
ghost use Rattle.feed_app.specs.Openings.{MayOpen};
ghost use Rattle.feed_app.specs.Outside.{bounds, output_of};
ghost use Rattle.feed_app.specs.Runs.{ForRuns};
ghost use Rattle.feed_app.specs.SoundHives.{HoldsHive};
ghost use Rattle.feed_app.specs.Targets.{IsHivePath};
ghost use Rattle.feed_app.specs.Writes.{HasMore};
ghost use Rattle.feed_app.specs.declared.hives.ServedHive.{ServedHive};
ghost use Rattle.app_laws.specs.Scratch.{from_scratch};

use blob_store::Blobs;
use feed_base::{Clock, Sink, Source};

/// A `get` of a document of a sound hive, of status 0, writes the one that the hive makes of a prefix of the catalog that reaches the
/// hive's cursor; and one that is refused, where no other base address than the catalog's is given, tells that such a prefix has none.
pub fn gets_are_fresh<B: Blobs, I: Source, O: Sink, C: Clock>()
    ensures found { let b = bounds B.Blobs I.Source O.Sink C.Clock in
        ForRuns b (λ words before status after. (hive : ServedHive) (path name base : List ℕ) (cs : Catalog) (c : ℕ)
        → command_of words ≡ Some (Get path) → IsHivePath hive path name → HoldsHive b.blobs before.stores (hive_name hive) base cs c → status ≡ 0
        → (k : ℕ) × (bytes : List ℕ) × (c ≤ k) × (k ≤ length cs) × (from_scratch (hive_name hive) base (take k cs) name ≡ Some bytes)
        × HasMore bytes (output_of b.sink before.output) (output_of b.sink after.output)) }
    ensures missing { let b = bounds B.Blobs I.Source O.Sink C.Clock in
        ForRuns b (λ words before status after. (hive : ServedHive) (path name base : List ℕ) (cs : Catalog) (c : ℕ)
        → command_of words ≡ Some (Get path) → IsHivePath hive path name → HoldsHive b.blobs before.stores (hive_name hive) base cs c
        → MayOpen (base_of words) (b.blobs.seen before.stores.catalog) → status ≡ 3
        → (k : ℕ) × (c ≤ k) × (k ≤ length cs) × (from_scratch (hive_name hive) base (take k cs) name ≡ None)) }
{}
