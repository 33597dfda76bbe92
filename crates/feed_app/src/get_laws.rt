// What holds of a `get`. The function does nothing.
ghost use Rattle.std.specs.Prelude.{◌≡◌, ℕ, List, Some};
ghost use Rattle.feed_app.specs.declared.hives.ServedHive.{ServedHive};
ghost use Rattle.feed_app.specs.Commands.{Get, base_of, command_of};
ghost use Rattle.feed_app.specs.Gets.{HasCatalogDocument, HasHiveDocument, HasIndex, IsServed};
ghost use Rattle.feed_app.specs.Hives.{hive_stores};
ghost use Rattle.feed_app.specs.Openings.{MayOpen};
ghost use Rattle.feed_app.specs.Outside.{AreaRose, Rose, bounds, held, output_of};
ghost use Rattle.feed_app.specs.Runs.{ForRuns};

use blob_store::Blobs;
use feed_base::{Clock, Sink, Source};

/// A document that is held, where neither the count of its area nor that of the catalog's or of the output rose, is
/// written, or memory runs out, unless another base address than the catalog's is given. So is the service index of the
/// base address of a catalog.
pub fn serves_documents<B: Blobs, I: Source, O: Sink, C: Clock>()
    ensures catalog { let b = bounds B.Blobs I.Source O.Sink C.Clock in ForRuns b (λ words before status after. (path bytes : List ℕ)
        → command_of words ≡ Some (Get path) → MayOpen (base_of words) (b.blobs.seen before.stores.catalog)
        → HasCatalogDocument path bytes (held b.blobs before.stores.catalog)
        → (AreaRose b.blobs before.stores.catalog after.stores.catalog → ⊥)
        → (Rose (output_of b.sink before.output) (output_of b.sink after.output) → ⊥)
        → IsServed bytes status (output_of b.sink before.output) (output_of b.sink after.output)) }
    ensures index { let b = bounds B.Blobs I.Source O.Sink C.Clock in ForRuns b (λ words before status after. (path bytes : List ℕ)
        → command_of words ≡ Some (Get path) → MayOpen (base_of words) (b.blobs.seen before.stores.catalog)
        → HasIndex path bytes (held b.blobs before.stores.catalog)
        → (AreaRose b.blobs before.stores.catalog after.stores.catalog → ⊥)
        → (Rose (output_of b.sink before.output) (output_of b.sink after.output) → ⊥)
        → IsServed bytes status (output_of b.sink before.output) (output_of b.sink after.output)) }
    ensures hive { let b = bounds B.Blobs I.Source O.Sink C.Clock in
        ForRuns b (λ words before status after. (hive : ServedHive) (path bytes : List ℕ) → command_of words ≡ Some (Get path)
        → MayOpen (base_of words) (b.blobs.seen before.stores.catalog)
        → HasHiveDocument hive path bytes (held b.blobs before.stores.catalog) (held b.blobs (hive_stores before.stores hive))
        → (AreaRose b.blobs before.stores.catalog after.stores.catalog → ⊥)
        → (AreaRose b.blobs (hive_stores before.stores hive) (hive_stores after.stores hive) → ⊥)
        → (Rose (output_of b.sink before.output) (output_of b.sink after.output) → ⊥)
        → IsServed bytes status (output_of b.sink before.output) (output_of b.sink after.output)) }
{}
