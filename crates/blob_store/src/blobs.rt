// A store of blobs, as a trait.
ghost use Rattle.std.specs.Prelude.{◌≡◌, ◌<◌, ℕ, List, Option, Some, IfOk, IfSome, IsErrOf};
ghost use Rattle.std.specs.FinMap as map;
ghost use Rattle.feed_base.specs.Counts.{most, CountsFault};
ghost use Rattle.blob_store.specs.Area.{Area, with_blob, without_blob};
ghost use Rattle.blob_store.specs.Asked.{Asks};
ghost use Rattle.blob_store.specs.Blobs.{IsAfter, IsImageOf};
ghost use Rattle.blob_store.specs.Moments.{Elapses};
ghost use Rattle.blob_store.specs.Seen.{Seen, IsSure};

use crate::{BlobErr, Bytes};
use std::alloc::Global;

/// A store of blobs: an area, which is a map from names to bytes, changed by one call at a time.
///
/// Counts stay at the greatest number of 64 bits once they are there. A moment is a count of calls, and what
/// is said of moments holds while it is below that number.
pub trait Blobs: Drop {
    /// What is told of the store.
    ghost seen: { Self → Seen };

    /// The bytes under a name, or `None` where it isn't held.
    fn get(&mut self, alloc: Global, name: &str) -> Result<Option<Bytes>, BlobErr>
        ensures found { IfOk result (λ found. IfSome (seen self.old).held (λ m. found ≡ map.get m name.now)) }
        ensures same { (seen self.new).held ≡ (seen self.old).held }
        ensures time { Elapses (seen self.old).calls (seen self.new).calls (seen self.old).left (seen self.new).left (IsImageOf result (λ m. m) (seen self.old).held) }
        ensures counted { CountsFault (seen self.old).faults (seen self.new).faults (IsErrOf result BlobErr.Failed) }
        ensures asks { Asks name.now (seen self.old).asked (seen self.new).asked result };

    /// Puts bytes under a name, in place of those that are there.
    fn put(&mut self, alloc: Global, name: &str, bytes: &[u8]) -> Result<(), BlobErr>
        ensures after { IsAfter (with_blob name.now bytes.now) (seen self.old).held (seen self.new).held result }
        ensures time { Elapses (seen self.old).calls (seen self.new).calls (seen self.old).left (seen self.new).left (IsImageOf result (with_blob name.now bytes.now) (seen self.old).held) }
        ensures counted { CountsFault (seen self.old).faults (seen self.new).faults (IsErrOf result BlobErr.Failed) }
        ensures asks { Asks name.now (seen self.old).asked (seen self.new).asked result };

    /// Removes a name, which need not be there.
    fn delete(&mut self, alloc: Global, name: &str) -> Result<(), BlobErr>
        ensures after { IsAfter (without_blob name.now) (seen self.old).held (seen self.new).held result }
        ensures time { Elapses (seen self.old).calls (seen self.new).calls (seen self.old).left (seen self.new).left (IsImageOf result (without_blob name.now) (seen self.old).held) }
        ensures counted { CountsFault (seen self.old).faults (seen self.new).faults (IsErrOf result BlobErr.Failed) }
        ensures asks { Asks name.now (seen self.old).asked (seen self.new).asked result };

    /// A crash at this moment leaves what is held, and nothing else.
    ghost now: { (store : Self) → IsSure (seen store) };

    ghost stands: { (store : Self) (h : Area) → (seen store).calls < most → (seen store).held ≡ Some h → (seen store).left (seen store).calls h };
}
