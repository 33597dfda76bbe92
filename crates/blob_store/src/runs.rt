// Runs of calls, made in order.
ghost use Rattle.std.specs.Prelude.{◌≡◌, [], ◌∷◌, Some, map, IfOk, IfSome, IsErrOf};
ghost use Rattle.std.specs.FinMap.{get};
ghost use Rattle.feed_base.specs.Counts.{CountsFault};
ghost use Rattle.blob_store.specs.Area.{Area};
ghost use Rattle.blob_store.specs.Asked.{Asks};
ghost use Rattle.blob_store.specs.Blobs.{IsAfter, IsImageOf};
ghost use Rattle.blob_store.specs.Events.{Get, Change};
ghost use Rattle.blob_store.specs.Moments.{Elapses, LeavesOnly};
ghost use Rattle.blob_store.specs.Plans.{Runs};
ghost use Rattle.blob_store.specs.Runs.{name_of, after_call, IsAfterSome};

use crate::{BlobErr, Blobs, Bytes, Call};
use std::alloc::Global;

// Makes a call.
fn make_call<B: Blobs>(alloc: Global, area: &mut B, call: &Call) -> Result<(), BlobErr>
    ensures after { IsAfter (after_call call.now) (B.seen area.old).held (B.seen area.new).held result }
    ensures time { Elapses (B.seen area.old).calls (B.seen area.new).calls (B.seen area.old).left (B.seen area.new).left (IsImageOf result (after_call call.now) (B.seen area.old).held) }
    ensures counted { CountsFault (B.seen area.old).faults (B.seen area.new).faults (IsErrOf result BlobErr.Failed) }
    ensures asks { Asks (name_of call.now) (B.seen area.old).asked (B.seen area.new).asked result }
{
    match call {
        Call::Put { name, bytes } => area.put(alloc, name.as_str(), bytes.as_slice()),
        Call::Remove { name } => area.delete(alloc, name.as_str()),
    }
}

/// Gets the bytes under a name.
pub fn get_one<B: Blobs>(alloc: Global, area: &mut B, name: &str) -> Result<Option<Bytes>, BlobErr>
    ensures found { IfOk result (λ found. IfSome (B.seen area.old).held (λ m. found ≡ get m name.now)) }
    ensures runs { Runs (Get name.now ∷ []) (B.seen area.old) (B.seen area.new) result }
{
    area.get(alloc, name)
}

/// Makes a change.
pub fn call_one<B: Blobs>(alloc: Global, area: &mut B, call: &Call) -> Result<(), BlobErr>
    ensures runs { Runs (Change call.now ∷ []) (B.seen area.old) (B.seen area.new) result }
{
    make_call(alloc, area, call)
}

// Makes the changes in order, up to the first that isn't done.
fn call_each<B: Blobs>(alloc: Global, area: &mut B, calls: &[Call]) -> Result<(), BlobErr>
    ensures runs { Runs (map Change calls.now) (B.seen area.old) (B.seen area.new) result }
{
    for call in calls {
        call_one(alloc, area, call)?;
    }
    Ok(())
}

/// Makes the changes in order, up to the first that isn't done.
pub fn call_all<B: Blobs>(alloc: Global, area: &mut B, calls: &[Call]) -> Result<(), BlobErr>
    ensures runs { Runs (map Change calls.now) (B.seen area.old) (B.seen area.new) result }

    // Whatever it answers, some of the calls took effect, from the first on, and so at a crash at each moment.
    ensures some { IfSome (B.seen area.old).held (λ m. (now : Area) × ((B.seen area.new).held ≡ Some now) × IsAfterSome calls.now m now) }
    ensures moments { IfSome (B.seen area.old).held (λ m. LeavesOnly (B.seen area.old) (B.seen area.new) (IsAfterSome calls.now m)) }
{
    call_each(alloc, area, calls)
}
