// A store in memory.
ghost use Rattle.std.specs.Prelude.{◌≡◌, ◌↔◌, [], IsTrue, IsErrOf, Option, Some, None, IsSome, IfSome, OnOk, OnErr, IfOk, option_map};
ghost use Rattle.std.specs.FinMap as map;
ghost use Rattle.feed_base.specs.Counts.{CountsFault};
ghost use Rattle.blob_store.specs.Area.{changed, with_blob, without_blob};
ghost use Rattle.blob_store.specs.Asked.{Asks};
ghost use Rattle.blob_store.specs.Blobs.{IsAfter, IsImageOf};
ghost use Rattle.blob_store.specs.Laws.{left_now, left_stands};
ghost use Rattle.blob_store.specs.Moments.{Elapses};
ghost use Rattle.blob_store.specs.Record.{area_of, are_numbered, left_by, IsMade};

use crate::change::Change;
use crate::fail::{Fail, fault_of};
use crate::{BlobErr, Blobs, Bytes, NoMemory, Text};
use feed_base::next_count;
use std::alloc::Global;
use std::collections::BTreeMap;

/// A store in memory, which keeps a record of its changes and of the names that it was asked.
pub struct MemBlobs {
    blobs: BTreeMap<String, Bytes>,
    changes: Vec<Change>,
    calls: u64,
    faults: u64,
    fails: Vec<Fail>,
    asked: Vec<Text>,
    ghost numbered: { IsTrue (are_numbered calls changes.items) },
}

// One call drops all parts, wherever a store ends.
impl Drop for MemBlobs {
    fn drop(self) {
        let MemBlobs {
            blobs,
            changes,
            calls,
            faults,
            fails,
            asked,
        } = self;
    }
}

impl MemBlobs {
    ghost use Rattle.blob_store.specs.Memory.{IsNewStore};

    pub fn new(alloc: Global) -> Self
        ensures empty { (⟦<MemBlobs as Blobs>⟧.seen result).held ≡ Some map.empty }
        ensures calls { (⟦<MemBlobs as Blobs>⟧.seen result).calls ≡ 0 }
        ensures faults { (⟦<MemBlobs as Blobs>⟧.seen result).faults ≡ 0 }
        ensures fresh { IsNewStore [] result }
    {
        MemBlobs {
            blobs: BTreeMap::new(alloc),
            changes: Vec::new(alloc),
            calls: 0,
            faults: 0,
            fails: Vec::new(alloc),
            asked: Vec::new(alloc),
        }
    }

    /// A store whose calls of these numbers fail. Where two have one number, the first counts.
    pub fn failing(alloc: Global, fails: &[Fail]) -> Result<Self, NoMemory>
        ensures empty { IfOk result (λ s. (⟦<MemBlobs as Blobs>⟧.seen s).held ≡ Some map.empty) }
        ensures calls { IfOk result (λ s. (⟦<MemBlobs as Blobs>⟧.seen s).calls ≡ 0) }
        ensures faults { IfOk result (λ s. (⟦<MemBlobs as Blobs>⟧.seen s).faults ≡ 0) }
        ensures fresh { IfOk result (IsNewStore fails.now) }
    {
        Ok(MemBlobs {
            blobs: BTreeMap::new(alloc),
            changes: Vec::new(alloc),
            calls: 0,
            faults: 0,
            fails: fails.to_vec(alloc)?,
            asked: Vec::new(alloc),
        })
    }
}

// A copy of the bytes that a change puts.
fn copy_of(alloc: Global, bytes: Option<&[u8]>) -> Result<Option<Bytes>, NoMemory>
    ensures { IfOk result (λ copy. copy ≡ option_map (λ b. b.now) bytes.entry) }
{
    match bytes {
        None => Ok(None),
        Some(bytes) => Ok(Some(Bytes::copy_of(alloc, bytes)?)),
    }
}

// A copy of the bytes under a name.
fn copy_found(
    alloc: Global,
    blobs: &BTreeMap<String, Bytes>,
    name: &str,
) -> Result<Option<Bytes>, NoMemory>
    ensures { IfOk result (λ found. found ≡ map.get (area_of blobs.now) name.now) }
{
    match blobs.get(name) {
        None => Ok(None),
        Some(bytes) => Ok(Some(bytes.copy(alloc)?)),
    }
}

// Puts these bytes under a name, or removes it, and answers what was there.
fn exchange(
    alloc: Global,
    blobs: &mut BTreeMap<String, Bytes>,
    name: &str,
    bytes: Option<Bytes>,
) -> Result<Option<Bytes>, NoMemory>
    ensures was { IfOk result (λ was. was ≡ map.get (area_of blobs.old) name.now) }
    ensures after { OnOk result (area_of blobs.new ≡ changed name.now bytes (area_of blobs.old)) }
    ensures err { OnErr result (area_of blobs.new ≡ area_of blobs.old) }
{
    let Some(bytes) = bytes else {
        return Ok(blobs.remove(name));
    };
    let name = String::from_str(alloc, name)?;
    Ok(blobs.insert(name, bytes)?)
}

// Makes a change, if it is to take effect, and answers the bytes that the name would have without it.
fn make_change(
    alloc: Global,
    blobs: &mut BTreeMap<String, Bytes>,
    name: &str,
    bytes: Option<Bytes>,
    took: bool,
) -> Result<Option<Bytes>, NoMemory>
    ensures made { IfOk result (λ other. IsMade took name.now bytes other (area_of blobs.old) (area_of blobs.new)) }
    ensures err { OnErr result (area_of blobs.new ≡ area_of blobs.old) }
{
    if !took {
        return Ok(bytes);
    }
    exchange(alloc, blobs, name, bytes)
}

impl MemBlobs {
    ghost use Rattle.blob_store.specs.Memory.{next_fault, HasCalled, FailsAs};

    // A call that changes the area.
    fn change(&mut self, alloc: Global, name: &str, bytes: Option<&[u8]>) -> Result<(), BlobErr>
        ensures after { IsAfter (changed name.now (option_map (λ b. b.now) bytes.entry)) (Some (area_of self.old.blobs)) (Some (area_of self.new.blobs)) result }
        ensures time { Elapses self.old.calls self.new.calls (left_by self.old.changes.items (area_of self.old.blobs)) (left_by self.new.changes.items (area_of self.new.blobs))
            (IsImageOf result (changed name.now (option_map (λ b. b.now) bytes.entry)) (Some (area_of self.old.blobs))) }
        ensures counted { CountsFault self.old.faults self.new.faults (IsErrOf result BlobErr.Failed) }
        ensures answered { OnOk result (next_fault self.old ≡ None) }
        ensures failed { IsErrOf result BlobErr.Failed → FailsAs (next_fault self.old) (changed name.now (option_map (λ b. b.now) bytes.entry)) (Some (area_of self.old.blobs)) (Some (area_of self.new.blobs)) }
        ensures called { HasCalled self.old self.new }
        ensures asks { Asks name.now (Some self.old.asked.items) (Some self.new.asked.items) result }
    {
        let at = self.calls;
        self.calls = next_count(at);
        let fault = fault_of(&self.fails, self.calls);
        let took = fault.unwrap_or(true);
        let bytes = copy_of(alloc, bytes)?;
        let kept = Text::copy_of(alloc, name)?;
        if self.changes.reserve(1).is_err() {
            return Err(BlobErr::Memory);
        }
        let asked = Text::copy_of(alloc, name)?;
        if self.asked.reserve(1).is_err() {
            return Err(BlobErr::Memory);
        }
        let other = make_change(alloc, &mut self.blobs, name, bytes, took)?;
        let change = Change {
            at,
            name: kept,
            other,
            took,
        };
        if self.changes.push(change).is_err() {
            unreachable!();
        }
        if self.asked.push(asked).is_err() {
            unreachable!();
        }
        if fault.is_some() {
            self.faults = next_count(self.faults);
            return Err(BlobErr::Failed);
        }
        Ok(())
    }
}

impl Blobs for MemBlobs {
    ghost use Rattle.blob_store.specs.Memory.{next_fault, HasCalled, FailsAs};

    ghost seen = { λ s. record {
      calls = s.calls;
      faults = s.faults;
      held = Some (area_of s.blobs);
      asked = Some s.asked.items;
      left = λ t m. left_by s.changes.items (area_of s.blobs) t m;
    } };

    ghost now = { λ s h m few is here. left_now s.calls s.changes.items (area_of s.blobs) h m few s.numbered is here };

    ghost stands = { λ s h few is. left_stands s.calls s.changes.items (area_of s.blobs) h few s.numbered is };

    fn get(&mut self, alloc: Global, name: &str) -> Result<Option<Bytes>, BlobErr>
        ensures found { IfOk result (λ found. IfSome (⟦<MemBlobs as Blobs>⟧.seen self.old).held (λ m. found ≡ map.get m name.now)) }
        ensures same { (⟦<MemBlobs as Blobs>⟧.seen self.new).held ≡ (⟦<MemBlobs as Blobs>⟧.seen self.old).held }
        ensures time { Elapses (⟦<MemBlobs as Blobs>⟧.seen self.old).calls (⟦<MemBlobs as Blobs>⟧.seen self.new).calls (⟦<MemBlobs as Blobs>⟧.seen self.old).left (⟦<MemBlobs as Blobs>⟧.seen self.new).left (IsImageOf result (λ m. m) (⟦<MemBlobs as Blobs>⟧.seen self.old).held) }
        ensures counted { CountsFault (⟦<MemBlobs as Blobs>⟧.seen self.old).faults (⟦<MemBlobs as Blobs>⟧.seen self.new).faults (IsErrOf result BlobErr.Failed) }
        ensures asks { Asks name.now (⟦<MemBlobs as Blobs>⟧.seen self.old).asked (⟦<MemBlobs as Blobs>⟧.seen self.new).asked result }

        // It fails only where it was to fail, and is done only where it was not.
        ensures answered { OnOk result (next_fault self.old ≡ None) }
        ensures failed { IsErrOf result BlobErr.Failed → IsSome (next_fault self.old) }
        ensures called { HasCalled self.old self.new }
    {
        self.calls = next_count(self.calls);
        let asked = Text::copy_of(alloc, name)?;
        if self.asked.reserve(1).is_err() {
            return Err(BlobErr::Memory);
        }
        if fault_of(&self.fails, self.calls).is_some() {
            self.faults = next_count(self.faults);
            if self.asked.push(asked).is_err() {
                unreachable!();
            }
            return Err(BlobErr::Failed);
        }
        let found = copy_found(alloc, &self.blobs, name)?;
        if self.asked.push(asked).is_err() {
            unreachable!();
        }
        Ok(found)
    }

    fn put(&mut self, alloc: Global, name: &str, bytes: &[u8]) -> Result<(), BlobErr>
        ensures after { IsAfter (with_blob name.now bytes.now) (⟦<MemBlobs as Blobs>⟧.seen self.old).held (⟦<MemBlobs as Blobs>⟧.seen self.new).held result }
        ensures time { Elapses (⟦<MemBlobs as Blobs>⟧.seen self.old).calls (⟦<MemBlobs as Blobs>⟧.seen self.new).calls (⟦<MemBlobs as Blobs>⟧.seen self.old).left (⟦<MemBlobs as Blobs>⟧.seen self.new).left (IsImageOf result (with_blob name.now bytes.now) (⟦<MemBlobs as Blobs>⟧.seen self.old).held) }
        ensures counted { CountsFault (⟦<MemBlobs as Blobs>⟧.seen self.old).faults (⟦<MemBlobs as Blobs>⟧.seen self.new).faults (IsErrOf result BlobErr.Failed) }
        ensures asks { Asks name.now (⟦<MemBlobs as Blobs>⟧.seen self.old).asked (⟦<MemBlobs as Blobs>⟧.seen self.new).asked result }

        // It fails only where it was to fail, and is done only where it was not.
        ensures answered { OnOk result (next_fault self.old ≡ None) }
        ensures failed { IsErrOf result BlobErr.Failed → FailsAs (next_fault self.old) (with_blob name.now bytes.now) (⟦<MemBlobs as Blobs>⟧.seen self.old).held (⟦<MemBlobs as Blobs>⟧.seen self.new).held }
        ensures called { HasCalled self.old self.new }
    {
        self.change(alloc, name, Some(bytes))
    }

    fn delete(&mut self, alloc: Global, name: &str) -> Result<(), BlobErr>
        ensures after { IsAfter (without_blob name.now) (⟦<MemBlobs as Blobs>⟧.seen self.old).held (⟦<MemBlobs as Blobs>⟧.seen self.new).held result }
        ensures time { Elapses (⟦<MemBlobs as Blobs>⟧.seen self.old).calls (⟦<MemBlobs as Blobs>⟧.seen self.new).calls (⟦<MemBlobs as Blobs>⟧.seen self.old).left (⟦<MemBlobs as Blobs>⟧.seen self.new).left (IsImageOf result (without_blob name.now) (⟦<MemBlobs as Blobs>⟧.seen self.old).held) }
        ensures counted { CountsFault (⟦<MemBlobs as Blobs>⟧.seen self.old).faults (⟦<MemBlobs as Blobs>⟧.seen self.new).faults (IsErrOf result BlobErr.Failed) }
        ensures asks { Asks name.now (⟦<MemBlobs as Blobs>⟧.seen self.old).asked (⟦<MemBlobs as Blobs>⟧.seen self.new).asked result }

        // It fails only where it was to fail, and is done only where it was not.
        ensures answered { OnOk result (next_fault self.old ≡ None) }
        ensures failed { IsErrOf result BlobErr.Failed → FailsAs (next_fault self.old) (without_blob name.now) (⟦<MemBlobs as Blobs>⟧.seen self.old).held (⟦<MemBlobs as Blobs>⟧.seen self.new).held }
        ensures called { HasCalled self.old self.new }
    {
        self.change(alloc, name, None)
    }
}
