// The bytes that were read of a link and not yet answered.
ghost use Rattle.std.specs.Prelude.{◌≡◌, ◌<◌, ◌≤◌, ◌-◌, ◌⊎◌, ◌++◌, List, ℕ, [], length, take, drop, slice_range, Option, IfOk, IfErr, OnOk, OnErr, IfSome, IsErrOf, IsErr};
ghost use Rattle.feed_base.specs.Counts.{CountsFault};
ghost use Rattle.http_wire.specs.Reading.{Grows, ReadsAt, carried, pending};
ghost use Rattle.http_wire.specs.declared.request.WireErr.TheVariants.{ReadFault, Memory};

use crate::WireErr;
use crate::wire::WireIn;
use feed_base::{Failed, Link};
use std::alloc::{AllocError, Global};

/// The most bytes of a head, with the empty lines before it.
pub const MOST_HEAD: usize = 16_384;

/// Reads the next bytes into the room from a place on, and answers how many.
pub fn read_at<L: Link>(link: &mut L, room: &mut [u8], at: usize) -> Result<usize, Failed>
    requires { at < length room.old }
    ensures length { length room.new ≡ length room.old }
    ensures reads { ReadsAt at room.old room.new (L.left link.old) (L.left link.new) result }
    ensures counted { CountsFault (L.read_faults link.old) (L.read_faults link.new) (IsErr result) }
    ensures same_written { L.written link.new ≡ L.written link.old }
    ensures same_write_faults { L.write_faults link.new ≡ L.write_faults link.old }
{
    let (_, back) = room.split_at_mut(at);
    link.read(back)
}

// Takes the buffer's memory, if that isn't done yet.
fn grow(bytes: &mut Vec<u8>) -> Result<(), AllocError>
    requires { length bytes.old.items ≤ 16384 }
    ensures kept { (more : List ℕ) × (bytes.new.items ≡ bytes.old.items ++ more) }
    ensures within { length bytes.new.items ≤ 16384 }
    ensures room { OnOk result (length bytes.new.items ≡ 16384) }
{
    if bytes.len() == MOST_HEAD {
        return Ok(());
    }
    bytes.resize(MOST_HEAD, 0)
}

// Moves a piece to the front.
fn to_front(bytes: &mut Vec<u8>, start: usize, end: usize)
    requires ordered { start ≤ end }
    requires inside { end ≤ length bytes.old.items }
    ensures length { length bytes.new.items ≡ length bytes.old.items }
    ensures moved { slice_range bytes.new.items 0 (end - start) ≡ slice_range bytes.old.items start end }
{
    if start > 0 {
        bytes.copy_within(start..end, 0);
    }
}

impl WireIn {
    /// No byte was read. The buffer is taken at the first read.
    pub fn new(alloc: Global) -> WireIn
        ensures empty { carried result ≡ [] }
        ensures told { (left : Option (List ℕ)) → pending result left ≡ left }
    {
        WireIn {
            bytes: Vec::new(alloc),
            start: 0,
            end: 0,
        }
    }

    /// The bytes at hand.
    pub fn carried(&self) -> &[u8]
        ensures is { result.now ≡ carried self.now }
        ensures most { length result.now ≤ 16384 }
    {
        &self.bytes[self.start..self.end]
    }

    /// Lets the first bytes go.
    pub fn advance(&mut self, n: usize)
        requires { n ≤ length (carried self.old) }
        ensures { carried self.new ≡ drop n (carried self.old) }
    {
        self.start += n;
    }

    // Makes room for all bytes of a head.
    fn make_room(&mut self) -> Result<(), AllocError>
        ensures same { carried self.new ≡ carried self.old }
        ensures start { OnOk result (self.new.start ≡ 0) }
        ensures room { OnOk result (length self.new.bytes.items ≡ 16384) }
    {
        grow(&mut self.bytes)?;
        to_front(&mut self.bytes, self.start, self.end);
        self.end -= self.start;
        self.start = 0;
        Ok(())
    }

    /// Reads what comes next, and answers how many bytes.
    pub fn fill<L: Link>(&mut self, link: &mut L) -> Result<usize, WireErr>
        requires { length (carried self.old) < 16384 }
        ensures told { pending self.new (L.left link.new) ≡ pending self.old (L.left link.old) }
        ensures grown { IfOk result (Grows (carried self.old) (carried self.new)) }
        ensures kept { OnErr result (carried self.new ≡ carried self.old) }
        ensures ended { IfOk result (λ n. n ≡ 0 → IfSome (L.left link.old) (λ left. left ≡ [])) }
        ensures counted { CountsFault (L.read_faults link.old) (L.read_faults link.new) (IsErrOf result WireErr.ReadFault) }
        ensures error { IfErr result (λ e. (e ≡ ReadFault) ⊎ (e ≡ Memory)) }
        ensures same_written { L.written link.new ≡ L.written link.old }
        ensures same_write_faults { L.write_faults link.new ≡ L.write_faults link.old }
    {
        self.make_room()?;
        let n = read_at(link, &mut self.bytes, self.end)?;
        self.end += n;
        Ok(n)
    }
}
