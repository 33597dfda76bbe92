// The body of a request.
ghost use Rattle.std.specs.Prelude.{◌≡◌, ◌<◌, ◌≤◌, ◌+◌, ◌⊎◌, true, false, min, length, take, drop, IfOk, IfErr, OnOk, IfSome, IsErrOf};
ghost use Rattle.feed_base.specs.Counts.{CountsFault};
ghost use Rattle.http_wire.specs.Reading.{IsBodyErr, IsEndOf, carried, pending, unread};
ghost use Rattle.http_wire.specs.Statuses.{HasRefusalStatus};
ghost use Rattle.http_wire.specs.declared.request.WireErr.TheVariants.{ReadFault, Memory};

use crate::wire_in::read_at;
use crate::{WireErr, WireIn};
use feed_base::Link;
use nuget_version::Bytes;
use std::alloc::{AllocError, Global};

// The most memory that is taken for a body before its bytes come.
const FIRST_ROOM: usize = 16_384;

// Makes room behind the first bytes where there is none: for as many again, and no more than the body has.
fn make_room(room: &mut Vec<u8>, at: usize, size: usize) -> Result<(), AllocError>
    requires front { at ≤ length room.old.items }
    requires within { length room.old.items ≤ size }
    requires less { at < size }
    ensures front { take at room.new.items ≡ take at room.old.items }
    ensures within { length room.new.items ≤ size }
    ensures longer { length room.old.items ≤ length room.new.items }
    ensures room { OnOk result (at < length room.new.items) }
{
    if at < room.len() {
        return Ok(());
    }
    room.resize(at.saturating_add(at.max(FIRST_ROOM)).min(size), 0)
}

// Reads what is left of a body of `size` bytes, of which the first are in the room, and answers whether it
// came whole.
fn read_rest<L: Link>(
    link: &mut L,
    room: &mut Vec<u8>,
    from: usize,
    size: usize,
) -> Result<bool, WireErr>
    requires front { from ≤ length room.old.items }
    requires within { length room.old.items ≤ size }
    requires all { from ≡ size → length room.old.items ≡ size }
    ensures length { IfOk result (λ whole. whole ≡ true → length room.new.items ≡ size) }
    ensures whole { IfOk result (λ whole. whole ≡ true → unread room.new.items (L.left link.new) ≡ unread (take from room.old.items) (L.left link.old)) }
    ensures rest { IsEndOf (L.left link.old) (L.left link.new) }
    ensures idle { from ≡ size → L.left link.new ≡ L.left link.old }
    ensures short { IfOk result (λ whole. whole ≡ false → IfSome (L.left link.old) (λ left. from + length left < size)) }
    ensures error { IfErr result (λ e. (e ≡ ReadFault) ⊎ (e ≡ Memory)) }
    ensures counted { CountsFault (L.read_faults link.old) (L.read_faults link.new) (IsErrOf result WireErr.ReadFault) }
    ensures same_written { L.written link.new ≡ L.written link.old }
    ensures same_write_faults { L.write_faults link.new ≡ L.write_faults link.old }
{
    let mut at = from;
    'reads: while at < size {
        make_room(room, at, size)?;
        let n = read_at(link, room, at)?;
        if n == 0 {
            return Ok(false);
        }
        at += n;
    }
    Ok(true)
}

// Moves the first bytes at hand to the front of the room, as many as there are and find room.
fn take_carried(wire: &mut WireIn, room: &mut Vec<u8>) -> usize
    ensures count { result ≡ min (length room.old.items) (length (carried wire.old)) }
    ensures most { length (carried wire.old) ≤ 16384 }
    ensures length { length room.new.items ≡ length room.old.items }
    ensures front { take result room.new.items ≡ take result (carried wire.old) }
    ensures rest { carried wire.new ≡ drop result (carried wire.old) }
{
    let at_hand = wire.carried();
    let n = room.len().min(at_hand.len());
    let (front, _) = room.split_at_mut(n);
    front.copy_from_slice(&at_hand[..n]);
    wire.advance(n);
    n
}

/// Reads a body of so many bytes. Its memory grows with what came.
pub fn read_body<L: Link>(
    alloc: Global,
    wire: &mut WireIn,
    link: &mut L,
    size: usize,
) -> Result<Bytes, WireErr>
    ensures size { IfOk result (λ body. length body ≡ size) }
    ensures whole { IfOk result (λ body. unread body (pending wire.new (L.left link.new)) ≡ pending wire.old (L.left link.old)) }
    ensures rest { IsEndOf (pending wire.old (L.left link.old)) (pending wire.new (L.left link.new)) }
    ensures refused { IfErr result (λ e. IfSome (pending wire.old (L.left link.old)) (λ bytes. IsBodyErr bytes size e)) }
    ensures status { IfErr result HasRefusalStatus }
    ensures counted { CountsFault (L.read_faults link.old) (L.read_faults link.new) (IsErrOf result WireErr.ReadFault) }
    ensures same_written { L.written link.new ≡ L.written link.old }
    ensures same_write_faults { L.write_faults link.new ≡ L.write_faults link.old }
{
    let mut body = vec![in alloc; 0u8; size.min(FIRST_ROOM)]?;
    let first = take_carried(wire, &mut body);
    if !read_rest(link, &mut body, first, size)? {
        return Err(WireErr::Bad(400));
    }
    Ok(Bytes::of(body))
}
