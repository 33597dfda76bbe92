// A request of a link, whatever the sizes of its reads.
ghost use Rattle.std.specs.Prelude.{◌≡◌, IfOk, IfErr, IfSome, IsErrOf};
ghost use Rattle.feed_base.specs.Counts.{CountsFault};
ghost use Rattle.http_wire.specs.Reading.{GivesRequest, IsEndOf, Says, carried, pending};
ghost use Rattle.http_wire.specs.Scanned.{IsSpan};
ghost use Rattle.http_wire.specs.Statuses.{HasRefusalStatus};

use crate::body::read_body;
use crate::head::read_head;
use crate::scan::Scan;
use crate::wire_in::MOST_HEAD;
use crate::{Request, WireErr, WireIn};
use feed_base::Link;
use std::alloc::Global;

// Reads until the head of a request is at hand, and answers where it lies.
fn find_head<L: Link>(wire: &mut WireIn, link: &mut L) -> Result<(usize, usize), WireErr>
    ensures told { pending wire.new (L.left link.new) ≡ pending wire.old (L.left link.old) }
    ensures found { IfOk result (λ span. IsSpan (carried wire.new) span) }
    ensures refused { IfErr result (λ e. IfSome (pending wire.old (L.left link.old)) (λ bytes. Says bytes e)) }
    ensures status { IfErr result HasRefusalStatus }
    ensures counted { CountsFault (L.read_faults link.old) (L.read_faults link.new) (IsErrOf result WireErr.ReadFault) }
    ensures same_written { L.written link.new ≡ L.written link.old }
    ensures same_write_faults { L.write_faults link.new ≡ L.write_faults link.old }
{
    let mut scan = Scan::new();
    'reads: loop {
        if let Some(end) = scan.look(wire.carried()) {
            return Ok((scan.skipped, end));
        }
        let at_hand = wire.carried().len();
        if at_hand == MOST_HEAD {
            return Err(WireErr::Bad(431));
        }
        if wire.fill(link)? == 0 {
            if scan.skipped == at_hand {
                return Err(WireErr::Closed);
            }
            return Err(WireErr::Bad(400));
        }
    }
}

/// Reads the next request of a link, from the bytes on that were read before and not yet answered.
///
/// After a refusal or a fault the link is of no further use: bytes of the request may be gone.
pub fn read_request<L: Link>(
    alloc: Global,
    wire: &mut WireIn,
    link: &mut L,
) -> Result<Request, WireErr>
    // The first of the bytes that are not answered yet, or why there is none; those behind it stay.
    ensures answers { GivesRequest (pending wire.old (L.left link.old)) (pending wire.new (L.left link.new)) result }

    // A refusal has one of the five statuses, also where the link doesn't tell what it has left.
    ensures status { IfErr result HasRefusalStatus }

    // Whatever it answers, it took from the front.
    ensures rest { IsEndOf (pending wire.old (L.left link.old)) (pending wire.new (L.left link.new)) }

    // At most the last read failed, and then it answers so.
    ensures counted { CountsFault (L.read_faults link.old) (L.read_faults link.new) (IsErrOf result WireErr.ReadFault) }

    // Nothing is written.
    ensures same_written { L.written link.new ≡ L.written link.old }
    ensures same_write_faults { L.write_faults link.new ≡ L.write_faults link.old }
{
    let (start, end) = find_head(wire, link)?;
    let head = read_head(alloc, &wire.carried()[start..end])?;
    wire.advance(end);
    let body = read_body(alloc, wire, link, head.length)?;
    Ok(Request {
        method: head.method,
        target: head.target,
        last: head.last,
        body,
    })
}
