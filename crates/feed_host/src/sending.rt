// What is written to a link.
ghost use Rattle.std.specs.Prelude.{◌≡◌, ◌++◌, IfOk, Some};
ghost use Rattle.feed_base.specs.Counts.{CountsFault};
ghost use Rattle.http_wire.specs.Response.{wire_bytes};
ghost use Rattle.feed_host.specs.Replies.{IsSendable};
ghost use Rattle.feed_host.specs.Steps.{Sending};

use crate::End;
use crate::reply::Reply;
use feed_base::Link;
use http_wire::WireOut;

// Writes a reply in one piece, or tells how the link ended.
pub fn send<L: Link>(out: &mut WireOut, link: &mut L, reply: &Reply, last: bool) -> Option<End>
    requires { IsSendable reply.now }
    ensures out { let r = reply.now in Sending (wire_bytes r.status r.kind r.allow last r.body) (L.written link.old) result (L.written link.new) }
    ensures counted { CountsFault (L.write_faults link.old) (L.write_faults link.new) (result ≡ Some End.WriteFault) }
    ensures same_left { L.left link.new ≡ L.left link.old }
    ensures same_read_faults { L.read_faults link.new ≡ L.read_faults link.old }
{
    let body = reply.body.as_slice();
    let Ok(()) = out.make(reply.status, reply.kind, reply.allow, last, body) else {
        return Some(End::Memory);
    };
    let written = link.write(out.as_slice());
    out.clear();
    match written {
        Ok(()) => None,
        Err(_) => Some(End::WriteFault),
    }
}
