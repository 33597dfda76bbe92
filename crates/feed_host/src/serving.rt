// The requests of a link, one after the other.
ghost use Rattle.std.specs.Prelude.{◌≡◌, ◌⊎◌, Some, IfOk, IfErr, IfSome, IsErr, OnErr};
ghost use Rattle.feed_base.specs.Counts.{CountsFault};
ghost use Rattle.http_wire.specs.Reading.{GivesRequest, pending};
ghost use Rattle.http_wire.specs.Statuses.{HasRefusalStatus};
ghost use Rattle.feed_routes.specs.Services.{IsStatus};
ghost use Rattle.feed_host.specs.Replies.{IsReply, IsSendable};
ghost use Rattle.feed_host.specs.Serving.{HasStatus, Serves, progress};
ghost use Rattle.feed_host.specs.Steps.{Answering, Closing, Next, end_behind};
ghost use Rattle.feed_host.specs.declared.reply.Reply.{Reply};

use crate::End;
use crate::reply::Reply;
use crate::sending::send;
use feed_base::Link;
use feed_routes::{RouteErr, Service, route};
use http_wire::{Request, WireErr, WireIn, WireOut, read_request};
use nuget_version::NoMemory;
use std::alloc::Global;
use std::sync::Wait;

// What is answered to the request: by the service where it has a route, and else by the table.
fn reply_to<S: Service>(
    alloc: Global,
    service: &mut S,
    request: &Request,
) -> Result<Reply, NoMemory>
    requires { S.fit service.old }
    ensures fit { S.fit service.new }
    ensures is { IfOk result (λ reply. IsReply S.acts (S.state service.old) request.now reply (S.state service.new)) }
    ensures sendable { IfOk result IsSendable }
    ensures memory { IsErr result → (S.state service.new ≡ S.state service.old)
        ⊎ ((reply : Reply) × IsReply S.acts (S.state service.old) request.now reply (S.state service.new)) }
{
    match route(alloc, request.method.as_str(), request.target.as_str()) {
        Ok(ask) => Reply::of_answer(alloc, service.answer(request, &ask)),
        Err(RouteErr::NotFound) => Ok(Reply::bare(alloc, 404, None)),
        Err(RouteErr::Method(verb)) => Ok(Reply::bare(alloc, 405, Some(verb))),
        Err(RouteErr::Memory) => Err(NoMemory),
    }
}

// How the link ends behind an answer, if it does.
fn end_behind(last: bool, stop: bool) -> Option<End>
    ensures { result ≡ end_behind last stop }
{
    if stop {
        Some(End::Stopped)
    } else if last {
        Some(End::ByClient)
    } else {
        None
    }
}

// Answers the request, or tells how the link ended.
fn answer<S: Service, L: Link>(
    alloc: Global,
    service: &mut S,
    out: &mut WireOut,
    link: &mut L,
    request: &Request,
) -> Option<End>
    requires { S.fit service.old }
    ensures fit { S.fit service.new }
    ensures answers { Answering S.acts request.now (progress (S.state service.old) (L.written link.old)) result
        (progress (S.state service.new) (L.written link.new)) }
    ensures counted { CountsFault (L.write_faults link.old) (L.write_faults link.new) (result ≡ Some End.WriteFault) }
    ensures same_left { L.left link.new ≡ L.left link.old }
    ensures same_read_faults { L.read_faults link.new ≡ L.read_faults link.old }
{
    let Ok(reply) = reply_to(alloc, service, request) else {
        return Some(End::Memory);
    };
    let last = reply.is_last(request);
    match send(out, link, &reply, last) {
        None => end_behind(request.last, reply.stop),
        Some(end) => Some(end),
    }
}

// Ends the link, since there is no request.
fn end_without<L: Link>(alloc: Global, out: &mut WireOut, link: &mut L, why: WireErr) -> End
    requires { HasRefusalStatus why }
    ensures closes { Closing why (L.written link.old) result (L.written link.new) }
    ensures status { HasStatus result }
    ensures counted { CountsFault (L.write_faults link.old) (L.write_faults link.new) (result ≡ End.WriteFault) }
    ensures same_left { L.left link.new ≡ L.left link.old }
    ensures same_read_faults { L.read_faults link.new ≡ L.read_faults link.old }
{
    match why {
        WireErr::Closed => End::ByClient,
        WireErr::ReadFault => End::ReadFault,
        WireErr::Memory => End::Memory,
        WireErr::Bad(status) => {
            match send(out, link, &Reply::bare(alloc, status, None), true) {
                None => End::AfterError(status),
                Some(end) => end,
            }
        }
    }
}

// Answers the next request, or tells how the link ended.
fn serve_next<S: Service, L: Link>(
    alloc: Global,
    service: &mut S,
    wire: &mut WireIn,
    out: &mut WireOut,
    link: &mut L,
) -> Option<End>
    requires { S.fit service.old }
    ensures fit { S.fit service.new }
    ensures next { Next S.acts (pending wire.old (L.left link.old)) (progress (S.state service.old) (L.written link.old)) result
        (pending wire.new (L.left link.new)) (progress (S.state service.new) (L.written link.new)) }
    ensures status { IfSome result HasStatus }
    ensures read_faults { CountsFault (L.read_faults link.old) (L.read_faults link.new) (result ≡ Some End.ReadFault) }
    ensures write_faults { CountsFault (L.write_faults link.old) (L.write_faults link.new) (result ≡ Some End.WriteFault) }
{
    match read_request(alloc, wire, link) {
        Ok(request) => answer(alloc, service, out, link, &request),
        Err(why) => Some(end_without(alloc, out, link, why)),
    }
}

/// Answers the requests of a link by the service, and those that have no route by the table, until the link ends.
///
/// The service's want of memory is answered, and the link goes on.
pub fn serve_asks<R: Wait, S: Service, L: Link>(
    rt: &R,
    alloc: Global,
    service: &mut S,
    link: &mut L,
) -> End
    requires { S.fit service.old }
    ensures fit { S.fit service.new }
    // Some requests of the input are answered, in order, and then the link ends so.
    ensures serves { Serves S.acts (L.left link.old) (progress (S.state service.old) (L.written link.old)) result
        (progress (S.state service.new) (L.written link.new)) }

    // A refusal has one of the five statuses, also where the link tells nothing.
    ensures status { HasStatus result }

    // At most the last read and the last write failed, and then it answers so.
    ensures read_faults { CountsFault (L.read_faults link.old) (L.read_faults link.new) (result ≡ End.ReadFault) }
    ensures write_faults { CountsFault (L.write_faults link.old) (L.write_faults link.new) (result ≡ End.WriteFault) }
{
    let mut wire = WireIn::new(alloc);
    let mut out = WireOut::new(alloc);
    for _ in rt.forever() {
        if let Some(end) = serve_next(alloc, service, &mut wire, &mut out, link) {
            return end;
        }
    }
    unreachable!()
}
