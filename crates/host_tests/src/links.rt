// Inputs of a link, with all that is written and how the link ends.
use crate::kept::Kept;
use feed_base::{Bytes, Link, LinkMem};
use feed_host::{End, serve_asks};
use std::alloc::Global;
use std::process::Abort;
use std::str;
use std::sync::Wait;
use std::test::Fail;

/// The most bytes that a link takes here.
const ROOM: u64 = 4096;

/// A service that has the versions of `foo`.
pub fn service(alloc: Global) -> Result<Kept, Fail> {
    let mut service = Kept::new(alloc);
    service.keep("/v3/flat/foo/index.json", b"{\"versions\":[\"1.0.0\"]}")?;
    Ok(service)
}

/// Asserts what a link answers, and how it ends, where the reads and writes of these numbers fail.
pub fn serves(
    rt: &(impl Abort + Wait),
    alloc: Global,
    input: &[u8],
    fails: (&[u64], &[u64]),
    want: (&str, End),
) -> Result<(), Fail> {
    let mut service = service(alloc)?;
    let mut link = LinkMem::of(alloc, Bytes::copy_of(alloc, input)?, ROOM, fails.0, fails.1)?;
    let end = serve_asks(rt, alloc, &mut service, &mut link);
    assert_eq!(rt; str::from_utf8(link.bytes()).unwrap_or("?"), want.0);
    assert_eq!(rt; end, want.1);
    Ok(())
}

/// An input, what is written to it, and its end.
struct Row {
    input: &'static [u8],
    output: &'static str,
    end: End,
}

fn all_are(rt: &(impl Abort + Wait), alloc: Global, rows: &[Row]) -> Result<(), Fail> {
    for row in rows {
        serves(rt, alloc, row.input, (&[], &[]), (row.output, row.end))?;
    }
    Ok(())
}

const ANSWERED: [Row; 6] = [
    Row {
        input: b"",
        output: "",
        end: End::ByClient,
    },
    // the versions of an id
    Row {
        input: b"GET /v3/flat/foo/index.json HTTP/1.1\r\nHost: f.test\r\n\r\n",
        output: "HTTP/1.1 200 OK\r\nContent-Length: 22\r\nContent-Type: application/json\r\n\r\n{\"versions\":[\"1.0.0\"]}",
        end: End::ByClient,
    },
    // a path that the service knows nothing of
    Row {
        input: b"GET /v3/flat/bar/index.json HTTP/1.1\r\nHost: f.test\r\n\r\n",
        output: "HTTP/1.1 404 Not Found\r\nContent-Length: 0\r\n\r\n",
        end: End::ByClient,
    },
    // a method that the path hasn't
    Row {
        input: b"POST /v3/index.json HTTP/1.1\r\nHost: f.test\r\nConnection: close\r\n\r\n",
        output: "HTTP/1.1 405 Method Not Allowed\r\nConnection: close\r\nAllow: GET\r\nContent-Length: 0\r\n\r\n",
        end: End::ByClient,
    },
    Row {
        input: b"GET /admin/stop HTTP/1.1\r\nHost: f.test\r\n\r\n",
        output: "HTTP/1.1 405 Method Not Allowed\r\nAllow: POST\r\nContent-Length: 0\r\n\r\n",
        end: End::ByClient,
    },
    // a path without a route: an id is no key
    Row {
        input: b"GET /v3/flat/Foo/index.json HTTP/1.1\r\nHost: f.test\r\nConnection: close\r\n\r\n",
        output: "HTTP/1.1 404 Not Found\r\nConnection: close\r\nContent-Length: 0\r\n\r\n",
        end: End::ByClient,
    },
];

const IN_ORDER: [Row; 5] = [
    // each is answered from the state that the one before left
    Row {
        input: b"GET /v3/index.json HTTP/1.1\r\nHost: f.test\r\n\r\nPOST /admin/publish HTTP/1.1\r\nHost: f.test\r\nContent-Length: 3\r\n\r\nabcGET /v3/index.json HTTP/1.1\r\nHost: f.test\r\n\r\n",
        output: "HTTP/1.1 404 Not Found\r\nContent-Length: 0\r\n\r\nHTTP/1.1 201 Created\r\nContent-Length: 5\r\nContent-Type: text/plain\r\n\r\nkept\nHTTP/1.1 200 OK\r\nContent-Length: 3\r\nContent-Type: application/json\r\n\r\nabc",
        end: End::ByClient,
    },
    // the link goes on behind a refusal of the routes, and behind want of memory
    Row {
        input: b"GET /none HTTP/1.1\r\nHost: f.test\r\n\r\nPOST /admin/delete HTTP/1.1\r\nHost: f.test\r\n\r\nGET /v3/flat/foo/index.json HTTP/1.1\r\nHost: f.test\r\n\r\n",
        output: "HTTP/1.1 404 Not Found\r\nContent-Length: 0\r\n\r\nHTTP/1.1 507 Insufficient Storage\r\nContent-Length: 7\r\nContent-Type: text/plain\r\n\r\nmemory\nHTTP/1.1 200 OK\r\nContent-Length: 22\r\nContent-Type: application/json\r\n\r\n{\"versions\":[\"1.0.0\"]}",
        end: End::ByClient,
    },
    // nothing is answered behind the last request
    Row {
        input: b"GET /v3/flat/foo/index.json HTTP/1.0\r\n\r\nGET /v3/index.json HTTP/1.1\r\nHost: f.test\r\n\r\n",
        output: "HTTP/1.1 200 OK\r\nConnection: close\r\nContent-Length: 22\r\nContent-Type: application/json\r\n\r\n{\"versions\":[\"1.0.0\"]}",
        end: End::ByClient,
    },
    // nor behind a stop
    Row {
        input: b"POST /admin/stop HTTP/1.1\r\nHost: f.test\r\n\r\nGET /v3/index.json HTTP/1.1\r\nHost: f.test\r\n\r\n",
        output: "HTTP/1.1 200 OK\r\nConnection: close\r\nContent-Length: 9\r\nContent-Type: text/plain\r\n\r\nstopping\n",
        end: End::Stopped,
    },
    Row {
        input: b"POST /admin/stop HTTP/1.1\r\nHost: f.test\r\nConnection: close\r\n\r\n",
        output: "HTTP/1.1 200 OK\r\nConnection: close\r\nContent-Length: 9\r\nContent-Type: text/plain\r\n\r\nstopping\n",
        end: End::Stopped,
    },
];

const REFUSED: [Row; 5] = [
    // no field Host
    Row {
        input: b"GET /v3/index.json HTTP/1.1\r\n\r\nGET /v3/index.json HTTP/1.1\r\nHost: f.test\r\n\r\n",
        output: "HTTP/1.1 400 Bad Request\r\nConnection: close\r\nContent-Length: 0\r\n\r\n",
        end: End::AfterError(400),
    },
    // a body that is shorter than its length
    Row {
        input: b"POST /admin/publish HTTP/1.1\r\nHost: f.test\r\nContent-Length: 4\r\n\r\nabc",
        output: "HTTP/1.1 400 Bad Request\r\nConnection: close\r\nContent-Length: 0\r\n\r\n",
        end: End::AfterError(400),
    },
    Row {
        input: b"POST /admin/publish HTTP/1.1\r\nHost: f.test\r\nContent-Length: 67108865\r\n\r\n",
        output: "HTTP/1.1 413 Payload Too Large\r\nConnection: close\r\nContent-Length: 0\r\n\r\n",
        end: End::AfterError(413),
    },
    Row {
        input: b"POST /admin/publish HTTP/1.1\r\nHost: f.test\r\nContent-Encoding: gzip\r\n\r\n",
        output: "HTTP/1.1 415 Unsupported Media Type\r\nConnection: close\r\nContent-Length: 0\r\n\r\n",
        end: End::AfterError(415),
    },
    // behind an answer
    Row {
        input: b"GET /v3/index.json HTTP/1.1\r\nHost: f.test\r\n\r\nPOST /admin/publish HTTP/1.1\r\nHost: f.test\r\nTransfer-Encoding: chunked\r\n\r\n",
        output: "HTTP/1.1 404 Not Found\r\nContent-Length: 0\r\n\r\nHTTP/1.1 501 Not Implemented\r\nConnection: close\r\nContent-Length: 0\r\n\r\n",
        end: End::AfterError(501),
    },
];

#[test]
fn answers_requests(rt: HostRuntime) -> Result<(), Fail> {
    all_are(&rt, rt.alloc(), &ANSWERED)
}

#[test]
fn answers_in_order(rt: HostRuntime) -> Result<(), Fail> {
    all_are(&rt, rt.alloc(), &IN_ORDER)
}

#[test]
fn ends_behind_a_refusal(rt: HostRuntime) -> Result<(), Fail> {
    all_are(&rt, rt.alloc(), &REFUSED)
}
