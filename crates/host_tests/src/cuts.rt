// Requests that are cut off, and requests that come in two and three reads.
use crate::cut_link::CutLink;
use crate::links::{serves, service};
use feed_host::{End, serve_asks};
use std::alloc::Global;
use std::process::Abort;
use std::str;
use std::sync::Wait;
use std::test::Fail;

const GET: &[u8] = b"GET /v3/flat/foo/index.json HTTP/1.1\r\nHost: f.test\r\n\r\n";

// Two requests in one piece.
const TWO: &[u8] = b"GET / HTTP/1.1\r\nHost:\r\n\r\nGET /admin/stop HTTP/1.1\r\nHost:\r\n\r\n";

const FOUND: &str =
    "HTTP/1.1 200 OK\r\nContent-Length: 22\r\nContent-Type: application/json\r\n\r\n{\"versions\":[\"1.0.0\"]}";

const BOTH: &str =
    "HTTP/1.1 404 Not Found\r\nContent-Length: 0\r\n\r\nHTTP/1.1 405 Method Not Allowed\r\nAllow: POST\r\nContent-Length: 0\r\n\r\n";

const REFUSED: &str = "HTTP/1.1 400 Bad Request\r\nConnection: close\r\nContent-Length: 0\r\n\r\n";

const TOO_LARGE: &str =
    "HTTP/1.1 431 Request Header Fields Too Large\r\nConnection: close\r\nContent-Length: 0\r\n\r\n";

// Asserts what is answered to a request of which only the first bytes came.
fn ends_early(rt: &(impl Abort + Wait), alloc: Global, end: usize) -> Result<(), Fail> {
    let (front, _) = GET.split_at(end.min(GET.len()));
    let want = if front.is_empty() {
        ("", End::ByClient)
    } else {
        (REFUSED, End::AfterError(400))
    };
    serves(rt, alloc, front, (&[], &[]), want)
}

#[test]
fn refuses_a_request_that_is_cut_off(rt: HostRuntime) -> Result<(), Fail> {
    for end in 0..GET.len() {
        ends_early(&rt, rt.alloc(), end)?;
    }
    Ok(())
}

// Asserts what is written to a link whose bytes are cut at two places.
fn answers_in_pieces(
    rt: &(impl Abort + Wait),
    alloc: Global,
    bytes: &[u8],
    cuts: (usize, usize),
    want: &str,
) -> Result<(), Fail> {
    let mut service = service(alloc)?;
    let mut link = CutLink::of(alloc, bytes, cuts.0, cuts.1)?;
    let end = serve_asks(rt, alloc, &mut service, &mut link);
    assert_eq!(rt; str::from_utf8(link.written()).unwrap_or("?"), want);
    assert_eq!(rt; end, End::ByClient);
    Ok(())
}

// The same for each second place.
fn cut_behind(
    rt: &(impl Abort + Wait),
    alloc: Global,
    bytes: &[u8],
    first: usize,
    want: &str,
) -> Result<(), Fail> {
    for second in first..bytes.len() {
        answers_in_pieces(rt, alloc, bytes, (first, second), want)?;
    }
    Ok(())
}

#[test]
fn answers_a_request_in_two_and_three_reads(rt: HostRuntime) -> Result<(), Fail> {
    for first in 0..GET.len() {
        cut_behind(&rt, rt.alloc(), GET, first, FOUND)?;
    }
    Ok(())
}

#[test]
fn answers_two_requests_in_two_and_three_reads(rt: HostRuntime) -> Result<(), Fail> {
    for first in 0..TWO.len() {
        cut_behind(&rt, rt.alloc(), TWO, first, BOTH)?;
    }
    Ok(())
}

#[test]
fn refuses_a_head_above_the_limit(rt: HostRuntime) -> Result<(), Fail> {
    let mut head = Vec::new(rt.alloc());
    head.extend_from_slice(b"GET / HTTP/1.1\r\nHost: f.test\r\nFill: ")?;
    head.resize(16_381, b'a')?;
    head.extend_from_slice(b"\r\n\r\n")?;
    let want = (TOO_LARGE, End::AfterError(431));
    serves(&rt, rt.alloc(), &head, (&[], &[]), want)
}
