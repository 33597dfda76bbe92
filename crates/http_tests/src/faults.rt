// Reads that fail, bodies that are larger than the buffer, and a link that is read and written.
use crate::same::same;
use feed_base::{Bytes, Link, LinkMem};
use http_wire::{Kind, WireErr, WireIn, read_request, response_bytes};
use std::alloc::Global;
use std::process::Abort;
use std::test::Fail;

// The answer to a request for versions.
const ANSWER: &[u8] =
    b"HTTP/1.1 200 OK\r\nContent-Length: 22\r\nContent-Type: application/json\r\n\r\n{\"versions\":[\"1.0.0\"]}";

// A body of 40,000 bytes and another request.
fn large(alloc: Global) -> Result<Bytes, Fail> {
    let mut bytes = Vec::new(alloc);
    bytes.extend_from_slice(b"PUT /a HTTP/1.1\r\nHost: f.test\r\nContent-Length: 40000\r\n\r\n")?;
    for turn in 0..40_000u64 {
        bytes.push((turn % 251) as u8)?;
    }
    bytes.extend_from_slice(b"GET /b HTTP/1.1\r\nHost: f.test\r\n\r\n")?;
    Ok(Bytes::of(bytes))
}

// Asserts that bytes are numbered from 0, up to 250 and again.
fn is_numbered(rt: &impl Abort, bytes: &[u8]) {
    for (place, byte) in bytes.iter().enumerate() {
        same(rt, *byte as usize, place % 251, place);
    }
}

// Asserts that the next request has this target and so many bytes of body, numbered from 0.
fn next_is(
    rt: &impl Abort,
    alloc: Global,
    wire: &mut WireIn,
    link: &mut LinkMem,
    want: (&str, usize),
) -> Result<(), Fail> {
    match read_request(alloc, wire, link) {
        Ok(request) => {
            same(rt, request.target.as_str(), want.0, "the target");
            same(rt, request.body.as_slice().len(), want.1, want.0);
            is_numbered(rt, request.body.as_slice());
        }
        Err(error) => same(rt, Some(error), None, want.0),
    }
    Ok(())
}

// Asserts that no request follows, and why.
fn none_is(rt: &impl Abort, alloc: Global, wire: &mut WireIn, link: &mut LinkMem, want: WireErr) {
    same(rt, read_request(alloc, wire, link).err(), Some(want), want);
}

#[test]
fn takes_a_body_larger_than_the_buffer(rt: HostRuntime) -> Result<(), Fail> {
    let alloc = rt.alloc();
    let mut wire = WireIn::new(alloc);
    let mut link = LinkMem::of(alloc, large(alloc)?, 0, &[], &[])?;
    next_is(&rt, alloc, &mut wire, &mut link, ("/a", 40_000))?;
    next_is(&rt, alloc, &mut wire, &mut link, ("/b", 0))?;
    none_is(&rt, alloc, &mut wire, &mut link, WireErr::Closed);
    Ok(())
}

#[test]
fn tells_a_read_that_fails(rt: HostRuntime) -> Result<(), Fail> {
    let alloc = rt.alloc();
    let mut wire = WireIn::new(alloc);
    let mut link = LinkMem::of(alloc, large(alloc)?, 0, &[1], &[])?;
    none_is(&rt, alloc, &mut wire, &mut link, WireErr::ReadFault);
    next_is(&rt, alloc, &mut wire, &mut link, ("/a", 40_000))?;
    let mut wire = WireIn::new(alloc);
    let mut link = LinkMem::of(alloc, large(alloc)?, 0, &[2], &[])?;
    none_is(&rt, alloc, &mut wire, &mut link, WireErr::ReadFault);
    Ok(())
}

#[test]
fn answers_a_request(rt: HostRuntime) -> Result<(), Fail> {
    let alloc = rt.alloc();
    let bytes = b"GET /v3/flat/foo/index.json HTTP/1.1\r\nHost: f.test\r\n\r\n";
    let mut wire = WireIn::new(alloc);
    let mut link = LinkMem::of(alloc, Bytes::copy_of(alloc, bytes)?, 200, &[], &[2])?;
    next_is(
        &rt,
        alloc,
        &mut wire,
        &mut link,
        ("/v3/flat/foo/index.json", 0),
    )?;
    let body = b"{\"versions\":[\"1.0.0\"]}";
    let answer = response_bytes(alloc, 200, Kind::Json, None, false, body)?;
    same(&rt, link.write(answer.as_slice()).is_ok(), true, "a write");
    same(
        &rt,
        link.write(answer.as_slice()).is_ok(),
        false,
        "a write that fails",
    );
    same(&rt, link.bytes(), ANSWER, "all that is written");
    none_is(&rt, alloc, &mut wire, &mut link, WireErr::Closed);
    Ok(())
}
