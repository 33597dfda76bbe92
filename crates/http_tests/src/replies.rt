// The bytes of responses.
use feed_base::Bytes;
use http_wire::{Kind, Verb, WireOut, response_bytes};
use std::process::Abort;
use std::str;
use std::test::Fail;

fn is(rt: &impl Abort, bytes: &Bytes, want: &str) {
    assert_eq!(rt; str::from_utf8(bytes.as_slice()).unwrap_or("?"), want);
}

#[test]
fn writes_bodies_with_their_types(rt: HostRuntime) -> Result<(), Fail> {
    let alloc = rt.alloc();
    is(
        &rt,
        &response_bytes(alloc, 507, Kind::Plain, None, false, b"memory\n")?,
        "HTTP/1.1 507 Insufficient Storage\r\nContent-Length: 7\r\nContent-Type: text/plain\r\n\r\nmemory\n",
    );
    is(
        &rt,
        &response_bytes(alloc, 200, Kind::Xml, None, true, b"<package/>")?,
        "HTTP/1.1 200 OK\r\nConnection: close\r\nContent-Length: 10\r\nContent-Type: application/xml\r\n\r\n<package/>",
    );
    is(
        &rt,
        &response_bytes(alloc, 200, Kind::Octets, None, false, b"\r\n")?,
        "HTTP/1.1 200 OK\r\nContent-Length: 2\r\nContent-Type: application/octet-stream\r\n\r\n\r\n",
    );
    Ok(())
}

#[test]
fn writes_refusals(rt: HostRuntime) -> Result<(), Fail> {
    let alloc = rt.alloc();
    is(
        &rt,
        &response_bytes(alloc, 405, Kind::Json, Some(Verb::Get), true, b"")?,
        "HTTP/1.1 405 Method Not Allowed\r\nConnection: close\r\nAllow: GET\r\nContent-Length: 0\r\n\r\n",
    );
    is(
        &rt,
        &response_bytes(alloc, 405, Kind::Json, Some(Verb::Post), false, b"")?,
        "HTTP/1.1 405 Method Not Allowed\r\nAllow: POST\r\nContent-Length: 0\r\n\r\n",
    );
    is(
        &rt,
        &response_bytes(alloc, 404, Kind::Plain, None, false, b"")?,
        "HTTP/1.1 404 Not Found\r\nContent-Length: 0\r\n\r\n",
    );
    Ok(())
}

#[test]
fn writes_the_ends_of_links(rt: HostRuntime) -> Result<(), Fail> {
    let alloc = rt.alloc();
    is(
        &rt,
        &response_bytes(alloc, 400, Kind::Plain, None, true, b"")?,
        "HTTP/1.1 400 Bad Request\r\nConnection: close\r\nContent-Length: 0\r\n\r\n",
    );
    is(
        &rt,
        &response_bytes(alloc, 413, Kind::Plain, None, true, b"")?,
        "HTTP/1.1 413 Payload Too Large\r\nConnection: close\r\nContent-Length: 0\r\n\r\n",
    );
    is(
        &rt,
        &response_bytes(alloc, 431, Kind::Plain, None, true, b"")?,
        "HTTP/1.1 431 Request Header Fields Too Large\r\nConnection: close\r\nContent-Length: 0\r\n\r\n",
    );
    Ok(())
}

#[test]
fn writes_responses_in_one_buffer(rt: HostRuntime) -> Result<(), Fail> {
    let alloc = rt.alloc();
    let mut out = WireOut::new(alloc);
    assert!(rt; out.as_slice().is_empty());
    let long = vec![in alloc; 7u8; 100_000]?;
    out.make(200, Kind::Octets, None, false, &long)?;
    assert_eq!(rt; out.as_slice().len(), 100_083);
    out.clear();
    assert!(rt; out.as_slice().is_empty());
    out.make(507, Kind::Plain, None, false, b"memory\n")?;
    out.make(404, Kind::Plain, None, true, b"")?;
    let want: &[u8] = b"HTTP/1.1 404 Not Found\r\nConnection: close\r\nContent-Length: 0\r\n\r\n";
    assert_eq!(rt; out.as_slice(), want);
    Ok(())
}
