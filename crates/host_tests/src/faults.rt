// Reads and writes that fail, and what was written before.
use crate::links::serves;
use feed_host::End;
use std::test::Fail;

const TWO: &[u8] =
    b"GET /none HTTP/1.1\r\nHost: f.test\r\n\r\nGET /v3/flat/foo/index.json HTTP/1.1\r\nHost: f.test\r\n\r\n";

const FIRST: &str = "HTTP/1.1 404 Not Found\r\nContent-Length: 0\r\n\r\n";

const BOTH: &str =
    "HTTP/1.1 404 Not Found\r\nContent-Length: 0\r\n\r\nHTTP/1.1 200 OK\r\nContent-Length: 22\r\nContent-Type: application/json\r\n\r\n{\"versions\":[\"1.0.0\"]}";

#[test]
fn ends_at_a_read_that_fails(rt: HostRuntime) -> Result<(), Fail> {
    let alloc = rt.alloc();
    serves(&rt, alloc, TWO, (&[1], &[]), ("", End::ReadFault))?;
    serves(&rt, alloc, TWO, (&[2], &[]), (BOTH, End::ReadFault))
}

#[test]
fn ends_at_a_write_that_fails(rt: HostRuntime) -> Result<(), Fail> {
    let alloc = rt.alloc();
    serves(&rt, alloc, TWO, (&[], &[1]), ("", End::WriteFault))?;
    serves(&rt, alloc, TWO, (&[], &[2]), (FIRST, End::WriteFault))?;
    serves(
        &rt,
        alloc,
        b"GET\r\n\r\n",
        (&[], &[1]),
        ("", End::WriteFault),
    )
}
