// Heads and bodies at their limits, and inputs that end early.
use crate::cut_link::{CutLink, Cuts};
use crate::told::told;
use std::alloc::Global;
use std::process::Abort;
use std::test::Fail;

const GET: &[u8] = b"GET /v3/index.json HTTP/1.1\r\nHost: f.test\r\n\r\n";

const POST: &[u8] = b"POST /a HTTP/1.1\r\nHost: f.test\r\nContent-Length: 5\r\n\r\nabcde";

// Asserts what a link tells, read in one piece and in small ones.
fn tells(rt: &impl Abort, alloc: Global, bytes: &[u8], want: &str) -> Result<(), Fail> {
    for cuts in [Cuts::none(), Cuts::pieces(1), Cuts::pieces(999)] {
        let mut link = CutLink::of(bytes, cuts);
        let answers = told(alloc, &mut link)?;
        assert_eq!(rt; answers.as_str(), want);
    }
    Ok(())
}

// A head of so many bytes, if they are enough for one, behind some empty lines.
fn head_of(alloc: Global, lines: usize, size: usize) -> Result<Vec<u8>, Fail> {
    let mut head = Vec::new(alloc);
    head.resize(lines, b'\n')?;
    head.extend_from_slice(b"GET / HTTP/1.1\r\nHost: f.test\r\nFill: ")?;
    head.resize(size.saturating_sub(4), b'a')?;
    head.extend_from_slice(b"\r\n\r\n")?;
    Ok(head)
}

#[test]
fn takes_a_head_up_to_the_limit(rt: HostRuntime) -> Result<(), Fail> {
    let alloc = rt.alloc();
    tells(
        &rt,
        alloc,
        &head_of(alloc, 0, 16_384)?,
        "GET / open 0:; closed",
    )?;
    tells(&rt, alloc, &head_of(alloc, 0, 16_385)?, "431")?;
    tells(
        &rt,
        alloc,
        &head_of(alloc, 9_000, 16_384)?,
        "GET / open 0:; closed",
    )?;
    tells(&rt, alloc, &head_of(alloc, 9_000, 16_385)?, "431")
}

#[test]
fn takes_empty_lines_up_to_the_limit(rt: HostRuntime) -> Result<(), Fail> {
    let alloc = rt.alloc();
    let mut lines = Vec::new(alloc);
    lines.resize(16_383, b'\n')?;
    tells(&rt, alloc, &lines, "closed")?;
    lines.push(b'\n')?;
    tells(&rt, alloc, &lines, "431")
}

// Asserts what the input is that ends before this byte.
fn ends_early(rt: &impl Abort, alloc: Global, bytes: &[u8], end: usize) -> Result<(), Fail> {
    let (front, _) = bytes.split_at(end.min(bytes.len()));
    let want = if front.is_empty() { "closed" } else { "400" };
    tells(rt, alloc, front, want)
}

#[test]
fn refuses_what_ends_early(rt: HostRuntime) -> Result<(), Fail> {
    for end in 0..GET.len() {
        ends_early(&rt, rt.alloc(), GET, end)?;
    }
    for end in 0..POST.len() {
        ends_early(&rt, rt.alloc(), POST, end)?;
    }
    Ok(())
}
