// The documents of cursors, and what isn't one.
use crate::same::same;
use cursor_doc::{DocErr, Mark, cursor_bytes, read_cursor};
use pkg_meta::Ticks;
use std::test::Fail;

// Marks and their documents: no commit, the first, one whose id has a letter, and the last of both ranges.
const WRITTEN: [(u32, u64, &str); 4] = [
    (
        0,
        0,
        r#"{"commitId":"00000000-0000-0000-0000-000000000000","commitTimeStamp":"0001-01-01T00:00:00.0000000Z"}"#,
    ),
    (
        1,
        638_396_640_000_000_000,
        r#"{"commitId":"00000000-0000-0000-0000-000000000001","commitTimeStamp":"2024-01-01T00:00:00.0000000Z"}"#,
    ),
    (
        10,
        638_396_640_000_000_001,
        r#"{"commitId":"00000000-0000-0000-0000-00000000000a","commitTimeStamp":"2024-01-01T00:00:00.0000001Z"}"#,
    ),
    (
        4_294_967_295,
        3_155_378_975_999_999_999,
        r#"{"commitId":"00000000-0000-0000-0000-0000ffffffff","commitTimeStamp":"9999-12-31T23:59:59.9999999Z"}"#,
    ),
];

fn mark_of(number: u32, tick: u64) -> Result<Mark, Fail> {
    let stamp = Ticks::of(tick).ok_or("no moment")?;
    Ok(Mark { number, stamp })
}

#[test]
fn writes_and_reads_back(rt: HostRuntime) -> Result<(), Fail> {
    let alloc = rt.alloc();
    for (number, tick, text) in &WRITTEN {
        let mark = mark_of(*number, *tick)?;
        let bytes = cursor_bytes(alloc, &mark)?;
        same(&rt, bytes.as_slice(), text.as_bytes(), *number);
        same(&rt, read_cursor(alloc, text.as_bytes()), Ok(mark), *text);
    }
    Ok(())
}

// What isn't a cursor document, though some of it names a mark.
const DAMAGED: [(&str, &str); 12] = [
    ("no byte", ""),
    ("no member", "{}"),
    (
        "a byte more",
        "{\"commitId\":\"00000000-0000-0000-0000-000000000001\",\"commitTimeStamp\":\"2024-01-01T00:00:00.0000000Z\"}\n",
    ),
    (
        "a byte less",
        r#"{"commitId":"00000000-0000-0000-0000-000000000001","commitTimeStamp":"2024-01-01T00:00:00.0000000Z""#,
    ),
    (
        "a space",
        r#"{"commitId":"00000000-0000-0000-0000-000000000001", "commitTimeStamp":"2024-01-01T00:00:00.0000000Z"}"#,
    ),
    (
        "members swapped",
        r#"{"commitTimeStamp":"2024-01-01T00:00:00.0000000Z","commitId":"00000000-0000-0000-0000-000000000001"}"#,
    ),
    (
        "a member more",
        r#"{"commitId":"00000000-0000-0000-0000-000000000001","commitTimeStamp":"2024-01-01T00:00:00.0000000Z","count":1}"#,
    ),
    (
        "an id in capital letters",
        r#"{"commitId":"00000000-0000-0000-0000-00000000000A","commitTimeStamp":"2024-01-01T00:00:00.0000000Z"}"#,
    ),
    (
        "an id without hyphens",
        r#"{"commitId":"00000000000000000000000000000001","commitTimeStamp":"2024-01-01T00:00:00.0000000Z"}"#,
    ),
    (
        "a number of 33 bits",
        r#"{"commitId":"00000000-0000-0000-0000-000100000000","commitTimeStamp":"2024-01-01T00:00:00.0000000Z"}"#,
    ),
    (
        "a stamp without decimals",
        r#"{"commitId":"00000000-0000-0000-0000-000000000001","commitTimeStamp":"2024-01-01T00:00:00Z"}"#,
    ),
    (
        "an escape",
        r#"{"commitId":"00000000-0000-0000-0000-000000000001","commitTimeStamp":"2024-01-01T00:00:00.0000000\u005a"}"#,
    ),
];

#[test]
fn tells_what_is_damaged(rt: HostRuntime) {
    for (why, text) in &DAMAGED {
        let read = read_cursor(rt.alloc(), text.as_bytes());
        same(&rt, read, Err(DocErr::Damaged), *why);
    }
}
