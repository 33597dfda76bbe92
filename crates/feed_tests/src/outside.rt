// Sources, sinks and clocks in memory.
use crate::same::same;
use feed_base::{Bytes, Clock, ClockList, Failed, Sink, SinkMem, SourceMem, TakeErr, read_all};
use std::alloc::Global;
use std::process::Abort;
use std::test::Fail;

// Asserts what `read_all` answers of a source: these bytes, or this error.
fn takes(
    rt: &impl Abort,
    alloc: Global,
    source: &mut SourceMem,
    limit: u64,
    want: Result<&[u8], TakeErr>,
) {
    match (read_all(alloc, source, limit), want) {
        (Ok(taken), Ok(want)) => assert_eq!(rt; taken.as_slice(), want, "limit {limit}"),
        (Err(error), Err(want)) => assert_eq!(rt; error, want, "limit {limit}"),
        _ => assert!(rt;
            false,
            "an error in place of bytes, or bytes in place of an error: limit {limit}"
        ),
    }
}

// The bytes of a source, which of its reads fail, how many bytes are taken at the most, and what is answered.
const TAKEN: [(&[u8], &[u64], u64, Result<&[u8], TakeErr>); 11] = [
    (b"", &[], 0, Ok(b"")),
    (b"", &[], 3, Ok(b"")),
    (b"a", &[], 0, Err(TakeErr::TooLong)),
    (b"abc", &[], 3, Ok(b"abc")),
    (b"abcd", &[], 3, Err(TakeErr::TooLong)),
    (b"abc", &[], u64::MAX, Ok(b"abc")),
    (b"abc", &[1], 3, Err(TakeErr::ReadFault)),
    (b"abc", &[2], 3, Err(TakeErr::ReadFault)),
    (b"abc", &[3], 3, Ok(b"abc")),
    (b"abcd", &[2], 3, Err(TakeErr::TooLong)),
    (b"abcd", &[0, 9], 4, Ok(b"abcd")),
];

#[test]
fn takes_all_up_to_the_limit(rt: HostRuntime) -> Result<(), Fail> {
    let alloc = rt.alloc();
    for (bytes, fails, limit, want) in &TAKEN {
        let mut source = SourceMem::of(alloc, Bytes::copy_of(alloc, *bytes)?, *fails)?;
        takes(&rt, alloc, &mut source, *limit, *want);
    }
    Ok(())
}

// Which reads of 10,000 bytes fail, how many are taken at the most, and what refuses them, or none.
const LONG: [(&[u64], u64, Option<TakeErr>); 5] = [
    (&[], 10_000, None),
    (&[], 9_999, Some(TakeErr::TooLong)),
    (&[3], 10_000, Some(TakeErr::ReadFault)),
    (&[4], 10_000, Some(TakeErr::ReadFault)),
    (&[5], 10_000, None),
];

fn long(alloc: Global) -> Result<Bytes, Fail> {
    let mut long = Vec::new(alloc);
    for turn in 0..10_000u64 {
        long.push((turn % 251) as u8)?;
    }
    Ok(Bytes::of(long))
}

// What is answered where all is taken, or this refuses it.
fn wanted(all: &[u8], refusal: Option<TakeErr>) -> Result<&[u8], TakeErr> {
    match refusal {
        Some(error) => Err(error),
        None => Ok(all),
    }
}

#[test]
fn takes_more_than_one_piece(rt: HostRuntime) -> Result<(), Fail> {
    let alloc = rt.alloc();
    let all = long(alloc)?;
    for (fails, limit, refusal) in &LONG {
        let mut source = SourceMem::of(alloc, long(alloc)?, *fails)?;
        let want = wanted(all.as_slice(), *refusal);
        takes(&rt, alloc, &mut source, *limit, want);
    }
    Ok(())
}

#[test]
fn leaves_what_it_did_not_take(rt: HostRuntime) -> Result<(), Fail> {
    let alloc = rt.alloc();
    let mut source = SourceMem::of(alloc, Bytes::copy_of(alloc, b"abcdefg")?, &[2])?;
    takes(&rt, alloc, &mut source, 3, Err(TakeErr::TooLong));
    takes(&rt, alloc, &mut source, 3, Err(TakeErr::ReadFault));
    takes(&rt, alloc, &mut source, 3, Ok(b"efg"));
    takes(&rt, alloc, &mut source, 3, Ok(b""));
    Ok(())
}

// Pieces, and whether each is written.
const PIECES: [(&[u8], bool); 7] = [
    (b"abc", true),
    (b"d", false),
    (b"def", false),
    (b"de", true),
    (b"", true),
    (b"f", false),
    (b"", true),
];

#[test]
fn writes_whole_pieces_or_fails(rt: HostRuntime) -> Result<(), Fail> {
    let mut sink = SinkMem::new(rt.alloc(), 5, &[2])?;
    for (piece, goes) in &PIECES {
        assert_eq!(rt; sink.write(*piece).is_ok(), *goes, "at {piece:?}");
    }
    same(
        &rt,
        sink.bytes(),
        b"abcde".as_slice(),
        "all that is written",
    );
    Ok(())
}

#[test]
fn stays_at_the_last_moment(rt: HostRuntime) -> Result<(), Fail> {
    let mut clock = ClockList::of(rt.alloc(), &[5, 3_155_378_975_999_999_999, 7])?;
    for want in &[5, 3_155_378_975_999_999_999, 7, 7, 7] {
        same(&rt, clock.now(), *want, *want);
    }
    Ok(())
}

const REFUSALS: [(TakeErr, &str); 3] = [
    (TakeErr::ReadFault, "a read failed"),
    (TakeErr::TooLong, "there are more bytes than allowed"),
    (TakeErr::Memory, "out of memory"),
];

#[test]
fn says_why_bytes_were_not_taken(rt: HostRuntime) -> Result<(), Fail> {
    let alloc = rt.alloc();
    let failed = format!(in alloc; "{}", Failed)?;
    same(&rt, failed.as_str(), "the operation failed", "a fault");
    for (error, want) in &REFUSALS {
        let said = format!(in alloc; "{error}")?;
        same(&rt, said.as_str(), *want, *want);
    }
    Ok(())
}
