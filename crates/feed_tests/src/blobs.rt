// Stores in memory.
use crate::same::same;
use blob_store::{
    BlobErr, Blobs, Bytes, Call, Fail as Fault, MemBlobs, NoMemory, Text, call_all, get_one,
};
use std::alloc::Global;
use std::process::Abort;
use std::test::Fail;

// Asserts what stands under a name.
fn holds(
    rt: &impl Abort,
    alloc: Global,
    area: &mut MemBlobs,
    name: &str,
    want: Option<&[u8]>,
) -> Result<(), BlobErr> {
    match (get_one(alloc, area, name)?, want) {
        (Some(bytes), Some(want)) => assert_eq!(rt; bytes.as_slice(), want, "at {name}"),
        (None, None) => (),
        _ => assert!(rt; false, "held or not held: {name}"),
    }
    Ok(())
}

fn fault(call: u64, took: bool) -> Fault {
    Fault { call, took }
}

#[test]
fn keeps_the_newest_bytes(rt: HostRuntime) -> Result<(), Fail> {
    let alloc = rt.alloc();
    let mut area = MemBlobs::new(alloc);
    holds(&rt, alloc, &mut area, "a", None)?;
    area.delete(alloc, "a")?;
    area.put(alloc, "a", b"one")?;
    area.put(alloc, "b", b"")?;
    area.put(alloc, "a", b"two")?;
    holds(&rt, alloc, &mut area, "a", Some(b"two"))?;
    holds(&rt, alloc, &mut area, "b", Some(b""))?;
    holds(&rt, alloc, &mut area, "ab", None)?;
    area.delete(alloc, "a")?;
    area.delete(alloc, "a")?;
    holds(&rt, alloc, &mut area, "a", None)?;
    holds(&rt, alloc, &mut area, "b", Some(b""))?;
    Ok(())
}

#[test]
fn fails_with_and_without_effect(rt: HostRuntime) -> Result<(), Fail> {
    let alloc = rt.alloc();
    let fails = [
        fault(2, false),
        fault(3, true),
        fault(5, true),
        fault(7, false),
        fault(8, true),
    ];
    let mut area = MemBlobs::failing(alloc, &fails)?;
    area.put(alloc, "a", b"one")?;
    same(
        &rt,
        area.put(alloc, "a", b"two"),
        Err(BlobErr::Failed),
        "the second call",
    );
    same(
        &rt,
        area.put(alloc, "b", b"three"),
        Err(BlobErr::Failed),
        "the third call",
    );
    holds(&rt, alloc, &mut area, "a", Some(b"one"))?;
    same(&rt, area.get(alloc, "a").is_err(), true, "the fifth call");
    holds(&rt, alloc, &mut area, "b", Some(b"three"))?;
    same(
        &rt,
        area.delete(alloc, "a"),
        Err(BlobErr::Failed),
        "the seventh call",
    );
    same(
        &rt,
        area.delete(alloc, "b"),
        Err(BlobErr::Failed),
        "the eighth call",
    );
    holds(&rt, alloc, &mut area, "a", Some(b"one"))?;
    holds(&rt, alloc, &mut area, "b", None)?;
    Ok(())
}

fn text(alloc: Global, text: &str) -> Result<Text, NoMemory> {
    Text::copy_of(alloc, text)
}

// Puts under two names, and removes the first.
fn three_calls(alloc: Global) -> Result<Vec<Call>, NoMemory> {
    let mut calls = Vec::new(alloc);
    calls.push(Call::Put {
        name: text(alloc, "a")?,
        bytes: Bytes::copy_of(alloc, b"one")?,
    })?;
    calls.push(Call::Put {
        name: text(alloc, "b")?,
        bytes: Bytes::copy_of(alloc, b"two")?,
    })?;
    calls.push(Call::Remove {
        name: text(alloc, "a")?,
    })?;
    Ok(calls)
}

const ONE: Option<&[u8]> = Some(b"one");

const TWO: Option<&[u8]> = Some(b"two");

// A call that fails, whether it takes effect, whether all calls are answered, and what then stands under both names.
const CASES: [(u64, bool, Result<(), BlobErr>, Option<&[u8]>, Option<&[u8]>); 7] = [
    (1, false, Err(BlobErr::Failed), None, None),
    (1, true, Err(BlobErr::Failed), ONE, None),
    (2, false, Err(BlobErr::Failed), ONE, None),
    (2, true, Err(BlobErr::Failed), ONE, TWO),
    (3, false, Err(BlobErr::Failed), ONE, TWO),
    (3, true, Err(BlobErr::Failed), None, TWO),
    (9, true, Ok(()), None, TWO),
];

#[test]
fn stops_at_the_call_that_fails(rt: HostRuntime) -> Result<(), Fail> {
    let alloc = rt.alloc();
    let calls = three_calls(alloc)?;
    for (call, took, answer, a, b) in &CASES {
        let mut area = MemBlobs::failing(alloc, &[fault(*call, *took)])?;
        let found = call_all(alloc, &mut area, &calls);
        assert_eq!(rt; found, *answer, "at {call}, {took}");
        holds(&rt, alloc, &mut area, "a", *a)?;
        holds(&rt, alloc, &mut area, "b", *b)?;
    }
    Ok(())
}

#[test]
fn takes_thousands_of_calls(rt: HostRuntime) -> Result<(), Fail> {
    let alloc = rt.alloc();
    let mut area = MemBlobs::new(alloc);
    for turn in 0..5_000u64 {
        let name = format!(in alloc; "blob {}", turn % 2_500)?;
        area.put(alloc, &name, name.as_bytes())?;
    }
    for turn in 0..5_000u64 {
        let name = format!(in alloc; "blob {turn}")?;
        let want = if turn < 2_500 {
            Some(name.as_bytes())
        } else {
            None
        };
        holds(&rt, alloc, &mut area, &name, want)?;
    }
    Ok(())
}

#[test]
fn says_why_a_call_gave_no_answer(rt: HostRuntime) -> Result<(), Fail> {
    let alloc = rt.alloc();
    let failed = format!(in alloc; "{}", BlobErr::Failed)?;
    same(&rt, failed.as_str(), "the store failed", "a fault");
    let memory = format!(in alloc; "{}", BlobErr::Memory)?;
    same(&rt, memory.as_str(), "out of memory", "want of memory");
    Ok(())
}
