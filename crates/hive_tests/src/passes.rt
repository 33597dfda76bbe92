// The calls of passes, by kind and name.
use crate::catalogs::{details, gone};
use flat_container::Content;
use hive_state::read_state;
use id_pass::{Body, Call, Item, NoMemory, Placed, Plan, Ticks, make_plan};
use pkg_meta::Bytes;
use std::alloc::{AllocError, Global};
use std::process::Abort;
use std::test::Fail;

const SHORT: &str = r#"{"id":"Foo","version":"1.2"}"#;

const NEXT: &str = r#"{"id":"Foo","version":"2.0"}"#;

const FIRST: &str = "\
put s/foo.json
put d/foo/1.2.0/foo.1.2.0.nupkg
put d/foo/1.2.0/foo.nuspec
put d/foo/index.json
put s/foo.json
";

const SECOND: &str = "\
put s/foo.json
put d/foo/2.0.0/foo.2.0.0.nupkg
put d/foo/2.0.0/foo.nuspec
put d/foo/index.json
put s/foo.json
";

const AGAIN: &str = "\
put s/foo.json
put d/foo/1.2.0/foo.1.2.0.nupkg
put d/foo/1.2.0/foo.nuspec
put d/foo/2.0.0/foo.2.0.0.nupkg
put d/foo/2.0.0/foo.nuspec
put d/foo/index.json
put s/foo.json
";

const GONE: &str = "\
put s/foo.json
remove d/foo/index.json
remove d/foo/1.2.0/foo.1.2.0.nupkg
remove d/foo/1.2.0/foo.nuspec
put s/foo.json
";

fn publish(alloc: Global, meta: &str, number: u32) -> Result<Placed, NoMemory> {
    let item = Item::Details(details(alloc, meta, number, 0)?);
    let stamp = Ticks::of(5).unwrap();
    Ok(Placed {
        number,
        place: 0,
        stamp,
        item,
    })
}

fn delete(alloc: Global, meta: &str, number: u32) -> Result<Placed, NoMemory> {
    let item = gone(alloc, meta)?;
    let stamp = Ticks::of(7).unwrap();
    Ok(Placed {
        number,
        place: 0,
        stamp,
        item,
    })
}

// A list of one item.
fn one(alloc: Global, item: Placed) -> Result<Vec<Placed>, NoMemory> {
    let mut items = Vec::new(alloc);
    items.push(item)?;
    Ok(items)
}

// The calls of a pass from the state of these bytes, or from none where there is no byte.
fn plan(alloc: Global, old: &[u8], items: &[Placed], target: u32) -> Result<Plan, NoMemory> {
    let state = read_state(alloc, old).ok();
    let state = state.as_ref();
    make_plan::<Content>(alloc, "http://f.test/", "foo", state, items, target)
}

fn line_of(alloc: Global, call: &Call) -> Result<String, AllocError> {
    match call {
        Call::Put { name, .. } => format!(in alloc; "put {}\n", name.as_str()),
        Call::Remove { name } => format!(in alloc; "remove {}\n", name.as_str()),
    }
}

// The bytes that a call puts, none where it puts no bytes of its own.
fn bytes_of(alloc: Global, call: &Call) -> Result<Bytes, NoMemory> {
    match call {
        Call::Put {
            body: Body::Made(bytes),
            ..
        } => bytes.copy(alloc),
        _ => Bytes::copy_of(alloc, b""),
    }
}

// The calls, and the bytes that the n-th one puts.
fn walk(alloc: Global, plan: &mut Plan, n: u32) -> Result<(String, Bytes), NoMemory> {
    let mut lines = String::new(alloc);
    let mut bytes = Bytes::copy_of(alloc, b"")?;
    for at in 0..100u32 {
        let Some(call) = plan.next_call() else {
            break;
        };
        lines.push_str(line_of(alloc, call)?.as_str())?;
        if at == n {
            bytes = bytes_of(alloc, call)?;
        }
        plan.advance();
    }
    Ok((lines, bytes))
}

// Asserts the calls of a pass from a state up to a commit, and gives the bytes that the n-th one puts.
fn passes(
    rt: &impl Abort,
    alloc: Global,
    old: &[u8],
    items: &[Placed],
    target: u32,
    n: u32,
    want: &str,
) -> Result<Bytes, NoMemory> {
    let mut plan = plan(alloc, old, items, target)?;
    let (lines, bytes) = walk(alloc, &mut plan, n)?;
    assert_eq!(rt; lines.as_str(), want);
    Ok(bytes)
}

#[test]
fn calls_of_passes(rt: HostRuntime) -> Result<(), Fail> {
    let alloc = rt.alloc();
    let first = one(alloc, publish(alloc, SHORT, 1)?)?;
    let clean = passes(&rt, alloc, b"", &first, 1, 4, FIRST)?;
    let second = one(alloc, publish(alloc, NEXT, 2)?)?;
    let dirty = passes(&rt, alloc, clean.as_slice(), &second, 2, 0, SECOND)?;
    passes(&rt, alloc, dirty.as_slice(), &[], 2, 0, AGAIN)?;
    let gone = one(alloc, delete(alloc, SHORT, 2)?)?;
    passes(&rt, alloc, clean.as_slice(), &gone, 2, 0, GONE)?;
    passes(&rt, alloc, clean.as_slice(), &[], 2, 0, "")?;
    Ok(())
}
