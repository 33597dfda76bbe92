// Calls that fail, and documents that are damaged or lost.
use crate::commands::answers;
use crate::same::same;
use blob_store::{Blobs, Fail as Fault, MemBlobs};
use feed_app::Stores;
use feed_base::NoMemory;
use feed_runs::{
    BAR, DONE, FIRST, FOO, INDEX, LEAF, MISSING, PAGE, VERSIONS, behind, empty, run, with_body,
};
use std::alloc::Global;
use std::process::Abort;
use std::test::Fail;

// What the first publish answers when it is tried again, by how many of its puts took effect.
const AGAIN: [&str; 6] = [
    DONE,
    DONE,
    DONE,
    DONE,
    "refused exists 0 1\n",
    "refused exists 0 1\n",
];

// How many of the first publish's puts took effect where this call of the store fails. Two calls make the catalog, two
// open it, and five put the commit.
fn puts_done(call: u64, took: bool) -> u64 {
    let before = call.saturating_sub(5);
    if took && call > 4 {
        before.saturating_add(1)
    } else {
        before
    }
}

fn is_there(alloc: Global, area: &mut MemBlobs, name: &str) -> bool {
    matches!(area.get(alloc, name), Ok(Some(_)))
}

// Asserts that so many of the first publish's blobs are there, of all but the index.
fn holds_first(rt: &impl Abort, alloc: Global, area: &mut MemBlobs, held: u64) {
    for (place, (name, _)) in FIRST.iter().enumerate().take(4) {
        let there = is_there(alloc, area, name);
        assert_eq!(rt; there, (place as u64) < held, "{name}, {held}");
    }
}

// Asserts what the publish answers when it is tried again.
fn is_again(rt: &impl Abort, output: &[u8], held: u64) {
    for (place, line) in AGAIN.iter().enumerate() {
        if place as u64 == held {
            same(rt, output, line.as_bytes(), held);
        }
    }
}

// Asserts what the first publish leaves where this call fails, and what it answers when it is tried again.
fn check_call(rt: &impl Abort, alloc: Global, call: u64, took: bool) -> Result<(), NoMemory> {
    let stores = behind(alloc, 1, &[Fault { call, took }], &[])?;
    let want = (4, "fault catalog\n");
    let mut stores = answers(rt, alloc, stores, &["publish"], with_body(FOO), want, call)?;
    let held = puts_done(call, took);
    holds_first(rt, alloc, &mut stores.catalog, held);
    let (_, again, _) = run(alloc, stores, &["publish"], with_body(FOO))?;
    is_again(rt, again.bytes(), held);
    Ok(())
}

#[test]
fn a_failed_call_leaves_a_prefix(rt: HostRuntime) -> Result<(), Fail> {
    for call in 3..10u64 {
        check_call(&rt, rt.alloc(), call, false)?;
        check_call(&rt, rt.alloc(), call, true)?;
    }
    Ok(())
}

// A document of the first publish, and a piece of it with what stands in its place.
const DAMAGE: [(&str, &str, &str, &str); 9] = [
    (
        "page0.json",
        PAGE,
        "}],",
        "},{\"@id\":\"http://f.test/v3/catalog/data/1/0.json\",\"@type\":\"nuget:PackageDetails\",\"commitId\":\"00000000-0000-0000-0000-000000000001\",\"commitTimeStamp\":\"2024-01-01T00:00:00.0000000Z\",\"nuget:id\":\"Foo\",\"nuget:version\":\"1.0.0\"}],",
    ),
    ("index.json", INDEX, "]}", "]"),
    ("index.json", INDEX, "]}", "]} "),
    (
        "index.json",
        INDEX,
        "\"count\":1,",
        "\"count\":1,\"counted\":1,",
    ),
    ("index.json", INDEX, "{", ""),
    ("page0.json", PAGE, "\"count\":1,", "\"count\":2,"),
    (
        "page0.json",
        PAGE,
        "\"nuget:version\":\"1.0.0\"",
        "\"nuget:version\":\"1.0\"",
    ),
    (
        "page0.json",
        PAGE,
        "\"nuget:id\":\"Foo\",\"nuget:version\":\"1.0.0\"",
        "\"nuget:version\":\"1.0.0\",\"nuget:id\":\"Foo\"",
    ),
    ("page0.json", PAGE, PAGE, "{}"),
];

// Asserts what a publish answers where a piece of a document is replaced.
fn is_broken(
    rt: &impl Abort,
    alloc: Global,
    name: &str,
    text: &str,
    old: &str,
    new: &str,
) -> Result<(), NoMemory> {
    let mut stores = behind(alloc, 2, &[], &[])?;
    let broken = text.replace(alloc, old, new)?;
    let put = stores.catalog.put(alloc, name, broken.as_bytes());
    same(rt, put.is_ok(), true, name);
    let (_, output, _) = run(alloc, stores, &["publish"], with_body(BAR))?;
    let line = format!(in alloc; "damaged catalog/{name}\n")?;
    assert_eq!(rt; output.bytes(), line.as_bytes(), "{name}: {new}");
    Ok(())
}

#[test]
fn broken_catalogs_are_not_opened(rt: HostRuntime) -> Result<(), Fail> {
    for (name, text, old, new) in &DAMAGE {
        is_broken(&rt, rt.alloc(), name, text, old, new)?;
    }
    Ok(())
}

// A blob of the catalog's area that is lost, and what a command then answers.
const LOST: [(&str, &[&str], u8, &str); 14] = [
    (
        "page0.json",
        &["publish"],
        6,
        "damaged catalog/page0.json\n",
    ),
    ("index.json", &["publish"], 3, "refused uninitialised\n"),
    (
        "index.json",
        &["get", "/v3/flat/foo/index.json"],
        3,
        "refused uninitialised\n",
    ),
    (
        "index.json",
        &["get", "/v3/index.json"],
        3,
        "refused uninitialised\n",
    ),
    ("index.json", &["get", ""], 3, "refused uninitialised\n"),
    (
        "page0.json",
        &["get", "/v3/catalog/page0.json"],
        6,
        "damaged catalog/page0.json\n",
    ),
    (
        "page0.json",
        &["get", "/v3/flat/foo/index.json"],
        6,
        "damaged catalog/page0.json\n",
    ),
    (
        "data/1/0.json",
        &["get", "/v3/catalog/data/1/0.json"],
        6,
        "damaged catalog/data/1/0.json\n",
    ),
    (
        "data/1/0.json",
        &["get", "/v3/flat/foo/index.json"],
        3,
        MISSING,
    ),
    (
        "data/1/0.json",
        &["job", "content"],
        6,
        "damaged catalog/data/1/0.json\n",
    ),
    (
        "data/1/0.json",
        &["job", "plain"],
        6,
        "damaged catalog/data/1/0.json\n",
    ),
    (
        "staged/1/0.nupkg",
        &["job", "semver2"],
        0,
        "done semver2 1\n",
    ),
    (
        "staged/1/0.nupkg",
        &["job", "content"],
        6,
        "damaged catalog/staged/1/0.nupkg\n",
    ),
    (
        "staged/1/0.nuspec",
        &["job", "content"],
        6,
        "damaged catalog/staged/1/0.nuspec\n",
    ),
];

// Asserts what a command answers where a blob is lost, and that no cursor is put.
fn is_told(
    rt: &impl Abort,
    alloc: Global,
    lost: &str,
    words: &[&str],
    want: (u8, &str),
) -> Result<(), NoMemory> {
    let mut stores = behind(alloc, 2, &[], &[])?;
    same(rt, stores.catalog.delete(alloc, lost).is_ok(), true, lost);
    let mut stores = answers(rt, alloc, stores, words, with_body(BAR), want, lost)?;
    same(
        rt,
        is_there(alloc, &mut stores.content, "cursor.json"),
        false,
        lost,
    );
    Ok(())
}

#[test]
fn lost_blobs_are_told(rt: HostRuntime) -> Result<(), Fail> {
    for (lost, words, status, line) in &LOST {
        is_told(&rt, rt.alloc(), lost, words, (*status, *line))?;
    }
    Ok(())
}

// The first page of so many publishes of Foo, with patch numbers from 1.
fn page_of(alloc: Global, count: u64) -> Result<String, NoMemory> {
    let mut rows = String::new(alloc);
    for number in 1..=count {
        let row = format!(in alloc;
            "{{\"@id\":\"http://f.test/v3/catalog/data/{number}/0.json\",\"@type\":\"nuget:PackageDetails\",\"commitId\":\"00000000-0000-0000-0000-{number:012x}\",\"commitTimeStamp\":\"2024-01-01T00:00:00.{number:07}Z\",\"nuget:id\":\"Foo\",\"nuget:version\":\"1.0.{number}\"}}"
        )?;
        if number > 1 {
            rows.push_str(",")?;
        }
        rows.push_str(&row)?;
    }
    let page = format!(in alloc;
        "{{\"@id\":\"http://f.test/v3/catalog/page0.json\",\"commitId\":\"00000000-0000-0000-0000-{count:012x}\",\"commitTimeStamp\":\"2024-01-01T00:00:00.{count:07}Z\",\"count\":{count},\"items\":[{rows}],\"parent\":\"http://f.test/v3/catalog/index.json\"}}"
    )?;
    Ok(page)
}

// The index above it.
fn index_of(alloc: Global, count: u64) -> Result<String, NoMemory> {
    let index = format!(in alloc;
        "{{\"@id\":\"http://f.test/v3/catalog/index.json\",\"commitId\":\"00000000-0000-0000-0000-{count:012x}\",\"commitTimeStamp\":\"2024-01-01T00:00:00.{count:07}Z\",\"count\":1,\"items\":[{{\"@id\":\"http://f.test/v3/catalog/page0.json\",\"commitId\":\"00000000-0000-0000-0000-{count:012x}\",\"commitTimeStamp\":\"2024-01-01T00:00:00.{count:07}Z\",\"count\":{count}}}]}}"
    )?;
    Ok(index)
}

// How many publishes the first page has, what a further one is told, and whether it stands on the next page.
const FULL: [(u64, &str, bool); 2] = [
    (511, "committed 512 2024-01-01T00:00:00.0000512Z\n", false),
    (512, "committed 513 2024-01-01T00:00:00.0000513Z\n", true),
];

// Puts a document into the catalog's area, and asserts that it is put.
fn put(rt: &impl Abort, alloc: Global, area: &mut MemBlobs, name: &str, text: &str) {
    same(
        rt,
        area.put(alloc, name, text.as_bytes()).is_ok(),
        true,
        name,
    );
}

// The stores of a catalog with so many publishes on its page.
fn stores_of(rt: &impl Abort, alloc: Global, count: u64) -> Result<Stores<MemBlobs>, NoMemory> {
    let mut stores = empty(alloc, &[], &[])?;
    put(
        rt,
        alloc,
        &mut stores.catalog,
        "page0.json",
        &page_of(alloc, count)?,
    );
    put(
        rt,
        alloc,
        &mut stores.catalog,
        "index.json",
        &index_of(alloc, count)?,
    );
    Ok(stores)
}

#[test]
fn the_next_page_takes_what_a_full_one_cannot(rt: HostRuntime) -> Result<(), Fail> {
    let alloc = rt.alloc();
    for (count, line, next) in &FULL {
        let stores = stores_of(&rt, alloc, *count)?;
        let (_, output, mut stores) = run(alloc, stores, &["publish"], with_body(BAR))?;
        same(&rt, output.bytes(), line.as_bytes(), *count);
        let there = is_there(alloc, &mut stores.catalog, "page1.json");
        same(&rt, there, *next, *count);
    }
    Ok(())
}

// The exchanges before a command, the command, and the calls of the catalog's store and of the content's that fail in it. Two
// calls of the catalog's store make it, seven publish, three open it, one gets the leaf and two what the publish brought. The
// job gets the content's cursor and the id's state, puts that, three documents and the state again, and then the cursor.
const CALLS: [(usize, &[&str], (u64, u64), (u64, u64), &str); 3] = [
    (
        2,
        &["get", "/v3/catalog/data/1/0.json"],
        (10, 13),
        (0, 0),
        LEAF,
    ),
    (2, &["job", "content"], (10, 15), (1, 8), "done content 1\n"),
    (
        3,
        &["get", "/v3/flat/foo/index.json"],
        (16, 18),
        (9, 9),
        VERSIONS,
    ),
];

// The stores behind so many exchanges, where this call of the catalog's store or of the content's fails.
fn stores_failing(
    alloc: Global,
    exchanges: usize,
    call: u64,
    of_catalog: bool,
) -> Result<Stores<MemBlobs>, NoMemory> {
    let fault = [Fault { call, took: false }];
    if of_catalog {
        behind(alloc, exchanges, &fault, &[])
    } else {
        behind(alloc, exchanges, &[], &fault)
    }
}

// The status and the text where a call fails that is the command's own or comes behind it.
fn wanted<'a>(is_behind: bool, of_catalog: bool, text: &'a str) -> (u8, &'a str) {
    if is_behind {
        (0, text)
    } else if of_catalog {
        (4, "fault catalog\n")
    } else {
        (4, "fault content\n")
    }
}

// Asserts what a command answers where one of its calls fails, or one behind them. These are its first and its last.
fn check_calls(
    rt: &impl Abort,
    alloc: Global,
    command: (usize, &[&str], &str),
    calls: (u64, u64),
    of_catalog: bool,
) -> Result<(), NoMemory> {
    let (exchanges, words, text) = command;
    let (first, last) = calls;
    for call in first.max(1)..20 {
        let stores = stores_failing(alloc, exchanges, call, of_catalog)?;
        let want = wanted(call > last, of_catalog, text);
        answers(rt, alloc, stores, words, with_body(""), want, call)?;
    }
    Ok(())
}

#[test]
fn failed_stores_are_told(rt: HostRuntime) -> Result<(), Fail> {
    for (exchanges, words, catalog, content, text) in &CALLS {
        let command = (*exchanges, *words, *text);
        check_calls(&rt, rt.alloc(), command, *content, false)?;
        check_calls(&rt, rt.alloc(), command, *catalog, true)?;
    }
    Ok(())
}
