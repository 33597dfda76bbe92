// Commits that a failing call stops, and what an opening then finds.
use crate::copies::failing;
use crate::feeds::{START, delete, empty, one, opened, publish, told, unlisting};
use crate::same::same;
use blob_store::{Fail as Fault, MemBlobs};
use catalog_core::{Catalog, Changes, ReadErr, Row};
use pkg_meta::{Bytes, Item, Many, NoMemory};
use std::alloc::{AllocError, Global};
use std::process::Abort;
use std::test::Fail;

const INDEX_OF_TWO: &str =
    "{\"@id\":\"http://f.test/v3/catalog/index.json\",\"commitId\":\"00000000-0000-0000-0000-000000000002\",\"commitTimeStamp\":\"2024-01-01T00:00:00.0000001Z\",\"count\":1,\"items\":[{\"@id\":\"http://f.test/v3/catalog/page0.json\",\"commitId\":\"00000000-0000-0000-0000-000000000002\",\"commitTimeStamp\":\"2024-01-01T00:00:00.0000001Z\",\"count\":2}]}";

// Publishes Foo 1.0.0 and then Bar 1.0.0, and tells what the second commit was answered.
fn two_publishes(alloc: Global, catalog: &mut Catalog<MemBlobs>) -> Result<String, NoMemory> {
    let mut line = String::new(alloc);
    for id in &["Foo", "Bar"] {
        let changes = one(alloc, publish(alloc, id, "1.0.0")?)?;
        line = told(alloc, catalog, &changes, START)?;
    }
    Ok(line)
}

fn index_of(alloc: Global, catalog: &mut Catalog<MemBlobs>) -> Result<Bytes, Fail> {
    match catalog.doc(alloc, "index.json") {
        Ok(Some(index)) => Ok(index),
        _ => Err(Fail::from("no index")),
    }
}

// The opening's two calls, and each publish's five: the second one's index is the twelfth.
#[test]
fn an_index_that_lags_is_put_again(rt: HostRuntime) -> Result<(), Fail> {
    let alloc = rt.alloc();
    let fails = failing(alloc, 12, 12, false)?;
    let mut catalog = empty(alloc, &fails)?;
    let line = two_publishes(alloc, &mut catalog)?;
    same(&rt, line.as_str(), "the store failed", "the second commit");
    let mut catalog = opened(alloc, catalog.into_area()).ok_or("not opened")?;
    same(&rt, catalog.count(alloc).ok(), Some(2), "the commits");
    let index = index_of(alloc, &mut catalog)?;
    same(&rt, index.as_slice(), INDEX_OF_TWO.as_bytes(), "the index");
    Ok(())
}

// The first list publishes two packages.
fn first_list(alloc: Global) -> Result<Changes, NoMemory> {
    let mut changes = Many::new(alloc);
    changes.push(publish(alloc, "Foo", "1.0.0")?)?;
    changes.push(publish(alloc, "Bar", "1.0.0")?)?;
    Ok(changes)
}

// The second one publishes a third, unlists the first and deletes the second.
fn second_list(alloc: Global) -> Result<Changes, NoMemory> {
    let mut changes = Many::new(alloc);
    changes.push(publish(alloc, "Baz", "1.0.0")?)?;
    changes.push(unlisting(alloc, "Foo", "1.0.0")?)?;
    changes.push(delete(alloc, "Bar", "1.0.0")?)?;
    Ok(changes)
}

// Whether an item is listed.
fn kind_of(item: &Result<Item, ReadErr>) -> &'static str {
    match item {
        Ok(Item::Details(details)) if details.listed => "listed",
        Ok(Item::Details(_)) => "unlisted",
        Ok(Item::Gone { .. }) => "deleted",
        Err(_) => "not read",
    }
}

// The item of a row: its place, its id, and whether it is listed.
fn item_line(
    alloc: Global,
    catalog: &mut Catalog<MemBlobs>,
    row: &Row,
) -> Result<String, AllocError> {
    let kind = kind_of(&catalog.leaf(alloc, row.number, row.place));
    let id = row.id.text.as_str();
    format!(in alloc; "{}/{} {id} {kind}\n", row.number, row.place)
}

// All items of a catalog, by its rows.
fn items_text(alloc: Global, catalog: &mut Catalog<MemBlobs>) -> Result<String, NoMemory> {
    let mut text = String::new(alloc);
    let Ok(rows) = catalog.items_after(alloc, 0) else {
        return Ok(text);
    };
    for row in rows.as_slice() {
        text.push_str(&item_line(alloc, catalog, row)?)?;
    }
    Ok(text)
}

const WITHOUT: &str = "1/0 Foo listed\n1/1 Bar listed\n";

const WITH: &str =
    "1/0 Foo listed\n1/1 Bar listed\n2/0 Baz listed\n2/1 Foo unlisted\n2/2 Bar deleted\n";

// What is found where these calls fail: both lists are committed, and the store is opened again until it opens.
fn found(alloc: Global, fails: &[Fault]) -> Result<String, NoMemory> {
    let mut catalog = empty(alloc, fails)?;
    let _first = told(alloc, &mut catalog, &first_list(alloc)?, START)?;
    let _second = told(alloc, &mut catalog, &second_list(alloc)?, START)?;
    match opened(alloc, catalog.into_area()) {
        Some(mut catalog) => items_text(alloc, &mut catalog),
        None => Ok(String::new(alloc)),
    }
}

// The call that fails, whether it takes effect all the same, and what is then found. The first list ends with call 10.
// The second gets the leaf of what it unlists, and puts the package, the manifest, three leaves, the page and the index.
const STOPS: [(u64, bool, &str); 18] = [
    (11, false, WITHOUT),
    (11, true, WITHOUT),
    (12, false, WITHOUT),
    (12, true, WITHOUT),
    (13, false, WITHOUT),
    (13, true, WITHOUT),
    (14, false, WITHOUT),
    (14, true, WITHOUT),
    (15, false, WITHOUT),
    (15, true, WITHOUT),
    (16, false, WITHOUT),
    (16, true, WITHOUT),
    (17, false, WITHOUT),
    (17, true, WITH),
    (18, false, WITH),
    (18, true, WITH),
    (19, false, WITH),
    (19, true, WITH),
];

// Asserts what is found where the calls from one to another fail.
fn finds(
    rt: &impl Abort,
    alloc: Global,
    calls: (u64, u64),
    took: bool,
    text: &str,
) -> Result<(), NoMemory> {
    let (first, last) = calls;
    let fails = failing(alloc, first, last, took)?;
    let found = found(alloc, &fails)?;
    assert_eq!(rt; found.as_str(), text, "calls {first} to {last}, {took}");
    Ok(())
}

#[test]
fn a_stopped_commit_is_there_or_not(rt: HostRuntime) -> Result<(), Fail> {
    for (call, took, text) in &STOPS {
        finds(&rt, rt.alloc(), (*call, *call), *took, text)?;
        finds(&rt, rt.alloc(), (*call, 24), *took, text)?;
    }
    Ok(())
}
