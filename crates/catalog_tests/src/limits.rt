// Commits at the limits of ids, pages, lists and moments.
use crate::feeds::{BASE, START, delete, empty, one, publish, publishes, relisting, told};
use crate::same::same;
use blob_store::MemBlobs;
use catalog_core::{Catalog, Changes};
use catalog_reading::read_page;
use pkg_meta::{Many, NoMemory};
use std::alloc::Global;
use std::process::Abort;
use std::test::Fail;

// Commits so many lists of 64 publishes each, and answers how many were committed.
pub fn committed(
    alloc: Global,
    catalog: &mut Catalog<MemBlobs>,
    lists: u32,
) -> Result<u32, NoMemory> {
    let mut done = 0u32;
    for list in 0..lists {
        let changes = publishes(alloc, list.saturating_mul(64), 64)?;
        let line = told(alloc, catalog, &changes, START)?;
        if line.starts_with("committed") {
            done = done.saturating_add(1);
        }
    }
    Ok(done)
}

// A delete of a version of Foo, and a publish behind it.
pub fn exchange(alloc: Global) -> Result<Changes, NoMemory> {
    let mut changes = Many::new(alloc);
    changes.push(delete(alloc, "foo", "1.0.5")?)?;
    changes.push(publish(alloc, "Foo", "2.0.0")?)?;
    Ok(changes)
}

// Asserts what a commit is told.
fn check_told(
    rt: &impl Abort,
    alloc: Global,
    catalog: &mut Catalog<MemBlobs>,
    changes: &Changes,
    now: u64,
    line: &str,
) -> Result<(), NoMemory> {
    same(rt, told(alloc, catalog, changes, now)?.as_str(), line, line);
    Ok(())
}

#[test]
fn an_id_has_2048_live_versions(rt: HostRuntime) -> Result<(), Fail> {
    let alloc = rt.alloc();
    let mut catalog = empty(alloc, &[])?;
    same(&rt, committed(alloc, &mut catalog, 32)?, 32, "the lists");
    let more = one(alloc, publish(alloc, "foo", "2.0.0")?)?;
    check_told(
        &rt,
        alloc,
        &mut catalog,
        &more,
        START,
        "the id of the publish at place 0 has 2048 versions",
    )?;
    let exchange = exchange(alloc)?;
    check_told(
        &rt,
        alloc,
        &mut catalog,
        &exchange,
        START,
        "committed 33 2024-01-01T00:00:00.0000032Z",
    )?;
    Ok(())
}

// How many rows a page has, and the number of the last one's commit.
pub fn page_line(
    alloc: Global,
    catalog: &mut Catalog<MemBlobs>,
    page: u32,
) -> Result<String, NoMemory> {
    let name = format!(in alloc; "page{page}.json")?;
    let Ok(Some(bytes)) = catalog.doc(alloc, &name) else {
        return Ok(format!(in alloc; "none")?);
    };
    let Ok(rows) = read_page(alloc, BASE, page, bytes.as_slice()) else {
        return Ok(format!(in alloc; "damaged")?);
    };
    let last = rows.as_slice().last().map_or(0, |row| row.number);
    Ok(format!(in alloc; "{} rows up to commit {last}", rows.len())?)
}

// Pages 0, 1 and 2 behind 500 items in 8 commits, a commit of 12, and one of 1.
pub const PAGES: [&str; 3] = ["512 rows up to commit 9", "1 rows up to commit 10", "none"];

// Asserts what the first three pages have.
pub fn check_lines(
    rt: &impl Abort,
    alloc: Global,
    catalog: &mut Catalog<MemBlobs>,
    lines: &[&str; 3],
) -> Result<(), NoMemory> {
    for (page, line) in (0u32..3).zip(lines) {
        same(rt, page_line(alloc, catalog, page)?.as_str(), *line, page);
    }
    Ok(())
}

// Commits 448 publishes in lists of 64, and then so many in each of further lists.
fn fill(
    rt: &impl Abort,
    alloc: Global,
    catalog: &mut Catalog<MemBlobs>,
    lists: &[(u32, u32)],
) -> Result<(), NoMemory> {
    same(rt, committed(alloc, catalog, 7)?, 7, "the lists of 64");
    for (first, count) in lists {
        let changes = publishes(alloc, *first, *count)?;
        let line = told(alloc, catalog, &changes, START)?;
        same(rt, line.starts_with("committed"), true, *first);
    }
    Ok(())
}

#[test]
fn a_page_has_512_items(rt: HostRuntime) -> Result<(), Fail> {
    let alloc = rt.alloc();
    let mut catalog = empty(alloc, &[])?;
    fill(&rt, alloc, &mut catalog, &[(448, 52), (500, 12), (512, 1)])?;
    check_lines(&rt, alloc, &mut catalog, &PAGES)?;
    Ok(())
}

// Pages 0, 1 and 2 behind 500 items in 8 commits, and a commit of 13.
const WHOLE: [&str; 3] = ["500 rows up to commit 8", "13 rows up to commit 9", "none"];

#[test]
fn a_commit_stands_on_one_page(rt: HostRuntime) -> Result<(), Fail> {
    let alloc = rt.alloc();
    let mut catalog = empty(alloc, &[])?;
    fill(&rt, alloc, &mut catalog, &[(448, 52), (500, 13)])?;
    check_lines(&rt, alloc, &mut catalog, &WHOLE)?;
    Ok(())
}

// At what moment a publish of a further version comes, and what is told: an hour late, then on time, so that the
// clock went back; the last moment of the calendar, and again.
const MOMENTS: [(u64, &str); 4] = [
    (
        START + 36_000_000_000,
        "committed 1 2024-01-01T01:00:00.0000000Z",
    ),
    (START, "committed 2 2024-01-01T01:00:00.0000001Z"),
    (
        3_155_378_975_999_999_999,
        "committed 3 9999-12-31T23:59:59.9999999Z",
    ),
    (START, "the last stamp is the calendar's last moment"),
];

#[test]
fn stamps_rise_to_the_last_moment(rt: HostRuntime) -> Result<(), Fail> {
    let alloc = rt.alloc();
    let mut catalog = empty(alloc, &[])?;
    for (turn, (now, line)) in (0u32..4).zip(&MOMENTS) {
        let changes = publishes(alloc, turn, 1)?;
        let said = told(alloc, &mut catalog, &changes, *now)?;
        same(&rt, said.as_str(), *line, turn);
    }
    let listed = one(alloc, relisting(alloc, "Foo", "1.0.2")?)?;
    check_told(
        &rt,
        alloc,
        &mut catalog,
        &listed,
        START,
        "the last stamp is the calendar's last moment",
    )?;
    Ok(())
}

#[test]
fn a_commit_has_64_changes(rt: HostRuntime) -> Result<(), Fail> {
    let alloc = rt.alloc();
    let mut catalog = empty(alloc, &[])?;
    let changes = publishes(alloc, 0, 65)?;
    check_told(
        &rt,
        alloc,
        &mut catalog,
        &changes,
        START,
        "there are 65 changes, and a commit takes 64 at the most",
    )?;
    Ok(())
}
