// Commits at the end of a page and at the limit of an id, and openings, of which each call fails in turn.
use crate::copies::{Document, copied, documents, failing};
use crate::feeds::{START, empty, one, opened, publish, publishes, told};
use crate::limits::{PAGES, check_lines, committed, exchange};
use crate::openings::{INDEX, INDEX_OF_NONE, PAGE, holds};
use crate::same::same;
use blob_store::{Blobs, Fail as Fault, MemBlobs};
use catalog_core::{Catalog, OpenErr, open_catalog};
use pkg_meta::NoMemory;
use std::alloc::{AllocError, Global};
use std::process::Abort;
use std::test::Fail;

// A page of 500 items, and its index.
fn of_500(alloc: Global) -> Result<Vec<Document>, NoMemory> {
    let mut catalog = empty(alloc, &[])?;
    let _lists = committed(alloc, &mut catalog, 7)?;
    let _line = told(alloc, &mut catalog, &publishes(alloc, 448, 52)?, START)?;
    documents(alloc, &mut catalog, 1)
}

// Commits 12 publishes, and then one, up to the first that isn't committed.
fn fill_up(alloc: Global, catalog: &mut Catalog<MemBlobs>) -> Result<(), NoMemory> {
    let line = told(alloc, catalog, &publishes(alloc, 500, 12)?, START)?;
    if line.starts_with("committed") {
        let _line = told(alloc, catalog, &publishes(alloc, 512, 1)?, START)?;
    }
    Ok(())
}

// The store opened again, the number of its commits, and the same commits once more.
fn commits_found(
    alloc: Global,
    area: MemBlobs,
) -> Result<(Option<u32>, Catalog<MemBlobs>), NoMemory> {
    let mut catalog = opened(alloc, area).ok_or(NoMemory)?;
    let count = catalog.count(alloc).ok();
    let _first = told(alloc, &mut catalog, &publishes(alloc, 500, 12)?, START)?;
    let _second = told(alloc, &mut catalog, &publishes(alloc, 512, 1)?, START)?;
    Ok((count, catalog))
}

// How many commits are found where this call fails. Two calls put the documents, and three open the catalog, which is
// begun again. The commit of 12 has its page at call 42, the next one at call 47, and call 48 is the last.
fn commits_wanted(call: u64, took: bool) -> u32 {
    if call < 6 || call > 47 || (call == 47 && took) {
        return 10;
    }
    if call > 42 || (call == 42 && took) {
        return 9;
    }
    8
}

// Asserts what is found where these calls fail, and which pages there are in the end.
fn check_pages(
    rt: &impl Abort,
    alloc: Global,
    before: &[Document],
    fails: &[Fault],
    wanted: u32,
) -> Result<(), NoMemory> {
    let mut catalog = copied(alloc, before, fails)?;
    fill_up(alloc, &mut catalog)?;
    let (count, mut catalog) = commits_found(alloc, catalog.into_area())?;
    same(rt, count, Some(wanted), "the number of commits");
    check_lines(rt, alloc, &mut catalog, &PAGES)
}

// The same where one call fails, and where it and all behind it do.
fn check_call(
    rt: &impl Abort,
    alloc: Global,
    before: &[Document],
    call: u64,
    took: bool,
) -> Result<(), NoMemory> {
    let wanted = commits_wanted(call, took);
    let once = failing(alloc, call, call, took)?;
    check_pages(rt, alloc, before, &once, wanted)?;
    let long = failing(alloc, call, 48, took)?;
    check_pages(rt, alloc, before, &long, wanted)
}

// The last get of the opening; the first put of the commit of 12, its last leaf, its page and its index; and the first put
// of the next commit, its leaf, its page and its index.
const CALLS: [u64; 9] = [5, 6, 41, 42, 43, 44, 46, 47, 48];

#[test]
fn stops_at_the_end_of_a_page(rt: HostRuntime) -> Result<(), Fail> {
    let alloc = rt.alloc();
    let before = of_500(alloc)?;
    for call in &CALLS {
        check_call(&rt, alloc, &before, *call, false)?;
        check_call(&rt, alloc, &before, *call, true)?;
    }
    Ok(())
}

// Four pages with 2,048 versions of one id, and their index.
fn of_2048(alloc: Global) -> Result<Vec<Document>, NoMemory> {
    let mut catalog = empty(alloc, &[])?;
    let _lists = committed(alloc, &mut catalog, 32)?;
    documents(alloc, &mut catalog, 4)
}

const FULL: &str = "the id of the publish at place 0 has 2048 versions";

const THERE: &str = "the version at place 0 is there since commit 33";

// What a publish of a further version is told behind a delete and that publish, where these calls fail.
fn told_behind(alloc: Global, before: &[Document], fails: &[Fault]) -> Result<String, NoMemory> {
    let mut catalog = copied(alloc, before, fails)?;
    let _line = told(alloc, &mut catalog, &exchange(alloc)?, START)?;
    let mut catalog = opened(alloc, catalog.into_area()).ok_or(NoMemory)?;
    let more = one(alloc, publish(alloc, "Foo", "2.0.0")?)?;
    Ok(told(alloc, &mut catalog, &more, START)?)
}

// Five calls put the documents, six open the catalog. The commit puts the delete's leaf, the package, the manifest, its
// leaf, the page and the index. Which calls fail, whether they take effect, and what is told.
const AT_THE_LIMIT: [(u64, u64, bool, &str); 8] = [
    (12, 24, false, FULL),
    (12, 12, true, FULL),
    (15, 24, true, FULL),
    (16, 16, false, FULL),
    (16, 24, true, THERE),
    (16, 24, false, FULL),
    (17, 24, false, THERE),
    (17, 17, true, THERE),
];

#[test]
fn stops_at_the_limit_of_an_id(rt: HostRuntime) -> Result<(), Fail> {
    let alloc = rt.alloc();
    let before = of_2048(alloc)?;
    for (first, last, took, wanted) in &AT_THE_LIMIT {
        let fails = failing(alloc, *first, *last, *took)?;
        same(
            &rt,
            told_behind(alloc, &before, &fails)?.as_str(),
            *wanted,
            *first,
        );
    }
    Ok(())
}

// An open catalog, or why there is none, with its store.
type Opening = Result<Catalog<MemBlobs>, (OpenErr, MemBlobs)>;

fn line_of(alloc: Global, opening: &Opening) -> Result<String, AllocError> {
    match opening {
        Ok(_) => String::from_str(alloc, "opened"),
        Err((error, _)) => format!(in alloc; "{error}"),
    }
}

fn area_of(opening: Opening) -> MemBlobs {
    match opening {
        Ok(catalog) => catalog.into_area(),
        Err((_, area)) => area,
    }
}

// What one opening answers, and the store behind it.
fn opening_line(alloc: Global, area: MemBlobs) -> Result<(String, MemBlobs), NoMemory> {
    let opening = open_catalog(alloc, area, None);
    let line = line_of(alloc, &opening)?;
    Ok((line, area_of(opening)))
}

// What two openings answer one behind the other of a store that holds these texts, where these of its calls fail.
fn two_openings(
    alloc: Global,
    index: &str,
    page: &str,
    fails: &[Fault],
) -> Result<String, NoMemory> {
    let mut area = MemBlobs::failing(alloc, fails)?;
    let _page = area.put(alloc, "page0.json", page.as_bytes());
    let _index = area.put(alloc, "index.json", index.as_bytes());
    let (first, area) = opening_line(alloc, area)?;
    let (second, mut area) = opening_line(alloc, area)?;
    let mended = holds(alloc, &mut area, "index.json", INDEX);
    Ok(format!(in alloc; "{first}, {second}, {mended}")?)
}

// Two calls put the documents. An opening gets the index and the page behind its last, and puts the index, which lags.
const STOPPED: [(u64, u64, &str); 6] = [
    (3, 3, "the store failed, opened, true"),
    (4, 4, "the store failed, opened, true"),
    (5, 5, "the store failed, opened, true"),
    (3, 4, "the store failed, the store failed, false"),
    (4, 5, "the store failed, the store failed, false"),
    (6, 6, "opened, the store failed, true"),
];

// Asserts what two openings of a store with this index answer where the calls from one to another fail.
fn check_openings(
    rt: &impl Abort,
    alloc: Global,
    index: &str,
    calls: (u64, u64),
    took: bool,
    line: &str,
) -> Result<(), NoMemory> {
    let (first, last) = calls;
    let fails = failing(alloc, first, last, took)?;
    let told = two_openings(alloc, index, PAGE, &fails)?;
    assert_eq!(rt; told.as_str(), line, "calls {first} to {last}, {took}");
    Ok(())
}

#[test]
fn stopped_openings_are_begun_again(rt: HostRuntime) -> Result<(), Fail> {
    let alloc = rt.alloc();
    for (first, last, line) in &STOPPED {
        check_openings(&rt, alloc, INDEX_OF_NONE, (*first, *last), false, line)?;
    }
    let line = "the store failed, opened, true";
    check_openings(&rt, alloc, INDEX_OF_NONE, (5, 5), true, line)?;
    Ok(())
}

// Where the third call fails, or each from it on: of an index that is cut a fault is told where there was one, and else that
// it is damaged.
const CUT: [(u64, &str); 2] = [
    (3, "the store failed, index.json is damaged, false"),
    (9, "the store failed, the store failed, false"),
];

#[test]
fn a_cut_index_is_never_opened(rt: HostRuntime) -> Result<(), Fail> {
    let alloc = rt.alloc();
    let cut = INDEX.strip_suffix('}').ok_or("no end")?;
    for (last, line) in &CUT {
        check_openings(&rt, alloc, cut, (3, *last), false, line)?;
    }
    Ok(())
}
