// Rounds that are stopped where pages change, and what they read of the catalog.
use crate::failures::ends;
use crate::rounds::{
    BASE, delete, documents, is_done, is_held, made, number_of, publish, publish_all,
};
use crate::same::same;
use blob_store::{Blobs, Fail as Failing, MemBlobs};
use catalog_core::{Catalog, Change, CommitErr, init};
use job_round::run_round;
use pkg_meta::{Many, NoMemory};
use reg_docs::Plain;
use std::alloc::Global;
use std::process::Abort;
use std::test::Fail;

// Publishes these versions, at most 64, in one commit.
fn publish_together(
    alloc: Global,
    catalog: &mut Catalog<MemBlobs>,
    minors: std::ops::Range<u32>,
) -> Result<u32, CommitErr> {
    let mut changes = Many::new(alloc);
    for minor in minors {
        changes.push(publish(alloc, minor)?)?;
    }
    let done = catalog.commit(alloc, &changes, crate::rounds::moment())?;
    Ok(done.number)
}

// Unlists a version.
fn unlist(alloc: Global, catalog: &mut Catalog<MemBlobs>, minor: u32) -> Result<u32, CommitErr> {
    let change = match delete(alloc, minor)? {
        Change::Delete { id, version } => Change::Unlist { id, version },
        other => other,
    };
    number_of(alloc, catalog, change)
}

// Whether the document of this name has this text in it.
fn has(alloc: Global, area: &mut MemBlobs, name: &str, text: &str) -> bool {
    match area.get(alloc, name) {
        Ok(Some(bytes)) => std::str::from_utf8(bytes.as_slice()).is_ok_and(|all| all.contains(
            text,
        )),
        _ => false,
    }
}

const INDEX: &str = "d/foo/index.json";

const FIRST_PAGE: &str = "d/foo/page/1.0.0/1.63.0.json";

const SECOND_PAGE: &str = "d/foo/page/1.64.0/1.127.0.json";

// Asserts that the rounds end at this commit, with so many documents.
fn ends_with(
    rt: &impl Abort,
    alloc: Global,
    catalog: &mut Catalog<MemBlobs>,
    area: &mut MemBlobs,
    commit: u32,
    count: usize,
) {
    same(
        rt,
        ends::<Plain>(alloc, catalog, area, commit),
        true,
        commit,
    );
    same(
        rt,
        documents::<Plain>(alloc, catalog, area),
        Some(count),
        commit,
    );
}

// Asserts whether the index names this page.
fn names_page(rt: &impl Abort, alloc: Global, area: &mut MemBlobs, page: &str, want: bool) {
    same(rt, has(alloc, area, INDEX, page), want, page);
}

#[test]
fn pages_end_at_64_versions(rt: HostRuntime) -> Result<(), Fail> {
    let alloc = rt.alloc();
    let mut catalog = made(alloc)?;
    let mut area = MemBlobs::new(alloc);
    let first = publish_together(alloc, &mut catalog, 0..64).is_ok();
    same(&rt, first, true, "64 versions");
    ends_with(&rt, alloc, &mut catalog, &mut area, 1, 65);
    names_page(&rt, alloc, &mut area, "#page/1.0.0/1.63.0\"", true);
    names_page(&rt, alloc, &mut area, "#page/1.64.0/", false);
    let second = publish_all(alloc, &mut catalog, 64..65).is_ok();
    same(&rt, second, true, "one more");
    ends_with(&rt, alloc, &mut catalog, &mut area, 2, 66);
    names_page(&rt, alloc, &mut area, "#page/1.0.0/1.63.0\"", true);
    names_page(&rt, alloc, &mut area, "#page/1.64.0/1.64.0\"", true);
    Ok(())
}

// A store of which this call fails.
fn failing(alloc: Global, call: u64, took: bool) -> Result<MemBlobs, NoMemory> {
    MemBlobs::failing(alloc, &[Failing { call, took }])
}

// Commits 127 versions and takes them up, commits the one between them and takes it up, and deletes one. The rounds end.
fn with_stored_pages(
    alloc: Global,
    area: &mut MemBlobs,
) -> Result<Option<Catalog<MemBlobs>>, CommitErr> {
    let mut catalog = made(alloc)?;
    publish_together(alloc, &mut catalog, 0..64)?;
    publish_together(alloc, &mut catalog, 65..128)?;
    if !ends::<Plain>(alloc, &mut catalog, area, 2) {
        return Ok(None);
    }
    publish_all(alloc, &mut catalog, 64..65)?;
    if !ends::<Plain>(alloc, &mut catalog, area, 3) {
        return Ok(None);
    }
    let change = delete(alloc, 5)?;
    number_of(alloc, &mut catalog, change)?;
    Ok(Some(catalog))
}

// How many documents are held in the end where the round behind the delete is stopped at this call.
fn inlined_again(alloc: Global, call: u64, took: bool) -> Option<usize> {
    let mut area = failing(alloc, call, took).ok()?;
    let mut catalog = match with_stored_pages(alloc, &mut area) {
        Ok(Some(catalog)) => catalog,
        _ => return None,
    };
    if run_round::<Plain, MemBlobs>(alloc, &mut catalog, &mut area).is_ok() {
        return None;
    }
    if !ends::<Plain>(alloc, &mut catalog, &mut area, 4)
        || is_held(alloc, &mut area, FIRST_PAGE)
        || is_held(alloc, &mut area, SECOND_PAGE)
        || is_held(alloc, &mut area, "d/foo/1.5.0.json")
        || !has(alloc, &mut area, INDEX, "#page/1.0.0/1.64.0\"")
        || !has(alloc, &mut area, INDEX, "#page/1.65.0/1.127.0\"")
    {
        return None;
    }
    documents::<Plain>(alloc, &mut catalog, &mut area)
}

// The first round makes 133 calls and the second 9. The third gets the cursor and the state, puts the dirty state and the
// index, removes a leaf and two pages, and puts the clean state and the cursor. Which of its calls fail, and whether they take effect.
const WHERE_PAGES_GO: [(u64, bool); 5] = [
    (145, true),
    (147, false),
    (148, true),
    (150, false),
    (151, false),
];

#[test]
fn stops_where_pages_go(rt: HostRuntime) -> Result<(), Fail> {
    let alloc = rt.alloc();
    for (call, took) in &WHERE_PAGES_GO {
        same(&rt, inlined_again(alloc, *call, *took), Some(128), *call);
    }
    Ok(())
}

// Commits 130 versions and takes them up, and unlists one of the second page.
fn with_an_unlisting(
    alloc: Global,
    area: &mut MemBlobs,
) -> Result<Option<Catalog<MemBlobs>>, CommitErr> {
    let mut catalog = made(alloc)?;
    publish_together(alloc, &mut catalog, 0..64)?;
    publish_together(alloc, &mut catalog, 64..128)?;
    publish_together(alloc, &mut catalog, 128..130)?;
    if !ends::<Plain>(alloc, &mut catalog, area, 3) {
        return Ok(None);
    }
    unlist(alloc, &mut catalog, 70)?;
    Ok(Some(catalog))
}

// What a page says of an unlisted version.
fn unlisted(alloc: Global, area: &mut MemBlobs, page: &str, version: &str) -> bool {
    let Ok(text) = format!(in alloc;
        "\"listed\":false,\"published\":\"1900-01-01T00:00:00.0000000Z\",\"version\":\"{version}\""
    ) else {
        return false;
    };
    has(alloc, area, page, &text)
}

// How many documents are held in the end where the round behind the unlisting is stopped at this call, and another version
// is unlisted before the last.
fn both_unlisted(alloc: Global, call: u64, took: bool) -> Option<usize> {
    let mut area = failing(alloc, call, took).ok()?;
    let mut catalog = match with_an_unlisting(alloc, &mut area) {
        Ok(Some(catalog)) => catalog,
        _ => return None,
    };
    if run_round::<Plain, MemBlobs>(alloc, &mut catalog, &mut area).is_ok() {
        return None;
    }
    unlist(alloc, &mut catalog, 10).ok()?;
    if !ends::<Plain>(alloc, &mut catalog, &mut area, 5)
        || !unlisted(alloc, &mut area, FIRST_PAGE, "1.10.0")
        || !unlisted(alloc, &mut area, SECOND_PAGE, "1.70.0")
    {
        return None;
    }
    documents::<Plain>(alloc, &mut catalog, &mut area)
}

// The first round makes 139 calls. The second gets the cursor and the state, puts the dirty state, the leaf, the page, the
// index, the clean state and the cursor.
const WHERE_A_PAGE_CHANGES: [(u64, bool); 4] = [
    (143, true),
    (145, false),
    (146, false),
    (147, true),
];

#[test]
fn stops_where_a_page_changes(rt: HostRuntime) -> Result<(), Fail> {
    let alloc = rt.alloc();
    for (call, took) in &WHERE_A_PAGE_CHANGES {
        same(&rt, both_unlisted(alloc, *call, *took), Some(134), *call);
    }
    Ok(())
}

// Three publishes, a round, another publish, another round, and a read, where these calls of the catalog's store and of the
// hive's fail; and which of the rounds and the read are done.
fn reads(alloc: Global, call: u64, of_hive: u64) -> Result<[bool; 3], CommitErr> {
    let Ok(mut catalog) = init(alloc, failing(alloc, call, false)?, BASE) else {
        return Err(CommitErr::Memory);
    };
    let mut area = failing(alloc, of_hive, false)?;
    publish_all(alloc, &mut catalog, 0..3)?;
    let first = run_round::<Plain, MemBlobs>(alloc, &mut catalog, &mut area);
    publish_all(alloc, &mut catalog, 3..4)?;
    let second = run_round::<Plain, MemBlobs>(alloc, &mut catalog, &mut area);
    let read = catalog.staged(alloc, 1, 0, true).is_ok();
    Ok([is_done(first, 3), is_done(second, 4), read])
}

// The catalog is made by two calls, and a publish by five. A round gets each new leaf once: three calls and then one. So it
// does where the first round's last call fails, its ninth, which puts the cursor: the state tells what was taken up.
const READS: [(u64, u64, [bool; 3]); 7] = [
    (18, 100, [false, true, true]),
    (20, 100, [false, true, true]),
    (26, 100, [true, false, true]),
    (27, 100, [true, true, false]),
    (28, 100, [true, true, true]),
    (26, 9, [false, false, true]),
    (27, 9, [false, true, false]),
];

#[test]
fn each_new_leaf_is_read_once(rt: HostRuntime) -> Result<(), Fail> {
    let alloc = rt.alloc();
    for (call, of_hive, done) in &READS {
        let found = reads(alloc, *call, *of_hive);
        assert!(rt;
            found.is_ok_and(|found| found == *done),
            "{call}, {of_hive}"
        );
    }
    Ok(())
}
