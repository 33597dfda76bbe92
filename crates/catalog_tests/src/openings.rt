// What is told of an area that is opened or settled, and the index that it then holds.
use blob_store::{Blobs, MemBlobs};
use catalog_opening::{Known, OpenErr, read_catalog, settle};
use pkg_meta::NoMemory;
use std::alloc::{AllocError, Global};
use std::test::Fail;

pub const INDEX_OF_NONE: &str =
    "{\"@id\":\"http://f.test/v3/catalog/index.json\",\"commitId\":\"00000000-0000-0000-0000-000000000000\",\"commitTimeStamp\":\"0001-01-01T00:00:00.0000000Z\",\"count\":0,\"items\":[]}";

pub const INDEX: &str =
    "{\"@id\":\"http://f.test/v3/catalog/index.json\",\"commitId\":\"00000000-0000-0000-0000-000000000001\",\"commitTimeStamp\":\"2024-01-01T00:00:00.0000000Z\",\"count\":1,\"items\":[{\"@id\":\"http://f.test/v3/catalog/page0.json\",\"commitId\":\"00000000-0000-0000-0000-000000000001\",\"commitTimeStamp\":\"2024-01-01T00:00:00.0000000Z\",\"count\":1}]}";

pub const PAGE: &str =
    "{\"@id\":\"http://f.test/v3/catalog/page0.json\",\"commitId\":\"00000000-0000-0000-0000-000000000001\",\"commitTimeStamp\":\"2024-01-01T00:00:00.0000000Z\",\"count\":1,\"items\":[{\"@id\":\"http://f.test/v3/catalog/data/1/0.json\",\"@type\":\"nuget:PackageDetails\",\"commitId\":\"00000000-0000-0000-0000-000000000001\",\"commitTimeStamp\":\"2024-01-01T00:00:00.0000000Z\",\"nuget:id\":\"Foo\",\"nuget:version\":\"1.0.0\"}],\"parent\":\"http://f.test/v3/catalog/index.json\"}";

// Without an index, of no commits, of the first publish, with an index that lags, and without the page.
const AREAS: [[&str; 2]; 5] = [
    ["", ""],
    [INDEX_OF_NONE, ""],
    [INDEX, PAGE],
    [INDEX_OF_NONE, PAGE],
    [INDEX, ""],
];

// Area by area what each opening tells, and whether the area then holds the index of the first publish.
const OPENED: &str = "\
the area holds no catalog, false
http://f.test/ 0 0, false
http://f.test/ 1 1, true
http://f.test/ 1 1, true
page0.json is damaged, true
";

// A store that holds these texts, those that aren't empty, as the index and the first page.
pub fn store(alloc: Global, texts: &[&str; 2]) -> Result<MemBlobs, NoMemory> {
    let mut area = MemBlobs::new(alloc);
    for (name, text) in ["index.json", "page0.json"].iter().zip(texts) {
        if !text.is_empty() {
            let _done = area.put(alloc, name, text.as_bytes());
        }
    }
    Ok(area)
}

fn known_line(alloc: Global, known: &Result<Known, OpenErr>) -> Result<String, AllocError> {
    match known {
        Ok(known) => {
            let base = known.base.as_str();
            let (rows, pages) = (known.rows.len(), known.pages.len());
            format!(in alloc; "{base} {rows} {pages}")
        }
        Err(error) => format!(in alloc; "{error}"),
    }
}

// What an opening tells.
fn opened_line(
    alloc: Global,
    area: &mut MemBlobs,
    base: Option<&str>,
) -> Result<String, AllocError> {
    let known = read_catalog(alloc, area, base);
    known_line(alloc, &known)
}

/// Whether the blob of this name is this text.
pub fn holds(alloc: Global, area: &mut MemBlobs, name: &str, text: &str) -> bool {
    match area.get(alloc, name) {
        Ok(Some(bytes)) => bytes.as_slice() == text.as_bytes(),
        _ => false,
    }
}

#[test]
fn areas_are_opened(rt: HostRuntime) -> Result<(), Fail> {
    let (alloc, mut told) = (rt.alloc(), String::new(rt.alloc()));
    for texts in &AREAS {
        let mut area = store(alloc, texts)?;
        let line = opened_line(alloc, &mut area, None)?;
        let index = holds(alloc, &mut area, "index.json", INDEX);
        told.push_str(&format!(in alloc; "{line}, {index}\n")?)?;
    }
    assert_eq!(rt; told.as_str(), OPENED);
    Ok(())
}

#[test]
fn another_base_address_is_told(rt: HostRuntime) -> Result<(), Fail> {
    let mut area = store(rt.alloc(), &[INDEX, PAGE])?;
    let line = opened_line(rt.alloc(), &mut area, Some("http://g.test/"))?;
    assert_eq!(rt;
        line.as_str(),
        "the catalog's base address is http://f.test/, and not http://g.test/"
    );
    Ok(())
}

// What stands as the index and the first page, and what an opening for another base address tells: a damaged index is told
// before the address, and the address before the pages.
const OF_ANOTHER: [([&str; 2], &str); 4] = [
    (["", PAGE], "the area holds no catalog"),
    (["{}", PAGE], "index.json is damaged"),
    (
        [INDEX, ""],
        "the catalog's base address is http://f.test/, and not http://g.test/",
    ),
    (
        [INDEX, "{}"],
        "the catalog's base address is http://f.test/, and not http://g.test/",
    ),
];

#[test]
fn another_base_address_is_told_behind_the_index(rt: HostRuntime) -> Result<(), Fail> {
    let alloc = rt.alloc();
    for (texts, line) in &OF_ANOTHER {
        let mut area = store(alloc, texts)?;
        let told = opened_line(alloc, &mut area, Some("http://g.test/"))?;
        assert_eq!(rt; told.as_str(), *line);
    }
    Ok(())
}

#[test]
fn a_stopped_commit_is_settled(rt: HostRuntime) -> Result<(), Fail> {
    let mut area = store(rt.alloc(), &[INDEX_OF_NONE, PAGE])?;
    let more = settle(rt.alloc(), &mut area, "http://f.test/", &[]);
    assert!(rt; more.is_ok_and(|rows| rows.len() == 1));
    assert!(rt; holds(rt.alloc(), &mut area, "index.json", INDEX));
    Ok(())
}

#[test]
fn an_index_without_its_last_byte_is_damaged(rt: HostRuntime) -> Result<(), Fail> {
    let cut = INDEX.strip_suffix('}').ok_or("no end")?;
    let mut area = store(rt.alloc(), &[cut, PAGE])?;
    let line = opened_line(rt.alloc(), &mut area, None)?;
    assert_eq!(rt; line.as_str(), "index.json is damaged");
    Ok(())
}
