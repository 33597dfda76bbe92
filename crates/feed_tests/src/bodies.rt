// The bodies that `publish` takes, and those that it refuses.
use crate::same::same;
use blob_store::MemBlobs;
use feed_app::Stores;
use feed_base::NoMemory;
use feed_runs::{DONE, Exchange, FOO, LEAF, PAGE, behind, holds, run, with_body};
use std::alloc::Global;
use std::fmt::Display;
use std::process::Abort;
use std::test::Fail;

// Foo, and Bar with an author and a dependency.
const TWO: &str =
    "30 10 3\n{\"id\":\"Foo\",\"version\":\"1.0.0\"}<package/>abc138 10 1\n{\"id\":\"Bar\",\"version\":\"2.1\",\"authors\":\"Ann\",\"dependencyGroups\":[{\"targetFramework\":\"net8.0\",\"dependencies\":[{\"id\":\"Foo\",\"range\":\"1.0\"}]}]}<package/>x";

// The leaf of Bar, and the page.
const SECOND_LEAF: &str =
    "{\"@id\":\"http://f.test/v3/catalog/data/1/1.json\",\"@type\":[\"PackageDetails\"],\"authors\":\"Ann\",\"catalog:commitId\":\"00000000-0000-0000-0000-000000000001\",\"catalog:commitTimeStamp\":\"2024-01-01T00:00:00.0000000Z\",\"created\":\"2024-01-01T00:00:00.0000000Z\",\"dependencyGroups\":[{\"dependencies\":[{\"id\":\"Foo\",\"range\":\"[1.0.0, )\"}],\"targetFramework\":\"net8.0\"}],\"id\":\"Bar\",\"isPrerelease\":false,\"listed\":true,\"origin\":\"1/1\",\"packageHash\":\"pKvURIxJVi2CgRXROh/M6pJ/UrTVRZKX+LQ+QtqJI4vBNibkPcs43bCCSIkn7JBPtCBXRDmD6IWFF51QVRr+Yg==\",\"packageHashAlgorithm\":\"SHA512\",\"packageSize\":1,\"published\":\"2024-01-01T00:00:00.0000000Z\",\"verbatimVersion\":\"2.1\",\"version\":\"2.1.0\"}";

const PAGE_OF_TWO: &str =
    "{\"@id\":\"http://f.test/v3/catalog/page0.json\",\"commitId\":\"00000000-0000-0000-0000-000000000001\",\"commitTimeStamp\":\"2024-01-01T00:00:00.0000000Z\",\"count\":2,\"items\":[{\"@id\":\"http://f.test/v3/catalog/data/1/0.json\",\"@type\":\"nuget:PackageDetails\",\"commitId\":\"00000000-0000-0000-0000-000000000001\",\"commitTimeStamp\":\"2024-01-01T00:00:00.0000000Z\",\"nuget:id\":\"Foo\",\"nuget:version\":\"1.0.0\"},{\"@id\":\"http://f.test/v3/catalog/data/1/1.json\",\"@type\":\"nuget:PackageDetails\",\"commitId\":\"00000000-0000-0000-0000-000000000001\",\"commitTimeStamp\":\"2024-01-01T00:00:00.0000000Z\",\"nuget:id\":\"Bar\",\"nuget:version\":\"2.1.0\"}],\"parent\":\"http://f.test/v3/catalog/index.json\"}";

// Bodies that are one publish, with the id, the version, the manifest and the package.
const ACCEPTED: [(&str, &str, &str, &str, &str); 9] = [
    (
        "30 10 3\n{\"id\":\"Foo\",\"version\":\"1.0.0\"}<package/>abc",
        "Foo",
        "1.0.0",
        "<package/>",
        "abc",
    ),
    (
        "30 0 0\n{\"id\":\"Foo\",\"version\":\"0.0.0\"}",
        "Foo",
        "0.0.0",
        "",
        "",
    ),
    (
        "35 2 3\n{\"id\":\"Foo-B_r\",\"version\":\"10.2.0\"}\n\n\"}\n",
        "Foo-B_r",
        "10.2.0",
        "\n\n",
        "\"}\n",
    ),
    (
        "55 1 1\n{\"id\":\"a\",\"version\":\"2147483647.2147483647.2147483647\"}xy",
        "a",
        "2147483647.2147483647.2147483647",
        "x",
        "y",
    ),
    (
        "28 10 3\n{\"id\":\"Foo\",\"version\":\"1.0\"}<package/>abc",
        "Foo",
        "1.0.0",
        "<package/>",
        "abc",
    ),
    (
        "32 10 3\n{\"id\":\"Foo\",\"version\":\"1.0.0.0\"}<package/>abc",
        "Foo",
        "1.0.0",
        "<package/>",
        "abc",
    ),
    (
        "32 10 3\n{\"id\":\"Foo\",\"version\":\"1.0.0-a\"}<package/>abc",
        "Foo",
        "1.0.0-a",
        "<package/>",
        "abc",
    ),
    (
        "31 10 3\n{\"id\":\"Foo\",\"version\":\"01.0.0\"}<package/>abc",
        "Foo",
        "1.0.0",
        "<package/>",
        "abc",
    ),
    (
        "31 10 3\n{\"id\":\"Foo\", \"version\":\"1.0.0\"}<package/>abc",
        "Foo",
        "1.0.0",
        "<package/>",
        "abc",
    ),
];

// Bodies that are refused, with their lines.
const REFUSED_BODIES: [(&str, &str); 23] = [
    ("", "refused empty\n"),
    ("\n", "refused body 0\n"),
    ("30 10 3", "refused body 0\n"),
    (
        "30 10 3{\"id\":\"Foo\",\"version\":\"1.0.0\"}<package/>abc",
        "refused body 0\n",
    ),
    (
        "30 10 3\n{\"id\":\"Foo\",\"version\":\"1.0.0\"}<package/>ab",
        "refused body 0\n",
    ),
    (
        "30 10 3\n{\"id\":\"Foo\",\"version\":\"1.0.0\"}<package/>abcd",
        "refused body 51\n",
    ),
    (
        "30 10\n{\"id\":\"Foo\",\"version\":\"1.0.0\"}<package/>",
        "refused body 0\n",
    ),
    (
        "30 10 3 0\n{\"id\":\"Foo\",\"version\":\"1.0.0\"}<package/>abc",
        "refused body 0\n",
    ),
    (
        "30  10 3\n{\"id\":\"Foo\",\"version\":\"1.0.0\"}<package/>abc",
        "refused body 0\n",
    ),
    (
        "30 10 3 \n{\"id\":\"Foo\",\"version\":\"1.0.0\"}<package/>abc",
        "refused body 0\n",
    ),
    (
        "30 10 3\r\n{\"id\":\"Foo\",\"version\":\"1.0.0\"}<package/>abc",
        "refused body 0\n",
    ),
    (
        "030 10 3\n{\"id\":\"Foo\",\"version\":\"1.0.0\"}<package/>abc",
        "refused body 0\n",
    ),
    (
        "000000030 10 3\n{\"id\":\"Foo\",\"version\":\"1.0.0\"}<package/>abc",
        "refused body 0\n",
    ),
    (
        "34 2 3\n{\"id\":\"Foo-B_r\",\"version\":\"10.2.0\"}\n\n\"}\n",
        "refused meta 0 json\n",
    ),
    (
        "30 10 03\n{\"id\":\"Foo\",\"version\":\"1.0.0\"}<package/>abc",
        "refused body 0\n",
    ),
    (
        "+30 10 3\n{\"id\":\"Foo\",\"version\":\"1.0.0\"}<package/>abc",
        "refused body 0\n",
    ),
    (
        "30 10 100000000\n{\"id\":\"Foo\",\"version\":\"1.0.0\"}<package/>abc",
        "refused body 0\n",
    ),
    (
        "39 10 3\n{\"id\":\"Foo\",\"version\":\"2147483648.0.0\"}<package/>abc",
        "refused meta 0 version\n",
    ),
    (
        "33 10 3\n{\"id\":\"Fo..Ba\",\"version\":\"1.0.0\"}<package/>abc",
        "refused meta 0 id id\n",
    ),
    (
        "27 10 3\n{\"id\":\"\",\"version\":\"1.0.0\"}<package/>abc",
        "refused meta 0 id id\n",
    ),
    (
        "30 10 3\n{\"Id\":\"Foo\",\"version\":\"1.0.0\"}<package/>abc",
        "refused meta 0 field id\n",
    ),
    (
        "30 10 3\n{\"id\":\"Foo\",\"version\":\"1.0.0\"}<package/>abc1 0 0\n{",
        "refused meta 1 json\n",
    ),
    (
        "30 10 3\n{\"id\":\"Foo\",\"version\":\"1.0.0\"}<package/>abc30 10 3\n{\"id\":\"Foo\",\"version\":\"1.0.0\"}<package/>abc",
        "refused twice 1\n",
    ),
];

// The first page with another id and another version.
fn first_page_of(alloc: Global, id: &str, version: &str) -> Result<String, NoMemory> {
    let version = format!(in alloc; "\"{version}\"")?;
    let id = format!(in alloc; "\"{id}\"")?;
    let page = PAGE.replace(alloc, "\"1.0.0\"", &version)?;
    Ok(page.replace(alloc, "\"Foo\"", &id)?)
}

// Whether a publish of this body is committed, with this page and these files.
fn is_published(
    alloc: Global,
    body: &str,
    page: &str,
    nuspec: &str,
    nupkg: &str,
) -> Result<bool, NoMemory> {
    let stores = behind(alloc, 1, &[], &[])?;
    let (_, output, mut stores) = run(alloc, stores, &["publish"], with_body(body))?;
    let area = &mut stores.catalog;
    Ok(
        output.bytes() == DONE.as_bytes()
            && holds(alloc, area, "page0.json", page)
            && holds(alloc, area, "staged/1/0.nuspec", nuspec)
            && holds(alloc, area, "staged/1/0.nupkg", nupkg),
    )
}

#[test]
fn a_publish_is_read_whole(rt: HostRuntime) -> Result<(), Fail> {
    let alloc = rt.alloc();
    for (body, id, version, nuspec, nupkg) in &ACCEPTED {
        let page = first_page_of(alloc, id, version)?;
        let done = is_published(alloc, body, &page, nuspec, nupkg)?;
        same(&rt, done, true, *body);
    }
    Ok(())
}

// Asserts the status and the text that a command answers on these stores, and gives what it leaves of them.
fn answers<D: Display + Copy>(
    rt: &impl Abort,
    alloc: Global,
    stores: Stores<MemBlobs>,
    command: (&[&str], &str),
    want: (u8, &str),
    of: D,
) -> Result<Stores<MemBlobs>, NoMemory> {
    let (words, body) = command;
    let (status, output, left) = run(alloc, stores, words, with_body(body))?;
    same(rt, status, want.0, of);
    same(rt, output.bytes(), want.1.as_bytes(), of);
    Ok(left)
}

// Asserts that a publish of this body is refused with this line.
fn is_refused<D: Display + Copy>(
    rt: &impl Abort,
    alloc: Global,
    body: &str,
    line: &str,
    of: D,
) -> Result<(), NoMemory> {
    let stores = behind(alloc, 1, &[], &[])?;
    answers(rt, alloc, stores, (&["publish"], body), (3, line), of)?;
    Ok(())
}

#[test]
fn bodies_are_refused(rt: HostRuntime) -> Result<(), Fail> {
    let alloc = rt.alloc();
    for (body, line) in &REFUSED_BODIES {
        is_refused(&rt, alloc, body, line, *body)?;
    }
    Ok(())
}

// So many records of the same version.
fn records(alloc: Global, count: u32) -> Result<String, NoMemory> {
    let mut body = String::new(alloc);
    for _ in 0..count {
        body.push_str(FOO)?;
    }
    Ok(body)
}

// Counts of records, and the lines that refuse them.
const COUNTS: [(u32, &str); 4] = [
    (0, "refused empty\n"),
    (64, "refused twice 1\n"),
    (65, "refused toomany 65\n"),
    (200, "refused toomany 200\n"),
];

#[test]
fn a_commit_takes_1_to_64_changes(rt: HostRuntime) -> Result<(), Fail> {
    let alloc = rt.alloc();
    for (count, line) in &COUNTS {
        let body = records(alloc, *count)?;
        is_refused(&rt, alloc, &body, line, *count)?;
    }
    Ok(())
}

// Two records in one body: one commit of two items.
const TWO_ITEMS: [Exchange<'_>; 5] = [
    (&["publish"], TWO, 0, DONE),
    (&["get", "/v3/catalog/page0.json"], "", 0, PAGE_OF_TWO),
    (&["get", "/v3/catalog/data/1/0.json"], "", 0, LEAF),
    (&["get", "/v3/catalog/data/1/1.json"], "", 0, SECOND_LEAF),
    (&["publish"], TWO, 3, "refused exists 0 1\n"),
];

#[test]
fn a_body_of_two_is_one_commit(rt: HostRuntime) -> Result<(), Fail> {
    let alloc = rt.alloc();
    let mut stores = behind(alloc, 1, &[], &[])?;
    for (place, (words, body, status, text)) in TWO_ITEMS.iter().enumerate() {
        let want = (*status, *text);
        stores = answers(&rt, alloc, stores, (*words, *body), want, place)?;
    }
    Ok(())
}
