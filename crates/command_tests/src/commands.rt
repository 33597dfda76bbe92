// The program's commands, from words to status and text, over stores in memory.
use crate::same::same;
use blob_store::MemBlobs;
use feed_app::Stores;
use feed_base::NoMemory;
use feed_runs::{
    BAR, DONE, Exchange, FIRST, FOO, Given, INDEX, LAST, LEAF, MISSING, NEW_YEAR, PAGE, USAGE,
    VERSIONS, behind, empty, holds, run, with_body,
};
use std::alloc::Global;
use std::fmt::Display;
use std::process::Abort;
use std::test::Fail;

const SHORT: &str = "28 10 3\n{\"id\":\"Foo\",\"version\":\"1.0\"}<package/>abc";

const LONGER: &str = "30 10 4\n{\"id\":\"Foo\",\"version\":\"1.0.0\"}<package/>abc";

const FOO_IN_CAPITALS: &str = "30 10 3\n{\"id\":\"FOO\",\"version\":\"1.0.0\"}<package/>abc";

const SERVED: &str = "refused served\n";

const SERVICES: &str =
    "{\"resources\":[{\"@id\":\"http://f.test/v3/catalog/index.json\",\"@type\":\"Catalog/3.0.0\"},{\"@id\":\"http://f.test/v3/flat/\",\"@type\":\"PackageBaseAddress/3.0.0\"},{\"@id\":\"http://f.test/v3/registration/\",\"@type\":\"RegistrationsBaseUrl\"},{\"@id\":\"http://f.test/v3/registration/\",\"@type\":\"RegistrationsBaseUrl/3.4.0\"},{\"@id\":\"http://f.test/v3/registration-semver2/\",\"@type\":\"RegistrationsBaseUrl/3.6.0\"},{\"@id\":\"http://f.test/v3/autocomplete\",\"@type\":\"SearchAutocompleteService\"},{\"@id\":\"http://f.test/v3/autocomplete\",\"@type\":\"SearchAutocompleteService/3.0.0-rc\"}],\"version\":\"3.0.0\"}";

const PLAIN_INDEX: &str =
    "{\"@id\":\"http://f.test/v3/registration/foo/index.json\",\"commitId\":\"00000000-0000-0000-0000-000000000001\",\"commitTimeStamp\":\"2024-01-01T00:00:00.0000000Z\",\"count\":1,\"items\":[{\"@id\":\"http://f.test/v3/registration/foo/index.json#page/1.0.0/1.0.0\",\"count\":1,\"items\":[{\"@id\":\"http://f.test/v3/registration/foo/1.0.0.json\",\"catalogEntry\":{\"@id\":\"http://f.test/v3/catalog/data/1/0.json\",\"id\":\"Foo\",\"listed\":true,\"published\":\"2024-01-01T00:00:00.0000000Z\",\"version\":\"1.0.0\"},\"packageContent\":\"http://f.test/v3/flat/foo/1.0.0/foo.1.0.0.nupkg\"}],\"lower\":\"1.0.0\",\"parent\":\"http://f.test/v3/registration/foo/index.json\",\"upper\":\"1.0.0\"}]}";

const PLAIN_LEAF: &str =
    "{\"@id\":\"http://f.test/v3/registration/foo/1.0.0.json\",\"catalogEntry\":\"http://f.test/v3/catalog/data/1/0.json\",\"listed\":true,\"packageContent\":\"http://f.test/v3/flat/foo/1.0.0/foo.1.0.0.nupkg\",\"published\":\"2024-01-01T00:00:00.0000000Z\",\"registration\":\"http://f.test/v3/registration/foo/index.json\"}";

const SEMVER2_INDEX: &str =
    "{\"@id\":\"http://f.test/v3/registration-semver2/foo/index.json\",\"commitId\":\"00000000-0000-0000-0000-000000000001\",\"commitTimeStamp\":\"2024-01-01T00:00:00.0000000Z\",\"count\":1,\"items\":[{\"@id\":\"http://f.test/v3/registration-semver2/foo/index.json#page/1.0.0/1.0.0\",\"count\":1,\"items\":[{\"@id\":\"http://f.test/v3/registration-semver2/foo/1.0.0.json\",\"catalogEntry\":{\"@id\":\"http://f.test/v3/catalog/data/1/0.json\",\"id\":\"Foo\",\"listed\":true,\"published\":\"2024-01-01T00:00:00.0000000Z\",\"version\":\"1.0.0\"},\"packageContent\":\"http://f.test/v3/flat/foo/1.0.0/foo.1.0.0.nupkg\"}],\"lower\":\"1.0.0\",\"parent\":\"http://f.test/v3/registration-semver2/foo/index.json\",\"upper\":\"1.0.0\"}]}";

const SEMVER2_LEAF: &str =
    "{\"@id\":\"http://f.test/v3/registration-semver2/foo/1.0.0.json\",\"catalogEntry\":\"http://f.test/v3/catalog/data/1/0.json\",\"listed\":true,\"packageContent\":\"http://f.test/v3/flat/foo/1.0.0/foo.1.0.0.nupkg\",\"published\":\"2024-01-01T00:00:00.0000000Z\",\"registration\":\"http://f.test/v3/registration-semver2/foo/index.json\"}";

// Asserts the status and the text that a command answers on these stores, and gives what it leaves of them.
pub fn answers<D: Display + Copy>(
    rt: &impl Abort,
    alloc: Global,
    stores: Stores<MemBlobs>,
    words: &[&str],
    given: Given<'_>,
    want: (u8, &str),
    of: D,
) -> Result<Stores<MemBlobs>, NoMemory> {
    let (status, output, left) = run(alloc, stores, words, given)?;
    same(rt, status, want.0, of);
    same(rt, output.bytes(), want.1.as_bytes(), of);
    Ok(left)
}

// Asserts what each of the exchanges answers, from empty stores on.
pub fn follow(
    rt: &impl Abort,
    alloc: Global,
    exchanges: &[Exchange<'_>],
) -> Result<Stores<MemBlobs>, NoMemory> {
    let mut stores = empty(alloc, &[], &[])?;
    for (place, (words, body, status, text)) in exchanges.iter().enumerate() {
        let want = (*status, *text);
        stores = answers(rt, alloc, stores, words, with_body(body), want, place)?;
    }
    Ok(stores)
}

// How many exchanges come before, a command's words, and the status and the text that it answers.
const STATUSES: [(usize, &[&str], u8, &str); 15] = [
    (1, &["publish"], 0, DONE),
    (1, &[], 2, USAGE),
    (1, &["publish", "publish"], 2, USAGE),
    (1, &["Publish"], 2, USAGE),
    (1, &["job", "catalog"], 2, USAGE),
    (1, &["get", "a", "b"], 2, USAGE),
    (0, &["init", "http://f.test"], 2, USAGE),
    (0, &["init", "http://f.test/?a"], 2, USAGE),
    (0, &["init", "ftp://f.test/"], 2, USAGE),
    (0, &["init", "HTTP://f.test/"], 2, USAGE),
    (0, &["init", "http://localhost:8080/"], 0, "initialised\n"),
    (0, &["init", "https://f.test/feed/"], 0, "initialised\n"),
    (0, &["publish"], 3, "refused uninitialised\n"),
    (0, &["get", "/v3/index.json"], 3, "refused uninitialised\n"),
    (0, &["job", "content"], 3, "refused uninitialised\n"),
];

#[test]
fn tells_each_status(rt: HostRuntime) -> Result<(), Fail> {
    let alloc = rt.alloc();
    for (place, (exchanges, words, status, text)) in STATUSES.iter().enumerate() {
        let stores = behind(alloc, *exchanges, &[], &[])?;
        let want = (*status, *text);
        answers(&rt, alloc, stores, words, with_body(FOO), want, place)?;
    }
    Ok(())
}

// Which reads of a publish's input and which writes of its output fail, how many bytes that takes, and what is written.
const FAULTS: [(&[u64], &[u64], u64, &str); 4] = [
    (&[1], &[], 2000, "fault input\n"),
    (&[2], &[], 2000, "fault input\n"),
    (&[], &[1], 2000, ""),
    (&[], &[], 10, ""),
];

#[test]
fn tells_faults_of_input_and_output(rt: HostRuntime) -> Result<(), Fail> {
    let alloc = rt.alloc();
    for (place, (reads, writes, room, text)) in FAULTS.iter().enumerate() {
        let stores = behind(alloc, 1, &[], &[])?;
        let given = Given {
            reads: *reads,
            room: *room,
            writes: *writes,
            ..with_body(FOO)
        };
        answers(&rt, alloc, stores, &["publish"], given, (5, *text), place)?;
    }
    Ok(())
}

// Commands one behind the other on the same stores, from empty ones.
const ALL_IN_ORDER: [Exchange<'_>; 33] = [
    (&["init", "http://f.test"], "", 2, USAGE),
    (&["init", "http://f.test/"], "", 0, "initialised\n"),
    (&["init", "http://f.test/"], "", 3, "refused initialised\n"),
    (&["job", "content"], "", 0, "idle content 0\n"),
    (&["publish"], FOO, 0, DONE),
    (&["publish"], FOO, 3, "refused exists 0 1\n"),
    (&["publish"], FOO_IN_CAPITALS, 3, "refused exists 0 1\n"),
    (&["publish"], SHORT, 3, "refused exists 0 1\n"),
    (&["publish"], LONGER, 3, "refused body 0\n"),
    (&["get", "/v3/flat/foo/index.json"], "", 3, MISSING),
    (&["job", "content"], "", 0, "done content 1\n"),
    (&["job", "content"], "", 0, "idle content 1\n"),
    (&["get", "/v3/catalog/index.json"], "", 0, INDEX),
    (&["get", "/v3/catalog/page0.json?a=b"], "", 0, PAGE),
    (&["get", "/v3/catalog/data/1/0.json"], "", 0, LEAF),
    (&["get", "/v3/catalog/page1.json"], "", 3, MISSING),
    (&["get", "/v3/catalog/data/1/1.json"], "", 3, MISSING),
    (&["get", "/v3/catalog/data/2/0.json"], "", 3, MISSING),
    (&["get", "/v3/catalog/staged/1/0.nupkg"], "", 3, MISSING),
    (&["get", "/v3/flat/foo/index.json"], "", 0, VERSIONS),
    (&["get", "/v3/flat/Foo/index.json"], "", 3, MISSING),
    (&["get", "/v3/flat/bar/index.json"], "", 3, MISSING),
    (
        &["get", "/v3/flat/foo/1.0.0/foo.nuspec"],
        "",
        0,
        "<package/>",
    ),
    (&["get", "/v3/flat/foo/1.0.0/foo.1.0.0.nupkg"], "", 0, "abc"),
    (&["get", "/v3/flat/foo/1.0.1/foo.nuspec"], "", 3, MISSING),
    (&["get", "/v3/index.json"], "", 0, SERVICES),
    (&["get", "/v3/index.json?a=b"], "", 0, SERVICES),
    (&["get", "/v3/autocomplete?q=a"], "", 3, SERVED),
    (&["get", "/admin/publish"], "", 3, SERVED),
    (&["get", "/admin/job/plain"], "", 3, SERVED),
    (&["get", "/admin/cursor/auto"], "", 3, SERVED),
    (&["get", "/nowhere"], "", 3, MISSING),
    (&["get", "index.json"], "", 3, MISSING),
];

// The same with the jobs of the registrations.
const REGISTRATIONS: [Exchange<'_>; 17] = [
    (&["init", "http://f.test/"], "", 0, "initialised\n"),
    (&["job", "plain"], "", 0, "idle plain 0\n"),
    (&["publish"], FOO, 0, DONE),
    (&["get", "/v3/registration/foo/index.json"], "", 3, MISSING),
    (&["job", "plain"], "", 0, "done plain 1\n"),
    (&["job", "plain"], "", 0, "idle plain 1\n"),
    (&["cursor", "catalog"], "", 2, USAGE),
    (
        &["get", "/v3/registration/foo/index.json"],
        "",
        0,
        PLAIN_INDEX,
    ),
    (
        &["get", "/v3/registration/foo/1.0.0.json?a=b"],
        "",
        0,
        PLAIN_LEAF,
    ),
    (
        &["get", "/v3/registration/foo/page/1.0.0/1.0.0.json"],
        "",
        3,
        MISSING,
    ),
    (&["get", "/v3/registration/bar/index.json"], "", 3, MISSING),
    (
        &["get", "/v3/registration-semver2/foo/index.json"],
        "",
        3,
        MISSING,
    ),
    (&["job", "semver2"], "", 0, "done semver2 1\n"),
    (
        &["get", "/v3/registration-semver2/foo/index.json"],
        "",
        0,
        SEMVER2_INDEX,
    ),
    (
        &["get", "/v3/registration-semver2/foo/1.0.0.json"],
        "",
        0,
        SEMVER2_LEAF,
    ),
    (
        &["get", "/v3/registration-semver2/foo/1.0.1.json"],
        "",
        3,
        MISSING,
    ),
    (&["get", "/v3/flat/foo/index.json"], "", 3, MISSING),
];

// Asserts that the area holds what the first publish leaves.
fn holds_first(rt: &impl Abort, alloc: Global, area: &mut MemBlobs) {
    for (name, text) in &FIRST {
        same(rt, holds(alloc, area, name, text), true, *name);
    }
}

#[test]
fn commands_follow_each_other(rt: HostRuntime) -> Result<(), Fail> {
    let alloc = rt.alloc();
    let mut stores = follow(&rt, alloc, &ALL_IN_ORDER)?;
    holds_first(&rt, alloc, &mut stores.catalog);
    let mut stores = follow(&rt, alloc, &REGISTRATIONS)?;
    holds_first(&rt, alloc, &mut stores.catalog);
    Ok(())
}

const UNLISTED: &str =
    "{\"@id\":\"http://f.test/v3/catalog/data/2/0.json\",\"@type\":[\"PackageDetails\"],\"catalog:commitId\":\"00000000-0000-0000-0000-000000000002\",\"catalog:commitTimeStamp\":\"2024-01-01T00:00:00.0000001Z\",\"created\":\"2024-01-01T00:00:00.0000000Z\",\"id\":\"Foo\",\"isPrerelease\":false,\"listed\":false,\"origin\":\"1/0\",\"packageHash\":\"3a81oZNherrMQXNJriBBMRLm+k6JqX6iCp7u5ktV05ohkpkqJ0/BqDa6PCOj/uu9RU1EI2Q86A4qmslPpUyknw==\",\"packageHashAlgorithm\":\"SHA512\",\"packageSize\":3,\"published\":\"1900-01-01T00:00:00.0000000Z\",\"verbatimVersion\":\"1.0.0\",\"version\":\"1.0.0\"}";

// The same listed again.
const RELISTED: &str =
    "{\"@id\":\"http://f.test/v3/catalog/data/3/0.json\",\"@type\":[\"PackageDetails\"],\"catalog:commitId\":\"00000000-0000-0000-0000-000000000003\",\"catalog:commitTimeStamp\":\"2024-01-01T00:00:00.0000002Z\",\"created\":\"2024-01-01T00:00:00.0000000Z\",\"id\":\"Foo\",\"isPrerelease\":false,\"listed\":true,\"origin\":\"1/0\",\"packageHash\":\"3a81oZNherrMQXNJriBBMRLm+k6JqX6iCp7u5ktV05ohkpkqJ0/BqDa6PCOj/uu9RU1EI2Q86A4qmslPpUyknw==\",\"packageHashAlgorithm\":\"SHA512\",\"packageSize\":3,\"published\":\"2024-01-01T00:00:00.0000000Z\",\"verbatimVersion\":\"1.0.0\",\"version\":\"1.0.0\"}";

// The commands that name versions, from empty stores on.
const LISTINGS: [Exchange<'_>; 17] = [
    (&["init", "http://f.test/"], "", 0, "initialised\n"),
    (&["publish"], FOO, 0, DONE),
    (&["list", "Foo", "1.0.0"], "", 3, "refused already 0 1\n"),
    (&["delete", "Bar", "1.0.0"], "", 3, "refused absent 0 0\n"),
    (
        &["unlist", "Foo", "1.0.0"],
        "",
        0,
        "committed 2 2024-01-01T00:00:00.0000001Z\n",
    ),
    (&["get", "/v3/catalog/data/2/0.json"], "", 0, UNLISTED),
    (&["unlist", "Foo", "1.0.0"], "", 3, "refused already 0 2\n"),
    (&["unlist", "FOO", "1.0"], "", 3, "refused already 0 2\n"),
    (
        &["list", "Foo", "1.0.0"],
        "",
        0,
        "committed 3 2024-01-01T00:00:00.0000002Z\n",
    ),
    (&["get", "/v3/catalog/data/3/0.json"], "", 0, RELISTED),
    (
        &["publish"],
        BAR,
        0,
        "committed 4 2024-01-01T00:00:00.0000003Z\n",
    ),
    (
        &["unlist", "Bar", "1.0.0", "Foo", "1.0.0"],
        "",
        0,
        "committed 5 2024-01-01T00:00:00.0000004Z\n",
    ),
    (
        &["delete", "Foo", "1.0.0"],
        "",
        0,
        "committed 6 2024-01-01T00:00:00.0000005Z\n",
    ),
    (&["delete", "Foo", "1.0.0"], "", 3, "refused absent 0 6\n"),
    (&["job", "content"], "", 0, "done content 6\n"),
    (&["get", "/v3/flat/foo/index.json"], "", 3, MISSING),
    (&["get", "/v3/flat/bar/index.json"], "", 0, VERSIONS),
];

#[test]
fn named_versions_are_changed(rt: HostRuntime) -> Result<(), Fail> {
    follow(&rt, rt.alloc(), &LISTINGS)?;
    Ok(())
}

// How many exchanges come before, words that name versions, and the status and the text that they are answered.
const PAIRS: [(usize, &[&str], u8, &str); 14] = [
    (2, &["unlist"], 2, USAGE),
    (2, &["list", "Foo"], 2, USAGE),
    (2, &["delete", "Foo", "1.0.0", "Bar"], 2, USAGE),
    (2, &["relist", "Foo", "1.0.0"], 2, USAGE),
    (2, &["publish", "Foo", "1.0.0"], 2, USAGE),
    (0, &["unlist", "Foo", "1.0.0"], 3, "refused uninitialised\n"),
    (0, &["unlist", "Foo", "x"], 3, "refused version 0\n"),
    (2, &["list", "", "1.0.0"], 3, "refused id 0\n"),
    (2, &["delete", "a b", "x"], 3, "refused id 0\n"),
    (
        2,
        &["delete", "Foo", "1.0.0", "a b", "1.0.0"],
        3,
        "refused id 1\n",
    ),
    (
        2,
        &["unlist", "Foo", "x", "a b", "1.0.0"],
        3,
        "refused version 0\n",
    ),
    (
        2,
        &["delete", "Foo", "1.0.0", "foo", "1.0"],
        3,
        "refused twice 1\n",
    ),
    (
        2,
        &["unlist", "Foo", "1.0.0", "Bar", "1.0.0"],
        3,
        "refused absent 1 0\n",
    ),
    (
        2,
        &["unlist", "Foo", "1.0.0"],
        0,
        "committed 2 2024-01-01T00:00:00.0000001Z\n",
    ),
];

#[test]
fn pairs_of_words_are_read(rt: HostRuntime) -> Result<(), Fail> {
    let alloc = rt.alloc();
    for (place, (exchanges, words, status, text)) in PAIRS.iter().enumerate() {
        let stores = behind(alloc, *exchanges, &[], &[])?;
        let unread = Given {
            reads: &[1],
            ..with_body(FOO)
        };
        answers(&rt, alloc, stores, words, unread, (*status, *text), place)?;
    }
    Ok(())
}

// The clock's moment at a first publish, and what that and a second one are told.
const STAMPS: [(u64, &str, &str); 2] = [
    (
        NEW_YEAR + 36_000_000_000,
        "committed 1 2024-01-01T01:00:00.0000000Z\n",
        "committed 2 2024-01-01T01:00:00.0000001Z\n",
    ),
    (
        LAST,
        "committed 1 9999-12-31T23:59:59.9999999Z\n",
        "refused clockend\n",
    ),
];

// Asserts what a publish is told, and gives what it leaves of the stores.
fn published(
    rt: &impl Abort,
    alloc: Global,
    stores: Stores<MemBlobs>,
    given: Given<'_>,
    line: &str,
) -> Result<Stores<MemBlobs>, NoMemory> {
    let (_, output, left) = run(alloc, stores, &["publish"], given)?;
    same(rt, output.bytes(), line.as_bytes(), line);
    Ok(left)
}

#[test]
fn stamps_follow_each_other(rt: HostRuntime) -> Result<(), Fail> {
    let alloc = rt.alloc();
    for (tick, line, second) in &STAMPS {
        let stores = behind(alloc, 1, &[], &[])?;
        let first = Given {
            tick: *tick,
            ..with_body(FOO)
        };
        let stores = published(&rt, alloc, stores, first, line)?;
        published(&rt, alloc, stores, with_body(BAR), second)?;
    }
    Ok(())
}
