// Jobs and cursors of the four hives.
use crate::commands::{answers, follow};
use crate::same::same;
use blob_store::{Blobs, Fail as Fault, MemBlobs};
use feed_app::Stores;
use feed_base::{Bytes, NoMemory};
use feed_runs::{BAR, DONE, Exchange, FOO, MISSING, VERSIONS, empty, run, with_body};
use std::alloc::Global;
use std::process::Abort;
use std::test::Fail;

// Foo's version with another package.
const FOO_AGAIN: &str = "30 10 4\n{\"id\":\"Foo\",\"version\":\"1.0.0\"}<package/>abcd";

const SECOND: &str = "committed 2 2024-01-01T00:00:00.0000001Z\n";

const THIRD: &str = "committed 3 2024-01-01T00:00:00.0000002Z\n";

const FOURTH: &str = "committed 4 2024-01-01T00:00:00.0000003Z\n";

// Jobs of each hive, and the cursors before and behind them.
const HIVES: [Exchange<'_>; 20] = [
    (&["cursor", "plain"], "", 3, "refused uninitialised\n"),
    (&["job", "auto"], "", 3, "refused uninitialised\n"),
    (&["init", "http://f.test/"], "", 0, "initialised\n"),
    (&["cursor", "plain"], "", 0, "cursor plain 0\n"),
    (&["job", "plain"], "", 0, "idle plain 0\n"),
    (&["publish"], FOO, 0, DONE),
    (&["cursor", "auto"], "", 0, "cursor auto 0\n"),
    (&["job", "plain"], "", 0, "done plain 1\n"),
    (&["cursor", "semver2"], "", 0, "cursor semver2 0\n"),
    (&["job", "semver2"], "", 0, "done semver2 1\n"),
    (&["job", "content"], "", 0, "done content 1\n"),
    (&["job", "auto"], "", 0, "done auto 1\n"),
    (&["cursor", "plain"], "", 0, "cursor plain 1\n"),
    (&["cursor", "semver2"], "", 0, "cursor semver2 1\n"),
    (&["cursor", "content"], "", 0, "cursor content 1\n"),
    (&["cursor", "auto"], "", 0, "cursor auto 1\n"),
    (&["job", "plain"], "", 0, "idle plain 1\n"),
    (&["job", "semver2"], "", 0, "idle semver2 1\n"),
    (&["job", "content"], "", 0, "idle content 1\n"),
    (&["job", "auto"], "", 0, "idle auto 1\n"),
];

// A publish, a delete and another publish behind the first jobs.
const LATER: [Exchange<'_>; 24] = [
    (&["init", "http://f.test/"], "", 0, "initialised\n"),
    (&["publish"], FOO, 0, DONE),
    (&["job", "plain"], "", 0, "done plain 1\n"),
    (&["job", "content"], "", 0, "done content 1\n"),
    (&["publish"], BAR, 0, SECOND),
    (&["cursor", "plain"], "", 0, "cursor plain 1\n"),
    (&["get", "/v3/flat/bar/index.json"], "", 3, MISSING),
    (&["job", "plain"], "", 0, "done plain 2\n"),
    (&["job", "content"], "", 0, "done content 2\n"),
    (&["get", "/v3/flat/foo/index.json"], "", 0, VERSIONS),
    (&["get", "/v3/flat/bar/index.json"], "", 0, VERSIONS),
    (&["delete", "foo", "1.0"], "", 0, THIRD),
    (&["get", "/v3/flat/foo/index.json"], "", 0, VERSIONS),
    (&["job", "plain"], "", 0, "done plain 3\n"),
    (&["job", "content"], "", 0, "done content 3\n"),
    (&["get", "/v3/registration/foo/index.json"], "", 3, MISSING),
    (&["get", "/v3/flat/foo/index.json"], "", 3, MISSING),
    (&["publish"], FOO_AGAIN, 0, FOURTH),
    (&["job", "content"], "", 0, "done content 4\n"),
    (
        &["get", "/v3/flat/foo/1.0.0/foo.1.0.0.nupkg"],
        "",
        0,
        "abcd",
    ),
    (&["get", "/v3/flat/foo/index.json"], "", 0, VERSIONS),
    (&["cursor", "plain"], "", 0, "cursor plain 3\n"),
    (&["cursor", "content"], "", 0, "cursor content 4\n"),
    (&["cursor", "auto"], "", 0, "cursor auto 0\n"),
];

const GONE: &str =
    "{\"@id\":\"http://f.test/v3/catalog/data/2/0.json\",\"@type\":[\"PackageDelete\"],\"catalog:commitId\":\"00000000-0000-0000-0000-000000000002\",\"catalog:commitTimeStamp\":\"2024-01-01T00:00:00.0000001Z\",\"id\":\"Foo\",\"published\":\"2024-01-01T00:00:00.0000001Z\",\"version\":\"1.0.0\"}";

// Its hash is that of `abcd`.
const AGAIN: &str =
    "{\"@id\":\"http://f.test/v3/catalog/data/3/0.json\",\"@type\":[\"PackageDetails\"],\"catalog:commitId\":\"00000000-0000-0000-0000-000000000003\",\"catalog:commitTimeStamp\":\"2024-01-01T00:00:00.0000002Z\",\"created\":\"2024-01-01T00:00:00.0000002Z\",\"id\":\"Foo\",\"isPrerelease\":false,\"listed\":true,\"origin\":\"3/0\",\"packageHash\":\"2AIvIGCtbv0perc9zFNVybIUBUsNF3ahNqZp0mp9OxT3OqDQ6/8Z7jMzaPAWS2QZqW2knj5IF1Pn6Wtxa9zLbw==\",\"packageHashAlgorithm\":\"SHA512\",\"packageSize\":4,\"published\":\"2024-01-01T00:00:00.0000002Z\",\"verbatimVersion\":\"1.0.0\",\"version\":\"1.0.0\"}";

// A package that goes with all its documents, and comes again with other bytes.
const GONE_AND_AGAIN: [Exchange<'_>; 22] = [
    (&["init", "http://f.test/"], "", 0, "initialised\n"),
    (&["publish"], FOO, 0, DONE),
    (&["job", "plain"], "", 0, "done plain 1\n"),
    (&["job", "semver2"], "", 0, "done semver2 1\n"),
    (&["job", "content"], "", 0, "done content 1\n"),
    (&["job", "auto"], "", 0, "done auto 1\n"),
    (&["delete", "foo", "1.0"], "", 0, SECOND),
    (&["job", "plain"], "", 0, "done plain 2\n"),
    (&["job", "semver2"], "", 0, "done semver2 2\n"),
    (&["job", "content"], "", 0, "done content 2\n"),
    (&["job", "auto"], "", 0, "done auto 2\n"),
    (&["get", "/v3/registration/foo/index.json"], "", 3, MISSING),
    (&["get", "/v3/registration/foo/1.0.0.json"], "", 3, MISSING),
    (
        &["get", "/v3/registration-semver2/foo/index.json"],
        "",
        3,
        MISSING,
    ),
    (&["get", "/v3/flat/foo/index.json"], "", 3, MISSING),
    (&["get", "/v3/catalog/data/2/0.json"], "", 0, GONE),
    (&["unlist", "Foo", "1.0.0"], "", 3, "refused absent 0 2\n"),
    (&["publish"], FOO_AGAIN, 0, THIRD),
    (&["get", "/v3/catalog/data/3/0.json"], "", 0, AGAIN),
    (&["job", "content"], "", 0, "done content 3\n"),
    (
        &["get", "/v3/flat/foo/1.0.0/foo.1.0.0.nupkg"],
        "",
        0,
        "abcd",
    ),
    (&["get", "/v3/flat/foo/index.json"], "", 0, VERSIONS),
];

#[test]
fn a_package_goes_and_comes_again(rt: HostRuntime) -> Result<(), Fail> {
    follow(&rt, rt.alloc(), &GONE_AND_AGAIN)?;
    Ok(())
}

#[test]
fn jobs_take_up_what_is_new(rt: HostRuntime) -> Result<(), Fail> {
    let alloc = rt.alloc();
    follow(&rt, alloc, &HIVES)?;
    follow(&rt, alloc, &LATER)?;
    Ok(())
}

// A command's words and its body.
type Command<'a> = (&'a [&'a str], &'a str);

// The commands before a job of the content hive, and the first and the last call of the hive's store in that job. The job gets
// the cursor and the id's state, puts that, puts or removes three documents, puts the state again, and then the cursor.
const BEFORE: [(&[Command<'_>], u64, u64); 2] = [
    (
        &[(&["init", "http://f.test/"], ""), (&["publish"], FOO)],
        1,
        8,
    ),
    (
        &[
            (&["init", "http://f.test/"], ""),
            (&["publish"], FOO),
            (&["job", "content"], ""),
            (&["delete", "Foo", "1.0.0"], ""),
        ],
        9,
        16,
    ),
];

const JOB: &[&str] = &["job", "content"];

// What may be held behind the job.
const NAMES: [&str; 4] = [
    "cursor.json",
    "d/foo/index.json",
    "d/foo/1.0.0/foo.1.0.0.nupkg",
    "d/foo/1.0.0/foo.nuspec",
];

// The stores behind these commands, where these calls of the content's store fail.
fn after(
    alloc: Global,
    commands: &[Command<'_>],
    fails: &[Fault],
) -> Result<Stores<MemBlobs>, NoMemory> {
    let mut stores = empty(alloc, &[], fails)?;
    for (words, body) in commands {
        let (_, _, left) = run(alloc, stores, words, with_body(body))?;
        stores = left;
    }
    Ok(stores)
}

// Whether both are the same bytes, or none.
fn are_same(left: &Option<Bytes>, want: &Option<Bytes>) -> bool {
    match (left, want) {
        (Some(left), Some(want)) => left.as_slice() == want.as_slice(),
        (None, None) => true,
        _ => false,
    }
}

// Whether both areas hold the same under a name.
fn are_alike(alloc: Global, left: &mut MemBlobs, want: &mut MemBlobs, name: &str) -> bool {
    match (left.get(alloc, name), want.get(alloc, name)) {
        (Ok(left), Ok(want)) => are_same(&left, &want),
        _ => false,
    }
}

// Asserts that a job on these stores is done, and leaves the same documents as on those.
fn is_made_good(
    rt: &impl Abort,
    alloc: Global,
    stores: Stores<MemBlobs>,
    others: Stores<MemBlobs>,
) -> Result<(), NoMemory> {
    let (told, _, mut stores) = run(alloc, stores, JOB, with_body(""))?;
    same(rt, told, 0, "a job that makes good");
    let (_, _, mut others) = run(alloc, others, JOB, with_body(""))?;
    for name in &NAMES {
        let are_alike = are_alike(alloc, &mut stores.content, &mut others.content, name);
        same(rt, are_alike, true, *name);
    }
    Ok(())
}

// Asserts that the job fails where this call does, and that the next one makes it good.
fn check_job(
    rt: &impl Abort,
    alloc: Global,
    commands: &[Command<'_>],
    call: u64,
    took: bool,
) -> Result<(), NoMemory> {
    let stores = after(alloc, commands, &[Fault { call, took }])?;
    let want = (4, "fault content\n");
    let stores = answers(rt, alloc, stores, JOB, with_body(""), want, call)?;
    let others = after(alloc, commands, &[])?;
    is_made_good(rt, alloc, stores, others)
}

#[test]
fn a_job_makes_good_what_failed(rt: HostRuntime) -> Result<(), Fail> {
    let alloc = rt.alloc();
    for (commands, first, last) in &BEFORE {
        for call in *first..=*last {
            check_job(&rt, alloc, commands, call, false)?;
            check_job(&rt, alloc, commands, call, true)?;
        }
    }
    Ok(())
}
