// Documents byte for byte.
use crate::catalogs::{commit, details, publishes, told};
use crate::same::same;
use fold_core::{Commit, Item, Many, NoMemory, from_scratch};
use reg_docs::{Plain, SemVer2};
use std::alloc::Global;
use std::process::Abort;
use std::test::Fail;

const BARE: &str = r#"{"id":"Foo","version":"1.0.0"}"#;

const ON_SEMVER2: &str =
    r#"{"id":"Foo","version":"1.0.0","dependencyGroups":[{"dependencies":[{"id":"Bar","range":"[1.0.0-a.b, )"}]}]}"#;

const LABELLED: &str = r#"{"id":"FOO","version":"1.0.0-RC"}"#;

const WITH_ALL: &str =
    r#"{"authors":"A. B, C \"D\"","dependencyGroups":[{"dependencies":[{"id":"Bar.Core","range":"[1.0.0, 2.0.0)"},{"id":"baz",
"range":"(, )"}],"targetFramework":"net8.0"},{"dependencies":[{"id":"Bar.Core","range":"[1.0.0-RC, 1.0.0-RC]"}]},{
"targetFramework":"net6.0"}],"description":"Café\n\tof \\ and /","iconUrl":"http://i.test/i.png","id":"Foo",
"licenseUrl":"http://l.test/l","minClientVersion":"2.12","projectUrl":"http://p.test/","releaseNotes":"R.",
"requireLicenseAcceptance":false,"summary":"S.","tags":["a","b c"],"title":"Foo!","version":"2.0.1.0"}"#;

// Names and texts, with line ends that aren't theirs.
const FIRST: &str = r#"d/foo/index.json
{"@id":"http://f.test/v3/registration/foo/index.json","commitId":"00000000-0000-0000-0000-000000000001","commitTimeStamp":"2024-01-01T00:00:00.0000000Z",
"count":1,"items":[{"@id":"http://f.test/v3/registration/foo/index.json#page/1.0.0/1.0.0","count":1,"items":[{
"@id":"http://f.test/v3/registration/foo/1.0.0.json","catalogEntry":{"@id":"http://f.test/v3/catalog/data/1/0.json","id":"Foo","listed":true,
"published":"2024-01-01T00:00:00.0000000Z","version":"1.0.0"},"packageContent":"http://f.test/v3/flat/foo/1.0.0/foo.1.0.0.nupkg"}],"lower":"1.0.0",
"parent":"http://f.test/v3/registration/foo/index.json","upper":"1.0.0"}]}
d/foo/1.0.0.json
{"@id":"http://f.test/v3/registration/foo/1.0.0.json","catalogEntry":"http://f.test/v3/catalog/data/1/0.json","listed":true,
"packageContent":"http://f.test/v3/flat/foo/1.0.0/foo.1.0.0.nupkg","published":"2024-01-01T00:00:00.0000000Z",
"registration":"http://f.test/v3/registration/foo/index.json"}"#;

const DEPENDING: &str = r#"d/foo/index.json
{"@id":"http://f.test/v3/registration-semver2/foo/index.json","commitId":"00000000-0000-0000-0000-000000000001",
"commitTimeStamp":"2024-01-01T00:00:00.0000000Z","count":1,"items":[{"@id":"http://f.test/v3/registration-semver2/foo/index.json#page/1.0.0/1.0.0","count":1,
"items":[{"@id":"http://f.test/v3/registration-semver2/foo/1.0.0.json","catalogEntry":{"@id":"http://f.test/v3/catalog/data/1/0.json","dependencyGroups":[{
"dependencies":[{"id":"Bar","range":"[1.0.0-a.b, )","registration":"http://f.test/v3/registration-semver2/bar/index.json"}]}],"id":"Foo","listed":true,
"published":"2024-01-01T00:00:00.0000000Z","version":"1.0.0"},"packageContent":"http://f.test/v3/flat/foo/1.0.0/foo.1.0.0.nupkg"}],"lower":"1.0.0",
"parent":"http://f.test/v3/registration-semver2/foo/index.json","upper":"1.0.0"}]}
d/foo/1.0.0.json
{"@id":"http://f.test/v3/registration-semver2/foo/1.0.0.json","catalogEntry":"http://f.test/v3/catalog/data/1/0.json","listed":true,
"packageContent":"http://f.test/v3/flat/foo/1.0.0/foo.1.0.0.nupkg","published":"2024-01-01T00:00:00.0000000Z",
"registration":"http://f.test/v3/registration-semver2/foo/index.json"}"#;

const THREE: &str = r#"d/foo/index.json
{"@id":"http://f.test/v3/registration/foo/index.json","commitId":"00000000-0000-0000-0000-000000000002","commitTimeStamp":"2024-01-01T00:00:01.0000000Z",
"count":1,"items":[{"@id":"http://f.test/v3/registration/foo/index.json#page/1.0.0-rc/2.0.1","count":3,"items":[{
"@id":"http://f.test/v3/registration/foo/1.0.0-rc.json","catalogEntry":{"@id":"http://f.test/v3/catalog/data/2/0.json","id":"FOO","listed":false,
"published":"1900-01-01T00:00:00.0000000Z","version":"1.0.0-RC"},"packageContent":"http://f.test/v3/flat/foo/1.0.0-rc/foo.1.0.0-rc.nupkg"},{
"@id":"http://f.test/v3/registration/foo/1.0.0.json","catalogEntry":{"@id":"http://f.test/v3/catalog/data/1/0.json","id":"Foo","listed":true,
"published":"2024-01-01T00:00:00.0000000Z","version":"1.0.0"},"packageContent":"http://f.test/v3/flat/foo/1.0.0/foo.1.0.0.nupkg"},{
"@id":"http://f.test/v3/registration/foo/2.0.1.json","catalogEntry":{"@id":"http://f.test/v3/catalog/data/1/1.json","authors":"A. B, C \"D\"",
"dependencyGroups":[{"dependencies":[{"id":"Bar.Core","range":"[1.0.0, 2.0.0)","registration":"http://f.test/v3/registration/bar.core/index.json"},{"id":"baz",
"range":"(, )","registration":"http://f.test/v3/registration/baz/index.json"}],"targetFramework":"net8.0"},{"dependencies":[{"id":"Bar.Core",
"range":"[1.0.0-RC, 1.0.0-RC]","registration":"http://f.test/v3/registration/bar.core/index.json"}]},{"targetFramework":"net6.0"}],
"description":"Café\n\tof \\ and /","iconUrl":"http://i.test/i.png","id":"Foo","licenseUrl":"http://l.test/l","listed":true,"minClientVersion":"2.12",
"projectUrl":"http://p.test/","published":"2024-01-01T00:00:00.0000000Z","requireLicenseAcceptance":false,"summary":"S.","tags":["a","b c"],"title":"Foo!",
"version":"2.0.1"},"packageContent":"http://f.test/v3/flat/foo/2.0.1/foo.2.0.1.nupkg"}],"lower":"1.0.0-RC",
"parent":"http://f.test/v3/registration/foo/index.json","upper":"2.0.1"}]}
d/foo/1.0.0-rc.json
{"@id":"http://f.test/v3/registration/foo/1.0.0-rc.json","catalogEntry":"http://f.test/v3/catalog/data/2/0.json","listed":false,
"packageContent":"http://f.test/v3/flat/foo/1.0.0-rc/foo.1.0.0-rc.nupkg","published":"1900-01-01T00:00:00.0000000Z",
"registration":"http://f.test/v3/registration/foo/index.json"}
d/foo/1.0.0.json
{"@id":"http://f.test/v3/registration/foo/1.0.0.json","catalogEntry":"http://f.test/v3/catalog/data/1/0.json","listed":true,
"packageContent":"http://f.test/v3/flat/foo/1.0.0/foo.1.0.0.nupkg","published":"2024-01-01T00:00:00.0000000Z",
"registration":"http://f.test/v3/registration/foo/index.json"}
d/foo/2.0.1.json
{"@id":"http://f.test/v3/registration/foo/2.0.1.json","catalogEntry":"http://f.test/v3/catalog/data/1/1.json","listed":true,
"packageContent":"http://f.test/v3/flat/foo/2.0.1/foo.2.0.1.nupkg","published":"2024-01-01T00:00:00.0000000Z",
"registration":"http://f.test/v3/registration/foo/index.json"}"#;

// Asserts what both hives make of commits, `SemVer2` the same with addresses of its own.
fn check(rt: &impl Abort, alloc: Global, commits: &[Commit], want: &str) -> Result<(), NoMemory> {
    let want = want.replace(alloc, "\n", "")?;
    same(
        rt,
        told::<Plain>(alloc, commits)?.as_str(),
        want.as_str(),
        "plain",
    );
    let want = want.replace(alloc, "v3/registration/", "v3/registration-semver2/")?;
    same(
        rt,
        told::<SemVer2>(alloc, commits)?.as_str(),
        want.as_str(),
        "semver2",
    );
    Ok(())
}

#[test]
fn the_first_publish(rt: HostRuntime) -> Result<(), Fail> {
    let commits = [publishes(rt.alloc(), 1, &[BARE])?];
    check(&rt, rt.alloc(), &commits, FIRST)?;
    Ok(())
}

#[test]
fn a_dependency_on_a_semver2_version(rt: HostRuntime) -> Result<(), Fail> {
    let alloc = rt.alloc();
    let commits = [publishes(alloc, 1, &[ON_SEMVER2])?];
    let entries = from_scratch::<Plain>(alloc, &commits, "foo")?.len();
    same(&rt, entries, 0, "the plain entries");
    same(&rt, told::<Plain>(alloc, &commits)?.as_str(), "", "plain");
    let want = DEPENDING.replace(alloc, "\n", "")?;
    same(
        &rt,
        told::<SemVer2>(alloc, &commits)?.as_str(),
        want.as_str(),
        "semver2",
    );
    Ok(())
}

// A commit that unlists the third publish of the first one.
fn unlisting(alloc: Global) -> Result<Commit, NoMemory> {
    let mut unlisted = details(alloc, LABELLED, 1, 2)?;
    unlisted.listed = false;
    let mut items = Many::new(alloc);
    items.push(Item::Details(unlisted))?;
    Ok(commit(2, items))
}

#[test]
fn all_metadata_none_and_an_unlisting(rt: HostRuntime) -> Result<(), Fail> {
    let alloc = rt.alloc();
    let first = publishes(alloc, 1, &[BARE, WITH_ALL, LABELLED])?;
    check(&rt, alloc, &[first, unlisting(alloc)?], THREE)?;
    Ok(())
}
