// The content hive's documents of publishes, an unlisting, a delete and a publish again.
use crate::catalogs::{commit, details, gone, publishes, text_of};
use crate::same::same;
use flat_container::{Body, Content, Hive, HiveName};
use fold_core::{Commit, Doc, Item, Many, NoMemory, docs_from_scratch};
use std::alloc::{AllocError, Global};
use std::test::Fail;

const RELEASE: &str = r#"{"id":"Foo","version":"1.10.0-RC"}"#;

const SHORT: &str = r#"{"id":"Foo","version":"1.2"}"#;

const OTHER: &str = r#"{"id":"Bar.Core","version":"1.0.0"}"#;

const AGAIN: &str = r#"{"id":"Foo","version":"1.10.0-rc+x"}"#;

// Name by name what each document is: a text, or the number and place of a publish whose package or manifest it is.
const BOTH: &str = "\
d/foo/index.json {\"versions\":[\"1.2.0\",\"1.10.0-rc\"]}
d/foo/1.2.0/foo.1.2.0.nupkg package 1 1
d/foo/1.2.0/foo.nuspec manifest 1 1
d/foo/1.10.0-rc/foo.1.10.0-rc.nupkg package 1 0
d/foo/1.10.0-rc/foo.nuspec manifest 1 0
";

const DELETED: &str = "\
d/foo/index.json {\"versions\":[\"1.2.0\"]}
d/foo/1.2.0/foo.1.2.0.nupkg package 1 1
d/foo/1.2.0/foo.nuspec manifest 1 1
";

const PUBLISHED_AGAIN: &str = "\
d/foo/index.json {\"versions\":[\"1.2.0\",\"1.10.0-rc\"]}
d/foo/1.2.0/foo.1.2.0.nupkg package 1 1
d/foo/1.2.0/foo.nuspec manifest 1 1
d/foo/1.10.0-rc/foo.1.10.0-rc.nupkg package 4 0
d/foo/1.10.0-rc/foo.nuspec manifest 4 0
";

const OF_BAR: &str = "\
d/bar.core/index.json {\"versions\":[\"1.0.0\"]}
d/bar.core/1.0.0/bar.core.1.0.0.nupkg package 1 2
d/bar.core/1.0.0/bar.core.nuspec manifest 1 2
";

fn commit_of(alloc: Global, number: u32, item: Item) -> Result<Commit, NoMemory> {
    let mut items = Many::new(alloc);
    items.push(item)?;
    Ok(commit(number, items))
}

fn unlisting(alloc: Global) -> Result<Commit, NoMemory> {
    let mut unlisted = details(alloc, SHORT, 1, 1)?;
    unlisted.listed = false;
    commit_of(alloc, 2, Item::Details(unlisted))
}

fn delete(alloc: Global) -> Result<Commit, NoMemory> {
    commit_of(alloc, 3, gone(alloc, RELEASE)?)
}

// Three publishes, an unlisting of the second, a delete of the first, and a publish of it again.
fn catalog(alloc: Global) -> Result<[Commit; 4], NoMemory> {
    let first = publishes(alloc, 1, &[RELEASE, SHORT, OTHER])?;
    let again = publishes(alloc, 4, &[AGAIN])?;
    Ok([first, unlisting(alloc)?, delete(alloc)?, again])
}

fn line(alloc: Global, doc: &Doc) -> Result<String, AllocError> {
    let name = doc.name.as_str();
    match &doc.body {
        Body::Made(_) => {
            let text = text_of(doc);
            format!(in alloc; "{name} {text}\n")
        }
        Body::Staged {
            number,
            place,
            nuspec,
        } => {
            let file = if *nuspec { "manifest" } else { "package" };
            format!(in alloc; "{name} {file} {number} {place}\n")
        }
    }
}

// The documents of an id after so many commits.
fn told(alloc: Global, commits: &[Commit], count: usize, key: &str) -> Result<String, NoMemory> {
    let mut told = String::new(alloc);
    let commits = commits.get(..count).unwrap_or(&[]);
    for doc in docs_from_scratch::<Content>(alloc, "http://f.test/", commits, key)?.as_slice() {
        told.push_str(&line(alloc, doc)?)?;
    }
    Ok(told)
}

// How many commits there are, an id's key, and its documents.
const DOCUMENTS: [(usize, &str, &str); 7] = [
    (0, "foo", ""),
    (1, "foo", BOTH),
    (2, "foo", BOTH),
    (3, "foo", DELETED),
    (4, "foo", PUBLISHED_AGAIN),
    (4, "bar.core", OF_BAR),
    (4, "bar", ""),
];

#[test]
fn packages_and_manifests(rt: HostRuntime) -> Result<(), Fail> {
    let alloc = rt.alloc();
    let commits = catalog(alloc)?;
    for (count, key, want) in &DOCUMENTS {
        let told = told(alloc, &commits, *count, *key)?;
        same(&rt, told.as_str(), *want, *count);
    }
    same(
        &rt,
        Content::NAME == HiveName::Content,
        true,
        "the hive's name",
    );
    Ok(())
}
