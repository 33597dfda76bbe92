// The auto hive's documents of publishes, an unlisting and a publish under another spelling.
use crate::catalogs::{BASE, commit, details, publishes, text_of};
use crate::same::same;
use auto_docs::{Auto, Hive, HiveName};
use fold_core::{Commit, Item, Many, NoMemory, docs_from_scratch, from_scratch};
use std::alloc::Global;
use std::test::Fail;

const OLD: &str = r#"{"id":"Json.Net","version":"1.0.0"}"#;

const BETA: &str = r#"{"id":"Json.Net","version":"1.1.0-beta"}"#;

const NEW: &str = r#"{"id":"JSON.Net","version":"2.0+Build.7"}"#;

const BOTH: &str = r#"d/json.net/index.json {"id":"Json.Net","versions":["1.0.0","1.1.0-beta"]}"#;

const LISTED: &str = r#"d/json.net/index.json {"id":"Json.Net","versions":["1.1.0-beta"]}"#;

const SPELLED: &str =
    r#"d/json.net/index.json {"id":"JSON.Net","versions":["1.1.0-beta","2.0.0+Build.7"]}"#;

fn unlisting(alloc: Global) -> Result<Commit, NoMemory> {
    let mut unlisted = details(alloc, OLD, 1, 0)?;
    unlisted.listed = false;
    let mut items = Many::new(alloc);
    items.push(Item::Details(unlisted))?;
    Ok(commit(2, items))
}

fn catalog(alloc: Global) -> Result<[Commit; 3], NoMemory> {
    let first = publishes(alloc, 1, &[OLD, BETA])?;
    let third = publishes(alloc, 3, &[NEW])?;
    Ok([first, unlisting(alloc)?, third])
}

// The names and texts of an id's documents after so many commits.
fn told(alloc: Global, commits: &[Commit], count: usize, key: &str) -> Result<String, NoMemory> {
    let mut told = String::new(alloc);
    let commits = commits.get(..count).unwrap_or(&[]);
    for doc in docs_from_scratch::<Auto>(alloc, BASE, commits, key)?.as_slice() {
        told.push_str(doc.name.as_str())?;
        told.push_str(" ")?;
        told.push_str(text_of(doc))?;
    }
    Ok(told)
}

// How many commits there are, an id's key, and its documents.
const DOCUMENTS: [(usize, &str, &str); 5] = [
    (0, "json.net", ""),
    (1, "json.net", BOTH),
    (2, "json.net", LISTED),
    (3, "json.net", SPELLED),
    (3, "json", ""),
];

#[test]
fn listed_versions(rt: HostRuntime) -> Result<(), Fail> {
    let alloc = rt.alloc();
    let commits = catalog(alloc)?;
    for (count, key, want) in &DOCUMENTS {
        let told = told(alloc, &commits, *count, *key)?;
        same(&rt, told.as_str(), *want, *count);
    }
    let entries = from_scratch::<Auto>(alloc, &commits, "json.net")?.len();
    same(&rt, entries, 2, "the entries");
    same(&rt, Auto::NAME == HiveName::Auto, true, "the hive's name");
    Ok(())
}
