// Bodies, and the changes that they ask for, or the line that refuses them.
use crate::same::same;
use admin_wire::{BodyErr, Line, NameKind, line_bytes, read_names, read_pair, read_publish};
use catalog_doc::{Change, Changes};
use pkg_meta::{Bytes, NoMemory, PackageId, Version};
use std::alloc::Global;
use std::str;
use std::test::Fail;

// Bodies of publishes. The metadata of Foo has 30 bytes.
const PUBLISHES: [(&str, &str); 16] = [
    ("", ""),
    (
        "30 10 3\n{\"id\":\"Foo\",\"version\":\"1.0.0\"}<package/>abc",
        "publish Foo 1.0.0 <package/> abc\n",
    ),
    (
        "30 10 3\n{\"id\":\"Foo\",\"version\":\"1.0.0\"}<package/>abc30 0 1\n{\"id\":\"Bar\",\"version\":\"2.1.0\"}x",
        "publish Foo 1.0.0 <package/> abc\npublish Bar 2.1.0  x\n",
    ),
    // No record, at the first byte or behind 51 bytes.
    ("x", "refused body 0\n"),
    ("\n", "refused body 0\n"),
    (
        "30 10 3\n{\"id\":\"Foo\",\"version\":\"1.0.0\"}<package/>abcx",
        "refused body 51\n",
    ),
    // A leading zero, two spaces, a space more, nine digits.
    (
        "030 0 0\n{\"id\":\"Foo\",\"version\":\"1.0.0\"}",
        "refused body 0\n",
    ),
    (
        "30  0 0\n{\"id\":\"Foo\",\"version\":\"1.0.0\"}",
        "refused body 0\n",
    ),
    (
        "30 0 0 \n{\"id\":\"Foo\",\"version\":\"1.0.0\"}",
        "refused body 0\n",
    ),
    ("100000000 0 0\n", "refused body 0\n"),
    // A byte too few, which is told before the metadata.
    ("2 0 1\n{}", "refused body 0\n"),
    // The first record that is refused counts.
    ("2 0 0\n{}x", "refused meta 0 field id\n"),
    (
        "30 10 3\n{\"id\":\"Foo\",\"version\":\"1.0.0\"}<package/>abc1 0 0\n{",
        "refused meta 1 json\n",
    ),
    ("0 0 0\n", "refused meta 0 json\n"),
    (
        "28 0 0\n{\"id\":\"-\",\"version\":\"1.0.0\"}",
        "refused meta 0 id id\n",
    ),
    (
        "26 0 0\n{\"id\":\"Foo\",\"version\":\"x\"}",
        "refused meta 0 version\n",
    ),
];

// Bodies of names.
const NAMES: [(&str, &str); 12] = [
    ("", ""),
    ("Foo 1.0.0\n", "unlist Foo 1.0.0\n"),
    (
        "Foo 1.0\nBar 2.0.0-rc+x\n",
        "unlist Foo 1.0.0\nunlist Bar 2.0.0-rc\n",
    ),
    ("\n", "refused body 0\n"),
    ("Foo\n", "refused body 0\n"),
    ("Foo 1.0.0", "refused body 0\n"),
    ("Foo 1.0.0\nBar  2.0.0\n", "refused body 10\n"),
    ("Foo 1.0.0\nBar 2.0.0 \n", "refused body 10\n"),
    ("Foo 1.0.0\n- 1.0.0\n", "refused id 1\n"),
    ("Foo 1.0.0\nBar 2.0.0\r\n", "refused version 1\n"),
    ("- x\nFoo\n", "refused id 0\n"),
    ("Foo \nFoo\n", "refused version 0\n"),
];

fn text_of(bytes: &Bytes) -> &str {
    str::from_utf8(bytes.as_slice()).unwrap_or("?")
}

fn version_told(
    alloc: Global,
    word: &str,
    id: &PackageId,
    version: &Version,
) -> Result<String, NoMemory> {
    let id = id.text.as_str();
    let version = version.normal(alloc)?;
    let version = version.as_str();
    Ok(format!(in alloc; "{word} {id} {version}")?)
}

fn change_told(alloc: Global, change: &Change) -> Result<String, NoMemory> {
    match change {
        Change::Unlist { id, version } => version_told(alloc, "unlist", id, version),
        Change::Relist { id, version } => version_told(alloc, "list", id, version),
        Change::Delete { id, version } => version_told(alloc, "delete", id, version),
        Change::Publish {
            meta,
            nuspec,
            package,
        } => {
            let told = version_told(alloc, "publish", &meta.id, &meta.version)?;
            let nuspec = text_of(nuspec);
            let package = text_of(package);
            Ok(format!(in alloc; "{told} {nuspec} {package}")?)
        }
    }
}

// The changes, one a line, or the line of the refusal.
fn told(alloc: Global, read: Result<Changes, BodyErr>) -> Result<String, NoMemory> {
    let mut all = String::new(alloc);
    match read {
        Ok(changes) => {
            for change in changes.as_slice() {
                all.push_str(&change_told(alloc, change)?)?;
                all.push_str("\n")?;
            }
        }
        Err(BodyErr::Memory) => return Err(NoMemory),
        Err(error) => {
            let line = line_bytes(alloc, &Line::from(error))?;
            all.push_str(text_of(&line))?;
        }
    }
    Ok(all)
}

fn pair_told(alloc: Global, kind: NameKind, id: &str, version: &str) -> Result<String, NoMemory> {
    match read_pair(alloc, kind, 7, id, version) {
        Ok(change) => change_told(alloc, &change),
        Err(BodyErr::Memory) => Err(NoMemory),
        Err(error) => Ok(format!(in alloc; "{error}")?),
    }
}

#[test]
fn reads_publishes(rt: HostRuntime) -> Result<(), Fail> {
    let alloc = rt.alloc();
    for (body, want) in &PUBLISHES {
        let got = told(alloc, read_publish(alloc, body.as_bytes()))?;
        same(&rt, got.as_str(), *want, *body);
    }
    Ok(())
}

#[test]
fn reads_names(rt: HostRuntime) -> Result<(), Fail> {
    let alloc = rt.alloc();
    for (body, want) in &NAMES {
        let got = told(alloc, read_names(alloc, NameKind::Unlist, body.as_bytes()))?;
        same(&rt, got.as_str(), *want, *body);
    }
    let of_bytes = read_names(alloc, NameKind::Delete, b"Foo 1.0.0\n\xff 1.0.0\n");
    same(
        &rt,
        told(alloc, of_bytes)?.as_str(),
        "refused id 1\n",
        "a byte that is no text",
    );
    Ok(())
}

// Kinds and pairs of words, and the change or the refusal.
const PAIRS: [(NameKind, &str, &str, &str); 4] = [
    (NameKind::Relist, "Foo", "1.0", "list Foo 1.0.0"),
    (NameKind::Delete, "Foo", "1.0.0-b", "delete Foo 1.0.0-b"),
    (
        NameKind::Delete,
        "",
        "x",
        "the word at place 7 is no package id",
    ),
    (
        NameKind::Delete,
        "Foo",
        "x",
        "the word at place 7 is no version",
    ),
];

#[test]
fn reads_pairs(rt: HostRuntime) -> Result<(), Fail> {
    for (kind, id, version, want) in &PAIRS {
        let said = pair_told(rt.alloc(), *kind, id, version)?;
        same(&rt, said.as_str(), *want, *want);
    }
    Ok(())
}
