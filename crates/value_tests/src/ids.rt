// Package ids with their keys, and refusals of texts that are none.
use crate::same::same;
use package_id::{IdErr, PackageId};
use std::alloc::Global;
use std::process::Abort;
use std::test::Fail;

// Texts that are ids, with their keys.
const ACCEPTED: [(&str, &str); 17] = [
    ("a", "a"),
    ("Z", "z"),
    ("_", "_"),
    ("0", "0"),
    ("Foo", "foo"),
    ("Foo.Bar", "foo.bar"),
    ("foo.bar", "foo.bar"),
    ("FOO-BAR", "foo-bar"),
    ("a.b-c.d", "a.b-c.d"),
    ("_._", "_._"),
    ("1.2.3", "1.2.3"),
    ("Newtonsoft.Json", "newtonsoft.json"),
    ("a_b", "a_b"),
    ("__", "__"),
    ("x-1", "x-1"),
    (
        "NNNNNNNNNNNNNNNNNNNNNNNNNNNNNNNNNNNNNNNNNNNNNNNNNNNNNNNNNNNNNNNNNNNNNNNNNNNNNNNNNNNNNNNNNNNNNNNNNN.Z",
        "nnnnnnnnnnnnnnnnnnnnnnnnnnnnnnnnnnnnnnnnnnnnnnnnnnnnnnnnnnnnnnnnnnnnnnnnnnnnnnnnnnnnnnnnnnnnnnnnnn.z",
    ),
    (
        "aaaaaaaaaaaaaaaaaaaaaaaaaaaaaaaaaaaaaaaaaaaaaaaaaaaaaaaaaaaaaaaaaaaaaaaaaaaaaaaaaaaaaaaaaaaaaaaaaaaa",
        "aaaaaaaaaaaaaaaaaaaaaaaaaaaaaaaaaaaaaaaaaaaaaaaaaaaaaaaaaaaaaaaaaaaaaaaaaaaaaaaaaaaaaaaaaaaaaaaaaaaa",
    ),
];

// Texts that are none, with the reason.
const REFUSED: [(&str, IdErr); 31] = [
    ("", IdErr::Empty),
    (
        "aaaaaaaaaaaaaaaaaaaaaaaaaaaaaaaaaaaaaaaaaaaaaaaaaaaaaaaaaaaaaaaaaaaaaaaaaaaaaaaaaaaaaaaaaaaaaaaaaaaaa",
        IdErr::TooLong(101),
    ),
    (
        ".....................................................................................................",
        IdErr::TooLong(101),
    ),
    (
        "aaaaaaaaaaaaaaaaaaaaaaaaaaaaaaaaaaaaaaaaaaaaaaaaaaaaaaaaaaaaaaaaaaaaaaaaaaaaaaaaaaaaaaaaaaaaaaaaaaaaaaaaaaaaaaaaaaaaaaaaaaaaaaaaaaaaaaaaaaaaaaaaaaaaaa",
        IdErr::TooLong(150),
    ),
    ("Foo..Bar", IdErr::BadByte(4)),
    ("Foo.", IdErr::BadByte(4)),
    ("Foo-", IdErr::BadByte(4)),
    (".Foo", IdErr::BadByte(0)),
    ("-", IdErr::BadByte(0)),
    (".", IdErr::BadByte(0)),
    ("a.-b", IdErr::BadByte(2)),
    ("a-.b", IdErr::BadByte(2)),
    ("a--b", IdErr::BadByte(2)),
    ("a b", IdErr::BadByte(1)),
    (" a", IdErr::BadByte(0)),
    ("a ", IdErr::BadByte(1)),
    ("a/b", IdErr::BadByte(1)),
    ("a\\b", IdErr::BadByte(1)),
    ("a\"b", IdErr::BadByte(1)),
    ("a+b", IdErr::BadByte(1)),
    ("a.b.", IdErr::BadByte(4)),
    ("a.b..", IdErr::BadByte(4)),
    ("a*", IdErr::BadByte(1)),
    ("café", IdErr::BadByte(3)),
    ("é", IdErr::BadByte(0)),
    ("a@", IdErr::BadByte(1)),
    ("a[", IdErr::BadByte(1)),
    ("a`", IdErr::BadByte(1)),
    ("a{", IdErr::BadByte(1)),
    ("a:", IdErr::BadByte(1)),
    (
        "aaaaaaaaaaaaaaaaaaaaaaaaaaaaaaaaaaaaaaaaaaaaaaaaaaaaaaaaaaaaaaaaaaaaaaaaaaaaaaaaaaaaaaaaaaaaaaaaaaa.",
        IdErr::BadByte(100),
    ),
];

// Asserts that the text is an id with this key, as its copy is.
fn is_id(rt: &impl Abort, alloc: Global, text: &str, key: &str) -> Result<(), IdErr> {
    let id = PackageId::parse(alloc, text)?;
    same(rt, id.text.as_str(), text, text);
    same(rt, id.key.as_str(), key, text);
    let copy = id.copy(alloc)?;
    same(rt, copy.text.as_str(), text, text);
    Ok(())
}

#[test]
fn reads_ids(rt: HostRuntime) -> Result<(), Fail> {
    for (text, key) in &ACCEPTED {
        is_id(&rt, rt.alloc(), text, key)?;
    }
    Ok(())
}

fn refusal(alloc: Global, text: &str) -> Option<IdErr> {
    PackageId::parse(alloc, text).err()
}

#[test]
fn refuses_what_is_none(rt: HostRuntime) {
    for (text, reason) in &REFUSED {
        same(&rt, refusal(rt.alloc(), text), Some(*reason), *text);
    }
}

fn are_same(alloc: Global, text: &str, other: &str) -> Result<bool, IdErr> {
    let id = PackageId::parse(alloc, text)?;
    Ok(id.same(&PackageId::parse(alloc, other)?))
}

#[test]
fn compares_by_key(rt: HostRuntime) -> Result<(), Fail> {
    same(
        &rt,
        are_same(rt.alloc(), "Foo.Bar", "foo.bar")?,
        true,
        "case",
    );
    same(
        &rt,
        are_same(rt.alloc(), "Foo.Bar", "foo-bar")?,
        false,
        "a dash",
    );
    Ok(())
}
