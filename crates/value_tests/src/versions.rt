// Values and refusals of version texts, printed forms, and the order of lists of versions.
use crate::same::same;
use nuget_version::{Bytes, Many, NoMemory, Text, Version, VersionErr};
use std::alloc::{AllocError, Global};
use std::cmp::Ordering;
use std::process::Abort;
use std::test::Fail;

// A text, and its four numbers, labels and metadata, or its refusal.
const TEXTS: &str = "\
1 => 1.0.0.0||
 => Empty
0 => 0.0.0.0||
1.2 => 1.2.0.0||
1.2.3 => 1.2.3.0||
1.2.3.4 => 1.2.3.4||
1.2.3.4.5 => BadByte(7)
1..0 => BadByte(2)
1. => BadByte(2)
. => BadByte(0)
a => BadByte(0)
-1 => BadByte(0)
+1 => BadByte(0)
1.0.0- => BadByte(6)
1.0.0-+ => BadByte(6)
1.0.0-a..b => BadByte(8)
1.0.0+ => BadByte(6)
1.0.0+a+b => BadByte(7)
1.0.0-a+ => BadByte(8)
1.0.0-.a => BadByte(6)
1.0.0-a. => BadByte(8)
1.0.0-a.- => 1.0.0.0|a.-|
1.0.0-- => 1.0.0.0|-|
1.0.0----RC-SNAPSHOT.12.9.1--.12 => 1.0.0.0|---RC-SNAPSHOT.12.9.1--.12|
01.002.0003 => 1.2.3.0||
1.00.0.0-RC.1+Build => 1.0.0.0|RC.1|Build
2147483647 => 2147483647.0.0.0||
2147483648 => NumberTooBig(0)
2147483648.0 => NumberTooBig(0)
1.2147483648 => NumberTooBig(2)
1.2.3.2147483648 => NumberTooBig(6)
1.2147483648.9999999999 => NumberTooBig(2)
0002147483647 => 2147483647.0.0.0||
0002147483648 => NumberTooBig(0)
1.2.3.2147483647 => 1.2.3.2147483647||
99999999999999999999999999999999999999 => NumberTooBig(0)
9999999999.- => BadByte(11)
1.0.0  => BadByte(5)
 1.0.0 => BadByte(0)
1.0.0-a b => BadByte(7)
1.0.0-é => BadByte(6)
1é => BadByte(1)
１ => BadByte(0)
1.0.0-a_b => BadByte(7)
1.0.0-01 => 1.0.0.0|01|
1.0.0-20230101120000 => 1.0.0.0|20230101120000|
1.0.0-beta01 => 1.0.0.0|beta01|
1.0.0.1 => 1.0.0.1||
1.0.0+001 => 1.0.0.0||001
1.0.0+20130313144700 => 1.0.0.0||20130313144700
1.0.0-beta+exp.sha.5114f85 => 1.0.0.0|beta|exp.sha.5114f85
1.0.0+21AF26D3---117B344092BD => 1.0.0.0||21AF26D3---117B344092BD
1-a => 1.0.0.0|a|
1.2-a+b => 1.2.0.0|a|b
1+b => 1.0.0.0||b
1+b-c => 1.0.0.0||b-c
v1.0.0 => BadByte(0)
1.0.0-Alpha.1 => 1.0.0.0|Alpha.1|
1.0.x => BadByte(4)
1.* => BadByte(2)
1,0 => BadByte(1)
1.0.0-a/b => BadByte(7)
1.0.0-a\u{7f} => BadByte(7)
1.0.0-aaaaaaaaaaaaaaaaaaaaaaaaaaaaaaaaaaaaaaaaaaaaaaaaaaaaaaaaaa => 1.0.0.0|aaaaaaaaaaaaaaaaaaaaaaaaaaaaaaaaaaaaaaaaaaaaaaaaaaaaaaaaaa|
1.0.0-aaaaaaaaaaaaaaaaaaaaaaaaaaaaaaaaaaaaaaaaaaaaaaaaaaaaaaaaaaa => TooLong(65)
1-aaaaaaaaaaaaaaaaaaaaaaaaaaaaaaaaaaaaaaaaaaaaaaaaaaaaaaaaaaaaa => TooLong(67)
1.0-aaaaaaaaaaaaaaaaaaaaaaaaaaaaaaaaaaaaaaaaaaaaaaaaaaaaaaaaaa => 1.0.0.0|aaaaaaaaaaaaaaaaaaaaaaaaaaaaaaaaaaaaaaaaaaaaaaaaaaaaaaaaaa|
1.0-aaaaaaaaaaaaaaaaaaaaaaaaaaaaaaaaaaaaaaaaaaaaaaaaaaaaaaaaaaa => TooLong(65)
0001.0.0-aaaaaaaaaaaaaaaaaaaaaaaaaaaaaaaaaaaaaaaaaaaaaaaaaaaaaaa => 1.0.0.0|aaaaaaaaaaaaaaaaaaaaaaaaaaaaaaaaaaaaaaaaaaaaaaaaaaaaaaa|
1.0.0-aaaaaaaaaaaaaaaaaaaaaaaaaaaaaaaaaaaaaaaaaaaaaaaaaaaaaaaaa. => BadByte(64)
xxxxxxxxxxxxxxxxxxxxxxxxxxxxxxxxxxxxxxxxxxxxxxxxxxxxxxxxxxxxxxxxx => TooLong(65)
0000000000000000000000000000000000000000000000000000000000000000 => 0.0.0.0||
9999999999999999999999999999999999999999999999999999999999999999 => NumberTooBig(0)
2147483648-aaaaaaaaaaaaaaaaaaaaaaaaaaaaaaaaaaaaaaaaaaaaaaaaaaaaa => NumberTooBig(0)
1.0.0.1-aaaaaaaaaaaaaaaaaaaaaaaaaaaaaaaaaaaaaaaaaaaaaaaaaaaaaaaa => 1.0.0.1|aaaaaaaaaaaaaaaaaaaaaaaaaaaaaaaaaaaaaaaaaaaaaaaaaaaaaaaa|
1.0.1+aaaaaaaaaaaaaaaaaaaaaaaaaaaaaaaaaaaaaaaaaaaaaaaaaaaaaaaaaa => 1.0.1.0||aaaaaaaaaaaaaaaaaaaaaaaaaaaaaaaaaaaaaaaaaaaaaaaaaaaaaaaaaa
1+aaaaaaaaaaaaaaaaaaaaaaaaaaaaaaaaaaaaaaaaaaaaaaaaaaaaaaaaaaaaaa => TooLong(68)";

// A version's text, its normal form, its full form and its key, and whether it is a pre-release and a
// SemVer 2.0.0 version.
const FORMS: [(&str, &str, &str, &str, bool, bool); 10] = [
    ("1", "1.0.0", "1.0.0", "1.0.0", false, false),
    (
        "1.00.0.0-RC.1+Build",
        "1.0.0-RC.1",
        "1.0.0-RC.1+Build",
        "1.0.0-rc.1",
        true,
        true,
    ),
    ("1.2.3.4", "1.2.3.4", "1.2.3.4", "1.2.3.4", false, false),
    ("1.2.3.0-B", "1.2.3-B", "1.2.3-B", "1.2.3-b", true, false),
    ("01.02+X.y", "1.2.0", "1.2.0+X.y", "1.2.0", false, true),
    (
        "2147483647.0.10.20-A-b.Z",
        "2147483647.0.10.20-A-b.Z",
        "2147483647.0.10.20-A-b.Z",
        "2147483647.0.10.20-a-b.z",
        true,
        true,
    ),
    ("1.0.0-rc", "1.0.0-rc", "1.0.0-rc", "1.0.0-rc", true, false),
    ("1.0.0+rc", "1.0.0", "1.0.0+rc", "1.0.0", false, true),
    ("1.0.0-a+b", "1.0.0-a", "1.0.0-a+b", "1.0.0-a", true, true),
    ("1.0.0.1", "1.0.0.1", "1.0.0.1", "1.0.0.1", false, false),
];

// Lists of versions, each below those behind it. The first two are those of SemVer 2.0.0, section 11.
const RISING: [&str; 3] = [
    "1.0.0 2.0.0 2.1.0 2.1.1",
    "1.0.0-alpha 1.0.0-alpha.1 1.0.0-alpha.beta 1.0.0-beta 1.0.0-beta.2 1.0.0-beta.11 1.0.0-rc.1 1.0.0",
    "1.0.0-0 1.0.0-1 1.0.0-2.9 1.0.0-10 1.0.0-20230101120000 1.0.0-99999999999999999999999999 \
    1.0.0--- 1.0.0-00 1.0.0-01 1.0.0-1a 1.0.0-alpha 1.0.0-ALPHA.1 1.0.0-alpha.beta 1.0.0-beta.2 1.0.0-Beta.11 \
    1.0.0-beta01 1.0.0-RC.1 1.0.0 1.0.0.1-a 1.0.0.1 1.0.1-alpha 1.0.1 1.2 1.10.0 2147483647.0.0+meta",
];

// Pairs that tie.
const TIES: [(&str, &str); 4] = [
    ("1", "1.0.0.0"),
    ("1.0.0-RC.1", "1.0.0-rc.1"),
    ("1.0.0+a", "1.0.0+b.c"),
    ("01.2-aB", "1.2.0-Ab+x"),
];

fn outcome_of(alloc: Global, text: &str) -> Result<String, AllocError> {
    match Version::parse(alloc, text) {
        Ok(v) => {
            let (labels, meta) = (v.labels.as_str(), v.meta.as_str());
            format!(in alloc;
                "{}.{}.{}.{}|{labels}|{meta}",
                v.major, v.minor, v.patch, v.revision
            )
        }
        Err(err) => format!(in alloc; "{err:?}"),
    }
}

#[test]
fn texts_have_these_values(rt: HostRuntime) -> Result<(), Fail> {
    let mut rows = 0u64;
    for line in TEXTS.lines() {
        if let Some((text, want)) = line.split_once(" => ") {
            let outcome = outcome_of(rt.alloc(), text)?;
            same(&rt, outcome.as_str(), want, text);
            rows = rows.saturating_add(1);
        }
    }
    same(&rt, rows, 77, "all rows");
    Ok(())
}

fn copy_of(alloc: Global, text: &str) -> Result<Version, VersionErr> {
    let version = Version::parse(alloc, text)?;
    Ok(version.copy(alloc)?)
}

// Asserts that a form of the version that a text is, if it was made, is what it should be.
fn is_form(
    rt: &impl Abort,
    form: Result<Text, NoMemory>,
    want: &str,
    of: &str,
) -> Result<(), NoMemory> {
    same(rt, form?.as_str(), want, of);
    Ok(())
}

// Asserts the normal form, the full form and the key of the copy of the version that a text is.
fn has_forms(
    rt: &impl Abort,
    alloc: Global,
    text: &str,
    normal: &str,
    full: &str,
    key: &str,
) -> Result<(), VersionErr> {
    let version = copy_of(alloc, text)?;
    is_form(rt, version.normal(alloc), normal, text)?;
    is_form(rt, version.full(alloc), full, text)?;
    is_form(rt, version.key(alloc), key, text)?;
    Ok(())
}

// Whether the copy is a pre-release, and whether it is a SemVer 2.0.0 version.
fn marks_of(alloc: Global, text: &str) -> Result<(bool, bool), VersionErr> {
    let version = copy_of(alloc, text)?;
    Ok((version.is_pre(), version.is_semver2()))
}

#[test]
fn printed_forms(rt: HostRuntime) -> Result<(), Fail> {
    for (text, normal, full, key, is_pre, is_semver2) in &FORMS {
        has_forms(&rt, rt.alloc(), text, normal, full, key)?;
        let marks = marks_of(rt.alloc(), text)?;
        same(&rt, marks, (*is_pre, *is_semver2), *text);
    }
    Ok(())
}

fn order_of(alloc: Global, text: &str, other: &str) -> Result<Ordering, VersionErr> {
    let version = Version::parse(alloc, text)?;
    Ok(version.compare(&Version::parse(alloc, other)?))
}

// All pairs, in both orders.
#[test]
fn versions_rise(rt: HostRuntime) -> Result<(), Fail> {
    for list in &RISING {
        for (i, text) in list.split(' ').enumerate() {
            for (j, other) in list.split(' ').enumerate() {
                let order = order_of(rt.alloc(), text, other)?;
                assert!(rt; order == i.cmp(&j), "{text} and {other}");
            }
        }
    }
    Ok(())
}

fn key_of(alloc: Global, text: &str) -> Result<Text, VersionErr> {
    let version = Version::parse(alloc, text)?;
    Ok(version.key(alloc)?)
}

fn keys_are_same(alloc: Global, text: &str, other: &str) -> Result<bool, VersionErr> {
    let key = key_of(alloc, text)?;
    Ok(key.is_same(&key_of(alloc, other)?))
}

#[test]
fn versions_tie(rt: HostRuntime) -> Result<(), Fail> {
    for (text, other) in &TIES {
        let ties = order_of(rt.alloc(), text, other)? == Ordering::Equal;
        let has_one_key = keys_are_same(rt.alloc(), text, other)?;
        assert_eq!(rt; (ties, has_one_key), (true, true), "{text} and {other}");
    }
    Ok(())
}

#[test]
fn base_types(rt: HostRuntime) -> Result<(), Fail> {
    let alloc = rt.alloc();
    let text = Text::copy_of(alloc, "ab")?;
    same(&rt, text.copy(alloc)?.as_str(), "ab", "a copy of a text");
    same(&rt, text.into_string().as_str(), "ab", "a text");
    let bytes = Bytes::copy_of(alloc, b"ab")?;
    same(
        &rt,
        bytes.copy(alloc)?.into_vec().as_slice(),
        b"ab".as_slice(),
        "a copy of bytes",
    );
    let mut many = Many::new(alloc);
    many.push(7u8)?;
    same(&rt, many.len(), 1, "a count");
    same(&rt, many.get(0).copied(), Some(7), "an element");
    same(
        &rt,
        Many::of(many.into_vec()).as_slice(),
        [7u8].as_slice(),
        "a list",
    );
    Ok(())
}
