// Ranges with their printed forms, the versions that they hold, and refusals of texts that are none.
use crate::same::same;
use nuget_version::{Text, Version, VersionErr};
use std::alloc::Global;
use std::process::Abort;
use std::test::Fail;
use version_range::{RangeErr, VersionRange};

// Texts that are ranges, with their printed forms.
const ACCEPTED: [(&str, &str); 31] = [
    ("", "(, )"),
    ("   ", "(, )"),
    ("(,)", "(, )"),
    ("[,]", "(, )"),
    (" ( , ) ", "(, )"),
    ("(,]", "(, )"),
    ("1.0", "[1.0.0, )"),
    (" 1.0 ", "[1.0.0, )"),
    ("1", "[1.0.0, )"),
    ("1.2.3.4", "[1.2.3.4, )"),
    ("1.0.0-Beta.1+x", "[1.0.0-Beta.1+x, )"),
    ("01.002", "[1.2.0, )"),
    ("[1.0]", "[1.0.0, 1.0.0]"),
    ("[ 1.0 ]", "[1.0.0, 1.0.0]"),
    (" [1.0] ", "[1.0.0, 1.0.0]"),
    ("[1.0, 2.0)", "[1.0.0, 2.0.0)"),
    ("[1.0,2.0]", "[1.0.0, 2.0.0]"),
    ("(1.0,2.0)", "(1.0.0, 2.0.0)"),
    ("(1.0,2.0]", "(1.0.0, 2.0.0]"),
    ("[ 1.0 , 2.0 ]", "[1.0.0, 2.0.0]"),
    ("  (1.0,2.0)  ", "(1.0.0, 2.0.0)"),
    ("[1.0,)", "[1.0.0, )"),
    ("[1.0,]", "[1.0.0, )"),
    ("(1.0,)", "(1.0.0, )"),
    ("(,2.0]", "(, 2.0.0]"),
    ("[,2.0]", "(, 2.0.0]"),
    ("(,2.0)", "(, 2.0.0)"),
    ("[1.0,1.0]", "[1.0.0, 1.0.0]"),
    ("[1.0.0-a,1.0.0-A]", "[1.0.0-a, 1.0.0-A]"),
    ("[1.0+a,1.0+b]", "[1.0.0+a, 1.0.0+b]"),
    ("[1.0-rc,1.0]", "[1.0.0-rc, 1.0.0]"),
];

// Texts that are none, with the reason.
const REFUSED: [(&str, RangeErr); 51] = [
    ("1.*", RangeErr::Floating(2)),
    ("*", RangeErr::Floating(0)),
    ("[1.*,2.0)", RangeErr::Floating(3)),
    ("(a*", RangeErr::Floating(2)),
    ("[1.0,2.0]*", RangeErr::Floating(9)),
    (" **", RangeErr::Floating(1)),
    ("a", RangeErr::BadBound(0)),
    ("  a", RangeErr::BadBound(2)),
    ("1.0]", RangeErr::BadBound(0)),
    ("1.0,2.0", RangeErr::BadBound(0)),
    ("1.0 .0", RangeErr::BadBound(0)),
    (")", RangeErr::BadBound(0)),
    ("é1", RangeErr::BadBound(0)),
    ("1.0.0.0.0", RangeErr::BadBound(0)),
    (" 2147483648", RangeErr::BadBound(1)),
    ("[1.0", RangeErr::BadByte(3)),
    ("[", RangeErr::BadByte(0)),
    (" [ ", RangeErr::BadByte(1)),
    ("[1.0 ,", RangeErr::BadByte(5)),
    ("[1.0,2.0", RangeErr::BadByte(7)),
    ("[1.0,2.0] x", RangeErr::BadByte(10)),
    ("[1é", RangeErr::BadByte(3)),
    ("[1.0,2.0,3.0]", RangeErr::BadByte(8)),
    ("[,,]", RangeErr::BadByte(2)),
    ("[ , , ]", RangeErr::BadByte(4)),
    ("[a,b,c]", RangeErr::BadByte(4)),
    ("(1.0)", RangeErr::BadByte(0)),
    ("[1.0)", RangeErr::BadByte(4)),
    ("(1.0]", RangeErr::BadByte(0)),
    ("()", RangeErr::BadByte(0)),
    ("[)", RangeErr::BadByte(1)),
    ("[1(0]", RangeErr::BadByte(2)),
    ("[ (a) ]", RangeErr::BadByte(2)),
    ("[]", RangeErr::BadBound(1)),
    ("[  ]", RangeErr::BadBound(3)),
    (" [ ] ", RangeErr::BadBound(3)),
    ("[a]", RangeErr::BadBound(1)),
    ("[ a ]", RangeErr::BadBound(2)),
    ("[1.0]]", RangeErr::BadBound(1)),
    ("[a,2.0]", RangeErr::BadBound(1)),
    ("[1.0,b]", RangeErr::BadBound(5)),
    ("[ a , b ]", RangeErr::BadBound(2)),
    ("[1.0, b]", RangeErr::BadBound(6)),
    ("(,b)", RangeErr::BadBound(2)),
    ("[[1.0,2.0]", RangeErr::BadBound(1)),
    ("[2.0,1.0]", RangeErr::Inverted),
    ("[1.0,1.0)", RangeErr::Inverted),
    ("(1.0,1.0]", RangeErr::Inverted),
    ("(1.0,1.0)", RangeErr::Inverted),
    ("[1.0,1.0-rc]", RangeErr::Inverted),
    ("(1.0-a,1.0-A]", RangeErr::Inverted),
];

// Versions by rising precedence.
const VERSIONS: [&str; 20] = [
    "0.9.0",
    "1.0.0-alpha",
    "1.0.0-alpha.1",
    "1.0.0-beta",
    "1.0.0-rc.1",
    "1.0.0",
    "1.0.0.1",
    "1.0.1-a",
    "1.0.1",
    "1.1.0-x",
    "1.1.0",
    "1.2.3",
    "1.9.9",
    "1.10.0",
    "2.0.0-0",
    "2.0.0-alpha",
    "2.0.0+build.7",
    "2.0.0.5",
    "3.0.0-rc",
    "10.0.0",
];

// Ranges, with the places of the first and the last of these versions that they hold.
const HELD: [(&str, usize, usize); 8] = [
    ("1.0", 5, 19),
    ("[1.0]", 5, 5),
    ("(1.0,)", 6, 19),
    ("[1.0,2.0)", 5, 15),
    ("(,2.0]", 0, 16),
    ("(1.0.0-beta, 1.1]", 4, 10),
    ("[1.0.0-ALPHA,1.0.0-rc.1)", 1, 3),
    ("", 0, 19),
];

// Ranges, and whether an end is a SemVer 2.0.0 version.
const SEMVER2: [(&str, bool); 8] = [
    ("", false),
    ("1.0", false),
    ("[1.0.0-a,2.0)", false),
    ("1.0.0-a.1", true),
    ("[1.0.0-a.1,2.0)", true),
    ("[1.0,2.0+x]", true),
    ("(,1.0.0-b.c]", true),
    ("(1.0.0.1,2.0-rc-1)", false),
];

// The text of the range that a text is.
fn printed(alloc: Global, text: &str) -> Result<Text, RangeErr> {
    let range = VersionRange::parse(alloc, text)?;
    Ok(range.text(alloc)?)
}

fn copy_of(alloc: Global, text: &str) -> Result<VersionRange, RangeErr> {
    let range = VersionRange::parse(alloc, text)?;
    Ok(range.copy(alloc)?)
}

// The same of the range's copy.
fn copied(alloc: Global, text: &str) -> Result<Text, RangeErr> {
    let copy = copy_of(alloc, text)?;
    Ok(copy.text(alloc)?)
}

#[test]
fn reads_and_prints(rt: HostRuntime) -> Result<(), Fail> {
    for (text, want) in &ACCEPTED {
        same(&rt, printed(rt.alloc(), text)?.as_str(), *want, *text);
        same(&rt, copied(rt.alloc(), want)?.as_str(), *want, *want);
    }
    Ok(())
}

fn refusal(alloc: Global, text: &str) -> Option<RangeErr> {
    VersionRange::parse(alloc, text).err()
}

#[test]
fn refuses_what_is_none(rt: HostRuntime) {
    for (text, reason) in &REFUSED {
        same(&rt, refusal(rt.alloc(), text), Some(*reason), *text);
    }
}

fn holds(alloc: Global, range: &VersionRange, version: &str) -> Result<bool, VersionErr> {
    let version = Version::parse(alloc, version)?;
    Ok(range.holds(&version))
}

// Asserts that of the versions the range holds those from the first to the last.
fn holds_those(
    rt: &impl Abort,
    alloc: Global,
    text: &str,
    first: usize,
    last: usize,
) -> Result<(), Fail> {
    let range = VersionRange::parse(alloc, text)?;
    for (place, version) in VERSIONS.iter().enumerate() {
        let is_between = first <= place && place <= last;
        let is_held = holds(alloc, &range, *version)?;
        assert_eq!(rt; is_held, is_between, "{text} at {place}");
    }
    Ok(())
}

#[test]
fn holds_what_is_between(rt: HostRuntime) -> Result<(), Fail> {
    for (text, first, last) in &HELD {
        holds_those(&rt, rt.alloc(), text, *first, *last)?;
    }
    Ok(())
}

fn is_semver2(alloc: Global, text: &str) -> Result<bool, RangeErr> {
    Ok(VersionRange::parse(alloc, text)?.is_semver2())
}

#[test]
fn tells_semver2(rt: HostRuntime) -> Result<(), Fail> {
    for (text, want) in &SEMVER2 {
        same(&rt, is_semver2(rt.alloc(), text)?, *want, *text);
    }
    Ok(())
}
