// A publisher's metadata: what is refused and why, what is read, and what is printed of it.
use crate::same::same;
use pkg_meta::{Details, Meta, MetaErr, Text, Ticks};
use std::alloc::{AllocError, Global};
use std::process::Abort;
use std::test::Fail;

// Texts, and why each is refused.
const REFUSED: [(&str, &str); 47] = [
    ("", "json"),
    ("[]", "json"),
    ("null", "json"),
    ("{", "json"),
    ("{\"id\":\"Foo\",\"version\":\"1.0.0\"}}", "json"),
    // A lone surrogate and a number beyond binary64, also in a member that is ignored.
    (
        "{\"id\":\"Foo\",\"version\":\"1.0.0\",\"x\":\"\\ud800\"}",
        "json",
    ),
    ("{\"id\":\"Foo\",\"version\":\"1.0.0\",\"x\":1e400}", "json"),
    // Required and absent, or null.
    ("{}", "field id"),
    ("{\"id\":\"Foo\"}", "field version"),
    ("{\"version\":\"1.0.0\"}", "field id"),
    ("{\"id\":null,\"version\":\"1.0.0\"}", "field id"),
    ("{\"id\":\"Foo\",\"version\":null}", "field version"),
    ("{\"Id\":\"Foo\",\"version\":\"1.0.0\"}", "field id"),
    // Of another kind.
    (
        "{\"authors\":1,\"id\":\"Foo\",\"version\":\"1.0.0\"}",
        "field authors",
    ),
    (
        "{\"description\":[],\"id\":\"Foo\",\"version\":\"1.0.0\"}",
        "field description",
    ),
    (
        "{\"iconUrl\":{},\"id\":\"Foo\",\"version\":\"1.0.0\"}",
        "field iconUrl",
    ),
    ("{\"id\":1,\"version\":\"1.0.0\"}", "field id"),
    (
        "{\"id\":\"Foo\",\"licenseUrl\":true,\"version\":\"1.0.0\"}",
        "field licenseUrl",
    ),
    (
        "{\"id\":\"Foo\",\"minClientVersion\":3,\"version\":\"1.0.0\"}",
        "field minClientVersion",
    ),
    (
        "{\"id\":\"Foo\",\"projectUrl\":false,\"version\":\"1.0.0\"}",
        "field projectUrl",
    ),
    (
        "{\"id\":\"Foo\",\"releaseNotes\":0.5,\"version\":\"1.0.0\"}",
        "field releaseNotes",
    ),
    (
        "{\"id\":\"Foo\",\"requireLicenseAcceptance\":\"true\",\"version\":\"1.0.0\"}",
        "field requireLicenseAcceptance",
    ),
    (
        "{\"id\":\"Foo\",\"summary\":[\"a\"],\"version\":\"1.0.0\"}",
        "field summary",
    ),
    (
        "{\"id\":\"Foo\",\"tags\":\"a b\",\"version\":\"1.0.0\"}",
        "field tags",
    ),
    (
        "{\"id\":\"Foo\",\"tags\":[\"a\",1],\"version\":\"1.0.0\"}",
        "field tags",
    ),
    (
        "{\"id\":\"Foo\",\"tags\":[null],\"version\":\"1.0.0\"}",
        "field tags",
    ),
    (
        "{\"id\":\"Foo\",\"title\":1,\"version\":\"1.0.0\"}",
        "field title",
    ),
    ("{\"id\":\"Foo\",\"version\":1}", "field version"),
    // Inner kinds.
    (
        "{\"dependencyGroups\":{},\"id\":\"Foo\",\"version\":\"1.0.0\"}",
        "field dependencyGroups",
    ),
    (
        "{\"dependencyGroups\":[null],\"id\":\"Foo\",\"version\":\"1.0.0\"}",
        "field dependencyGroups",
    ),
    (
        "{\"dependencyGroups\":[{\"targetFramework\":1}],\"id\":\"Foo\",\"version\":\"1.0.0\"}",
        "field dependencyGroups",
    ),
    (
        "{\"dependencyGroups\":[{\"dependencies\":{}}],\"id\":\"Foo\",\"version\":\"1.0.0\"}",
        "field dependencyGroups",
    ),
    (
        "{\"dependencyGroups\":[{\"dependencies\":[{\"id\":1}]}],\"id\":\"Foo\",\"version\":\"1.0.0\"}",
        "field dependencyGroups",
    ),
    (
        "{\"dependencyGroups\":[{\"dependencies\":[{\"range\":\"1\"}]}],\"id\":\"Foo\",\"version\":\"1.0.0\"}",
        "field dependencyGroups",
    ),
    (
        "{\"dependencyGroups\":[{\"dependencies\":[{\"id\":\"A\",\"range\":1}]}],\"id\":\"Foo\",\"version\":\"1.0.0\"}",
        "field dependencyGroups",
    ),
    // The first in byte order, and kinds before ids and versions.
    ("{\"authors\":1}", "field authors"),
    (
        "{\"title\":1,\"tags\":1,\"id\":\"\",\"version\":\"\"}",
        "field tags",
    ),
    (
        "{\"dependencyGroups\":[{\"dependencies\":[{\"id\":\"\"}]}],\"id\":\"Foo\",\"version\":1}",
        "field version",
    ),
    // The last of a repeated key counts.
    (
        "{\"id\":\"Foo\",\"version\":\"1.0.0\",\"version\":1}",
        "field version",
    ),
    // Ids, versions and ranges, in this order.
    ("{\"id\":\"\",\"version\":\"\"}", "id id"),
    ("{\"id\":\"Foo Bar\",\"version\":\"1.0.0\"}", "id id"),
    ("{\"id\":\"Foo\",\"version\":\"\"}", "version"),
    (
        "{\"id\":\"Foo\",\"version\":\"1.0.0.0.0\",\"dependencyGroups\":[{\"dependencies\":[{\"id\":\"\"}]}]}",
        "version",
    ),
    (
        "{\"id\":\"Foo\",\"version\":\"1.0.0\",\"dependencyGroups\":[{\"dependencies\":[{\"id\":\"A\"},{\"id\":\"B\",\"range\":\"1.*\"}]}]}",
        "range dependencyGroups/0/dependencies/1/range",
    ),
    (
        "{\"id\":\"Foo\",\"version\":\"1.0.0\",\"dependencyGroups\":[{},{\"dependencies\":[{\"id\":\"A\",\"range\":\"[\"},{\"id\":\"\"}]}]}",
        "range dependencyGroups/1/dependencies/0/range",
    ),
    (
        "{\"id\":\"Foo\",\"version\":\"1.0.0\",\"dependencyGroups\":[{\"dependencies\":[{\"id\":\"-\",\"range\":\"[\"}]}]}",
        "id dependencyGroups/0/dependencies/0/id",
    ),
    (
        "{\"id\":\"Foo\",\"version\":\"1.0.0\",\"dependencyGroups\":[{\"dependencies\":[{\"id\":\"A\"}]},{\"dependencies\":[{\"id\":\"B\"},{\"id\":\"C-\"}]}]}",
        "id dependencyGroups/1/dependencies/1/id",
    ),
];

fn told(alloc: Global, error: &MetaErr) -> Result<String, AllocError> {
    let (word, place) = match error {
        MetaErr::TooLarge(len) => return format!(in alloc; "large {len}"),
        MetaErr::NotJson => ("json", ""),
        MetaErr::Field(name) => ("field ", name.as_str()),
        MetaErr::BadId(path) => ("id ", path.as_str()),
        MetaErr::BadVersion => ("version", ""),
        MetaErr::BadRange(path) => ("range ", path.as_str()),
        MetaErr::Memory => ("memory", ""),
    };
    format!(in alloc; "{word}{place}")
}

// What is answered: the reason, or what the metadata prints as.
fn answer(alloc: Global, bytes: &[u8]) -> Result<String, AllocError> {
    match Meta::read(alloc, bytes) {
        Err(error) => told(alloc, &error),
        Ok(meta) => match meta.tree(alloc) {
            Ok(value) => value.to_string(alloc),
            Err(_) => Err(AllocError),
        },
    }
}

#[test]
fn refuses_with_the_first_reason(rt: HostRuntime) -> Result<(), Fail> {
    for (text, what) in &REFUSED {
        let said = answer(rt.alloc(), text.as_bytes())?;
        same(&rt, said.as_str(), *what, *text);
    }
    let said = answer(rt.alloc(), b"{\"id\":\"\xff\"}")?;
    same(&rt, said.as_str(), "json", "a byte that is no text");
    Ok(())
}

// Texts that are read, and what each prints as.
const READ: [(&str, &str); 9] = [
    (
        "{\"id\":\"Foo\",\"version\":\"1\"}",
        "{\"id\":\"Foo\",\"verbatimVersion\":\"1\",\"version\":\"1.0.0\"}",
    ),
    // Nulls, empty lists, and members that nobody asks for.
    (
        " { \"version\" : \"1.0.0\" , \"id\" : \"Foo\" , \"authors\" : null , \"tags\" : [] , \"dependencyGroups\" : null , \"x\" : { \"id\" : 1 } } ",
        "{\"id\":\"Foo\",\"verbatimVersion\":\"1.0.0\",\"version\":\"1.0.0\"}",
    ),
    // The last of a repeated key counts, in groups too.
    (
        "{\"id\":\"Foo\",\"id\":\"Bar\",\"version\":\"1.0.0\",\"version\":\"2.0.0\",\"title\":\"a\",\"title\":null}",
        "{\"id\":\"Bar\",\"verbatimVersion\":\"2.0.0\",\"version\":\"2.0.0\"}",
    ),
    (
        "{\"id\":\"Foo\",\"version\":\"1.0.0\",\"dependencyGroups\":[{\"dependencies\":[{\"id\":\"A\",\"id\":\"B\",\"range\":\"[1]\",\"range\":null,\"x\":[]}],\"targetFramework\":null,\"y\":0}]}",
        "{\"dependencyGroups\":[{\"dependencies\":[{\"id\":\"B\",\"range\":\"(, )\"}]}],\"id\":\"Foo\",\"verbatimVersion\":\"1.0.0\",\"version\":\"1.0.0\"}",
    ),
    // A group without dependencies stays.
    (
        "{\"id\":\"Foo\",\"version\":\"1.0.0\",\"dependencyGroups\":[{},{\"targetFramework\":\"net8.0\",\"dependencies\":[]}]}",
        "{\"dependencyGroups\":[{},{\"targetFramework\":\"net8.0\"}],\"id\":\"Foo\",\"verbatimVersion\":\"1.0.0\",\"version\":\"1.0.0\"}",
    ),
    // An empty text is given.
    (
        "{\"id\":\"Foo\",\"version\":\"1.0.0\",\"summary\":\"\",\"requireLicenseAcceptance\":false,\"tags\":[\"\"]}",
        "{\"id\":\"Foo\",\"requireLicenseAcceptance\":false,\"summary\":\"\",\"tags\":[\"\"],\"verbatimVersion\":\"1.0.0\",\"version\":\"1.0.0\"}",
    ),
    // Escapes.
    (
        "{\"id\":\"\\u0046oo\",\"version\":\"1.0.0\",\"title\":\"\\u001F\\u00e9\\/\"}",
        "{\"id\":\"Foo\",\"title\":\"\\u001fé/\",\"verbatimVersion\":\"1.0.0\",\"version\":\"1.0.0\"}",
    ),
    // An absent range, and an empty one, is any version.
    (
        "{\"id\":\"Foo\",\"version\":\"1.0.0\",\"dependencyGroups\":[{\"dependencies\":[{\"id\":\"A\"},{\"id\":\"B\",\"range\":\"\"},{\"id\":\"C\",\"range\":\"1.0\"}]}]}",
        "{\"dependencyGroups\":[{\"dependencies\":[{\"id\":\"A\",\"range\":\"(, )\"},{\"id\":\"B\",\"range\":\"(, )\"},{\"id\":\"C\",\"range\":\"[1.0.0, )\"}]}],\"id\":\"Foo\",\"verbatimVersion\":\"1.0.0\",\"version\":\"1.0.0\"}",
    ),
    (ALL, ALL),
];

// All members, in byte order, with the version in its full form: what is printed is what was given.
const ALL: &str =
    "{\"authors\":\"a\",\"dependencyGroups\":[{\"dependencies\":[{\"id\":\"A\",\"range\":\"[1.0.0, 2.0.0)\"}],\"targetFramework\":\"net8.0\"}],\"description\":\"d\",\"iconUrl\":\"i\",\"id\":\"Foo\",\"licenseUrl\":\"l\",\"minClientVersion\":\"m\",\"projectUrl\":\"p\",\"releaseNotes\":\"r\",\"requireLicenseAcceptance\":true,\"summary\":\"s\",\"tags\":[\"t\",\"u\"],\"title\":\"w\",\"verbatimVersion\":\"1.0.0-rc.1+x\",\"version\":\"1.0.0-rc.1+x\"}";

#[test]
fn reads_and_prints(rt: HostRuntime) -> Result<(), Fail> {
    for (text, printed) in &READ {
        let said = answer(rt.alloc(), text.as_bytes())?;
        same(&rt, said.as_str(), *printed, *text);
    }
    Ok(())
}

// Metadata with spaces behind it, of this length.
fn padded(alloc: Global, len: usize) -> Result<String, AllocError> {
    let mut text = String::from_str(alloc, "{\"id\":\"Foo\",\"version\":\"1.0.0\"}")?;
    for _ in text.len()..len {
        text.push(' ')?;
    }
    Ok(text)
}

// Metadata with a member of this many arrays, one within another.
fn nested(alloc: Global, arrays: usize) -> Result<String, AllocError> {
    let mut text = String::from_str(alloc, "{\"id\":\"Foo\",\"version\":\"1.0.0\",\"x\":")?;
    for _ in 0..arrays {
        text.push('[')?;
    }
    for _ in 0..arrays {
        text.push(']')?;
    }
    text.push('}')?;
    Ok(text)
}

const BARE: &str = "{\"id\":\"Foo\",\"verbatimVersion\":\"1.0.0\",\"version\":\"1.0.0\"}";

#[test]
fn keeps_the_limit_of_bytes(rt: HostRuntime) -> Result<(), Fail> {
    let alloc = rt.alloc();
    for (len, want) in &[(32_768, BARE), (32_769, "large 32769")] {
        let text = padded(alloc, *len)?;
        same(&rt, answer(alloc, text.as_bytes())?.as_str(), *want, *len);
    }
    Ok(())
}

// The outer object counts.
#[test]
fn keeps_the_limit_of_depth(rt: HostRuntime) -> Result<(), Fail> {
    let alloc = rt.alloc();
    for (arrays, want) in &[(126, BARE), (127, "json")] {
        let text = nested(alloc, *arrays)?;
        same(
            &rt,
            answer(alloc, text.as_bytes())?.as_str(),
            *want,
            *arrays,
        );
    }
    Ok(())
}

fn meta_of(alloc: Global, text: &str) -> Result<Meta, AllocError> {
    match Meta::read(alloc, text.as_bytes()) {
        Ok(meta) => Ok(meta),
        Err(_) => Err(AllocError),
    }
}

// The details of metadata published at place 0 of commit 1, on 2024-01-01, with a package of three bytes.
fn published(rt: &impl Abort, alloc: Global, text: &str) -> Result<Details, AllocError> {
    let stamp = Ticks::of(638_396_640_000_000_000).expect(rt, "a moment");
    let hash = Text::of(String::from_str(alloc, HASH)?);
    let meta = meta_of(alloc, text)?;
    Ok(Details::published(meta, 1, 0, stamp, 3, hash))
}

// Of the bytes `abc`, as FIPS 180-2 gives it, in base64.
const HASH: &str =
    "3a81oZNherrMQXNJriBBMRLm+k6JqX6iCp7u5ktV05ohkpkqJ0/BqDa6PCOj/uu9RU1EI2Q86A4qmslPpUyknw==";

fn printed(alloc: Global, details: &Details) -> Result<String, AllocError> {
    match details.tree(alloc) {
        Ok(value) => value.to_string(alloc),
        Err(_) => Err(AllocError),
    }
}

#[test]
fn prints_details(rt: HostRuntime) -> Result<(), Fail> {
    let alloc = rt.alloc();
    let mut details = published(&rt, alloc, "{\"id\":\"Foo\",\"version\":\"1.0.0\"}")?;
    same(
        &rt,
        printed(alloc, &details)?.as_str(),
        LISTED,
        "a listed one",
    );
    details.listed = false;
    same(
        &rt,
        printed(alloc, &details)?.as_str(),
        UNLISTED,
        "an unlisted one",
    );
    Ok(())
}

const LISTED: &str =
    "{\"created\":\"2024-01-01T00:00:00.0000000Z\",\"id\":\"Foo\",\"isPrerelease\":false,\"listed\":true,\"origin\":\"1/0\",\"packageHash\":\"3a81oZNherrMQXNJriBBMRLm+k6JqX6iCp7u5ktV05ohkpkqJ0/BqDa6PCOj/uu9RU1EI2Q86A4qmslPpUyknw==\",\"packageHashAlgorithm\":\"SHA512\",\"packageSize\":3,\"published\":\"2024-01-01T00:00:00.0000000Z\",\"verbatimVersion\":\"1.0.0\",\"version\":\"1.0.0\"}";

const UNLISTED: &str =
    "{\"created\":\"2024-01-01T00:00:00.0000000Z\",\"id\":\"Foo\",\"isPrerelease\":false,\"listed\":false,\"origin\":\"1/0\",\"packageHash\":\"3a81oZNherrMQXNJriBBMRLm+k6JqX6iCp7u5ktV05ohkpkqJ0/BqDa6PCOj/uu9RU1EI2Q86A4qmslPpUyknw==\",\"packageHashAlgorithm\":\"SHA512\",\"packageSize\":3,\"published\":\"1900-01-01T00:00:00.0000000Z\",\"verbatimVersion\":\"1.0.0\",\"version\":\"1.0.0\"}";

// Metadata, and whether it is of a SemVer 2.0.0 package.
const SEMVER2: [(&str, bool); 7] = [
    ("{\"id\":\"Foo\",\"version\":\"1.0.0-rc\"}", false),
    ("{\"id\":\"Foo\",\"version\":\"1.0.0-rc.1\"}", true),
    ("{\"id\":\"Foo\",\"version\":\"1.0.0+x\"}", true),
    (
        "{\"id\":\"Foo\",\"version\":\"1.0.0\",\"dependencyGroups\":[{\"dependencies\":[{\"id\":\"A\",\"range\":\"[1.0.0-a, 2.0.0)\"}]}]}",
        false,
    ),
    (
        "{\"id\":\"Foo\",\"version\":\"1.0.0\",\"dependencyGroups\":[{\"dependencies\":[{\"id\":\"A\",\"range\":\"[1.0.0-a.1, 2.0.0)\"}]}]}",
        true,
    ),
    (
        "{\"id\":\"Foo\",\"version\":\"1.0.0\",\"dependencyGroups\":[{\"dependencies\":[{\"id\":\"A\"},{\"id\":\"B\",\"range\":\"(, 2.0.0+x]\"}]}]}",
        true,
    ),
    (
        "{\"id\":\"Foo\",\"version\":\"1.0.0\",\"dependencyGroups\":[{},{\"dependencies\":[{\"id\":\"A\",\"range\":\"1.0+x\"}]}]}",
        true,
    ),
];

fn is_semver2(rt: &impl Abort, alloc: Global, text: &str) -> Result<bool, AllocError> {
    Ok(published(rt, alloc, text)?.is_semver2())
}

#[test]
fn tells_semver2_packages(rt: HostRuntime) -> Result<(), Fail> {
    for (text, want) in &SEMVER2 {
        same(&rt, is_semver2(&rt, rt.alloc(), text)?, *want, *text);
    }
    Ok(())
}
