// The words of commands and their option, over stores in memory.
use crate::commands::{answers, follow};
use feed_runs::{DONE, Exchange, FOO, INDEX, USAGE, behind, with_body};
use std::test::Fail;

const OTHER: &str = "refused base http://f.test/ http://g.test/\n";

// Words on the catalog of no commits.
const WORDS: [(&[&str], u8, &str); 30] = [
    (&["job", "red"], 2, USAGE),
    (&["get"], 2, USAGE),
    (&["publish", "--base=x"], 2, USAGE),
    (&["publish", "--base", "x"], 2, USAGE),
    (&["publish", "--base=http://f.test"], 2, USAGE),
    (&["publish", "--base"], 2, USAGE),
    (&["publish", "--base="], 2, USAGE),
    (&["publish", "--base", "--base=http://f.test/"], 2, USAGE),
    (
        &["publish", "--base=http://f.test/", "--base=http://f.test/"],
        2,
        USAGE,
    ),
    (
        &[
            "publish",
            "--base",
            "http://f.test/",
            "--base",
            "http://f.test/",
        ],
        2,
        USAGE,
    ),
    (&["publish", "--links=4"], 2, USAGE),
    (&["publish", "-b"], 2, USAGE),
    (&["publish", "--bases=http://f.test/"], 2, USAGE),
    (&["publish", "-"], 2, USAGE),
    (&["publish", "--"], 2, USAGE),
    (&["get", "-"], 2, USAGE),
    (&["get", "--", "/v3/index.json"], 2, USAGE),
    (&["delete", "Foo", "-1"], 2, USAGE),
    (&["-", "publish"], 2, USAGE),
    (&["--base=http://f.test/", "publish"], 2, USAGE),
    (&["--base", "http://f.test/", "publish"], 2, USAGE),
    (&["init", "--base=http://f.test/"], 2, USAGE),
    (
        &["init", "http://f.test/", "--base=http://f.test/"],
        2,
        USAGE,
    ),
    (
        &["get", "--base=http://g.test/", "/v3/index.json"],
        3,
        OTHER,
    ),
    (
        &["get", "/v3/index.json", "--base", "http://g.test/"],
        3,
        OTHER,
    ),
    (&["publish", "--base=http://g.test/"], 3, OTHER),
    (
        &["delete", "--base", "http://g.test/", "Foo", "1.0.0"],
        3,
        OTHER,
    ),
    (
        &["job", "content", "--base=https://f.test/"],
        3,
        "refused base http://f.test/ https://f.test/\n",
    ),
    (&["cursor", "--base=http://g.test/", "plain"], 3, OTHER),
    (&["publish", "--base=http://f.test/"], 0, DONE),
];

#[test]
fn tells_what_words_mean(rt: HostRuntime) -> Result<(), Fail> {
    let alloc = rt.alloc();
    for (place, (words, status, text)) in WORDS.iter().enumerate() {
        let stores = behind(alloc, 1, &[], &[])?;
        let want = (*status, *text);
        answers(&rt, alloc, stores, words, with_body(FOO), want, place)?;
    }
    Ok(())
}

// With the catalog's own base address each command does what it does without.
const WITH_BASE: [Exchange<'_>; 9] = [
    (
        &["publish", "--base=http://f.test/"],
        FOO,
        3,
        "refused uninitialised\n",
    ),
    (&["init", "http://f.test/"], "", 0, "initialised\n"),
    (&["publish", "--base", "http://f.test/"], FOO, 0, DONE),
    (
        &["publish", "--base=http://g.test/"],
        "x",
        3,
        "refused body 0\n",
    ),
    (&["publish", "--base=http://g.test/"], FOO, 3, OTHER),
    (
        &["job", "--base=http://f.test/", "content"],
        "",
        0,
        "done content 1\n",
    ),
    (
        &["cursor", "content", "--base", "http://f.test/"],
        "",
        0,
        "cursor content 1\n",
    ),
    (
        &["get", "--base", "http://f.test/", "/v3/catalog/index.json"],
        "",
        0,
        INDEX,
    ),
    (
        &["delete", "Foo", "--base=http://f.test/", "1.0.0"],
        "",
        0,
        "committed 2 2024-01-01T00:00:00.0000001Z\n",
    ),
];

#[test]
fn takes_its_own_base(rt: HostRuntime) -> Result<(), Fail> {
    follow(&rt, rt.alloc(), &WITH_BASE)?;
    Ok(())
}
