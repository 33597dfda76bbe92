// A state's document, byte for byte, and texts that are none.
use crate::same::same;
use fold_core::NoMemory;
use hive_state::{DocErr, StateDoc, read_state, state_bytes, state_name};
use std::alloc::Global;
use std::process::Abort;
use std::test::Fail;

const HEAD: &str = r#"{"at":3,"dirty":true,"entries":["#;

const FIRST: &str =
    r#"{"details":{"created":"2024-01-01T00:00:00.0000000Z","id":"Json.Net","isPrerelease":false,"listed":false,"origin":"1/0","packageHash":"","packageHashAlgorithm":"SHA512","packageSize":3,"published":"1900-01-01T00:00:00.0000000Z","verbatimVersion":"1.0","version":"1.0.0"},"number":2,"place":0}"#;

const SECOND: &str =
    r#"{"details":{"created":"2024-01-01T00:00:00.0000000Z","dependencyGroups":[{"dependencies":[{"id":"Bar","range":"[1.0.0, )"}],"targetFramework":"net8.0"}],"id":"Json.Net","isPrerelease":true,"listed":true,"origin":"1/1","packageHash":"","packageHashAlgorithm":"SHA512","packageSize":3,"published":"2024-01-01T00:00:00.0000000Z","tags":["json"],"verbatimVersion":"1.1.0-beta","version":"1.1.0-beta"},"number":1,"place":1}"#;

const TAIL: &str =
    r#"],"names":["d/json.net/1.0.0.json","d/json.net/1.1.0-beta.json","d/json.net/index.json"],"touched":2,"touchedTimeStamp":"2024-01-01T00:00:01.0000000Z"}"#;

// A part of the text, and what it becomes so that the text is no state's.
const CHANGES: [(&str, &str); 8] = [
    (r#""at":3"#, r#""at": 3"#),
    (r#""at":3"#, r#""at":4294967296"#),
    (r#""SHA512""#, r#""SHA513""#),
    (r#""1900-01"#, r#""2024-01"#),
    (r#""isPrerelease":true"#, r#""isPrerelease":false"#),
    (r#"d/json.net/1.1.0-beta.json"#, r#"d/json.net/1.0.0.json"#),
    (r#"d/json.net/1.1.0-beta.json"#, r#"d/json.net/z.json"#),
    (r#""touched":2,"#, ""),
];

fn text(alloc: Global) -> Result<String, NoMemory> {
    Ok(format!(in alloc; "{HEAD}{FIRST},{SECOND}{TAIL}")?)
}

fn is_damaged(alloc: Global, text: &str) -> bool {
    matches!(read_state(alloc, text.as_bytes()), Err(DocErr::Damaged))
}

// Asserts what the state says.
fn check(rt: &impl Abort, state: &StateDoc) {
    let marks = (state.at, state.touched, state.dirty);
    same(rt, marks, (3, 2, true), "the marks");
    same(
        rt,
        (state.names.len(), state.entries.len()),
        (3, 2),
        "the counts",
    );
    same(rt, state.has("d/json.net/1.1.0-beta.json"), true, "a name");
    same(rt, state.has("d/json.net/1.1.0.json"), false, "no name");
    for (entry, want) in state
        .entries
        .as_slice()
        .iter()
        .zip(&[(2, false), (1, true)])
    {
        same(rt, (entry.number, entry.details.listed), *want, "an entry");
    }
}

#[test]
fn a_state_is_read_and_written(rt: HostRuntime) -> Result<(), Fail> {
    let alloc = rt.alloc();
    let text = text(alloc)?;
    let state = read_state(alloc, text.as_bytes())?;
    check(&rt, &state);
    let bytes = state_bytes(alloc, &state)?;
    same(&rt, bytes.as_slice(), text.as_bytes(), "the state's bytes");
    let name = state_name(alloc, "json.net")?;
    same(&rt, name.as_str(), "s/json.net.json", "the state's name");
    Ok(())
}

// Asserts that a text is changed, and damaged so.
fn is_changed(
    rt: &impl Abort,
    alloc: Global,
    text: &str,
    old: &str,
    new: &str,
) -> Result<(), NoMemory> {
    let changed = text.replace(alloc, old, new)?;
    let is_other = changed.as_str() != text;
    let is_damaged = is_damaged(alloc, changed.as_str());
    assert_eq!(rt; (is_other, is_damaged), (true, true), "{old}: {new}");
    Ok(())
}

#[test]
fn other_texts_are_damaged(rt: HostRuntime) -> Result<(), Fail> {
    let alloc = rt.alloc();
    let text = text(alloc)?;
    for (old, new) in &CHANGES {
        is_changed(&rt, alloc, text.as_str(), old, new)?;
    }
    let swapped = format!(in alloc; "{HEAD}{SECOND},{FIRST}{TAIL}")?;
    same(
        &rt,
        is_damaged(alloc, swapped.as_str()),
        true,
        "entries swapped",
    );
    same(&rt, is_damaged(alloc, ""), true, "no text");
    Ok(())
}
