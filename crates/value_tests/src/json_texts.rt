// Texts that are JSON or not, and texts of one value that are its compact text or not.
ghost use Rattle.std.specs.Prelude.{◌≡◌, false, IfOk};
ghost use Rattle.serde_json.specs.View.{view};
ghost use Rattle.serde_json.specs.Written.{has_float};

use json_law::{is_text_of, value_of};
use serde_json::{Value, json};
use std::alloc::{AllocError, Global};
use std::test::Fail;

// Bytes, and whether they are a JSON text (RFC 8259).
const TEXTS: [(&[u8], bool); 10] = [
    (b"null", true),
    (b"{\"a\":1,\"b\":[true,false]}", true),
    (b" { \"a\" : \"x\" } ", true),
    (b"", false),
    (b"{", false),
    (b"[1,]", false),
    (b"{\"a\":01}", false),
    (b"\xff", false),
    (b"\"\xc3\"", false),
    (b"1 1", false),
];

fn is_json(alloc: Global, bytes: &[u8]) -> Result<bool, AllocError> {
    Ok(value_of(alloc, bytes)?.is_some())
}

#[test]
fn reads_json_alone(rt: HostRuntime) -> Result<(), Fail> {
    for (bytes, want) in &TEXTS {
        let found = is_json(rt.alloc(), bytes)?;
        assert_eq!(rt; found, *want, "{bytes:?}");
    }
    Ok(())
}

// Texts of one value, and whether they are its compact text: keys in byte order, no space.
const SPELLINGS: [(&[u8], bool); 5] = [
    (b"{\"A\":[1,2],\"b\":\"\\u001f\"}", true),
    (b"{\"b\":\"\\u001f\",\"A\":[1,2]}", false),
    (b"{\"A\":[1, 2],\"b\":\"\\u001f\"}", false),
    (b"{\"A\":[1,2],\"b\":\"\\u001F\"}", false),
    (b"{\"A\":[0,2],\"A\":[1,2],\"b\":\"\\u001f\"}", false),
];

fn sample(alloc: Global) -> Result<Value, AllocError>
    ensures { IfOk result (λ v. has_float (view v) ≡ false) }
{
    json!(in alloc; {"A": [1, 2], "b": "\u{1f}"})
}

fn is_compact(alloc: Global, bytes: &[u8]) -> Result<bool, AllocError> {
    let value = sample(alloc)?;
    is_text_of(alloc, bytes, &value)
}

#[test]
fn tells_the_compact_text(rt: HostRuntime) -> Result<(), Fail> {
    for (bytes, want) in &SPELLINGS {
        let found = is_compact(rt.alloc(), bytes)?;
        assert_eq!(rt; found, *want, "{bytes:?}");
    }
    Ok(())
}
