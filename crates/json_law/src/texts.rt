// Reading a stored text, and telling whether it is the text of a value.
ghost use Rattle.std.specs.Prelude.{◌≡◌, ◌↔◌, Some, None, false, IfOk, IfSome, IfNone, IsNone, IsTrue, IsUtf8, option_map};
ghost use Rattle.serde_json.specs.Data.{Data};
ghost use Rattle.serde_json.specs.Read.{read};
ghost use Rattle.serde_json.specs.View.{view};
ghost use Rattle.serde_json.specs.Written.{compact_text, has_float};
ghost use Rattle.serde_json.specs.Errors.{IsMemory};
ghost use Rattle.json_law.specs.Fits.{IsReadable};

use serde_json::{Error, Value};
use std::alloc::{AllocError, Global};

/// The value of a JSON text, or none where the bytes are no such text. The nesting of a text that is
/// read is at most 127.
pub fn value_of(alloc: Global, bytes: &[u8]) -> Result<Option<Value>, AllocError>
    ensures value { IfOk result (λ found. IfSome found (λ v. read bytes.now ≡ Some (view v))) }
    ensures utf8 { IfOk result (λ found. IfSome found (λ _. IsUtf8 bytes.now)) }
    ensures none { IfOk result (λ found. IfNone found (IsUtf8 bytes.now → read bytes.now ≡ None)) }
    ensures compact { (d : Data) → IsReadable d → bytes.now ≡ compact_text d
        → IfOk result (λ found. option_map view found ≡ Some d) }
{
    match Value::from_slice(alloc, bytes) {
        Ok(value) => Ok(Some(value)),
        Err(error) => none_unless_memory(error),
    }
}

/// Whether the bytes are the compact text of the value.
pub fn is_text_of(alloc: Global, bytes: &[u8], value: &Value) -> Result<bool, AllocError>
    requires { has_float (view value.now) ≡ false }
    ensures { IfOk result (λ same. IsTrue same ↔ (bytes.now ≡ compact_text (view value.now))) }
{
    let text = value.to_vec(alloc)?;
    Ok(text.as_slice() == bytes)
}

fn none_unless_memory(error: Error) -> Result<Option<Value>, AllocError>
    ensures { IfOk result (λ found. (¬ IsMemory error) × IsNone found) }
{
    if error.is_memory() {
        Err(AllocError)
    } else {
        Ok(None)
    }
}
