// The trees of stored texts, whose strings are borrowed.
ghost use Rattle.std.specs.Prelude.{◌≡◌, ◌≢◌, Some, IfOk, IsNone, option_map};
ghost use Rattle.json.specs.Value.{value_view};
ghost use Rattle.json_law.specs.Fits.{IsReadable};
ghost use Rattle.serde_json.specs.Data.{Data};
ghost use Rattle.serde_json.specs.Written.{compact_text, outline};

use json::{Error, Scratch, Value};
use pkg_meta::NoMemory;
use std::alloc::Global;

// The tree of a text that a writer wrote. Of other bytes another tree may be read, or none.
pub(crate) fn tree_of<'a>(
    alloc: Global,
    bytes: &'a [u8],
    scratch: &'a mut Scratch,
) -> Result<Option<Value<'a>>, NoMemory>
    ensures { (d : Data) → IsReadable d → bytes.now ≡ compact_text d → IfOk result (λ found. option_map value_view found ≡ Some (outline d)) }
{
    match Value::from_slice(alloc, bytes, scratch) {
        Ok(tree) => Ok(Some(tree)),
        Err(error) => refused(error),
    }
}

// No tree, unless it is out of memory.
fn refused<'a>(error: Error) -> Result<Option<Value<'a>>, NoMemory>
    ensures { IfOk result (λ found. (error ≢ Error.OutOfMemory) × IsNone found) }
{
    match error {
        Error::OutOfMemory => Err(NoMemory),
        _ => Ok(None),
    }
}
