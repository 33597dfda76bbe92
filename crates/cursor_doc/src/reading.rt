// The reader of a cursor document, which accepts exactly what the writer writes.
ghost use Rattle.std.specs.Prelude.{◌≡◌, ◌<◌, ◌≤◌, ◌^◌, ℕ, Some, IfOk, IsErrOf, IsTrue, ◌↔◌, option_map};
ghost use Rattle.serde_json.specs.View.{view};
ghost use Rattle.ticks.specs.Stamp.{stamp_text};
ghost use Rattle.catalog_doc.specs.Documents.{commit_id};
ghost use Rattle.cursor_doc.specs.Cursor.{cursor_data, cursor_text};
ghost use Rattle.cursor_doc.specs.Reading.{IsMarkValue};
ghost use Rattle.cursor_doc.specs.declared.mark.Mark.{Mark};

use crate::mark::Mark;
use crate::writing::cursor_value;
use catalog_doc::DocErr;
use catalog_reading::commit_number;
use json_law::{is_text_of, value_of};
use pkg_meta::{NoMemory, Ticks};
use serde_json::Value;
use std::alloc::Global;

// The fields are said for what the writer writes; of other values something else may be read.
fn commit_text(value: &Value) -> Option<&str>
    ensures { (number stamp : ℕ) → view value.now ≡ cursor_data number stamp → option_map (λ t. t.now) result ≡ Some (commit_id number) }
{
    value.get("commitId").and_then(Value::as_str)
}

fn stamp_text(value: &Value) -> Option<&str>
    ensures { (number stamp : ℕ) → view value.now ≡ cursor_data number stamp → option_map (λ t. t.now) result ≡ Some (stamp_text stamp) }
{
    value.get("commitTimeStamp").and_then(Value::as_str)
}

fn number_in(value: &Value) -> Option<u32>
    ensures { (number stamp : ℕ) → number < 2 ^ 32 → view value.now ≡ cursor_data number stamp → result ≡ Some number }
{
    match commit_text(value) {
        Some(text) => commit_number(text),
        None => None,
    }
}

fn stamp_in(value: &Value) -> Option<Ticks>
    ensures { (number stamp : ℕ) → stamp ≤ 3_155_378_975_999_999_999 → view value.now ≡ cursor_data number stamp → result ≡ Some stamp }
{
    match stamp_text(value) {
        Some(text) => Ticks::read(text).ok(),
        None => None,
    }
}

fn mark_in(value: &Value) -> Option<Mark>
    ensures { (mark : Mark) → IsMarkValue mark → view value.now ≡ cursor_data mark.number mark.stamp → result ≡ Some mark }
{
    let number = number_in(value)?;
    let stamp = stamp_in(value)?;
    Some(Mark { number, stamp })
}

// Whether the bytes are the cursor document of this mark.
#[tactic(auto, unfolding(crate::specs::Cursor::cursor_text))]
fn is_cursor(alloc: Global, mark: &Mark, bytes: &[u8]) -> Result<bool, NoMemory>
    ensures { IfOk result (λ same. IsTrue same ↔ (bytes.now ≡ cursor_text mark.now.number mark.now.stamp)) }
{
    let again = cursor_value(alloc, mark)?;
    let same = is_text_of(alloc, bytes, &again)?;
    Ok(same)
}

/// The mark whose cursor document the bytes are: those that `cursor_bytes` writes, and no other spelling.
///
/// `Damaged` comes where they are the document of no mark, as with a space, with other members, with
/// the id in capital letters, or with a number above 4294967295.
pub fn read_cursor(alloc: Global, bytes: &[u8]) -> Result<Mark, DocErr>
    ensures ok { IfOk result (λ mark. bytes.now ≡ cursor_text mark.number mark.stamp) }
    ensures value { IfOk result IsMarkValue }
    ensures exact { (mark : Mark) → IsMarkValue mark → bytes.now ≡ cursor_text mark.number mark.stamp → IfOk result (λ found. found ≡ mark) }
    ensures damaged { IsErrOf result DocErr.Damaged → (mark : Mark) → IsMarkValue mark → bytes.now ≡ cursor_text mark.number mark.stamp → ⊥ }
{
    let Some(value) = value_of(alloc, bytes)? else {
        return Err(DocErr::Damaged);
    };
    let Some(mark) = mark_in(&value) else {
        return Err(DocErr::Damaged);
    };
    if is_cursor(alloc, &mark, bytes)? {
        Ok(mark)
    } else {
        Err(DocErr::Damaged)
    }
}
