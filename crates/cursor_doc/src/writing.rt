// The writer of a cursor document.
ghost use Rattle.std.specs.Prelude.{◌≡◌, IfOk, string_bytes};
ghost use Rattle.serde_json.specs.View.{view};
ghost use Rattle.cursor_doc.specs.Cursor.{cursor_data, cursor_object, cursor_text};

use crate::mark::Mark;
use catalog_doc::commit_id;
use pkg_meta::{Bytes, NoMemory};
use serde_json::{Value, json};
use std::alloc::{AllocError, Global};

/// The name of the cursor document in a hive's area.
pub const CURSOR_NAME: &str = "cursor.json";

fn cursor_object(alloc: Global, commit: String, stamp: String) -> Result<Value, AllocError>
    ensures { IfOk result (λ v. view v ≡ cursor_object (string_bytes commit) (string_bytes stamp)) }
{
    json!(in alloc; {"commitId": commit, "commitTimeStamp": stamp})
}

pub(crate) fn cursor_value(alloc: Global, mark: &Mark) -> Result<Value, NoMemory>
    ensures { IfOk result (λ v. view v ≡ cursor_data mark.now.number mark.now.stamp) }
{
    let commit = commit_id(alloc, mark.number)?;
    let stamp = mark.stamp.print(alloc)?.into_string();
    let value = cursor_object(alloc, commit, stamp)?;
    Ok(value)
}

/// The bytes of the cursor document, compact JSON (RFC 8259) with its keys in byte order:
/// `{"commitId":"<commit id>","commitTimeStamp":"<stamp>"}`.
#[tactic(auto, unfolding(crate::specs::Cursor::cursor_text))]
pub fn cursor_bytes(alloc: Global, mark: &Mark) -> Result<Bytes, NoMemory>
    ensures { IfOk result (λ b. b ≡ cursor_text mark.now.number mark.now.stamp) }
{
    let value = cursor_value(alloc, mark)?;
    let bytes = value.to_vec(alloc)?;
    Ok(Bytes::of(bytes))
}
