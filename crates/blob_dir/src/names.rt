// The names of blobs, and the paths of their files.
ghost use Rattle.std.specs.Prelude.{◌≡◌, IfOk};
ghost use Rattle.std.specs.List.{list_all};
ghost use Rattle.blob_dir.specs.Names.{is_blob_name, is_inside, is_path_byte, is_plain, path_of, temporary_of, TemporariesAreNoBlobs};

use crate::{NoMemory, Text};
use std::alloc::Global;

// Neither empty nor one of the two names that a file system gives a meaning of their own.
fn is_plain(piece: &str) -> bool
    ensures { result ≡ is_plain piece.now }
{
    !piece.is_empty() && piece != "." && piece != ".."
}

fn has_path_bytes(name: &[u8]) -> bool
    ensures { result ≡ list_all is_path_byte name.now }
{
    name.iter().all(|b| *b != 0 && *b != b'\\')
}

// Whether a name stays inside the folder that it is looked up in.
fn is_inside(name: &str) -> bool
    ensures { result ≡ is_inside name.now }
{
    name.split('/').all(is_plain) && has_path_bytes(name.as_bytes())
}

/// Whether a blob can stand under a name.
///
/// The pieces between its slashes are neither empty nor `.` nor `..`, it has no NUL and no backslash, and it
/// doesn't end in `.tmp`, as temporary files do. So it doesn't begin or end with a slash.
pub fn is_blob_name(name: &str) -> bool
    ensures { result ≡ is_blob_name name.now }
{
    is_inside(name) && !name.ends_with(".tmp")
}

/// The path of a blob's file.
pub(crate) fn join(alloc: Global, folder: &str, name: &str) -> Result<Text, NoMemory>
    ensures { IfOk result (λ path. path ≡ path_of folder.now name.now) }
{
    let path = format!(in alloc; "{folder}/{name}")?;
    Ok(Text::of(path))
}

/// The path of the temporary file of a blob's file.
pub(crate) fn join_temporary(alloc: Global, path: &str) -> Result<Text, NoMemory>
    ensures { IfOk result (λ temporary. temporary ≡ temporary_of path.now) }
{
    let temporary = format!(in alloc; "{path}.tmp")?;
    Ok(Text::of(temporary))
}

/// The temporary file of one blob is never the file of another, so a put changes no other blob.
pub fn temporaries_are_no_blobs()
    ensures { TemporariesAreNoBlobs }
{}
