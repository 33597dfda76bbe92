// Where a blob stands in a folder.
ghost use Rattle.std.specs.Prelude.{◌≡◌, true, false, IfOk, IsErrOf};
ghost use Rattle.std.specs.declared.result.Result.TheVariants.{Err};
ghost use Rattle.blob_dir.specs.Names.{is_blob_name, path_of, temporary_of};

use crate::names::{is_blob_name, join, join_temporary};
use crate::{BlobErr, Text};
use std::alloc::Global;

/// The paths of a blob's file and of its temporary one. No other file of a folder is opened, written, renamed, synced
/// or removed.
#[derive(Drop)]
pub(crate) struct BlobPath<'a> {
    pub(crate) folder: &'a str,
    pub(crate) name: &'a str,
    pub(crate) file: Text,
    pub(crate) temporary: Text,
    ghost named: { is_blob_name name.now ≡ true },
    ghost inside: { file ≡ path_of folder.now name.now },
    ghost beside: { temporary ≡ temporary_of file },
}

impl<'a> BlobPath<'a> {
    /// The place of a name in a folder, or a fault where no blob can stand under it.
    pub(crate) fn of(alloc: Global, folder: &'a str, name: &'a str) -> Result<Self, BlobErr>
        ensures folder { IfOk result (λ path. path.folder.now ≡ folder.now) }
        ensures name { IfOk result (λ path. path.name.now ≡ name.now) }
        ensures refused { is_blob_name name.now ≡ false → result ≡ Err BlobErr.Failed }
        ensures failed { IsErrOf result BlobErr.Failed → is_blob_name name.now ≡ false }
    {
        if !is_blob_name(name) {
            return Err(BlobErr::Failed);
        }
        let file = join(alloc, folder, name)?;
        let temporary = join_temporary(alloc, file.as_str())?;
        Ok(BlobPath {
            folder,
            name,
            file,
            temporary,
        })
    }
}
