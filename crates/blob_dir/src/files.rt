// The files of a folder: whole reads, and changes that outlast a crash.
ghost use Rattle.std.specs.Prelude.{◌≤◌, length, IfOk, IfSome};
ghost use Rattle.blob_dir.specs.Names.{blob_limit};

use crate::folders::{folder_of, make_folders, sync_folder};
use crate::paths::BlobPath;
use crate::{Access, BlobErr, Bytes, Text};
use std::alloc::Global;
use std::fs::{Files, OpenFile};
use std::io::{ErrorKind, Read, Write};
use std::{fs, io};

/// The largest blob, in bytes.
pub const BLOB_LIMIT: u64 = 268_435_456;

/// A folder of blobs. Each call takes the place of a blob in it, and none is made unless access was granted.
#[derive(Drop)]
pub(crate) struct Folder<R: Drop> {
    pub(crate) files: R,
    pub(crate) path: Text,
    pub(crate) access: Access,
}

impl<R: Files + Drop> Folder<R> {
    ghost use Rattle.blob_dir.specs.Touched.{MayTouch};

    // Opens a blob's file, or answers that there is none.
    fn open(&self, place: &BlobPath<'_>) -> io::Result<Option<R::File>>
        requires { MayTouch self.now place.now }
    {
        match fs::open(&self.files, place.file.as_str()) {
            Ok(file) => Ok(Some(file)),
            Err(error) if error.kind() == ErrorKind::NotFound => Ok(None),
            Err(error) => Err(error),
        }
    }

    /// All bytes of a blob's file, or none where there is no file.
    pub(crate) fn read(&self, alloc: Global, place: &BlobPath<'_>) -> Result<Option<Bytes>, BlobErr>
        requires { MayTouch self.now place.now }
        ensures within { IfOk result (λ found. IfSome found (λ bytes. length bytes ≤ blob_limit)) }
    {
        match self.open(place) {
            Ok(Some(mut file)) => Ok(Some(read_whole(alloc, &mut file)?)),
            Ok(None) => Ok(None),
            Err(_) => Err(BlobErr::Failed),
        }
    }

    // Makes an empty temporary file in place of one that is there, and the folders that its path lacks.
    fn create(&self, place: &BlobPath<'_>) -> io::Result<R::File>
        requires { MayTouch self.now place.now }
    {
        match fs::create(&self.files, place.temporary.as_str()) {
            Err(error) if error.kind() == ErrorKind::NotFound => {
                make_folders(&self.files, place.file.as_str())?;
                fs::create(&self.files, place.temporary.as_str())
            }
            answer => answer,
        }
    }

    // Puts the temporary file in place of the blob's.
    fn rename(&self, place: &BlobPath<'_>) -> io::Result<()>
        requires { MayTouch self.now place.now }
    {
        fs::rename(&self.files, place.temporary.as_str(), place.file.as_str())
    }

    // Syncs the folder that the blob's file stands in.
    fn sync(&self, place: &BlobPath<'_>) -> io::Result<()>
        requires { MayTouch self.now place.now }
    {
        sync_folder(&self.files, folder_of(place.file.as_str()))
    }

    fn unlink(&self, place: &BlobPath<'_>) -> io::Result<()>
        requires { MayTouch self.now place.now }
    {
        fs::remove_file(&self.files, place.file.as_str())
    }

    /// Puts these bytes into a blob's file: whoever opens it finds all of them, or what was there before.
    pub(crate) fn replace(&self, place: &BlobPath<'_>, bytes: &[u8]) -> io::Result<()>
        requires { MayTouch self.now place.now }
    {
        let mut file = self.create(place)?;
        file.write_all(bytes)?;
        file.sync_all()?;
        self.rename(place)?;
        self.sync(place)
    }

    /// Removes a blob's file, which need not be there. Where it isn't, its folder is synced all the same, since an
    /// earlier removal may have failed at its sync.
    pub(crate) fn remove(&self, place: &BlobPath<'_>) -> io::Result<()>
        requires { MayTouch self.now place.now }
    {
        or_missing(self.unlink(place))?;
        or_missing(self.sync(place))
    }
}

// That something isn't there is no error.
fn or_missing(answer: io::Result<()>) -> io::Result<()> {
    match answer {
        Err(error) if error.kind() == ErrorKind::NotFound => Ok(()),
        answer => answer,
    }
}

// The length of an open file, or a fault where it is above the limit.
fn length_of(file: &impl OpenFile) -> Result<usize, BlobErr>
    ensures { IfOk result (λ n. n ≤ blob_limit) }
{
    match file.metadata() {
        Ok(metadata) if metadata.len() <= BLOB_LIMIT => Ok(metadata.len() as usize),
        _ => Err(BlobErr::Failed),
    }
}

// Fills the buffer, and answers whether it holds all that the file had.
fn fill(file: &mut impl Read, buffer: &mut [u8]) -> io::Result<bool> {
    file.read_exact(buffer)?;
    let mut more = [0u8; 1];
    Ok(file.read(&mut more)? == 0)
}

// All bytes of an open file. A file whose length changes meanwhile is a fault: a put never changes one.
fn read_whole<F: Read + OpenFile>(alloc: Global, file: &mut F) -> Result<Bytes, BlobErr>
    ensures within { IfOk result (λ bytes. length bytes ≤ blob_limit) }
{
    let len = length_of(file)?;
    let Ok(mut bytes) = Vec::from_elem(alloc, 0u8, len) else {
        return Err(BlobErr::Memory);
    };
    match fill(file, &mut bytes) {
        Ok(true) => Ok(Bytes::of(bytes)),
        _ => Err(BlobErr::Failed),
    }
}
