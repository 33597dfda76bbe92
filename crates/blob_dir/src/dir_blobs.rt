// A store in a folder.
ghost use Rattle.std.specs.Prelude.{◌≡◌, ◌<◌, ◌≤◌, false, length, IfOk, IfSome, IsErrOf};
ghost use Rattle.std.specs.declared.option.Option.TheVariants.{None};
ghost use Rattle.std.specs.declared.result.Result.TheVariants.{Err};
ghost use Rattle.feed_base.specs.Counts.{CountsFault};
ghost use Rattle.blob_dir.specs.Counted.{Anything, ElapsesUntold, HasCalledFolder, IsNewFolderStore};
ghost use Rattle.blob_dir.specs.Locked.{access_of};
ghost use Rattle.blob_dir.specs.Names.{blob_limit, is_blob_name};
ghost use Rattle.blob_dir.specs.declared.access.Access.TheVariants.{Granted, Absent, Denied};

use crate::files::{BLOB_LIMIT, Folder};
use crate::paths::BlobPath;
use crate::{Access, BlobErr, Blobs, Bytes, FolderLock, NoMemory, Text};
use feed_base::next_count;
use std::alloc::Global;
use std::fs::Files;

/// A store in a folder, by a handle to the file system.
///
/// A blob's file has the folder's path, a slash and the blob's name as its path. A put writes its bytes to
/// the temporary file of that path with `.tmp` behind it. A crash or a put that fails may leave such a file;
/// no blob has its name, and the next put of that blob writes it anew. One name must not be put by two
/// callers at once. Symbolic links are followed, so nobody else should write in the folder.
///
/// It tells no content. Each call counts, whatever it answers. An error of the file system is Failed, and so
/// is a name under which no blob can stand. `get` fails too for a file of more than `BLOB_LIMIT` bytes and
/// for one whose length changes while it is read, and `put` for more bytes than that, of which it writes none.
/// Where access was denied each call fails, and where the folder was absent a put and a removal do; such a call
/// touches no file.
#[derive(Drop)]
pub struct DirBlobs<R: Drop> {
    folder: Folder<R>,
    calls: u64,
    faults: u64,
}

impl<R: Files + Drop> DirBlobs<R> {
    /// The store in the folder of this path, which the first put makes where it isn't there. Nobody else may put or
    /// delete there meanwhile. An empty path is the root of the file system. A path without a slash at its start
    /// begins where the program runs.
    pub fn at(files: R, alloc: Global, path: &str) -> Result<Self, NoMemory>
        ensures fresh { IfOk result (IsNewFolderStore path.now Granted) }
    {
        DirBlobs::with_access(files, alloc, path, Access::Granted)
    }

    /// The store in the folder of this path, which does there what the lock gave access to.
    pub fn locked(files: R, alloc: Global, path: &str, lock: &FolderLock) -> Result<Self, NoMemory>
        ensures fresh { IfOk result (IsNewFolderStore path.now (access_of lock.now)) }
    {
        DirBlobs::with_access(files, alloc, path, lock.access())
    }

    fn with_access(files: R, alloc: Global, path: &str, access: Access) -> Result<Self, NoMemory>
        ensures fresh { IfOk result (IsNewFolderStore path.now access) }
    {
        let path = Text::copy_of(alloc, path)?;
        Ok(DirBlobs {
            folder: Folder {
                files,
                path,
                access,
            },
            calls: 0,
            faults: 0,
        })
    }

    // Counts a call by its answer.
    fn count<T: Drop>(&mut self, answer: Result<T, BlobErr>) -> Result<T, BlobErr>
        ensures same { result ≡ answer }
        ensures counted { HasCalledFolder answer self.old self.new }
        ensures time { ElapsesUntold self.old.calls self.new.calls }
        ensures cause { CountsFault self.old.faults self.new.faults (IsErrOf answer BlobErr.Failed) }
    {
        self.calls = next_count(self.calls);
        if let Err(BlobErr::Failed) = answer {
            self.faults = next_count(self.faults);
        }
        answer
    }

    fn read_blob(&self, alloc: Global, name: &str) -> Result<Option<Bytes>, BlobErr>
        ensures outside { is_blob_name name.now ≡ false → result ≡ Err BlobErr.Failed }
        ensures denied { self.now.folder.access ≡ Denied → result ≡ Err BlobErr.Failed }
        ensures absent { self.now.folder.access ≡ Absent → IfOk result (λ found. found ≡ None) }
        ensures within { IfOk result (λ found. IfSome found (λ bytes. length bytes ≤ blob_limit)) }
    {
        if self.folder.access == Access::Denied {
            return Err(BlobErr::Failed);
        }
        let place = BlobPath::of(alloc, self.folder.path.as_str(), name)?;
        if self.folder.access == Access::Absent {
            return Ok(None);
        }
        self.folder.read(alloc, &place)
    }

    fn write_blob(&self, alloc: Global, name: &str, bytes: &[u8]) -> Result<(), BlobErr>
        ensures outside { is_blob_name name.now ≡ false → result ≡ Err BlobErr.Failed }
        ensures too_long { blob_limit < length bytes.now → result ≡ Err BlobErr.Failed }
        ensures denied { (self.now.folder.access ≡ Granted → ⊥) → result ≡ Err BlobErr.Failed }
    {
        if self.folder.access != Access::Granted || bytes.len() as u64 > BLOB_LIMIT {
            return Err(BlobErr::Failed);
        }
        let place = BlobPath::of(alloc, self.folder.path.as_str(), name)?;
        match self.folder.replace(&place, bytes) {
            Ok(()) => Ok(()),
            Err(_) => Err(BlobErr::Failed),
        }
    }

    fn remove_blob(&self, alloc: Global, name: &str) -> Result<(), BlobErr>
        ensures outside { is_blob_name name.now ≡ false → result ≡ Err BlobErr.Failed }
        ensures denied { (self.now.folder.access ≡ Granted → ⊥) → result ≡ Err BlobErr.Failed }
    {
        if self.folder.access != Access::Granted {
            return Err(BlobErr::Failed);
        }
        let place = BlobPath::of(alloc, self.folder.path.as_str(), name)?;
        match self.folder.remove(&place) {
            Ok(()) => Ok(()),
            Err(_) => Err(BlobErr::Failed),
        }
    }
}

impl<R: Files + Drop> Blobs for DirBlobs<R> {
    ghost use Rattle.std.specs.Prelude.{None};

    // It doesn't tell its area, so nothing is left out.
    ghost seen = { λ s. record {
      calls = s.calls;
      faults = s.faults;
      held = None;
      asked = None;
      left = λ t m. Anything m;
    } };

    ghost now = { λ s h m few is here. cc };

    ghost stands = { λ s h few is. tt };

    fn get(&mut self, alloc: Global, name: &str) -> Result<Option<Bytes>, BlobErr>
        ensures outside { is_blob_name name.now ≡ false → result ≡ Err BlobErr.Failed }
        ensures denied { self.old.folder.access ≡ Denied → result ≡ Err BlobErr.Failed }
        ensures absent { self.old.folder.access ≡ Absent → IfOk result (λ found. found ≡ None) }
        ensures within { IfOk result (λ found. IfSome found (λ bytes. length bytes ≤ blob_limit)) }
        ensures counted { HasCalledFolder result self.old self.new }
        ensures time { ElapsesUntold self.old.calls self.new.calls }
        ensures cause { CountsFault self.old.faults self.new.faults (IsErrOf result BlobErr.Failed) }
    {
        let answer = self.read_blob(alloc, name);
        self.count(answer)
    }

    fn put(&mut self, alloc: Global, name: &str, bytes: &[u8]) -> Result<(), BlobErr>
        ensures outside { is_blob_name name.now ≡ false → result ≡ Err BlobErr.Failed }
        ensures denied { (self.old.folder.access ≡ Granted → ⊥) → result ≡ Err BlobErr.Failed }
        ensures too_long { blob_limit < length bytes.now → result ≡ Err BlobErr.Failed }
        ensures counted { HasCalledFolder result self.old self.new }
        ensures time { ElapsesUntold self.old.calls self.new.calls }
        ensures cause { CountsFault self.old.faults self.new.faults (IsErrOf result BlobErr.Failed) }
    {
        let answer = self.write_blob(alloc, name, bytes);
        self.count(answer)
    }

    fn delete(&mut self, alloc: Global, name: &str) -> Result<(), BlobErr>
        ensures outside { is_blob_name name.now ≡ false → result ≡ Err BlobErr.Failed }
        ensures denied { (self.old.folder.access ≡ Granted → ⊥) → result ≡ Err BlobErr.Failed }
        ensures counted { HasCalledFolder result self.old self.new }
        ensures time { ElapsesUntold self.old.calls self.new.calls }
        ensures cause { CountsFault self.old.faults self.new.faults (IsErrOf result BlobErr.Failed) }
    {
        let answer = self.remove_blob(alloc, name);
        self.count(answer)
    }
}
