// The five areas of a feed in a folder.
ghost use Rattle.std.specs.Prelude.{◌++◌, codes, IfOk};
ghost use Rattle.blob_dir.specs.Counted.{IsNewFolderStore};
ghost use Rattle.blob_dir.specs.Locked.{access_of};

use blob_dir::{DirBlobs, FolderLock};
use catalog_core::Stores;
use feed_base::NoMemory;
use std::alloc::Global;
use std::fs::Files;

fn area<R: Files + Drop>(
    files: R,
    alloc: Global,
    folder: &str,
    name: &str,
    lock: &FolderLock,
) -> Result<DirBlobs<R>, NoMemory>
    ensures { IfOk result (IsNewFolderStore (folder.now ++ (codes "/" ++ name.now)) (access_of lock.now)) }
{
    let path = format!(in alloc; "{folder}/{name}")?;
    DirBlobs::locked(files, alloc, &path, lock)
}

/// The stores of the areas, each in its own folder below the feed's, on which the lock was taken.
pub fn stores<R: Files + Copy + Drop>(
    files: R,
    alloc: Global,
    folder: &str,
    lock: &FolderLock,
) -> Result<Stores<DirBlobs<R>>, NoMemory>
    ensures catalog { IfOk result (λ s. IsNewFolderStore (folder.now ++ codes "/catalog") (access_of lock.now) s.catalog) }
    ensures plain { IfOk result (λ s. IsNewFolderStore (folder.now ++ codes "/plain") (access_of lock.now) s.plain) }
    ensures semver2 { IfOk result (λ s. IsNewFolderStore (folder.now ++ codes "/semver2") (access_of lock.now) s.semver2) }
    ensures content { IfOk result (λ s. IsNewFolderStore (folder.now ++ codes "/content") (access_of lock.now) s.content) }
    ensures auto { IfOk result (λ s. IsNewFolderStore (folder.now ++ codes "/auto") (access_of lock.now) s.auto) }
{
    Ok(Stores {
        catalog: area(files, alloc, folder, "catalog", lock)?,
        plain: area(files, alloc, folder, "plain", lock)?,
        semver2: area(files, alloc, folder, "semver2", lock)?,
        content: area(files, alloc, folder, "content", lock)?,
        auto: area(files, alloc, folder, "auto", lock)?,
    })
}
