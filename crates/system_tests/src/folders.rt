// The lock on a real folder, and its stores.
use crate::same::same;
use blob_dir::{Access, BlobErr, Blobs};
use std::alloc::Global;
use std::fs::File;
use std::process::Abort;
use std::rt::Files;
use std::test::Fail;
use std::time::{Clock, Duration};
use std::{fs, io};
use system::{FolderLock, stores};

const FOLDER: &str = "system_test/deep/feed";

// A clock in which no time passes, so that nobody waits.
struct Standing;

impl Clock for Standing {
    fn monotonic(&self) -> io::Result<Duration> {
        Ok(Duration::from_secs(0))
    }

    fn since_1970(&self) -> io::Result<Duration> {
        Ok(Duration::from_secs(0))
    }
}

// Asserts that a store changes nothing.
fn changes_nothing<B: Blobs>(rt: &impl Abort, alloc: Global, area: &mut B) {
    let failed = Some(BlobErr::Failed);
    same(rt, area.put(alloc, "a", b"x").err(), failed, "a put");
    same(rt, area.delete(alloc, "d/a").err(), failed, "a removal");
}

// Asserts that a store holds a blob of one byte.
fn holds<B: Blobs>(rt: &impl Abort, alloc: Global, area: &mut B) -> Result<(), Fail> {
    let length = match area.get(alloc, "d/a")? {
        Some(bytes) => bytes.as_slice().len(),
        None => 0,
    };
    same(rt, length, 1, "the length");
    Ok(())
}

// Before the folder is there, nothing is held, and nothing is made.
#[test]
fn makes_no_folder_by_itself(rt: HostRuntime) -> Result<(), Fail> {
    let alloc = rt.alloc();
    let lock = FolderLock::take(&rt, &Standing, "system_test_absent");
    same(&rt, lock.access(), Access::Absent, "the lock");
    let mut area = stores(&rt, alloc, "system_test_absent", &lock)?.catalog;
    same(
        &rt,
        area.get(alloc, "a")?.is_none(),
        true,
        "nothing is held",
    );
    changes_nothing(&rt, alloc, &mut area);
    same(
        &rt,
        fs::exists(&rt, "system_test_absent")?,
        false,
        "no folder is made",
    );
    Ok(())
}

// What is done with the lock, which is dropped at the end.
fn puts_with_the_lock(rt: &(impl Abort + Files<File = File>), alloc: Global) -> Result<(), Fail> {
    let lock = FolderLock::make(rt, &Standing, FOLDER);
    same(rt, lock.access(), Access::Granted, "the lock");
    let mut area = stores(rt, alloc, FOLDER, &lock)?.content;
    area.put(alloc, "d/a", b"x")?;
    holds(rt, alloc, &mut area)?;
    fails_without_the_lock(rt, alloc)
}

// While another has the lock, no call is answered.
fn fails_without_the_lock(
    rt: &(impl Abort + Files<File = File>),
    alloc: Global,
) -> Result<(), Fail> {
    let lock = FolderLock::take(rt, &Standing, FOLDER);
    same(rt, lock.access(), Access::Denied, "the lock of another");
    let mut area = stores(rt, alloc, FOLDER, &lock)?.content;
    same(
        rt,
        area.get(alloc, "d/a").err(),
        Some(BlobErr::Failed),
        "a get",
    );
    changes_nothing(rt, alloc, &mut area);
    Ok(())
}

#[test]
fn gives_one_lock_at_a_time(rt: HostRuntime) -> Result<(), Fail> {
    let alloc = rt.alloc();
    let _ = fs::remove_dir_all(&rt, "system_test");
    puts_with_the_lock(&rt, alloc)?;
    let lock = FolderLock::take(&rt, &Standing, FOLDER);
    same(&rt, lock.access(), Access::Granted, "the lock");
    let mut area = stores(&rt, alloc, FOLDER, &lock)?.content;
    holds(&rt, alloc, &mut area)?;
    let is_put = fs::exists(&rt, "system_test/deep/feed/content/a")?;
    same(&rt, is_put, false, "no blob is put");
    fs::remove_dir_all(&rt, "system_test")?;
    Ok(())
}
