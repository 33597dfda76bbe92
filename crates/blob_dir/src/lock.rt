// The system's lock on a folder.
ghost use Rattle.std.specs.Prelude.{◌≡◌};
ghost use Rattle.blob_dir.specs.Locked.{access_of};
ghost use Rattle.blob_dir.specs.declared.access.Access.TheVariants.{Denied};

use crate::Access;
use crate::folders::{make_folder, make_folders};
use std::fs::{File, Files, TryLockError};
use std::io::ErrorKind;
use std::time::{Clock, Duration};
use std::{fs, io, thread};

// How often a lock that another has is asked for, and how long it waits between: 30 seconds in all.
const TRIES: u32 = 3_000;

const PAUSE_MILLIS: u64 = 10;

/// The system's lock on a folder, which is held until it is dropped or the program ends, however it ends.
///
/// It is the lock that `flock` takes on the folder itself, so no file is made for it. It binds only those who ask for
/// it.
#[derive(Drop)]
pub struct FolderLock {
    hold: Hold,
}

// What came of asking for the lock.
#[derive(Drop)]
pub(crate) enum Hold {
    // The folder, with the lock on it.
    Locked(File),
    // There was no folder.
    Absent,
    // Another kept the lock, or the system refused it.
    Denied,
}

impl FolderLock {
    /// Asks for the lock on a folder, and waits up to 30 seconds while another has it.
    pub fn take<R: Files<File = File>>(files: &R, clock: &impl Clock, folder: &str) -> FolderLock {
        let hold = match fs::open(files, folder) {
            Ok(file) => lock(clock, file),
            Err(error) if error.kind() == ErrorKind::NotFound => Hold::Absent,
            Err(_) => Hold::Denied,
        };
        FolderLock { hold }
    }

    /// Asks for the lock on a folder as `take` does, and makes the folder first where there is none.
    pub fn make<R: Files<File = File>>(files: &R, clock: &impl Clock, folder: &str) -> FolderLock {
        match make_whole(files, folder) {
            Ok(()) => FolderLock::take(files, clock, folder),
            Err(_) => FolderLock::none(),
        }
    }

    /// No lock: what a store may do is nothing.
    pub fn none() -> FolderLock
        ensures { access_of result ≡ Denied }
    {
        FolderLock { hold: Hold::Denied }
    }

    /// What a store may do in the folder.
    pub fn access(&self) -> Access
        ensures { result ≡ access_of self.now }
    {
        match self.hold {
            Hold::Locked(_) => Access::Granted,
            Hold::Absent => Access::Absent,
            Hold::Denied => Access::Denied,
        }
    }
}

fn make_whole(files: &impl Files, folder: &str) -> io::Result<()> {
    make_folders(files, folder)?;
    make_folder(files, folder)
}

fn lock(clock: &impl Clock, folder: File) -> Hold {
    if is_locked(clock, &folder) {
        Hold::Locked(folder)
    } else {
        Hold::Denied
    }
}

// Whether the lock came within the tries.
fn is_locked(clock: &impl Clock, folder: &File) -> bool {
    let pause = Duration::from_millis(PAUSE_MILLIS);
    for _ in 0..TRIES {
        match folder.try_lock() {
            Ok(()) => return true,
            Err(TryLockError::WouldBlock) => thread::sleep(clock, pause),
            Err(TryLockError::Error(_)) => return false,
        }
    }
    false
}
