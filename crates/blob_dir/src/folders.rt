// Folders that are made where they lack, and synced.
use std::fs::{Files, OpenFile};
use std::{fs, io};

/// The folder that the last piece of a path stands in.
pub(crate) fn folder_of(path: &str) -> &str {
    match path.rsplit_once('/') {
        Some((folder, _)) if folder.is_empty() => "/",
        Some((folder, _)) => folder,
        None => ".",
    }
}

/// After it, what was made, renamed or removed in a folder outlasts a crash.
pub(crate) fn sync_folder(files: &impl Files, folder: &str) -> io::Result<()> {
    fs::open(files, folder)?.sync_all()
}

fn is_folder(files: &impl Files, path: &str) -> bool {
    match fs::metadata(files, path) {
        Ok(metadata) => metadata.is_dir(),
        Err(_) => false,
    }
}

/// Makes a folder where there is none.
pub(crate) fn make_folder(files: &impl Files, folder: &str) -> io::Result<()> {
    match fs::create_dir(files, folder) {
        Ok(()) => sync_folder(files, folder_of(folder)),
        Err(_) if is_folder(files, folder) => Ok(()),
        Err(error) => Err(error),
    }
}

/// Makes the folders above the last piece of a path.
pub(crate) fn make_folders(files: &impl Files, path: &str) -> io::Result<()> {
    for end in 1..path.len() {
        if let Some((folder, rest)) = path.split_at_checked(end) {
            if rest.starts_with('/') {
                make_folder(files, folder)?;
            }
        }
    }
    Ok(())
}
