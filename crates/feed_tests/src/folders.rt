// Stores in folders.
use crate::same::same;
use blob_dir::{BLOB_LIMIT, BlobErr, Blobs, DirBlobs, is_blob_name};
use std::alloc::Global;
use std::fs;
use std::fs::OpenFile;
use std::process::Abort;
use std::rt::Files;
use std::test::Fail;

const FOLDER: &str = "blob_dir_test/area";

// Asserts what stands under a name.
fn holds<B: Blobs>(
    rt: &impl Abort,
    alloc: Global,
    area: &mut B,
    name: &str,
    want: Option<&[u8]>,
) -> Result<(), BlobErr> {
    match (area.get(alloc, name)?, want) {
        (Some(bytes), Some(want)) => assert_eq!(rt; bytes.as_slice(), want, "at {name}"),
        (None, None) => (),
        _ => assert!(rt; false, "held or not held: {name}"),
    }
    Ok(())
}

// Asserts that every call on a name fails: a get, a put and a delete.
fn fails<B: Blobs>(rt: &impl Abort, alloc: Global, area: &mut B, name: &str) {
    let get = area.get(alloc, name).err();
    let put = area.put(alloc, name, b"x").err();
    let delete = area.delete(alloc, name).err();
    let failed = Some(BlobErr::Failed);
    same(rt, (get, put, delete), (failed, failed, failed), name);
}

// A file of so many bytes, which are all 0.
fn make_file(rt: &impl Files, path: &str, len: u64) -> Result<(), Fail> {
    fs::create(rt, path)?.set_len(len)?;
    Ok(())
}

// Puts blobs into an empty store, one of them twice.
fn puts<B: Blobs>(rt: &impl Abort, alloc: Global, area: &mut B) -> Result<(), BlobErr> {
    holds(rt, alloc, area, "a.json", None)?;
    area.delete(alloc, "data/1/0.json")?;
    area.put(alloc, "a.json", b"one")?;
    area.put(alloc, "data/1/0.json", b"")?;
    area.put(alloc, "a.json", b"two")
}

// Finds those blobs, and removes one of them twice.
fn removes<B: Blobs>(rt: &impl Abort, alloc: Global, area: &mut B) -> Result<(), BlobErr> {
    holds(rt, alloc, area, "a.json", Some(b"two"))?;
    holds(rt, alloc, area, "data/1/1.json", None)?;
    area.delete(alloc, "a.json")?;
    area.delete(alloc, "a.json")?;
    holds(rt, alloc, area, "a.json", None)?;
    holds(rt, alloc, area, "data/1/0.json", Some(b""))
}

// A file of three bytes, and one above the limit.
fn reads_up_to_the_limit<B: Blobs>(
    rt: &(impl Abort + Files),
    alloc: Global,
    area: &mut B,
) -> Result<(), Fail> {
    make_file(rt, "blob_dir_test/area/three", 3)?;
    holds(rt, alloc, area, "three", Some(&[0, 0, 0]))?;
    make_file(rt, "blob_dir_test/area/long", BLOB_LIMIT + 1)?;
    assert!(rt; area.get(alloc, "long").is_err(), "a file above the limit");
    Ok(())
}

// Each call by a store that is opened anew.
#[test]
fn keeps_blobs_in_a_folder(rt: HostRuntime) -> Result<(), Fail> {
    let alloc = rt.alloc();
    let _ = fs::remove_dir_all(&rt, "blob_dir_test");
    puts(&rt, alloc, &mut DirBlobs::at(&rt, alloc, FOLDER)?)?;
    let left = fs::exists(&rt, "blob_dir_test/area/a.json.tmp")?;
    assert!(rt; !left, "a temporary file is left");
    removes(&rt, alloc, &mut DirBlobs::at(&rt, alloc, FOLDER)?)?;

    // A file in place of a folder, a folder in place of a file, and a name that leaves the folder.
    let mut area = DirBlobs::at(&rt, alloc, FOLDER)?;
    for name in ["data/1/0.json/b", "data", "../outside"] {
        fails(&rt, alloc, &mut area, name);
    }
    reads_up_to_the_limit(&rt, alloc, &mut area)?;
    fs::remove_dir_all(&rt, "blob_dir_test")?;
    Ok(())
}

// Names, and whether a blob may have them.
const BLOB_NAMES: [(&str, bool); 17] = [
    ("index.json", true),
    ("data/1/0.json", true),
    ("d/a..b/1.0.0-..x/a.nuspec", true),
    ("d/foo.tmp/index.json", true),
    ("...", true),
    ("", false),
    ("/a", false),
    ("a/", false),
    ("a//b", false),
    (".", false),
    ("..", false),
    ("a/../b", false),
    ("a/.", false),
    ("a\0b", false),
    ("a\\b", false),
    ("a.json.tmp", false),
    (".tmp", false),
];

#[test]
fn knows_names_of_blobs(rt: HostRuntime) {
    for (name, want) in &BLOB_NAMES {
        assert_eq!(rt; is_blob_name(*name), *want, "{name:?}");
    }
}
