// The names of the content hive's documents.
ghost use Rattle.std.specs.Prelude.{◌≡◌, ◌++◌, ◌↔◌, codes, IfOk, IsTrue};
ghost use Rattle.feed_routes.specs.Names.{IsContentTailOf, IsFileOf, IsVersionFileOf};

use crate::segments::is_version_key;
use crate::split::{after_prefix, at_slash, between};
use nuget_version::NoMemory;
use std::alloc::Global;

// Whether the file is `<id>.nuspec`.
fn is_manifest_of(id: &str, file: &str) -> bool
    ensures { IsTrue result ↔ (file.now ≡ id.now ++ codes ".nuspec") }
{
    match after_prefix(file, id) {
        Some(rest) => rest == ".nuspec",
        None => false,
    }
}

// Whether the file is `<id>.<version>.nupkg`.
fn is_package_of(id: &str, version: &str, file: &str) -> bool
    ensures { IsTrue result ↔ (file.now ≡ id.now ++ (codes "." ++ (version.now ++ codes ".nupkg"))) }
{
    let Some(rest) = after_prefix(file, id) else {
        return false;
    };
    match between(rest, ".", ".nupkg") {
        Some(text) => text == version,
        None => false,
    }
}

fn is_file_of(id: &str, version: &str, file: &str) -> bool
    ensures { IsTrue result ↔ IsFileOf id.now version.now file.now }
{
    is_package_of(id, version, file) || is_manifest_of(id, file)
}

// Whether it is a version of the id, a slash and a file of that version.
fn is_version_file_of(alloc: Global, id: &str, tail: &str) -> Result<bool, NoMemory>
    ensures { IfOk result (λ is. IsTrue is ↔ IsVersionFileOf id.now tail.now) }
{
    let Some((version, file)) = at_slash(tail) else {
        return Ok(false);
    };
    if is_version_key(alloc, version)? {
        Ok(is_file_of(id, version, file))
    } else {
        Ok(false)
    }
}

/// Whether a document of the content hive has this behind its id.
pub(crate) fn is_content_tail(alloc: Global, id: &str, tail: &str) -> Result<bool, NoMemory>
    ensures { IfOk result (λ is. IsTrue is ↔ IsContentTailOf id.now tail.now) }
{
    if tail == "index.json" {
        Ok(true)
    } else {
        is_version_file_of(alloc, id, tail)
    }
}
