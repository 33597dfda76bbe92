// Lines of names.
ghost use Rattle.std.specs.Prelude.{◌≡◌, ◌≢◌, ◌++◌, List, ℕ, IfErr, IfNone, IfOk, IfSome};
ghost use Rattle.admin_wire.specs.Bodies.{AreNames, BeginsNoLine, IsAsked, IsLine, IsRefusedNames, IsRefusedPair, named_change};

use crate::cut::{cut, text_or_empty};
use crate::error::BodyErr;
use catalog_doc::{Change, Changes};
use pkg_meta::{Many, PackageId, Version};
use std::alloc::Global;

/// What is asked for versions that are named.
#[derive(Clone, Copy, Debug, PartialEq, Eq)]
pub enum NameKind {
    Unlist,
    Relist,
    Delete,
}

fn named_change(kind: NameKind, id: PackageId, version: Version) -> Change
    ensures { result ≡ named_change kind id version }
{
    match kind {
        NameKind::Unlist => Change::Unlist { id, version },
        NameKind::Relist => Change::Relist { id, version },
        NameKind::Delete => Change::Delete { id, version },
    }
}

/// The change that is asked for an id and a version; the place is told where one of them is none.
pub fn read_pair(
    alloc: Global,
    kind: NameKind,
    place: u64,
    id: &str,
    version: &str,
) -> Result<Change, BodyErr>
    ensures ok { IfOk result (IsAsked kind id.now version.now) }
    ensures refused { IfErr result (λ e. e ≢ BodyErr.Memory → IsRefusedPair place id.now version.now e) }
{
    let Some(id) = PackageId::read(alloc, id)? else {
        return Err(BodyErr::Id(place));
    };
    let Some(version) = Version::read(alloc, version)? else {
        return Err(BodyErr::Version(place));
    };
    Ok(named_change(kind, id, version))
}

// The words of the first line, where they are two, and what stands behind it.
fn cut_line(bytes: &[u8]) -> Option<(&[u8], &[u8], &[u8])>
    ensures found { IfSome result (λ w. (front : List ℕ) × (bytes.now ≡ front ++ w.2.now) × IsLine front w.0.now w.1.now) }
    ensures none { IfNone result (BeginsNoLine bytes.now) }
{
    let (line, rest) = cut(bytes, b'\n')?;
    let (id, version) = cut(line, b' ')?;
    if version.contains(&b' ') {
        return None;
    }
    Some((id, version, rest))
}

/// The changes that a body of names asks for: lines of an id, a space and a version.
pub fn read_names(alloc: Global, kind: NameKind, body: &[u8]) -> Result<Changes, BodyErr>
    ensures ok { IfOk result (AreNames kind body.now) }
    ensures refused { IfErr result (λ e. e ≢ BodyErr.Memory → IsRefusedNames kind body.now e) }
{
    let mut changes = Many::new(alloc);
    let mut rest = body;
    while !rest.is_empty() {
        let at = (body.len() - rest.len()) as u64;
        let place = changes.len() as u64;
        let Some((id, version, behind)) = cut_line(rest) else {
            return Err(BodyErr::Shape(at));
        };
        let (id, version) = (text_or_empty(id), text_or_empty(version));
        changes.push(read_pair(alloc, kind, place, id, version)?)?;
        rest = behind;
    }
    Ok(changes)
}
