// Records of publishes.
ghost use Rattle.std.specs.Prelude.{◌≡◌, ◌≢◌, ◌<◌, ◌+◌, ◌++◌, List, ℕ, length, IfErr, IfNone, IfOk, IfSome};
ghost use Rattle.admin_wire.specs.Bodies.{ArePublishes, BeginsNoRecord, IsRecord, IsRefusedPublish};
ghost use Rattle.admin_wire.specs.Cuts.{HaveLengths};
ghost use Rattle.catalog_doc.specs.declared.change.Change.TheVariants.{Publish};
ghost use Rattle.pkg_meta.specs.Publisher.{IsMetaText};
ghost use Rattle.pkg_meta.specs.Refusals.{IsRefusedMeta};
ghost use Rattle.pkg_meta.specs.declared.meta.Meta.{Meta};
ghost use Rattle.pkg_meta.specs.declared.error.MetaErr.{MetaErr};

use crate::cut::cut;
use crate::error::BodyErr;
use crate::header::{Lengths, read_lengths};
use catalog_doc::{Change, Changes};
use pkg_meta::{Bytes, Many, Meta, MetaErr, NoMemory};
use std::alloc::Global;

// A record's parts, and what stands behind it.
#[derive(Clone, Copy)]
struct Record<'a> {
    meta: &'a [u8],
    nuspec: &'a [u8],
    nupkg: &'a [u8],
    rest: &'a [u8],
}

// The parts of these lengths, where there are as many bytes.
fn cut_parts(bytes: &[u8], lens: Lengths) -> Option<Record<'_>>
    ensures found { IfSome result (λ p. bytes.now ≡ p.meta.now ++ (p.nuspec.now ++ (p.nupkg.now ++ p.rest.now))) }
    ensures lengths { IfSome result (λ p. HaveLengths lens p.meta.now p.nuspec.now p.nupkg.now) }
    ensures none { IfNone result (length bytes.now < lens.meta + (lens.nuspec + lens.nupkg)) }
{
    let (meta, rest) = bytes.split_at_checked(lens.meta as usize)?;
    let (nuspec, rest) = rest.split_at_checked(lens.nuspec as usize)?;
    let (nupkg, rest) = rest.split_at_checked(lens.nupkg as usize)?;
    Some(Record {
        meta,
        nuspec,
        nupkg,
        rest,
    })
}

// The first record, where one begins the bytes.
fn cut_record(alloc: Global, bytes: &[u8]) -> Result<Option<Record<'_>>, NoMemory>
    ensures found { IfOk result (λ o. IfSome o (λ p. (front : List ℕ) × (bytes.now ≡ front ++ p.rest.now)
        × IsRecord front p.meta.now p.nuspec.now p.nupkg.now)) }
    ensures none { IfOk result (λ o. IfNone o (BeginsNoRecord bytes.now)) }
{
    let Some((line, rest)) = cut(bytes, b'\n') else {
        return Ok(None);
    };
    let Some(lens) = read_lengths(alloc, line)? else {
        return Ok(None);
    };
    Ok(cut_parts(rest, lens))
}

// The refusal of the record at this place for its metadata.
fn meta_refused(place: u64, why: MetaErr) -> BodyErr
    ensures { result ≢ BodyErr.Memory → (result ≡ BodyErr.Meta place why) × (why ≢ MetaErr.Memory) }
{
    match why {
        MetaErr::Memory => BodyErr::Memory,
        why => BodyErr::Meta(place, why),
    }
}

// The publish of a record, whose place is told where its metadata is refused.
fn publish_of(alloc: Global, place: u64, record: Record<'_>) -> Result<Change, BodyErr>
    ensures ok { IfOk result (λ c. (m : Meta) × IsMetaText record.entry.meta.now m × (c ≡ Publish m record.entry.nuspec.now record.entry.nupkg.now)) }
    ensures refused { IfErr result (λ e. e ≢ BodyErr.Memory → (why : MetaErr) × (e ≡ BodyErr.Meta place why)
        × IsRefusedMeta record.entry.meta.now why) }
{
    let meta = match Meta::read(alloc, record.meta) {
        Ok(meta) => meta,
        Err(why) => return Err(meta_refused(place, why)),
    };
    let nuspec = Bytes::copy_of(alloc, record.nuspec)?;
    let package = Bytes::copy_of(alloc, record.nupkg)?;
    Ok(Change::Publish {
        meta,
        nuspec,
        package,
    })
}

/// The publishes that a body asks for: records, one behind the other.
pub fn read_publish(alloc: Global, body: &[u8]) -> Result<Changes, BodyErr>
    ensures ok { IfOk result (ArePublishes body.now) }
    ensures refused { IfErr result (λ e. e ≢ BodyErr.Memory → IsRefusedPublish body.now e) }
{
    let mut changes = Many::new(alloc);
    let mut rest = body;
    while !rest.is_empty() {
        let at = (body.len() - rest.len()) as u64;
        let place = changes.len() as u64;
        let Some(record) = cut_record(alloc, rest)? else {
            return Err(BodyErr::Shape(at));
        };
        changes.push(publish_of(alloc, place, record)?)?;
        rest = record.rest;
    }
    Ok(changes)
}
