// The items that changes make.
ghost use Rattle.std.specs.Prelude.{◌≡◌, IfOk, length};
ghost use Rattle.pkg_meta.specs.Items.{published};
ghost use Rattle.pkg_meta.specs.Lawful.{relisted};
ghost use Rattle.pkg_meta.specs.declared.item.Item.TheVariants as the;
ghost use Rattle.commit_plan.specs.Plans.{deleted_by, made_by, relisted_by};
ghost use Rattle.catalog_doc.specs.Hash.{hash_text};

use crate::hash::package_hash;
use crate::last::LastItem;
use catalog_doc::Change;
use pkg_meta::{Details, Item, Meta, NoMemory, PackageId, Ticks, Version};
use std::alloc::Global;

// The details with the other listing.
fn relisted(alloc: Global, details: &Details) -> Result<Details, NoMemory>
    ensures { IfOk result (λ d. d ≡ relisted details.now) }
{
    let mut other = details.copy(alloc)?;
    other.listed = !details.listed;
    Ok(other)
}

fn gone(alloc: Global, id: &PackageId, version: &Version) -> Result<Item, NoMemory>
    ensures { IfOk result (λ it. it ≡ the.Gone id.now version.now) }
{
    let id = id.copy(alloc)?;
    let version = version.copy(alloc)?;
    Ok(Item::Gone { id, version })
}

fn relisted_item(
    alloc: Global,
    id: &PackageId,
    version: &Version,
    last: &LastItem,
) -> Result<Item, NoMemory>
    ensures { IfOk result (λ it. it ≡ relisted_by id.now version.now last.now) }
{
    match last {
        LastItem::Listing { details, .. } => Ok(Item::Details(relisted(alloc, details)?)),
        _ => gone(alloc, id, version),
    }
}

fn deleted_item(
    alloc: Global,
    id: &PackageId,
    version: &Version,
    last: &LastItem,
) -> Result<Item, NoMemory>
    ensures { IfOk result (λ it. it ≡ deleted_by id.now version.now last.now) }
{
    match last {
        LastItem::Written { id, version } => gone(alloc, id, version),
        _ => gone(alloc, id, version),
    }
}

fn published_item(
    alloc: Global,
    meta: &Meta,
    nupkg: &[u8],
    number: u32,
    place: u32,
    stamp: Ticks,
) -> Result<Item, NoMemory>
    ensures { IfOk result (λ it. it ≡ the.Details (published meta.now number place stamp (length nupkg.now) (hash_text nupkg.now))) }
{
    let size = nupkg.len() as u64;
    let hash = package_hash(alloc, nupkg)?;
    let meta = meta.copy(alloc)?;
    Ok(Item::Details(Details::published(meta, number, place, stamp, size, hash)))
}

/// The item that a change makes at a place, of a version with this last item.
pub(crate) fn item_of(
    alloc: Global,
    change: &Change,
    last: &LastItem,
    number: u32,
    place: u32,
    stamp: Ticks,
) -> Result<Item, NoMemory>
    ensures { IfOk result (λ it. it ≡ made_by number stamp place last.now change.now) }
{
    match change {
        Change::Publish { meta, package, .. } => {
            published_item(alloc, meta, package.as_slice(), number, place, stamp)
        }
        Change::Unlist { id, version } => relisted_item(alloc, id, version, last),
        Change::Relist { id, version } => relisted_item(alloc, id, version, last),
        Change::Delete { id, version } => deleted_item(alloc, id, version, last),
    }
}
