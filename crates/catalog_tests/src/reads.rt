// What is read of an open catalog behind a publish and an unlisting.
use crate::feeds::{START, empty, one, publish, told, unlisting};
use crate::same::same;
use blob_store::MemBlobs;
use catalog_core::Catalog;
use pkg_meta::{Item, NoMemory};
use std::alloc::Global;
use std::test::Fail;

// Whether the item at the first place of a commit is of details with this listing.
fn is_listed(alloc: Global, catalog: &mut Catalog<MemBlobs>, number: u32) -> Option<bool> {
    match catalog.leaf(alloc, number, 0) {
        Ok(Item::Details(details)) => Some(details.listed),
        _ => None,
    }
}

fn rows_above(alloc: Global, catalog: &mut Catalog<MemBlobs>, cursor: u32) -> Option<usize> {
    match catalog.items_after(alloc, cursor) {
        Ok(rows) => Some(rows.len()),
        Err(_) => None,
    }
}

// A catalog of a publish and an unlisting.
fn catalog_of_two(alloc: Global) -> Result<Catalog<MemBlobs>, NoMemory> {
    let mut catalog = empty(alloc, &[])?;
    let first = one(alloc, publish(alloc, "Foo", "1.0.0")?)?;
    let _first = told(alloc, &mut catalog, &first, START)?;
    let second = one(alloc, unlisting(alloc, "foo", "1.0.0")?)?;
    let _second = told(alloc, &mut catalog, &second, START)?;
    Ok(catalog)
}

#[test]
fn a_catalog_is_read(rt: HostRuntime) -> Result<(), Fail> {
    let alloc = rt.alloc();
    let mut catalog = catalog_of_two(alloc)?;
    same(&rt, catalog.count(alloc).ok(), Some(2), "the commits");
    same(&rt, rows_above(alloc, &mut catalog, 0), Some(2), "all rows");
    same(
        &rt,
        rows_above(alloc, &mut catalog, 1),
        Some(1),
        "the rows above 1",
    );
    same(
        &rt,
        is_listed(alloc, &mut catalog, 1),
        Some(true),
        "the publish",
    );
    same(
        &rt,
        is_listed(alloc, &mut catalog, 2),
        Some(false),
        "the unlisting",
    );
    same(&rt, is_listed(alloc, &mut catalog, 3), None, "no commit");
    Ok(())
}
