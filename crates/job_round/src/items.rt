// The items of an id that a round takes up.
ghost use Rattle.std.specs.Prelude.{◌≡◌, ⊤, true, filter, map, Contains, IfErr, IfOk, IsErrOf, List};
ghost use Rattle.pkg_meta.specs.Lawful.{Placed as CatalogItem, all_placed};
ghost use Rattle.pkg_meta.specs.declared.commit.Stored.{Stored};
ghost use Rattle.catalog_core.specs.Framing.{StaysOpen};
ghost use Rattle.catalog_core.specs.Opened.{IsOpenFor};
ghost use Rattle.id_pass.specs.Placing.{all_as_placed};
ghost use Rattle.catalog_rows.specs.Last.{placed_row};
ghost use Rattle.job_round.specs.Items.{AreOf, IsLostBlob, is_behind};
ghost use Rattle.job_round.specs.Reads.{AreKept, RunsReads, leaf_of, leaves_behind};
ghost use Rattle.job_round.specs.Stops.{IsElse, IsStopOfCatalog};

use crate::stop::{Stop, catalog_stop};
use blob_store::Blobs;
use catalog_core::Catalog;
use catalog_doc::Row;
use id_pass::{Item, Placed};
use pkg_meta::{Many, NoMemory};
use std::alloc::Global;

// The item of a delete's row.
fn gone_item(alloc: Global, row: &Row) -> Result<Item, NoMemory>
    ensures { (x : CatalogItem) → row.now ≡ placed_row x → row.now.gone ≡ true → IfOk result (λ it. it ≡ x.what) }
{
    let id = row.id.copy(alloc)?;
    let version = row.version.copy(alloc)?;
    Ok(Item::Gone { id, version })
}

// The item of a row: a delete's is told by the row, another is read from its leaf.
fn item_of<B: Blobs>(alloc: Global, catalog: &mut Catalog<B>, row: &Row) -> Result<Item, Stop>
    ensures stays { StaysOpen catalog.old catalog.new (B.seen catalog.old.area) (B.seen catalog.new.area) (IsErrOf result Stop.CatalogFault) }
    ensures item { (cs : List Stored) (x : CatalogItem) → IsOpenFor catalog.old (B.seen catalog.old.area) cs → Contains (all_placed cs) x
        → row.now ≡ placed_row x
        → IfOk result (λ it. it ≡ x.what) }
    ensures other { IfErr result IsElse }
    ensures reads { catalog.old.settled ≡ true → Contains catalog.old.kept.rows row.now
        → RunsReads (leaf_of row.now) (B.seen catalog.old.area) (B.seen catalog.new.area) result }
    ensures cause { catalog.old.settled ≡ true → Contains catalog.old.kept.rows row.now
        → IfErr result (IsStopOfCatalog (IsLostBlob catalog.new (B.seen catalog.new.area))) }
{
    if row.gone {
        let item = gone_item(alloc, row)?;
        return Ok(item);
    }
    match catalog.leaf(alloc, row.number, row.place) {
        Ok(item) => Ok(item),
        Err(error) => Err(catalog_stop(error)),
    }
}

/// The items of these rows that stand behind the commit `at`. Of another row nothing is read.
pub(crate) fn items_behind<B: Blobs>(
    alloc: Global,
    catalog: &mut Catalog<B>,
    rows: &[Row],
    at: u32,
) -> Result<Many<Placed>, Stop>
    ensures stays { StaysOpen catalog.old catalog.new (B.seen catalog.old.area) (B.seen catalog.new.area) (IsErrOf result Stop.CatalogFault) }
    ensures items { (cs : List Stored) (xs : List CatalogItem) → IsOpenFor catalog.old (B.seen catalog.old.area) cs
        → AreOf cs xs → rows.now ≡ map placed_row xs
        → IfOk result (λ items. all_as_placed items ≡ filter (is_behind at) xs) }
    ensures other { IfErr result IsElse }
    ensures reads { catalog.old.settled ≡ true → AreKept catalog.old.kept.rows rows.now
        → RunsReads (leaves_behind at rows.now) (B.seen catalog.old.area) (B.seen catalog.new.area) result }
    ensures cause { catalog.old.settled ≡ true → AreKept catalog.old.kept.rows rows.now
        → IfErr result (IsStopOfCatalog (IsLostBlob catalog.new (B.seen catalog.new.area))) }
{
    let mut items = Many::new(alloc);
    for row in rows {
        if row.number <= at {
            continue;
        }
        let item = item_of(alloc, catalog, row)?;
        items.push(Placed {
            number: row.number,
            place: row.place,
            stamp: row.stamp,
            item,
        })?;
    }
    Ok(items)
}
