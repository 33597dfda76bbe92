// The items of a catalog, read from their leaves.
ghost use Rattle.std.specs.Prelude.{◌≡◌, [], ◌∷◌, None, Some, IfOk, IfSome, IsErrOf, List, OnOk};
ghost use Rattle.std.specs.List.{Contains};
ghost use Rattle.std.specs.Option.{option_copied};
ghost use Rattle.blob_store.specs.Area.{Area};
ghost use Rattle.blob_store.specs.Events.{Get};
ghost use Rattle.pkg_meta.specs.declared.item.Item.{Item};
ghost use Rattle.catalog_doc.specs.Names.{leaf_name};
ghost use Rattle.catalog_doc.specs.Reading.{IsItemValue};
ghost use Rattle.catalog_doc.specs.declared.row.Row.{Row};
ghost use Rattle.catalog_opening.specs.Errors.{IfDamagedError, IfDamagedRead};
ghost use Rattle.catalog_opening.specs.Plans.{RunsReading};
ghost use Rattle.catalog_items.specs.Framing.{OnlyGets};
ghost use Rattle.catalog_items.specs.Leaves.{AreCommitsAt, AreItemValues, commits_with, HasNoLeaf, HoldsLeaf, HoldsLeaves, is_at, IsNoLeafOf, leaf_gets, row_with, with_item};
ghost use Rattle.catalog_items.specs.Reads.{IsRead};

use crate::documents::{bytes_at, damaged};
use crate::leaf::leaf_of;
use blob_store::Blobs;
use catalog_doc::{DocErr, Row, leaf_name};
use catalog_opening::ReadErr;
use pkg_meta::{Commit, Item, Many, NoMemory};
use std::alloc::Global;

/// The item of the row, from the leaf that the area holds at its place.
pub fn item_at<B: Blobs>(
    alloc: Global,
    area: &mut B,
    base: &str,
    row: &Row,
) -> Result<Item, ReadErr>
    ensures runs { RunsReading (Get (leaf_name row.now.number row.now.place) ∷ []) (B.seen area.old) (B.seen area.new) result }
    ensures ok { (m : Area) → (B.seen area.old).held ≡ Some m → IfOk result (HoldsLeaf m base.now row.now) }
    ensures exact { (m : Area) (it : Item) → (B.seen area.old).held ≡ Some m → IsItemValue it → HoldsLeaf m base.now row.now it → IsRead it result }
    ensures damaged { (m : Area) → (B.seen area.old).held ≡ Some m → IfDamagedRead result (IsNoLeafOf m base.now row.now) }
{
    let name = leaf_name(alloc, row.number, row.place)?;
    let bytes = bytes_at(alloc, area, &name)?;
    match leaf_of(alloc, base, row, bytes.as_slice()) {
        Ok(item) => Ok(item),
        Err(DocErr::Damaged) => Err(damaged(alloc, &name)),
        Err(DocErr::Memory) => Err(ReadErr::Memory),
    }
}

fn is_at(row: &Row, number: u32, place: u32) -> bool
    ensures { result ≡ is_at number place row.now }
{
    row.number == number && row.place == place
}

// The first row of this number and place.
fn row_with(rows: &[Row], number: u32, place: u32) -> Option<&Row>
    ensures { option_copied result ≡ row_with number place rows.now }
{
    for row in rows {
        if is_at(row, number, place) {
            return Some(row);
        }
    }
    None
}

fn no_leaf(alloc: Global, number: u32, place: u32) -> ReadErr
    ensures { IfDamagedError result (λ n. n ≡ leaf_name number place) }
{
    match leaf_name(alloc, number, place) {
        Ok(name) => damaged(alloc, &name),
        Err(_) => ReadErr::Memory,
    }
}

/// The item at a place of a commit, from its leaf.
pub fn leaf_at<B: Blobs>(
    alloc: Global,
    area: &mut B,
    base: &str,
    rows: &[Row],
    number: u32,
    place: u32,
) -> Result<Item, ReadErr>
    ensures runs { RunsReading (leaf_gets (row_with number place rows.now)) (B.seen area.old) (B.seen area.new) result }
    ensures ok { (m : Area) → (B.seen area.old).held ≡ Some m
        → IfOk result (λ it. IfSome (row_with number place rows.now) (λ row. HoldsLeaf m base.now row it)) }
    ensures exact { (m : Area) (row : Row) (it : Item) → (B.seen area.old).held ≡ Some m → row_with number place rows.now ≡ Some row
        → IsItemValue it → HoldsLeaf m base.now row it → IsRead it result }
    ensures absent { row_with number place rows.now ≡ None → IfOk result (λ it. ⊥) }
    ensures damaged { (m : Area) → (B.seen area.old).held ≡ Some m
        → IfDamagedRead result (λ n. (n ≡ leaf_name number place) × IfSome (row_with number place rows.now) (HasNoLeaf m base.now)) }
{
    match row_with(rows, number, place) {
        Some(row) => item_at(alloc, area, base, row),
        None => Err(no_leaf(alloc, number, place)),
    }
}

// Puts an item into the commit of its row: the last one, or a new one.
fn add_item(alloc: Global, commits: &mut Vec<Commit>, row: &Row, item: Item) -> Result<(), NoMemory>
    ensures { OnOk result (commits.new.items ≡ with_item commits.old.items row.now item) }
{
    let count = commits.len();
    if count > 0 && commits[count - 1].number == row.number {
        return commits[count - 1].items.push(item);
    }
    let mut items = Many::new(alloc);
    items.push(item)?;
    commits.push(Commit {
        number: row.number,
        stamp: row.stamp,
        items,
    })?;
    Ok(())
}

/// The commits of the items that the rows are of.
pub fn commits_at<B: Blobs>(
    alloc: Global,
    area: &mut B,
    base: &str,
    rows: &[Row],
) -> Result<Many<Commit>, ReadErr>
    ensures gets { OnlyGets (B.seen area.old) (B.seen area.new) (IsErrOf result ReadErr.Fault) }
    ensures ok { (m : Area) → (B.seen area.old).held ≡ Some m → IfOk result (AreCommitsAt m base.now rows.now) }
    ensures exact { (m : Area) (items : List Item) → (B.seen area.old).held ≡ Some m → AreItemValues items → HoldsLeaves m base.now rows.now items
        → IsRead (commits_with [] rows.now items) result }
    ensures damaged { (m : Area) → (B.seen area.old).held ≡ Some m
        → IfDamagedRead result (λ n. (row : Row) × Contains rows.now row × IsNoLeafOf m base.now row n) }
{
    let mut commits = Vec::new(alloc);
    for row in rows {
        let item = item_at(alloc, area, base, row)?;
        add_item(alloc, &mut commits, row, item)?;
    }
    Ok(Many::of(commits))
}
