// The item of a row, read from its leaf.
ghost use Rattle.std.specs.Prelude.{◌≡◌, ◌↔◌, Some, None, if◌then◌else◌, IfOk, IfSome, IsErrOf, IsTrue};
ghost use Rattle.pkg_meta.specs.declared.item.Item.{Item};
ghost use Rattle.catalog_doc.specs.Documents.{leaf_text};
ghost use Rattle.catalog_doc.specs.Reading.{IsItemValue};
ghost use Rattle.catalog_items.specs.RowLeaves.{IsLeafOf, TellsOf};

use catalog_doc::{DocErr, Row};
use catalog_reading::read_leaf;
use pkg_meta::{Item, NoMemory, Ticks};
use std::alloc::Global;

fn is_same_kind(gone: bool, other: bool) -> bool
    ensures { IsTrue result ↔ (gone ≡ other) }
{
    gone == other
}

// Whether the row says of the item what it is.
fn tells_of(alloc: Global, row: &Row, item: &Item) -> Result<bool, NoMemory>
    ensures { IfOk result (λ same. IsTrue same ↔ TellsOf row.now item.now) }
{
    if !is_same_kind(item.is_gone(), row.gone) {
        return Ok(false);
    }
    if !item.id().text.is_same(&row.id.text) {
        return Ok(false);
    }
    let version = row.version.full(alloc)?;
    let other = item.version().full(alloc)?;
    Ok(other.is_same(&version))
}

fn is_moment(stamp: Ticks, moment: u64) -> bool
    ensures { IsTrue result ↔ (stamp ≡ moment) }
{
    stamp.number() == moment
}

fn item_if(there: bool, item: Item) -> Option<Item>
    ensures { result ≡ (if there then Some item else None) }
{
    if there { Some(item) } else { None }
}

// The item whose leaf at the row's place, with the row's stamp, the bytes are, or none.
fn item_there(alloc: Global, base: &str, row: &Row, bytes: &[u8]) -> Result<Option<Item>, NoMemory>
    ensures some { IfOk result (λ found. IfSome found (λ it. bytes.now ≡ leaf_text base.now row.now.number row.now.place row.now.stamp it)) }
    ensures exact { (it : Item) → IsItemValue it → bytes.now ≡ leaf_text base.now row.now.number row.now.place row.now.stamp it
        → IfOk result (λ found. found ≡ Some it) }
{
    let moment = row.stamp.number();
    match read_leaf(alloc, base, row.number, row.place, bytes) {
        Ok((stamp, item)) => Ok(item_if(is_moment(stamp, moment), item)),
        Err(DocErr::Damaged) => Ok(None),
        Err(DocErr::Memory) => Err(NoMemory),
    }
}

/// The item of the row, whose leaf the bytes are. `Damaged` comes where they are the leaf of no such item.
pub(crate) fn leaf_of(alloc: Global, base: &str, row: &Row, bytes: &[u8]) -> Result<Item, DocErr>
    ensures ok { IfOk result (IsLeafOf base.now row.now bytes.now) }
    ensures exact { (it : Item) → IsItemValue it → IsLeafOf base.now row.now bytes.now it → IfOk result (λ read. read ≡ it) }
    ensures damaged { IsErrOf result DocErr.Damaged → (it : Item) → IsItemValue it → IsLeafOf base.now row.now bytes.now it → ⊥ }
{
    let Some(item) = item_there(alloc, base, row, bytes)? else {
        return Err(DocErr::Damaged);
    };
    if tells_of(alloc, row, &item)? {
        Ok(item)
    } else {
        Err(DocErr::Damaged)
    }
}
