// Readers of a page and of the index, which accept exactly what their writers write.
ghost use Rattle.std.specs.Prelude.{◌≡◌, ◌<◌, ◌^◌, ◌↔◌, ℕ, List, Some, IfOk, IsErrOf, IsTrue, IsUtf8, map, option_map, length};
ghost use Rattle.json.specs.Value.{items_view, value_view};
ghost use Rattle.serde_json.specs.View.{items_of};
ghost use Rattle.serde_json.specs.Written.{items_outline, outline};
ghost use Rattle.catalog_doc.specs.Documents.{head_data, heads_data, index_data, index_text, page_data, page_text, row_data};
ghost use Rattle.catalog_doc.specs.Names.{catalog_url, index_name};
ghost use Rattle.catalog_doc.specs.Reading.{AreHeadValues, AreRowValues, IsHeadValue, IsRowValue};
ghost use Rattle.catalog_doc.specs.declared.head.PageHead.{PageHead};
ghost use Rattle.catalog_doc.specs.declared.row.Row.{Row};

use crate::fields::{Origin, count_in, gone_in, id_in, number_in, origin_in, stamp_in, version_in};
use crate::trees::tree_of;
use catalog_doc::{DocErr, PageHead, Row, index_bytes, page_bytes};
use json::{Scratch, Value};
use pkg_meta::{Many, NoMemory, Text, Ticks};
use std::alloc::Global;

// The path of the index below the base address.
const INDEX_PATH: &str = "v3/catalog/index.json";

pub(crate) fn is_same(bytes: &[u8], other: &[u8]) -> bool
    ensures { IsTrue result ↔ (bytes.now ≡ other.now) }
{
    bytes == other
}

// What a page or an index lists.
fn listed<'v, 'a>(value: &'v Value<'a>) -> Option<&'v Vec<Value<'a>>>
    ensures page { (base : List ℕ) (k : ℕ) (rows : List Row) → value_view value.now ≡ outline (page_data base k rows) → option_map (λ vs. items_view vs.now.items) result ≡ Some (items_outline (items_of (map (row_data base) rows))) }
    ensures index { (base : List ℕ) (heads : List PageHead) → value_view value.now ≡ outline (index_data base heads) → option_map (λ vs. items_view vs.now.items) result ≡ Some (items_outline (items_of (heads_data base 0 heads))) }
{
    match value.get("items") {
        Some(Value::Array(items)) => Some(items),
        _ => None,
    }
}

// A row's commit and place, stamp and kind.
#[derive(Clone, Copy)]
struct Marks {
    origin: Origin,
    stamp: Ticks,
    gone: bool,
}

fn marks_in(base: &str, value: &Value<'_>) -> Option<Marks>
    ensures { (row : Row) → IsRowValue row → value_view value.now ≡ outline (row_data base.now row)
        → result ≡ Some (record { origin = record { number = row.number; place = row.place }; stamp = row.stamp; gone = row.gone }) }
{
    let origin = origin_in(base, value)?;
    let stamp = stamp_in(value)?;
    let gone = gone_in(value)?;
    Some(Marks {
        origin,
        stamp,
        gone,
    })
}

fn row_in(alloc: Global, base: &str, value: &Value<'_>) -> Result<Option<Row>, NoMemory>
    ensures { (row : Row) → IsRowValue row → value_view value.now ≡ outline (row_data base.now row) → IfOk result (λ found. found ≡ Some row) }
{
    let Some(marks) = marks_in(base, value) else {
        return Ok(None);
    };
    let Some(id) = id_in(alloc, value)? else {
        return Ok(None);
    };
    let Some(version) = version_in(alloc, value)? else {
        return Ok(None);
    };
    Ok(Some(Row {
        number: marks.origin.number,
        place: marks.origin.place,
        stamp: marks.stamp,
        id,
        version,
        gone: marks.gone,
    }))
}

fn rows_of(alloc: Global, base: &str, values: &[Value<'_>]) -> Result<Option<Many<Row>>, NoMemory>
    ensures { (rows : List Row) → AreRowValues rows → items_view values.now ≡ items_outline (items_of (map (row_data base.now) rows)) → IfOk result (λ found. found ≡ Some rows) }
{
    let mut rows = Many::new(alloc);
    for value in values {
        let Some(row) = row_in(alloc, base, value)? else {
            return Ok(None);
        };
        rows.push(row)?;
    }
    Ok(Some(rows))
}

// The rows in a page's value.
fn rows_in(alloc: Global, base: &str, value: &Value<'_>) -> Result<Option<Many<Row>>, NoMemory>
    ensures { (k : ℕ) (rows : List Row) → AreRowValues rows → value_view value.now ≡ outline (page_data base.now k rows) → IfOk result (λ found. found ≡ Some rows) }
{
    match listed(value) {
        Some(values) => rows_of(alloc, base, values.as_slice()),
        None => Ok(None),
    }
}

/// The rows of a page of a feed at this base address.
///
/// `Damaged` comes where the bytes are no such page, as with a space, or with members in another order.
pub fn read_page(alloc: Global, base: &str, page: u32, bytes: &[u8]) -> Result<Many<Row>, DocErr>
    ensures ok { IfOk result (λ rows. bytes.now ≡ page_text base.now page rows) }
    ensures exact { (rows : List Row) → AreRowValues rows → length rows < 2 ^ 64 → bytes.now ≡ page_text base.now page rows → IfOk result (λ found. found ≡ rows) }
    ensures damaged { IsErrOf result DocErr.Damaged → (rows : List Row) → AreRowValues rows → length rows < 2 ^ 64 → bytes.now ≡ page_text base.now page rows → ⊥ }
{
    let mut scratch = Scratch::new(alloc);
    let Some(value) = tree_of(alloc, bytes, &mut scratch)? else {
        return Err(DocErr::Damaged);
    };
    let Some(rows) = rows_in(alloc, base, &value)? else {
        return Err(DocErr::Damaged);
    };
    let again = page_bytes(alloc, base, page, rows.as_slice())?;
    if is_same(again.as_slice(), bytes) {
        Ok(rows)
    } else {
        Err(DocErr::Damaged)
    }
}

fn head_in(value: &Value<'_>) -> Option<PageHead>
    ensures { (base : List ℕ) (k : ℕ) (head : PageHead) → IsHeadValue head → value_view value.now ≡ outline (head_data base k head) → result ≡ Some head }
{
    let number = number_in(value)?;
    let stamp = stamp_in(value)?;
    let count = count_in(value)?;
    Some(PageHead {
        number,
        stamp,
        count,
    })
}

fn heads_of(alloc: Global, values: &[Value<'_>]) -> Result<Option<Many<PageHead>>, NoMemory>
    ensures { (base : List ℕ) (heads : List PageHead) → AreHeadValues heads → items_view values.now ≡ items_outline (items_of (heads_data base 0 heads)) → IfOk result (λ found. found ≡ Some heads) }
{
    let mut heads = Many::new(alloc);
    for value in values {
        let Some(head) = head_in(value) else {
            return Ok(None);
        };
        heads.push(head)?;
    }
    Ok(Some(heads))
}

// The heads in an index's value.
fn heads_in(alloc: Global, value: &Value<'_>) -> Result<Option<Many<PageHead>>, NoMemory>
    ensures { (base : List ℕ) (heads : List PageHead) → AreHeadValues heads → value_view value.now ≡ outline (index_data base heads) → IfOk result (λ found. found ≡ Some heads) }
{
    match listed(value) {
        Some(values) => heads_of(alloc, values.as_slice()),
        None => Ok(None),
    }
}

// The base address below which the index has this URL.
fn base_of(url: &str) -> Option<&str>
    ensures { (base : List ℕ) → IsUtf8 base → url.now ≡ catalog_url base index_name → option_map (λ b. b.now) result ≡ Some base }
{
    let bytes = url.as_bytes();
    let len = bytes.len().checked_sub(INDEX_PATH.len())?;
    let front = &bytes[..len];
    str::from_utf8(front).ok()
}

// The URL that an index says it has.
fn url_in<'a>(value: &Value<'a>) -> Option<&'a str>
    ensures { (base : List ℕ) (heads : List PageHead) → value_view value.now ≡ outline (index_data base heads) → option_map (λ url. url.now) result ≡ Some (catalog_url base index_name) }
{
    value.get("@id").and_then(Value::as_str)
}

// The base address that stands in an index.
fn base_in<'a>(value: &Value<'a>) -> Option<&'a str>
    ensures { (base : List ℕ) (heads : List PageHead) → IsUtf8 base → value_view value.now ≡ outline (index_data base heads) → option_map (λ b. b.now) result ≡ Some base }
{
    match url_in(value) {
        Some(url) => base_of(url),
        None => None,
    }
}

// Whether the bytes are the index of pages with these heads.
fn is_index(alloc: Global, base: &str, heads: &[PageHead], bytes: &[u8]) -> Result<bool, NoMemory>
    ensures { IfOk result (λ same. IsTrue same ↔ ((length heads.now < 2 ^ 32) × (bytes.now ≡ index_text base.now heads.now))) }
{
    if heads.len() > 0xffff_ffff {
        return Ok(false);
    }
    let again = index_bytes(alloc, base, heads)?;
    Ok(is_same(again.as_slice(), bytes))
}

/// The base address and the pages' heads of an index.
///
/// `Damaged` comes where the bytes are no index, as with a space, or with members in another order.
pub fn read_index(alloc: Global, bytes: &[u8]) -> Result<(Text, Many<PageHead>), DocErr>
    ensures ok { IfOk result (λ read. IsUtf8 read.0 × (bytes.now ≡ index_text read.0 read.1)) }
    ensures exact { (base : List ℕ) (heads : List PageHead) → IsUtf8 base → AreHeadValues heads → length heads < 2 ^ 32 → bytes.now ≡ index_text base heads → IfOk result (λ read. (read.0 ≡ base) × (read.1 ≡ heads)) }
    ensures damaged { IsErrOf result DocErr.Damaged → (base : List ℕ) (heads : List PageHead) → IsUtf8 base → AreHeadValues heads → length heads < 2 ^ 32 → bytes.now ≡ index_text base heads → ⊥ }
{
    let mut scratch = Scratch::new(alloc);
    let Some(value) = tree_of(alloc, bytes, &mut scratch)? else {
        return Err(DocErr::Damaged);
    };
    let Some(base) = base_in(&value) else {
        return Err(DocErr::Damaged);
    };
    let Some(heads) = heads_in(alloc, &value)? else {
        return Err(DocErr::Damaged);
    };
    if is_index(alloc, base, heads.as_slice(), bytes)? {
        let base = Text::copy_of(alloc, base)?;
        Ok((base, heads))
    } else {
        Err(DocErr::Damaged)
    }
}
