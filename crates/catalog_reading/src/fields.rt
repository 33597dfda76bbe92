// The fields of the catalog's documents. Each is said for what the writers write; of other values
// something else may be read.
ghost use Rattle.std.specs.Prelude.{◌≡◌, Bool, ◌≤◌, ◌<◌, ◌^◌, ◌++◌, ℕ, List, Some, IfOk, IfSome, IfNone, MatchOption, IsUtf8, decimal, option_map};
ghost use Rattle.json.specs.Value.{value_view};
ghost use Rattle.serde_json.specs.Written.{outline};
ghost use Rattle.nuget_version.specs.Printed.{full_text};
ghost use Rattle.ticks.specs.Stamp.{stamp_text};
ghost use Rattle.catalog_doc.specs.Documents.{commit_id, head_data, row_data, row_kind};
ghost use Rattle.catalog_doc.specs.Names.{catalog_url, leaf_name, place_name};
ghost use Rattle.catalog_doc.specs.Reading.{IsHeadValue, IsRowValue};
ghost use Rattle.catalog_doc.specs.declared.head.PageHead.{PageHead};
ghost use Rattle.catalog_doc.specs.declared.row.Row.{Row};

use json::Value;
use pkg_meta::{NoMemory, PackageId, Ticks, Version};
use std::alloc::Global;
use uuid::Uuid;

fn url_text<'a>(value: &Value<'a>) -> Option<&'a str>
    ensures row { (base : List ℕ) (row : Row) → value_view value.now ≡ outline (row_data base row) → option_map (λ t. t.now) result ≡ Some (catalog_url base (leaf_name row.number row.place)) }
{
    value.get("@id").and_then(Value::as_str)
}

fn kind_text<'a>(value: &Value<'a>) -> Option<&'a str>
    ensures row { (base : List ℕ) (row : Row) → value_view value.now ≡ outline (row_data base row) → option_map (λ t. t.now) result ≡ Some (row_kind row.gone) }
{
    value.get("@type").and_then(Value::as_str)
}

fn commit_text<'a>(value: &Value<'a>) -> Option<&'a str>
    ensures head { (base : List ℕ) (k : ℕ) (head : PageHead) → value_view value.now ≡ outline (head_data base k head) → option_map (λ t. t.now) result ≡ Some (commit_id head.number) }
{
    value.get("commitId").and_then(Value::as_str)
}

fn stamp_text<'a>(value: &Value<'a>) -> Option<&'a str>
    ensures row { (base : List ℕ) (row : Row) → value_view value.now ≡ outline (row_data base row) → option_map (λ t. t.now) result ≡ Some (stamp_text row.stamp) }
    ensures head { (base : List ℕ) (k : ℕ) (head : PageHead) → value_view value.now ≡ outline (head_data base k head) → option_map (λ t. t.now) result ≡ Some (stamp_text head.stamp) }
{
    value.get("commitTimeStamp").and_then(Value::as_str)
}

fn id_text<'a>(value: &Value<'a>) -> Option<&'a str>
    ensures row { (base : List ℕ) (row : Row) → value_view value.now ≡ outline (row_data base row) → option_map (λ t. t.now) result ≡ Some row.id.text }
{
    value.get("nuget:id").and_then(Value::as_str)
}

fn version_text<'a>(value: &Value<'a>) -> Option<&'a str>
    ensures row { (base : List ℕ) (row : Row) → value_view value.now ≡ outline (row_data base row) → option_map (λ t. t.now) result ≡ Some (full_text row.version) }
{
    value.get("nuget:version").and_then(Value::as_str)
}

fn count_text<'a>(value: &Value<'a>) -> Option<&'a str>
    ensures head { (base : List ℕ) (k : ℕ) (head : PageHead) → value_view value.now ≡ outline (head_data base k head) → option_map (λ t. t.now) result ≡ Some (decimal head.count) }
{
    value.get("count").and_then(Value::as_number)
}

/// The number of the commit that has this id, the UUID text (RFC 9562) that `commit_id` writes.
///
/// It isn't the test of a commit id: of other UUID texts, as one in capital letters, a number may be
/// answered too.
pub fn commit_number(text: &str) -> Option<u32>
    ensures { (n : ℕ) → n < 2 ^ 32 → text.now ≡ commit_id n → result ≡ Some n }
{
    let id = Uuid::parse_str(text).ok()?;
    u32::try_from(id.as_u128()).ok()
}

pub(crate) fn moment_of(text: &str) -> Option<Ticks>
    ensures { (n : ℕ) → n ≤ 3_155_378_975_999_999_999 → text.now ≡ stamp_text n → result ≡ Some n }
{
    Ticks::read(text).ok()
}

fn is_gone(kind: &str) -> bool
    ensures { (gone : Bool) → kind.now ≡ row_kind gone → result ≡ gone }
{
    kind == "nuget:PackageDelete"
}

// The number of the commit that a page's head names.
pub(crate) fn number_in(value: &Value<'_>) -> Option<u32>
    ensures { (base : List ℕ) (k : ℕ) (head : PageHead) → IsHeadValue head → value_view value.now ≡ outline (head_data base k head) → result ≡ Some head.number }
{
    match commit_text(value) {
        Some(text) => commit_number(text),
        None => None,
    }
}

// The stamp of the commit of a row or a page's head.
pub(crate) fn stamp_in(value: &Value<'_>) -> Option<Ticks>
    ensures row { (base : List ℕ) (row : Row) → IsRowValue row → value_view value.now ≡ outline (row_data base row) → result ≡ Some row.stamp }
    ensures head { (base : List ℕ) (k : ℕ) (head : PageHead) → IsHeadValue head → value_view value.now ≡ outline (head_data base k head) → result ≡ Some head.stamp }
{
    match stamp_text(value) {
        Some(text) => moment_of(text),
        None => None,
    }
}

// How many items a page's head counts.
pub(crate) fn count_in(value: &Value<'_>) -> Option<u32>
    ensures { (base : List ℕ) (k : ℕ) (head : PageHead) → IsHeadValue head → value_view value.now ≡ outline (head_data base k head) → result ≡ Some head.count }
{
    match count_text(value) {
        Some(digits) => decimal_of(digits),
        None => None,
    }
}

// Whether a row speaks of a delete.
pub(crate) fn gone_in(value: &Value<'_>) -> Option<bool>
    ensures { (base : List ℕ) (row : Row) → value_view value.now ≡ outline (row_data base row) → result ≡ Some row.gone }
{
    match kind_text(value) {
        Some(kind) => Some(is_gone(kind)),
        None => None,
    }
}

// What stands behind the prefix.
fn behind<'a>(bytes: &'a [u8], prefix: &[u8]) -> Option<&'a [u8]>
    ensures { MatchOption result ((rest : List ℕ) → bytes.now ≡ prefix.now ++ rest → ⊥)
        (λ rest. bytes.now ≡ prefix.now ++ rest.now) }
{
    bytes.strip_prefix(prefix)
}

// What stands before the suffix.
fn before<'a>(bytes: &'a [u8], suffix: &[u8]) -> Option<&'a [u8]>
    ensures { MatchOption result ((front : List ℕ) → bytes.now ≡ front ++ suffix.now → ⊥)
        (λ front. bytes.now ≡ front.now ++ suffix.now) }
{
    bytes.strip_suffix(suffix)
}

fn text_of(bytes: &[u8]) -> Option<&str>
    ensures found { IfSome result (λ text. text.now ≡ bytes.now) }
    ensures none { IfNone result (¬ IsUtf8 bytes.now) }
{
    match str::from_utf8(bytes) {
        Ok(text) => Some(text),
        Err(_) => None,
    }
}

// What is read where a number was written.
fn decimal_of(digits: &str) -> Option<u32>
    ensures { (n : ℕ) → n < 2 ^ 32 → digits.now ≡ decimal n → result ≡ Some n }
{
    digits.parse::<u32>().ok()
}

// The commit and the place that published an item.
#[derive(Clone, Copy)]
pub(crate) struct Origin {
    pub(crate) number: u32,
    pub(crate) place: u32,
}

// What stands before the first slash and behind it.
fn parted(text: &str) -> Option<(&str, &str)>
    ensures { (n p : ℕ) → n < 2 ^ 32 → text.now ≡ place_name n p → MatchOption result ⊥ (λ parts. (parts.0.now ≡ decimal n) × (parts.1.now ≡ decimal p)) }
{
    text.split_once('/')
}

pub(crate) fn origin_of(text: &str) -> Option<Origin>
    ensures { (n p : ℕ) → n < 2 ^ 32 → p < 2 ^ 32 → text.now ≡ place_name n p → result ≡ Some (record { number = n; place = p }) }
{
    let (number, place) = parted(text)?;
    let number = decimal_of(number)?;
    let place = decimal_of(place)?;
    Some(Origin { number, place })
}

// What the URL of a leaf says of its item.
fn origin_behind(url: &[u8], base: &[u8]) -> Option<Origin>
    ensures { (n p : ℕ) → n < 2 ^ 32 → p < 2 ^ 32 → url.now ≡ catalog_url base.now (leaf_name n p) → result ≡ Some (record { number = n; place = p }) }
{
    let name = behind(url, base)?;
    let rest = behind(name, b"v3/catalog/data/")?;
    let origin = before(rest, b".json")?;
    let text = text_of(origin)?;
    origin_of(text)
}

// The commit and the place of a row.
pub(crate) fn origin_in(base: &str, value: &Value<'_>) -> Option<Origin>
    ensures { (row : Row) → IsRowValue row → value_view value.now ≡ outline (row_data base.now row) → result ≡ Some (record { number = row.number; place = row.place }) }
{
    match url_text(value) {
        Some(url) => origin_behind(url.as_bytes(), base.as_bytes()),
        None => None,
    }
}

// The id of a row.
pub(crate) fn id_in(alloc: Global, value: &Value<'_>) -> Result<Option<PackageId>, NoMemory>
    ensures { (base : List ℕ) (row : Row) → value_view value.now ≡ outline (row_data base row) → IfOk result (λ found. found ≡ Some row.id) }
{
    match id_text(value) {
        Some(text) => PackageId::read(alloc, text),
        None => Ok(None),
    }
}

// The version of a row.
pub(crate) fn version_in(alloc: Global, value: &Value<'_>) -> Result<Option<Version>, NoMemory>
    ensures { (base : List ℕ) (row : Row) → value_view value.now ≡ outline (row_data base row) → IfOk result (λ found. found ≡ Some row.version) }
{
    match version_text(value) {
        Some(text) => Version::read(alloc, text),
        None => Ok(None),
    }
}
