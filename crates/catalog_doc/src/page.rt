// A page of the catalog.
ghost use Rattle.std.specs.Prelude.{◌≡◌, ◌<◌, ◌+◌, ◌^◌, ◌++◌, ◌∷◌, [], IfOk, OnOk, length, map};
ghost use Rattle.serde_json.specs.Written.{compact_text};
ghost use Rattle.ticks.specs.Stamp.{stamp_text};
ghost use Rattle.catalog_doc.specs.Documents.{commit_id, head_of, last_number, last_stamp, page_object, page_text, row_data, row_kind};
ghost use Rattle.catalog_doc.specs.Names.{catalog_url, index_name, page_name};
ghost use Rattle.catalog_doc.specs.Texts.{SendsText, told_page, told_row};

use crate::head::{PageHead, first_moment};
use crate::names::{commit_id, index_url, leaf_url, page_url};
use crate::row::Row;
use pkg_meta::{Bytes, NoMemory, Ticks};
use serde::{Described, Serialize, Serializer};
use std::alloc::Global;

fn kind_of(row: &Row) -> &'static str
    ensures { result.now ≡ row_kind row.now.gone }
{
    if row.gone {
        "nuget:PackageDelete"
    } else {
        "nuget:PackageDetails"
    }
}

// Sends a member whose value is a text.
fn send_text<S: Serializer>(out: &mut S, key: &str, text: &str) -> Result<(), S::Error>
    ensures { OnOk result (SendsText key.now text.now (S.written out.old) (S.written out.new)) }
{
    out.key(key)?;
    out.str(text)
}

// What a page says of an item, in texts.
#[derive(Drop)]
struct RowTexts<'a> {
    url: String,
    kind: &'a str,
    commit: String,
    stamp: String,
    id: &'a str,
    version: String,
}

impl Described for RowTexts<'_> {
    ghost use Rattle.serde_json.specs.Events.{SendsValue};
    ghost use Rattle.catalog_doc.specs.Texts.{told_row};

    ghost writes = { λ row. SendsValue (told_row row) };
}

impl Serialize for RowTexts<'_> {
    fn serialize<S: Serializer>(&self, out: &mut S) -> Result<(), S::Error> {
        out.begin_map(Some(6))?;
        send_text(out, "@id", &self.url)?;
        send_text(out, "@type", self.kind)?;
        send_text(out, "commitId", &self.commit)?;
        send_text(out, "commitTimeStamp", &self.stamp)?;
        send_text(out, "nuget:id", self.id)?;
        send_text(out, "nuget:version", &self.version)?;
        out.end_map()
    }
}

fn row_texts<'a>(alloc: Global, base: &str, row: &'a Row) -> Result<RowTexts<'a>, NoMemory>
    ensures { IfOk result (λ texts. told_row texts ≡ row_data base.now row.now) }
{
    Ok(RowTexts {
        url: leaf_url(alloc, base, row.number, row.place)?,
        kind: kind_of(row),
        commit: commit_id(alloc, row.number)?,
        stamp: row.stamp.print(alloc)?.into_string(),
        id: row.id.text.as_str(),
        version: row.version.full(alloc)?.into_string(),
    })
}

fn all_texts<'a>(alloc: Global, base: &str, rows: &'a [Row]) -> Result<Vec<RowTexts<'a>>, NoMemory>
    ensures { IfOk result (λ texts. map told_row texts.items ≡ map (row_data base.now) rows.now) }
{
    let mut texts = Vec::new(alloc);
    for row in rows {
        texts.push(row_texts(alloc, base, row)?)?;
    }
    Ok(texts)
}

/// The number and the stamp of the last row's commit, those of no commits where there is no row.
pub fn last_of(rows: &[Row]) -> (u32, Ticks)
    ensures number { result.0 ≡ last_number rows.now }
    ensures stamp { result.1 ≡ last_stamp rows.now }
{
    match rows.last() {
        Some(row) => (row.number, row.stamp),
        None => (0, first_moment()),
    }
}

// A page, in texts.
#[derive(Drop)]
struct PageTexts<'a> {
    url: String,
    commit: String,
    stamp: String,
    rows: Vec<RowTexts<'a>>,
    parent: String,
}

impl Described for PageTexts<'_> {
    ghost use Rattle.serde_json.specs.Events.{SendsValue};
    ghost use Rattle.catalog_doc.specs.Texts.{told_page};

    ghost writes = { λ page. SendsValue (told_page page) };
}

impl Serialize for PageTexts<'_> {
    fn serialize<S: Serializer>(&self, out: &mut S) -> Result<(), S::Error> {
        out.begin_map(Some(6))?;
        send_text(out, "@id", &self.url)?;
        send_text(out, "commitId", &self.commit)?;
        send_text(out, "commitTimeStamp", &self.stamp)?;
        out.key("count")?;
        out.u64(self.rows.len() as u64)?;
        out.key("items")?;
        self.rows.serialize(out)?;
        send_text(out, "parent", &self.parent)?;
        out.end_map()
    }
}

// The bytes of a page of these rows, whose last commit has this number and stamp.
fn bytes_of(
    alloc: Global,
    base: &str,
    page: u32,
    number: u32,
    stamp: Ticks,
    rows: Vec<RowTexts<'_>>,
) -> Result<Bytes, NoMemory>
    ensures { IfOk result (λ b. b ≡ compact_text (page_object (catalog_url base.now (page_name page)) (commit_id number) (stamp_text stamp)
        (length rows.entry.items) (map told_row rows.entry.items) (catalog_url base.now index_name))) }
{
    let texts = PageTexts {
        url: page_url(alloc, base, page)?,
        commit: commit_id(alloc, number)?,
        stamp: stamp.print(alloc)?.into_string(),
        rows,
        parent: index_url(alloc, base)?,
    };
    text_of(alloc, &texts)
}

// The JSON text of a page.
fn text_of(alloc: Global, page: &PageTexts<'_>) -> Result<Bytes, NoMemory>
    ensures { IfOk result (λ b. b ≡ compact_text (told_page page.now)) }
{
    match serde_json::to_vec(alloc, page) {
        Ok(bytes) => Ok(Bytes::of(bytes)),
        Err(_) => Err(NoMemory),
    }
}

/// The bytes of a page with these rows.
#[tactic(auto, unfolding(crate::specs::Documents::page_text))]
pub fn page_bytes(alloc: Global, base: &str, page: u32, rows: &[Row]) -> Result<Bytes, NoMemory>
    ensures { IfOk result (λ b. b ≡ page_text base.now page rows.now) }
{
    let (number, stamp) = last_of(rows);
    let texts = all_texts(alloc, base, rows)?;
    bytes_of(alloc, base, page, number, stamp, texts)
}

/// The bytes of a page with these rows and one more behind them.
#[tactic(auto, unfolding(crate::specs::Documents::page_text))]
pub fn longer_page_bytes(
    alloc: Global,
    base: &str,
    page: u32,
    rows: &[Row],
    row: &Row,
) -> Result<Bytes, NoMemory>
    ensures { IfOk result (λ b. b ≡ page_text base.now page (rows.now ++ row.now ∷ [])) }
{
    let mut texts = all_texts(alloc, base, rows)?;
    texts.push(row_texts(alloc, base, row)?)?;
    bytes_of(alloc, base, page, row.number, row.stamp, texts)
}

fn joined_texts<'a>(
    alloc: Global,
    base: &str,
    rows: &'a [Row],
    more: &'a [Row],
) -> Result<Vec<RowTexts<'a>>, NoMemory>
    ensures { IfOk result (λ texts. map told_row texts.items ≡ map (row_data base.now) (rows.now ++ more.now)) }
{
    let mut joined = all_texts(alloc, base, rows)?;
    let mut others = all_texts(alloc, base, more)?;
    joined.append(&mut others)?;
    Ok(joined)
}

fn last_of_joined(rows: &[Row], more: &[Row]) -> (u32, Ticks)
    ensures number { result.0 ≡ last_number (rows.now ++ more.now) }
    ensures stamp { result.1 ≡ last_stamp (rows.now ++ more.now) }
{
    if more.is_empty() {
        last_of(rows)
    } else {
        last_of(more)
    }
}

/// The head of a page with these rows and more behind them.
pub fn joined_head(rows: &[Row], more: &[Row]) -> PageHead
    requires few { length rows.now + length more.now < 2 ^ 32 }
    ensures { result ≡ head_of (rows.now ++ more.now) }
{
    let (number, stamp) = last_of_joined(rows, more);
    PageHead {
        number,
        stamp,
        count: (rows.len() + more.len()) as u32,
    }
}

/// The bytes of a page with these rows and more behind them.
#[tactic(auto, unfolding(crate::specs::Documents::page_text))]
pub fn joined_page_bytes(
    alloc: Global,
    base: &str,
    page: u32,
    rows: &[Row],
    more: &[Row],
) -> Result<Bytes, NoMemory>
    ensures { IfOk result (λ b. b ≡ page_text base.now page (rows.now ++ more.now)) }
{
    let (number, stamp) = last_of_joined(rows, more);
    let texts = joined_texts(alloc, base, rows, more)?;
    bytes_of(alloc, base, page, number, stamp, texts)
}
