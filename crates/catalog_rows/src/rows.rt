// The rows of an open catalog.
ghost use Rattle.std.specs.Prelude.{◌≡◌, ◌≤◌, ◌<◌, ◌+◌, ◌++◌, [], length, option_map, slice_get, IfOk, OnOk, OnErr};
ghost use Rattle.std.specs.Option.{option_copied};
ghost use Rattle.std.specs.Vec.{vec_capacity, vec_len};
ghost use Rattle.nuget_version.specs.Printed.{key_text};
ghost use Rattle.pkg_meta.specs.Catalog.{Catalog};
ghost use Rattle.pkg_meta.specs.Lawful.{all_placed, last_of};
ghost use Rattle.catalog_doc.specs.CatDocs.{all_rows, last_page, pages_of};
ghost use Rattle.catalog_doc.specs.Catalogs.{all_items, live_count};
ghost use Rattle.catalog_rows.specs.Kept.{HoldsSame, IsKeptOf, TakesIn};
ghost use Rattle.catalog_rows.specs.Last.{last_row, live_rows, placed_row};
ghost use Rattle.catalog_rows.specs.Latest.{IsLatestOf};

use crate::latest::Latest;
use crate::pages::{add_head, head_of, last_count};
use catalog_doc::{PageHead, Row};
use pkg_meta::{Many, NoMemory, PackageId, Version};
use std::alloc::Global;
use std::marker::Model;

/// The rows of a commit, and the keys of their versions.
#[derive(Drop)]
pub(crate) struct NewRows {
    pub(crate) rows: Vec<Row>,
    pub(crate) keys: Vec<String>,
}

/// The rows of a catalog, and the heads of its pages. The last row of a version, and how many live versions
/// an id has, are found without a look through all rows. Beside them the rows of a commit can be reserved,
/// which are taken in later without memory.
pub struct Rows {
    rows: Vec<Row>,
    pages: Vec<PageHead>,
    latest: Latest,
    reserved: Option<NewRows>,
}

// One call drops all parts, wherever an open catalog ends.
impl Drop for Rows {
    fn drop(self) {
        let Rows {
            rows,
            pages,
            latest,
            reserved,
        } = self;
    }
}

impl Model for Rows {
    ghost use Rattle.std.specs.Prelude.{◌≤◌, ◌<◌, ◌+◌, IfSome};
    ghost use Rattle.std.specs.Vec.{vec_capacity, vec_len};
    ghost use Rattle.catalog_rows.specs.Kept.{Kept};

    ghost Value = { Kept };

    ghost use Rattle.catalog_rows.specs.Latest.{AreReady, IsLatestOf, rows_in};

    ghost view = { λ r. record { rows = r.rows.items; pages = r.pages.items; reserved = rows_in r.reserved } };

    // The table tells of the rows, and all memory that the reserved ones need is there.
    ghost invariant = { λ r. IsLatestOf r.rows.items r.latest × IfSome r.reserved (λ new. AreReady r.latest new
        × (vec_len r.rows + vec_len new.rows ≤ vec_capacity r.rows) × (vec_len r.pages < vec_capacity r.pages)) };
}

fn latest_of(alloc: Global, rows: &[Row]) -> Result<Latest, NoMemory>
    ensures { IfOk result (IsLatestOf rows.now) }
{
    let mut latest = Latest::new(alloc);
    for (at, row) in rows.iter().enumerate() {
        latest.note(alloc, &rows[..at], row)?;
    }
    Ok(latest)
}

fn row_at(rows: &[Row], at: usize) -> Option<&Row>
    ensures { option_copied result ≡ slice_get rows.now at }
{
    rows.get(at)
}

// Adds rows behind others, which have memory for them.
fn append(rows: &mut Vec<Row>, more: Vec<Row>)
    requires room { vec_len rows.old + vec_len more ≤ vec_capacity rows.old }
    ensures { rows.new.items ≡ rows.old.items ++ more.items }
{
    let mut more = more;
    match rows.append(&mut more) {
        Ok(()) => {}
        Err(_) => unreachable!(),
    }
}

impl Rows {
    pub fn new(alloc: Global) -> Self
        ensures rows { result.rows ≡ [] }
        ensures pages { result.pages ≡ [] }
    {
        Rows {
            rows: Vec::new(alloc),
            pages: Vec::new(alloc),
            latest: Latest::new(alloc),
            reserved: None,
        }
    }

    pub fn of(alloc: Global, rows: Many<Row>, pages: Many<PageHead>) -> Result<Self, NoMemory>
        ensures rows { IfOk result (λ r. r.rows ≡ rows) }
        ensures pages { IfOk result (λ r. r.pages ≡ pages) }
    {
        let latest = latest_of(alloc, rows.as_slice())?;
        Ok(Rows {
            rows: rows.into_vec(),
            pages: pages.into_vec(),
            latest,
            reserved: None,
        })
    }

    pub fn as_slice(&self) -> &[Row]
        ensures { result.now ≡ self.now.rows }
    {
        self.rows.as_slice()
    }

    pub fn pages(&self) -> &[PageHead]
        ensures { result.now ≡ self.now.pages }
    {
        self.pages.as_slice()
    }

    pub fn len(&self) -> usize
        ensures { result ≡ length self.now.rows }
    {
        self.rows.len()
    }

    /// The rows of the last page, none where there is no page.
    pub fn last_page(&self) -> &[Row]
        ensures { (cs : Catalog) → IsKeptOf self.now cs → result.now ≡ all_rows (last_page (pages_of cs)) }
    {
        let first = self
            .rows
            .len()
            .saturating_sub(last_count(self.pages.as_slice()));
        &self.rows.as_slice()[first..]
    }

    /// The last row of a version.
    pub fn last(
        &self,
        alloc: Global,
        id: &PackageId,
        version: &Version,
    ) -> Result<Option<&Row>, NoMemory>
        ensures row { IfOk result (λ found. option_copied found ≡ last_row id.now.key (key_text version.now) self.now.rows) }
        ensures item { IfOk result (λ found. (cs : Catalog) → all_rows cs ≡ self.now.rows
            → option_copied found ≡ option_map placed_row (last_of id.now.key (key_text version.now) (all_placed cs))) }
    {
        match self.latest.place(alloc, id, version)? {
            Some(at) => Ok(row_at(self.rows.as_slice(), at)),
            None => Ok(None),
        }
    }

    /// How many live versions an id has.
    pub fn live(&self, id: &PackageId) -> usize
        ensures rows { result ≡ live_rows id.now.key self.now.rows }
        ensures items { (cs : Catalog) → all_rows cs ≡ self.now.rows → result ≡ live_count id.now.key (all_items cs) }
    {
        self.latest.count(id.key.as_str())
    }

    /// Takes the memory that the rows of a commit need here, and reserves them.
    pub fn reserve(&mut self, alloc: Global, rows: Many<Row>) -> Result<(), NoMemory>
        ensures same { HoldsSame self.old self.new }
        ensures reserved { OnOk result (self.new.reserved ≡ rows) }
        ensures err { OnErr result (self.new ≡ self.old) }
    {
        let keys = self.latest.enter_all(alloc, rows.as_slice())?;
        self.pages.reserve(1)?;
        self.rows.reserve(rows.len())?;
        let rows = rows.into_vec();
        self.reserved = Some(NewRows { rows, keys });
        Ok(())
    }

    /// Takes in the reserved rows of a commit. It takes no memory.
    pub fn take_in(&mut self)
        requires some { 0 < length self.old.reserved }
        requires few { length self.old.reserved ≤ 64 }
        ensures rows { self.new.rows ≡ self.old.rows ++ self.old.reserved }
        ensures catalog { TakesIn self.old self.old.reserved self.new }
    {
        let Some(NewRows { rows, keys }) = self.reserved.take() else {
            unreachable!()
        };
        let first = self.rows.len();
        let head = head_of(rows.as_slice());
        append(&mut self.rows, rows);
        self.latest.note_all(keys, self.rows.as_slice(), first);
        add_head(&mut self.pages, &head);
    }

    /// Takes in the rows of a commit. Without memory all stays.
    pub fn add(&mut self, alloc: Global, rows: Many<Row>) -> Result<(), NoMemory>
        requires some { 0 < length rows }
        requires few { length rows ≤ 64 }
        ensures rows { OnOk result (self.new.rows ≡ self.old.rows ++ rows) }
        ensures catalog { OnOk result (TakesIn self.old rows self.new) }
        ensures err { OnErr result (self.new ≡ self.old) }
    {
        self.reserve(alloc, rows)?;
        self.take_in();
        Ok(())
    }
}
