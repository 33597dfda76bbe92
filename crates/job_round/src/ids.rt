// The ids of rows, in order of their first, each with its rows.
ghost use Rattle.std.specs.Prelude.{◌≡◌, ◌<◌, ◌+◌, ◌++◌, ◌∷◌, [], ℕ, List, Some, IfOk, OnOk, length, if◌then◌else◌};
ghost use Rattle.std.specs.BTreeMap.{get_by_text};
ghost use Rattle.std.specs.Str.{bytes_eq};
ghost use Rattle.catalog_doc.specs.declared.row.Row.{Row};

use catalog_doc::Row;
use pkg_meta::{Many, NoMemory, Text};
use std::alloc::Global;
use std::collections::BTreeMap;

/// An id with its rows, in order.
#[derive(Drop)]
pub(crate) struct IdRows {
    pub(crate) key: Text,
    pub(crate) rows: Many<Row>,
}

impl IdRows {
    // Without any rows.
    fn new(alloc: Global, key: &Text) -> Result<Self, NoMemory>
        ensures { IfOk result (λ id. id ≡ (record { key = key.now; rows = [] })) }
    {
        let key = key.copy(alloc)?;
        Ok(IdRows {
            key,
            rows: Many::new(alloc),
        })
    }
}

/// The ids, in order of their first rows.
#[derive(Drop)]
pub(crate) struct Ids {
    pub(crate) list: Vec<IdRows>,
    // Where the id with a key stands.
    pub(crate) places: BTreeMap<String, usize>,
    ghost within: { (key : List ℕ) (place : ℕ) → get_by_text places key ≡ Some place → place < length list.items },
}

impl Ids {
    ghost use Rattle.job_round.specs.Ids.{HasIds, HasIdAt, by_id, keys_of};

    fn new(alloc: Global) -> Self
        ensures { HasIds [] [] result }
    {
        Ids {
            list: Vec::new(alloc),
            places: BTreeMap::new(alloc),
        }
    }

    // Puts the id with this key behind the others.
    fn add(&mut self, alloc: Global, key: &Text) -> Result<usize, NoMemory>
        ensures place { IfOk result (λ place. place ≡ length self.old.list.items) }
        ensures within { OnOk result (length self.new.list.items ≡ length self.old.list.items + 1) }
        ensures list { OnOk result (self.new.list.items ≡ self.old.list.items ++ (record { key = key.now; rows = [] }) ∷ []) }
        ensures places { OnOk result ((asked : List ℕ) → get_by_text self.new.places asked
            ≡ (if bytes_eq key.now asked then Some (length self.old.list.items) else get_by_text self.old.places asked)) }
    {
        let place = self.list.len();
        let id = IdRows::new(alloc, key)?;
        let name = String::from_str(alloc, key.as_str())?;
        self.list.push(id)?;
        self.places.insert(name, place)?;
        Ok(place)
    }

    // Where the id with this key stands, behind the others where it wasn't one of them.
    fn find_or_add(&mut self, alloc: Global, key: &Text) -> Result<usize, NoMemory>
        ensures within { IfOk result (λ place. place < length self.new.list.items) }
        ensures found { (rows : List Row) → HasIds rows (keys_of rows) self.old → IfOk result (HasIdAt rows key.now self.new) }
    {
        match self.places.get(key.as_str()) {
            Some(&place) => Ok(place),
            None => self.add(alloc, key),
        }
    }

    // Puts a row to those of its id.
    fn take(&mut self, alloc: Global, row: Row) -> Result<(), NoMemory>
        ensures { (rows : List Row) → HasIds rows (keys_of rows) self.old
            → OnOk result (HasIds (rows ++ row ∷ []) (keys_of (rows ++ row ∷ [])) self.new) }
    {
        let at = self.find_or_add(alloc, &row.id.key)?;
        self.list[at].rows.push(row)
    }

    /// The ids of these rows, in order of the first row of each, with the id's rows in order.
    pub(crate) fn of(alloc: Global, rows: Many<Row>) -> Result<Vec<IdRows>, NoMemory>
        ensures { IfOk result (λ ids. ids.items ≡ by_id rows) }
    {
        let mut ids = Ids::new(alloc);
        for row in rows.into_vec() {
            ids.take(alloc, row)?;
        }
        Ok(ids.list)
    }
}
