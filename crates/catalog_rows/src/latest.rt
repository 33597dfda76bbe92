// A table by which the last row of a version and the live versions of an id are found.
ghost use Rattle.std.specs.Prelude.{◌≡◌, ◌≤◌, ◌<◌, ◌+◌, ◌-◌, ◌^◌, ◌++◌, ◌∷◌, [], true, length, drop, take, List, if◌then◌else◌, ℕ};
ghost use Rattle.std.specs.Prelude.{IfOk, IsOk, IsSome, None, Some, OnErr, OnOk, string_bytes};
ghost use Rattle.std.specs.BTreeMap.{get_by_text};
ghost use Rattle.std.specs.List.{All};
ghost use Rattle.nuget_version.specs.Printed.{key_text};
ghost use Rattle.catalog_doc.specs.declared.row.Row.{Row};
ghost use Rattle.catalog_rows.specs.Latest.{AreKeysOf, IsLatestOf, IsEntered, IsNoted, IsPut, EntersSame, KeepsEntered, NotesSame, entered_in, is_first, is_live_at, live_noted, place_noted};

use catalog_doc::Row;
use pkg_meta::{NoMemory, PackageId, Version};
use std::alloc::Global;
use std::collections::BTreeMap;

/// A version by its key, and where its last row stands; it has no place while it has no row.
#[derive(Drop)]
pub(crate) struct Entered {
    pub(crate) key: String,
    pub(crate) place: Option<usize>,
}

/// What is noted of an id: where the last row of each of its versions stands, and how many of them are live.
///
/// One version stands by itself, so that an id of one version takes no memory for a map.
#[derive(Drop)]
pub(crate) struct OfId {
    pub(crate) first: Option<Entered>,
    // The others, by their keys.
    pub(crate) others: BTreeMap<String, Option<usize>>,
    pub(crate) live: usize,
}

/// What is noted of each id, by the id's key. Versions can be entered before they have rows, so that their
/// rows are noted without memory.
#[derive(Drop)]
pub(crate) struct Latest {
    pub(crate) ids: BTreeMap<String, OfId>,
}

// Whether the row at this place, if one is given, is there and no delete.
fn is_live_at(rows: &[Row], place: Option<usize>) -> bool
    ensures { result ≡ is_live_at rows.now place }
{
    match place.and_then(|at| rows.get(at)) {
        Some(row) => !row.gone,
        None => false,
    }
}

// How many live versions an id has with a row more, of a version that was live or wasn't.
fn count_with(count: usize, live: bool, gone: bool) -> usize
    ensures { (live ≡ true → 0 < count) → count < 2 ^ 64 - 1
        → result + (if live then 1 else 0) ≡ count + (if gone then 0 else 1) }
{
    let others = if live { count.saturating_sub(1) } else { count };
    if gone {
        others
    } else {
        others.saturating_add(1)
    }
}

impl OfId {
    fn new(alloc: Global) -> Self
        ensures { NotesSame None (Some result) }
    {
        OfId {
            first: None,
            others: BTreeMap::new(alloc),
            live: 0,
        }
    }

    // Whether no other version than the one with this key stands by itself.
    fn is_first(&self, version: &str) -> bool
        ensures { result ≡ is_first self.now.first version.now }
    {
        match &self.first {
            Some(first) => first.key.as_str() == version,
            None => true,
        }
    }

    // What is entered for the version with this key, if it is.
    fn entered(&self, version: &str) -> Option<Option<usize>>
        ensures { result ≡ entered_in self.now version.now }
    {
        if let Some(first) = &self.first {
            if first.key.as_str() == version {
                return Some(first.place);
            }
        }
        self.others.get(version).copied()
    }

    // Puts a place for the version with this key, and tells what was entered for it.
    fn put(
        &mut self,
        version: String,
        place: Option<usize>,
    ) -> Result<Option<Option<usize>>, NoMemory>
        ensures put { OnOk result (IsPut (string_bytes version) place self.old self.new) }
        ensures before { IfOk result (λ before. before ≡ entered_in self.old (string_bytes version)) }
        ensures live { self.new.live ≡ self.old.live }
        ensures entered { IsSome (entered_in self.old (string_bytes version)) → IsOk result }
        ensures same { OnErr result (EntersSame self.old self.new) }
    {
        if !self.is_first(version.as_str()) {
            let before = self.others.insert(version, place)?;
            return Ok(before);
        }
        let before = self.entered(version.as_str());
        self.first = Some(Entered {
            key: version,
            place,
        });
        Ok(before)
    }

    // The place of the last row of the version with this key.
    fn place(&self, version: &str) -> Option<usize>
        ensures { result ≡ place_noted (Some self.now) version.now }
    {
        self.entered(version).unwrap_or(None)
    }

    // Enters a version, without a place where it is new.
    fn enter(&mut self, alloc: Global, version: &str) -> Result<(), NoMemory>
        ensures entered { OnOk result (IsSome (entered_in self.new version.now)) }
        ensures keeps { KeepsEntered (Some self.old) (Some self.new) }
        ensures same { NotesSame (Some self.old) (Some self.new) }
    {
        if self.entered(version).is_none() {
            self.put(String::from_str(alloc, version)?, None)?;
        }
        Ok(())
    }

    // Notes a row of this id behind others.
    fn note(&mut self, version: String, earlier: &[Row], row: &Row) -> Result<(), NoMemory>
        requires { string_bytes version ≡ key_text row.now.version }
        ensures ok { OnOk result (IsNoted row.now.id.key earlier.now (Some self.old)
            → IsNoted row.now.id.key (earlier.now ++ row.now ∷ []) (Some self.new)) }
        ensures entered { IsSome (entered_in self.old (string_bytes version)) → IsOk result }
        ensures keeps { KeepsEntered (Some self.old) (Some self.new) }
    {
        let place = self.put(version, Some(earlier.len()))?;
        let was_live = is_live_at(earlier, place.unwrap_or(None));
        self.live = count_with(self.live, was_live, row.gone);
        Ok(())
    }
}

impl Latest {
    pub(crate) fn new(alloc: Global) -> Self
        ensures { IsLatestOf [] result }
    {
        Latest {
            ids: BTreeMap::new(alloc),
        }
    }

    /// The place of the last row of a version.
    pub(crate) fn place(
        &self,
        alloc: Global,
        id: &PackageId,
        version: &Version,
    ) -> Result<Option<usize>, NoMemory>
        ensures { IfOk result (λ found. found ≡ place_noted (get_by_text self.now.ids id.now.key) (key_text version.now)) }
    {
        let Some(of_id) = self.ids.get(id.key.as_str()) else {
            return Ok(None);
        };
        let version = version.key(alloc)?;
        Ok(of_id.place(version.as_str()))
    }

    /// How many live versions the id with this key has.
    pub(crate) fn count(&self, id: &str) -> usize
        ensures { result ≡ live_noted (get_by_text self.now.ids id.now) }
    {
        match self.ids.get(id) {
            Some(of_id) => of_id.live,
            None => 0,
        }
    }

    // Enters the version of a row, whose key is given.
    fn enter(&mut self, alloc: Global, row: &Row, version: &str) -> Result<(), NoMemory>
        requires { version.now ≡ key_text row.now.version }
        ensures entered { OnOk result (IsEntered self.new row.now) }
        ensures keeps { (other : Row) → IsEntered self.old other → IsEntered self.new other }
        ensures same { (rows : List Row) → IsLatestOf rows self.old → IsLatestOf rows self.new }
    {
        let id = row.id.key.as_str();
        match self.ids.get_mut(id) {
            Some(of_id) => of_id.enter(alloc, version),
            None => {
                let mut of_id = OfId::new(alloc);
                of_id.enter(alloc, version)?;
                self.ids.insert(String::from_str(alloc, id)?, of_id)?;
                Ok(())
            }
        }
    }

    /// Enters the versions of rows, and gives their keys.
    pub(crate) fn enter_all(&mut self, alloc: Global, rows: &[Row]) -> Result<Vec<String>, NoMemory>
        ensures keys { IfOk result (λ keys. AreKeysOf keys.items rows.now) }
        ensures entered { OnOk result (All (IsEntered self.new) rows.now) }
        ensures keeps { (other : Row) → IsEntered self.old other → IsEntered self.new other }
        ensures same { (rows : List Row) → IsLatestOf rows self.old → IsLatestOf rows self.new }
    {
        let mut keys = Vec::new(alloc);
        for row in rows {
            let key = row.version.key(alloc)?.into_string();
            self.enter(alloc, row, key.as_str())?;
            keys.push(key)?;
        }
        Ok(keys)
    }

    /// Notes a row behind others.
    pub(crate) fn note(&mut self, alloc: Global, earlier: &[Row], row: &Row) -> Result<(), NoMemory>
        ensures { OnOk result (IsLatestOf earlier.now self.old → IsLatestOf (earlier.now ++ row.now ∷ []) self.new) }
    {
        let version = row.version.key(alloc)?.into_string();
        let id = row.id.key.as_str();
        match self.ids.get_mut(id) {
            Some(of_id) => of_id.note(version, earlier, row),
            None => {
                let mut of_id = OfId::new(alloc);
                of_id.note(version, earlier, row)?;
                self.ids.insert(String::from_str(alloc, id)?, of_id)?;
                Ok(())
            }
        }
    }

    // Notes a row behind others, whose version is entered under this key.
    fn note_entered(&mut self, version: String, earlier: &[Row], row: &Row)
        requires version { string_bytes version ≡ key_text row.now.version }
        requires entered { IsEntered self.old row.now }
        ensures latest { IsLatestOf earlier.now self.old → IsLatestOf (earlier.now ++ row.now ∷ []) self.new }
        ensures keeps { (other : Row) → IsEntered self.old other → IsEntered self.new other }
    {
        let Some(of_id) = self.ids.get_mut(row.id.key.as_str()) else {
            unreachable!()
        };
        match of_id.note(version, earlier, row) {
            Ok(()) => {}
            Err(_) => unreachable!(),
        }
    }

    /// Notes the rows from `first` on, whose versions are entered under these keys.
    pub(crate) fn note_all(&mut self, keys: Vec<String>, rows: &[Row], first: usize)
        requires within { first ≤ length rows.now }
        requires keys { AreKeysOf keys.items (drop first rows.now) }
        requires entered { All (IsEntered self.old) (drop first rows.now) }
        ensures { IsLatestOf (take first rows.now) self.old → IsLatestOf rows.now self.new }
    {
        let mut at = first;
        for key in keys {
            self.note_entered(key, &rows[..at], &rows[at]);
            at += 1;
        }
    }
}
