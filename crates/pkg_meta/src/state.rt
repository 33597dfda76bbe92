// What a hive keeps of an id.
ghost use Rattle.std.specs.Prelude.{map};
ghost use Rattle.std.specs.Ordering.{nat_cmp};
ghost use Rattle.std.specs.Cmp.Lexicographic.{slice_cmp};
ghost use Rattle.std.specs.List.Sorted.{IsStrictlySortedBy};
ghost use Rattle.std.proofs.lemmas.Map.Keys.{IsStrictlySortedBy-prop};
ghost use Rattle.nuget_version.specs.Precedence.{precedence};
ghost use Rattle.pkg_meta.specs.Entries.{AreRising, version_in};

use crate::entry::Entry;
use nuget_version::{Many, Text};
use ticks::Ticks;

/// What a hive has of an id: how far it has taken the catalog in, and which documents it may hold.
#[derive(Drop)]
pub struct StateDoc {
    /// The number of the last commit that was taken in.
    pub at: u32,
    /// The number of the last commit up to `at` that has an item of the id, and its stamp.
    pub touched: u32,
    pub touched_stamp: Ticks,
    /// Whether documents of an earlier state may be left.
    pub dirty: bool,
    /// The names of documents that may be held, in byte order and without repeats.
    pub names: Many<Text>,
    /// The entries, by strictly rising precedence.
    pub entries: Many<Entry>,
    pub ghost names_rise: { IsStrictlySortedBy (slice_cmp nat_cmp) names } by { IsStrictlySortedBy-prop (slice_cmp nat_cmp) names },
    pub ghost entries_rise: { AreRising entries } by { IsStrictlySortedBy-prop precedence (map version_in entries) },
}

impl StateDoc {
    ghost use Rattle.std.specs.Prelude.{◌↔◌, Contains, IsTrue};

    /// Whether a document of this name may be held.
    pub fn has(&self, name: &str) -> bool
        ensures { IsTrue result ↔ Contains self.now.names name.now }
    {
        self.names
            .as_slice()
            .iter()
            .any(|held| held.as_str() == name)
    }
}
