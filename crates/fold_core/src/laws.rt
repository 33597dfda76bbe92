// What holds of the items, the entries and the documents of every id.
ghost use Rattle.std.specs.Prelude.{◌≡◌, ◌≤◌, ℕ, List, [], Some, None, IsSome, flat_map, take};
ghost use Rattle.std.specs.Option.{option_and_then};
ghost use Rattle.nuget_version.specs.Printed.{key_text};
ghost use Rattle.nuget_version.specs.declared.version.Version.{Version};
ghost use Rattle.pkg_meta.specs.Catalog.{Catalog};
ghost use Rattle.pkg_meta.specs.Lawful.{IsLawful, Placed, last_of};
ghost use Rattle.pkg_meta.specs.declared.commit.Commit.{Commit};
ghost use Rattle.fold_core.specs.Docs.{id_doc, owner};
ghost use Rattle.pkg_meta.specs.Entries.{AreRising};
ghost use Rattle.fold_core.specs.Entries.{Keeps, entries_of, entry_of, find_entry};
ghost use Rattle.fold_core.specs.Items.{commits_of, items_in, items_of, last_placed, moment_in, number_in, touched, touched_at, touched_stamp};
ghost use Rattle.fold_core.specs.Laws.{AreAfterOrigins, CarriesOn, ChangesOneVersion, IsWhole};
ghost use Rattle.fold_core.specs.Places.{applied};
ghost use Rattle.pkg_meta.specs.declared.entry.Entry.{Entry};

use crate::Hive;

/// The number of the last of the first k commits that has an item of an id: it is at most k, it never
/// falls, and it stays where no item comes. It does nothing.
pub fn touched_rises()
    ensures within { (cs : List Commit) (key : List ℕ) (k : ℕ) → touched_at cs key k ≤ k }
    ensures rises { (cs : List Commit) (key : List ℕ) (j k : ℕ) → j ≤ k → touched_at cs key j ≤ touched_at cs key k }
    ensures stays { (cs : List Commit) (key : List ℕ) (j k : ℕ) → j ≤ k → touched_at cs key k ≤ j
        → touched_at cs key j ≡ touched_at cs key k }
{}

/// In a lawful catalog that number and its commit's stamp are those of the id's last item. It does nothing.
pub fn touched_is_last()
    ensures number { (cs : Catalog) (key : List ℕ) → IsLawful cs
        → touched (commits_of cs) key ≡ number_in (last_placed (items_of (commits_of cs) key)) }
    ensures stamp { (cs : Catalog) (key : List ℕ) → IsLawful cs
        → touched_stamp (commits_of cs) key ≡ moment_in (last_placed (items_of (commits_of cs) key)) }
{}

/// Two prefixes between which no item of an id stands have the same items of it, and commits without an
/// item of it have none. It does nothing.
pub fn items_follow_numbers()
    ensures same { (cs : List Commit) (key : List ℕ) (j k : ℕ) → j ≤ k → touched_at cs key k ≤ j
        → items_of (take j cs) key ≡ items_of (take k cs) key }
    ensures none { (cs : List Commit) (key : List ℕ) → touched cs key ≡ 0 → items_of cs key ≡ [] }
{}

/// Entries are in strictly rising precedence, and the entry of a version is that of the last item of the
/// id and the version, where that is of details that the hive keeps. It does nothing.
pub fn entries_are_last()
    ensures rising { (keeps : Keeps) (items : List Placed) → AreRising (entries_of keeps items) }
    ensures last { (keeps : Keeps) (cs : List Commit) (key : List ℕ) (v : Version)
        → find_entry v (entries_of keeps (items_of cs key))
        ≡ option_and_then (entry_of keeps) (last_of key (key_text v) (flat_map items_in cs)) }
{}

/// An item that is applied to rising entries changes the entry of its version alone, and they stay rising.
/// It does nothing.
pub fn items_change_versions()
    ensures rising { (keeps : Keeps) (es : List Entry) (x : Placed) → AreRising es → AreRising (applied keeps es x) }
    ensures one { (keeps : Keeps) (es : List Entry) (x : Placed) → AreRising es → ChangesOneVersion keeps es x }
{}

/// The items of an id behind the first k commits, applied in order to the entries after these commits,
/// give the entries after all. It does nothing.
pub fn entries_carry_on()
    ensures { (keeps : Keeps) (cs : List Commit) (key : List ℕ) (k : ℕ) → CarriesOn keeps cs key k }
{}

/// In a lawful catalog no entry's publish is after the entry's own item, and that isn't after the last
/// commit with an item of the id. It does nothing.
pub fn origins_are_earlier()
    ensures { (keeps : Keeps) (cs : Catalog) (key : List ℕ) → IsLawful cs
        → AreAfterOrigins (touched (commits_of cs) key) (entries_of keeps (items_of (commits_of cs) key)) }
{}

/// A hive's documents change only with an item of their id, without an item there are none, and the id
/// owns their names. It does nothing.
pub fn documents_follow_items<H: Hive>()
    ensures same { (base : List ℕ) (cs : Catalog) (key : List ℕ) (j k : ℕ) → IsLawful cs → j ≤ k
        → touched_at (commits_of cs) key k ≤ j → (name : List ℕ)
        → id_doc H.keeps H.makes base (take j cs) key name ≡ id_doc H.keeps H.makes base (take k cs) key name }
    ensures none { (base : List ℕ) (cs : Catalog) (key : List ℕ) → touched (commits_of cs) key ≡ 0
        → (name : List ℕ) → id_doc H.keeps H.makes base cs key name ≡ None }
    ensures owned { (base : List ℕ) (cs : Catalog) (key : List ℕ) → IsWhole key → (name : List ℕ)
        → IsSome (id_doc H.keeps H.makes base cs key name) → owner name ≡ Some key }
{}
