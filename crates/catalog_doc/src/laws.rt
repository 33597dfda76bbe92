// What holds of the documents of every catalog.
ghost use Rattle.std.specs.Prelude.{◌≡◌, ◌⊎◌, ◌++◌, ◌∷◌, ◌<◌, ◌≤◌, ◌-◌, ℕ, List, [], None, IsUtf8, codes, length};
ghost use Rattle.std.specs.FinMap.{empty, get};
ghost use Rattle.blob_store.specs.Area.{Area, with_blob};
ghost use Rattle.blob_store.specs.Runs.{after_calls, IsAfterSome};
ghost use Rattle.pkg_meta.specs.Catalog.{Catalog};
ghost use Rattle.pkg_meta.specs.declared.commit.Stored.{Stored};
ghost use Rattle.catalog_doc.specs.CatDocs.{all_rows, doc_at, pages_of};
ghost use Rattle.catalog_doc.specs.Catalogs.{IsCatalog};
ghost use Rattle.catalog_doc.specs.Commits.{commit_puts};
ghost use Rattle.catalog_doc.specs.Documents.{index_text};
ghost use Rattle.catalog_doc.specs.Laws.{FitsOnePage, HaveSamePages, IsElsewhere, IsInRange};
ghost use Rattle.catalog_doc.specs.Names.{index_name, page_name};
ghost use Rattle.catalog_doc.specs.Spelled.{HoldsIndex, SpellsCatalog};

/// A commit changes the index, one page and leaves of its own, and no other document, in catalogs of
/// every length. It does nothing.
pub fn one_page_changes()
    ensures { (base : List ℕ) (cs : Catalog) (c : Stored) (name : List ℕ) → IsElsewhere cs c name
        → doc_at base (cs ++ c ∷ []) name ≡ doc_at base cs name }
{}

/// Catalogs with the same pages have the same rows, for catalogs of one page at the most where their
/// first page is the same; and those with the same index stand at one base address. It does nothing.
pub fn different_catalogs()
    ensures rows { (base other : List ℕ) (cs ds : Catalog) → FitsOnePage cs → FitsOnePage ds
        → doc_at base cs (page_name 0) ≡ doc_at other ds (page_name 0) → all_rows cs ≡ all_rows ds }
    ensures pages { (base other : List ℕ) (cs ds : Catalog) → IsInRange cs → IsInRange ds
        → HaveSamePages base other cs ds → all_rows cs ≡ all_rows ds }
    ensures base { (base other : List ℕ) (cs ds : Catalog) → FitsOnePage cs → FitsOnePage ds
        → doc_at base cs index_name ≡ doc_at other ds index_name → base ≡ other }
    ensures any_base { (base other : List ℕ) (cs ds : Catalog) → IsInRange cs → IsInRange ds
        → doc_at base cs index_name ≡ doc_at other ds index_name → base ≡ other }
{}

/// Each prefix of a catalog is one. It does nothing.
pub fn prefixes_are_catalogs()
    ensures { (cs rest : Catalog) → IsCatalog (cs ++ rest) → IsCatalog cs }
{}

/// The index of no commits alone spells the catalog of none. The puts of a commit lead an area that spells a catalog, whose index doesn't lag, to one that spells it with the
/// commit; and each prefix of the puts to one that spells one of these two. It does nothing.
pub fn commits_are_spelled()
    ensures none { (base : List ℕ) → IsUtf8 base → SpellsCatalog (with_blob index_name (index_text base []) empty) base [] }
    ensures whole { (m : Area) (base : List ℕ) (cs : Catalog) (c : Stored) → IsCatalog (cs ++ c ∷ []) → SpellsCatalog m base cs → HoldsIndex m base cs
        → SpellsCatalog (after_calls (commit_puts base cs c) m) base (cs ++ c ∷ []) × HoldsIndex (after_calls (commit_puts base cs c) m) base (cs ++ c ∷ []) }
    ensures prefixes { (m : Area) (base : List ℕ) (cs : Catalog) (c : Stored) → IsCatalog (cs ++ c ∷ []) → SpellsCatalog m base cs → HoldsIndex m base cs
        → (left : Area) → IsAfterSome (commit_puts base cs c) m left → SpellsCatalog left base cs ⊎ SpellsCatalog left base (cs ++ c ∷ []) }
{}

/// No catalog is spelled by an area with a foreign name, without the last page, or with an index that is two commits
/// behind. It does nothing.
pub fn strangers_are_not_spelled()
    ensures foreign { (m : Area) (bytes base : List ℕ) (cs : Catalog) → SpellsCatalog (with_blob (codes "notes.txt") bytes m) base cs → ⊥ }
    ensures page { (m : Area) (base : List ℕ) (cs : Catalog) → IsCatalog cs → 0 < length cs
        → get m (page_name (length (pages_of cs) - 1)) ≡ None → SpellsCatalog m base cs → ⊥ }
    ensures index { (m : Area) (base : List ℕ) (cs : Catalog) → IsCatalog cs → 2 ≤ length cs → HoldsIndex m base []
        → SpellsCatalog m base cs → ⊥ }
{}
