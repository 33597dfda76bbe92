// What holds of every catalog, of its commits and of its values.
ghost use Rattle.std.specs.Prelude.{◌≡◌, ◌≢◌, ◌⊎◌, ◌<◌, ◌≤◌, ◌++◌, ◌∷◌, ℕ, List, [], length, All, Ok, Err};
ghost use Rattle.blob_store.specs.Area.{Area};
ghost use Rattle.blob_store.specs.Runs.{after_calls, IsAfterSome};
ghost use Rattle.nuget_version.specs.declared.version.Version.{Version};
ghost use Rattle.package_id.specs.declared.id.PackageId.{PackageId};
ghost use Rattle.pkg_meta.specs.Catalog.{Catalog};
ghost use Rattle.pkg_meta.specs.Lawful.{IsFree};
ghost use Rattle.pkg_meta.specs.declared.commit.Stored.{Stored};
ghost use Rattle.pkg_meta.specs.declared.meta.Meta.{Meta};
ghost use Rattle.catalog_doc.specs.CatDocs.{all_rows, heads_of};
ghost use Rattle.catalog_doc.specs.Catalogs.{all_items, IsCatalog, live_count};
ghost use Rattle.catalog_doc.specs.Commits.{commit_puts, last_changed, made};
ghost use Rattle.catalog_doc.specs.Laws.{IsInRange};
ghost use Rattle.catalog_doc.specs.Reading.{AreHeadValues, AreRowValues};
ghost use Rattle.catalog_doc.specs.Spelled.{HoldsIndex, SpellsCatalog};
ghost use Rattle.catalog_doc.specs.Verdict.{verdict};
ghost use Rattle.catalog_doc.specs.declared.change.Change.{Change};
ghost use Rattle.catalog_doc.specs.declared.change.Change.TheVariants.{Publish, Unlist, Relist, Delete};
ghost use Rattle.catalog_doc.specs.declared.error.CommitErr.TheVariants as the;
ghost use Rattle.catalog_laws.specs.Onto.{IsCommitOnto};
ghost use Rattle.catalog_laws.specs.Values.{HasLengths, HaveItemValues, HavePackageSizes, IsFilled};
ghost use Rattle.catalog_laws.specs.Worked.{AreInTime, IsChangeOf, IsLetOn, one_publish, with_change};

/// No commits are a catalog. The verdict's commit is the one that the changes make, and a catalog stays one with it: lists of 1 to 64
/// changes of all kinds. It does nothing.
pub fn commits_are_lawful()
    ensures none { IsCatalog [] }
    ensures made { (cs : Catalog) (changes : List Change) (now : ℕ) (c : Stored) → verdict cs changes now ≡ Ok c → c ≡ made cs changes now }
    ensures kept { (cs : Catalog) (changes : List Change) (now : ℕ) (c : Stored) → IsCommitOnto cs changes now c → IsCatalog (cs ++ c ∷ []) }
{}

/// The rows, the heads and the items of a catalog are of the code's types, and so are the sizes of its packages. It has at most
/// 200,000 commits, rows and pages, each page with 1 to 512 items. It does nothing.
pub fn catalogs_have_values()
    ensures rows { (cs : Catalog) → IsCatalog cs → AreRowValues (all_rows cs) }
    ensures heads { (cs : Catalog) → IsCatalog cs → AreHeadValues (heads_of cs) }
    ensures items { (cs : Catalog) → IsCatalog cs → HaveItemValues cs }
    ensures sizes { (cs : Catalog) → IsCatalog cs → HavePackageSizes cs }
    ensures range { (cs : Catalog) → IsCatalog cs → IsInRange cs }
    ensures lengths { (cs : Catalog) → IsCatalog cs → HasLengths cs }
    ensures pages { (cs : Catalog) → IsCatalog cs → All IsFilled (heads_of cs) }
{}

/// The puts of the verdict's commit lead an area that spells a catalog, whose index doesn't lag, to one that spells it with the
/// commit; and each prefix of them to one that spells one of these two. It does nothing.
pub fn commits_lead_on()
    ensures whole { (m : Area) (base : List ℕ) (cs : Catalog) (changes : List Change) (now : ℕ) (c : Stored) → IsCommitOnto cs changes now c
        → SpellsCatalog m base cs → HoldsIndex m base cs
        → SpellsCatalog (after_calls (commit_puts base cs c) m) base (cs ++ c ∷ []) × HoldsIndex (after_calls (commit_puts base cs c) m) base (cs ++ c ∷ []) }
    ensures prefixes { (m : Area) (base : List ℕ) (cs : Catalog) (changes : List Change) (now : ℕ) (c : Stored) → IsCommitOnto cs changes now c
        → SpellsCatalog m base cs → HoldsIndex m base cs
        → (left : Area) → IsAfterSome (commit_puts base cs c) m left → SpellsCatalog left base cs ⊎ SpellsCatalog left base (cs ++ c ∷ []) }
{}

/// The verdict, computed: the first publish is taken; a list of no changes, a list with one change twice, a change of a version that isn't
/// there, and a publish of one that is aren't. It does nothing.
pub fn first_verdicts()
    ensures first { (meta : Meta) (nuspec nupkg : List ℕ) (now : ℕ) → IsLetOn [] (Publish meta nuspec nupkg) now }
    ensures empty { (cs : Catalog) (now : ℕ) → verdict cs [] now ≡ Err the.Empty }
    ensures twice { (cs : Catalog) (change : Change) (now : ℕ) → verdict cs (change ∷ change ∷ []) now ≡ Err (the.Twice 1) }
    ensures absent { (i : PackageId) (v : Version) (now : ℕ) → verdict [] (Delete i v ∷ []) now ≡ Err (the.Absent 0 0) }
    ensures exists { (meta other : Meta) (nuspec nupkg : List ℕ) (now later : ℕ) → IsChangeOf meta (Publish other nuspec nupkg)
        → verdict (one_publish meta now) (Publish other nuspec nupkg ∷ []) later ≡ Err (the.Exists 0 1) }
    ensures other { (meta : Meta) (i : PackageId) (v : Version) (now later : ℕ) → i.key ≢ meta.id.key
        → verdict (one_publish meta now) (Delete i v ∷ []) later ≡ Err (the.Absent 0 0) }
    ensures listed { (meta : Meta) (i : PackageId) (v : Version) (now later : ℕ) → IsChangeOf meta (Relist i v)
        → now ≤ 3_155_378_975_999_999_998 → verdict (one_publish meta now) (Relist i v ∷ []) later ≡ Err (the.Already 0 1) }
    ensures ended { (meta : Meta) (i : PackageId) (v : Version) (now later : ℕ) → IsChangeOf meta (Delete i v)
        → 3_155_378_975_999_999_999 ≤ now → verdict (one_publish meta now) (Delete i v ∷ []) later ≡ Err the.ClockEnd }
    ensures unlisted { (meta : Meta) (i : PackageId) (v : Version) (now later : ℕ) → IsChangeOf meta (Unlist i v)
        → now ≤ 3_155_378_975_999_999_998 → IsLetOn (one_publish meta now) (Unlist i v) later }
{}

/// And later: a version that was deleted isn't there, and may be published again; one that was unlisted may be relisted, and not
/// unlisted again. It does nothing.
pub fn later_verdicts()
    ensures gone { (meta : Meta) (i : PackageId) (v : Version) (now next later : ℕ) → IsChangeOf meta (Delete i v)
        → verdict (with_change (one_publish meta now) (Delete i v) next) (Delete i v ∷ []) later ≡ Err (the.Absent 0 2) }
    ensures again { (meta : Meta) (i : PackageId) (v : Version) (nuspec nupkg : List ℕ) (now next later : ℕ) → IsChangeOf meta (Delete i v)
        → AreInTime now next → IsLetOn (with_change (one_publish meta now) (Delete i v) next) (Publish meta nuspec nupkg) later }
    ensures hidden { (meta : Meta) (i : PackageId) (v : Version) (now next later : ℕ) → IsChangeOf meta (Unlist i v)
        → AreInTime now next → verdict (with_change (one_publish meta now) (Unlist i v) next) (Unlist i v ∷ []) later ≡ Err (the.Already 0 2) }
    ensures shown { (meta : Meta) (i : PackageId) (v : Version) (now next later : ℕ) → IsChangeOf meta (Unlist i v)
        → AreInTime now next → IsLetOn (with_change (one_publish meta now) (Unlist i v) next) (Relist i v) later }
{}

/// A list of more than 64 changes isn't taken, nor a publish of a free version where its id has 2,048 live ones, or the catalog 200,000
/// items. It does nothing.
pub fn verdicts_at_limits()
    ensures changes { (cs : Catalog) (changes : List Change) (now : ℕ) → 64 < length changes
        → verdict cs changes now ≡ Err (the.TooMany (length changes)) }
    ensures id { (cs : Catalog) (meta : Meta) (nuspec nupkg : List ℕ) (now : ℕ) → IsFree (last_changed cs (Publish meta nuspec nupkg))
        → 2_048 ≤ live_count meta.id.key (all_items cs) → verdict cs (Publish meta nuspec nupkg ∷ []) now ≡ Err (the.IdFull 0) }
    ensures items { (cs : Catalog) (meta : Meta) (nuspec nupkg : List ℕ) (now : ℕ) → IsFree (last_changed cs (Publish meta nuspec nupkg))
        → live_count meta.id.key (all_items cs) < 2_048 → 200_000 ≤ length (all_items cs)
        → verdict cs (Publish meta nuspec nupkg ∷ []) now ≡ Err (the.Full (length (all_items cs))) }
{}
