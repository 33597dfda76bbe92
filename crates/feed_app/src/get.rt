// The command `get`.
ghost use Rattle.std.specs.Prelude.{◌≡◌, ◌⊎◌, ◌∷◌, [], ℕ, List, Option, None, Some, option_map, true};
ghost use Rattle.std.specs.FinMap as map;
ghost use Rattle.std.specs.Option.{is_some};
ghost use Rattle.blob_store.specs.Area.{Area};
ghost use Rattle.blob_store.specs.Events.{Get};
ghost use Rattle.feed_base.specs.Counts.{HasRisen};
ghost use Rattle.pkg_meta.specs.declared.commit.Stored.{Stored};
ghost use Rattle.catalog_doc.specs.CatDocs.{doc_at};
ghost use Rattle.catalog_core.specs.Framing.{StaysOpen, doc_gets};
ghost use Rattle.catalog_core.specs.Opened.{IsOpenFor, IsReady};
ghost use Rattle.feed_routes.specs.Cuts.{target_path};
ghost use Rattle.feed_routes.specs.Index.{service_index_text};
ghost use Rattle.feed_app.specs.declared.hives.ServedHive.{ServedHive};
ghost use Rattle.feed_app.specs.Calls.{RunsBehind};
ghost use Rattle.feed_app.specs.Causes.{IfCatalogDamaged};
ghost use Rattle.feed_app.specs.Frame.{IsDone, KeepsArea};
ghost use Rattle.feed_app.specs.Gets.{IsOfCatalog, OfDocument, OfHive, AnswersPath, asked_under, get_meaning};
ghost use Rattle.feed_app.specs.Hives.{KeepsOthers, by_hive, hive_area};
ghost use Rattle.feed_app.specs.Outside.{AreaRose, Stream, held, over};
ghost use Rattle.feed_app.specs.Spelled.{IsOpenAs};
ghost use Rattle.feed_app.specs.Targets.{IsCatalogPath, IsHivePath};

use crate::answer::Answer;
use crate::hives::{ServedHive, hive_name};
use crate::target::{Target, target_of};
use admin_wire::{AreaName, Line, Refusal};
use blob_store::{BlobErr, Blobs, get_one};
use catalog_core::{Catalog, Stores, open_catalog};
use feed_routes::service_index;
use pkg_meta::NoMemory;
use std::alloc::Global;

// The catalog's document of this name.
fn catalog_document<B: Blobs>(alloc: Global, catalog: &mut Catalog<B>, name: &str) -> Answer
    ensures kind { IsOfCatalog result }
    ensures is { (cs : List Stored) → IsOpenFor catalog.old (B.seen catalog.old.area) cs → OfDocument result (doc_at catalog.old.base cs name.now) }
    ensures stays { StaysOpen catalog.old catalog.new (B.seen catalog.old.area) (B.seen catalog.new.area)
        (result ≡ Answer.Reply (Line.Fault AreaName.Catalog)) }
    ensures other { (hive : ServedHive) → result ≡ Answer.Reply (Line.Fault (hive_area hive)) → ⊥ }
    ensures runs { (cs : List Stored) → IsReady catalog.old (B.seen catalog.old.area) cs
        → RunsBehind [] (doc_gets (is_some (doc_at catalog.old.base cs name.now)) name.now) result (B.seen catalog.old.area) (B.seen catalog.new.area) }
    ensures absent { catalog.old.settled ≡ true → (m later : Area) → (B.seen catalog.old.area).held ≡ Some m
        → (B.seen catalog.new.area).held ≡ Some later → IfCatalogDamaged result (λ blob. map.get later blob ≡ None) }
{
    match catalog.doc(alloc, name) {
        Ok(Some(bytes)) => Answer::Document(bytes),
        Ok(None) => Answer::Reply(Line::Refused(Refusal::Missing)),
        Err(error) => Answer::of_catalog_read(error),
    }
}

// The service index of this base address.
fn index_document(alloc: Global, base: &str) -> Answer
    ensures { (result ≡ Answer.Document (service_index_text base.now)) ⊎ (result ≡ Answer.Reply Line.Memory) }
{
    match service_index(alloc, base) {
        Ok(bytes) => Answer::Document(bytes),
        Err(NoMemory) => Answer::Reply(Line::Memory),
    }
}

// The document of this name in the hive's area.
fn hive_document<B: Blobs>(alloc: Global, area: &mut B, hive: ServedHive, name: &str) -> Answer
    ensures is { OfHive hive result name.now (B.seen area.old).held }
    ensures cause { result ≡ Answer.Reply (Line.Fault (hive_area hive)) → HasRisen (B.seen area.old).faults (B.seen area.new).faults }
    ensures runs { RunsBehind [] (Get name.now ∷ []) result (B.seen area.old) (B.seen area.new) }
    ensures same { (B.seen area.new).held ≡ (B.seen area.old).held }
{
    match get_one(alloc, area, name) {
        Ok(Some(bytes)) => Answer::Document(bytes),
        Ok(None) => Answer::Reply(Line::Refused(Refusal::Missing)),
        Err(BlobErr::Failed) => Answer::Reply(Line::Fault(AreaName::Hive(hive_name(hive)))),
        Err(BlobErr::Memory) => Answer::Reply(Line::Memory),
    }
}

// The document of this name in the area of this hive, which is one of the three.
fn from_hive<B: Blobs>(
    alloc: Global,
    plain: &mut B,
    semver2: &mut B,
    content: &mut B,
    hive: ServedHive,
    name: &str,
) -> Answer
    ensures is { OfHive hive result name.now (held B.Blobs (by_hive plain.old semver2.old content.old hive)) }
    ensures cause { result ≡ Answer.Reply (Line.Fault (hive_area hive))
        → AreaRose B.Blobs (by_hive plain.old semver2.old content.old hive) (by_hive plain.new semver2.new content.new hive) }
    ensures runs { RunsBehind [] (Get name.now ∷ []) result (B.seen (by_hive plain.old semver2.old content.old hive))
        (B.seen (by_hive plain.new semver2.new content.new hive)) }
    ensures same { held B.Blobs (by_hive plain.new semver2.new content.new hive) ≡ held B.Blobs (by_hive plain.old semver2.old content.old hive) }
    ensures others { KeepsOthers hive (by_hive plain.old semver2.old content.old) (by_hive plain.new semver2.new content.new) }
{
    match hive {
        ServedHive::Plain => hive_document(alloc, plain, hive, name),
        ServedHive::SemVer2 => hive_document(alloc, semver2, hive, name),
        ServedHive::Content => hive_document(alloc, content, hive, name),
    }
}

// What the path names, of an open catalog and the areas of the hives.
fn document<B: Blobs>(
    alloc: Global,
    catalog: &mut Catalog<B>,
    plain: &mut B,
    semver2: &mut B,
    content: &mut B,
    path: &str,
) -> Answer
    ensures is { AnswersPath B.Blobs result path.now (IsOpenAs catalog.old (B.seen catalog.old.area))
        (by_hive plain.old semver2.old content.old) (by_hive plain.new semver2.new content.new) }
    ensures stays { StaysOpen catalog.old catalog.new (B.seen catalog.old.area) (B.seen catalog.new.area)
        (result ≡ Answer.Reply (Line.Fault AreaName.Catalog)) }
    ensures hive_cause { (hive : ServedHive) → result ≡ Answer.Reply (Line.Fault (hive_area hive))
        → AreaRose B.Blobs (by_hive plain.old semver2.old content.old hive) (by_hive plain.new semver2.new content.new hive) }
    ensures document { (cs : List Stored) (name : List ℕ) → IsReady catalog.old (B.seen catalog.old.area) cs → IsCatalogPath path.now name
        → RunsBehind [] (doc_gets (is_some (doc_at catalog.old.base cs name)) name) result (B.seen catalog.old.area) (B.seen catalog.new.area) }
    ensures alone { ((name : List ℕ) → IsCatalogPath path.now name → ⊥) → catalog.new ≡ catalog.old }
    ensures absent { catalog.old.settled ≡ true → (m later : Area) → (B.seen catalog.old.area).held ≡ Some m
        → (B.seen catalog.new.area).held ≡ Some later → IfCatalogDamaged result (λ blob. map.get later blob ≡ None) }
    ensures asks { (hive : ServedHive) (name : List ℕ) → IsHivePath hive path.now name → RunsBehind [] (Get name ∷ []) result
        (B.seen (by_hive plain.old semver2.old content.old hive)) (B.seen (by_hive plain.new semver2.new content.new hive)) }
    ensures keeps { (hive : ServedHive) → KeepsArea B.Blobs (asked_under (target_path path.now) hive)
        (by_hive plain.old semver2.old content.old hive) (by_hive plain.new semver2.new content.new hive) }
{
    match target_of(alloc, path) {
        Ok(Target::Index) => index_document(alloc, catalog.base()),
        Ok(Target::Catalog(name)) => catalog_document(alloc, catalog, name.as_str()),
        Ok(Target::Hive(hive, name)) => {
            from_hive(alloc, plain, semver2, content, hive, name.as_str())
        }
        Ok(Target::Served) => Answer::Reply(Line::Refused(Refusal::Served)),
        Ok(Target::Unknown) => Answer::Reply(Line::Refused(Refusal::Missing)),
        Err(NoMemory) => Answer::Reply(Line::Memory),
    }
}

/// Opens the catalog, for a base address that is given, if any, and gives the document that the path names.
pub(crate) fn get<B: Blobs>(
    alloc: Global,
    stores: Stores<B>,
    base: Option<&str>,
    path: &str,
) -> (Answer, Stores<B>)
    ensures { (input : Stream) (clock : Option (List ℕ))
        → IsDone B.Blobs (get_meaning B.Blobs path.now) (over (option_map (λ t. t.now) base.entry) stores input clock) result.0
        (over (option_map (λ t. t.now) base.entry) result.1 input clock) }
{
    let mut stores = stores;
    match open_catalog(alloc, stores.catalog, base) {
        Ok(catalog) => {
            let mut catalog = catalog;
            let answer = document(
                alloc,
                &mut catalog,
                &mut stores.plain,
                &mut stores.semver2,
                &mut stores.content,
                path,
            );
            stores.catalog = catalog.into_area();
            (answer, stores)
        }
        Err((error, area)) => {
            stores.catalog = area;
            (Answer::of_opening(error), stores)
        }
    }
}
