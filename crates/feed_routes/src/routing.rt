// What the method and the target of a request ask for.
ghost use Rattle.std.specs.Prelude.{◌≡◌, ◌≢◌, ◌++◌, ℕ, List, [], codes, IfErr, IfOk, MatchOption, Err};
ghost use Rattle.fold_core.specs.declared.hive.HiveName.{HiveName};
ghost use Rattle.http_wire.specs.declared.response.Verb.{Verb};
ghost use Rattle.feed_routes.specs.Names.{IsCatalogName, IsContentRest, IsRegistrationRest};
ghost use Rattle.feed_routes.specs.Roots.{IsFound, IsWhen};
ghost use Rattle.feed_routes.specs.Table.{AsksFor, HasRoute, IsUnknown, NeedsVerb, verb_of};
ghost use Rattle.http_wire.specs.Response.{verb_name};
ghost use Rattle.feed_routes.specs.declared.ask.Ask.{Ask};

use crate::ask::{Ask, CommitWord, RouteErr, name_of};
use crate::catalog_names::is_catalog_name;
use crate::hives::hive_named;
use crate::ids::{is_content_rest, is_registration_rest};
use crate::roots::Root;
use crate::router::find_root;
use crate::split::{after_prefix, at_query};
use fold_core::HiveName;
use http_wire::Verb;
use nuget_version::{NoMemory, Text};
use std::alloc::Global;

fn catalog_ask(alloc: Global, rest: &str) -> Result<Option<Ask>, NoMemory>
    ensures { IfOk result (IsWhen (IsCatalogName rest.now) (Ask.CatalogDoc rest.now)) }
{
    if is_catalog_name(rest) {
        Ok(Some(Ask::CatalogDoc(Text::copy_of(alloc, rest)?)))
    } else {
        Ok(None)
    }
}

// The name of a hive's document in its area.
fn area_name(alloc: Global, rest: &str) -> Result<Text, NoMemory>
    ensures { IfOk result (λ name. name ≡ codes "d/" ++ rest.now) }
{
    let mut name = String::with_capacity(alloc, rest.len() + 2)?;
    name.push_str("d/")?;
    name.push_str(rest)?;
    Ok(Text::of(name))
}

fn registration_ask(alloc: Global, hive: HiveName, rest: &str) -> Result<Option<Ask>, NoMemory>
    ensures { IfOk result (IsWhen (IsRegistrationRest rest.now) (Ask.Registration hive (codes "d/" ++ rest.now))) }
{
    if is_registration_rest(alloc, rest)? {
        Ok(Some(Ask::Registration(hive, area_name(alloc, rest)?)))
    } else {
        Ok(None)
    }
}

fn flat_ask(alloc: Global, rest: &str) -> Result<Option<Ask>, NoMemory>
    ensures { IfOk result (IsWhen (IsContentRest rest.now) (Ask.Flat (codes "d/" ++ rest.now))) }
{
    if is_content_rest(alloc, rest)? {
        Ok(Some(Ask::Flat(area_name(alloc, rest)?)))
    } else {
        Ok(None)
    }
}

fn job_ask(rest: &str) -> Option<Ask>
    ensures { (query : List ℕ) → IsFound Root.Job rest.now query result }
{
    match hive_named(rest) {
        Some(hive) => Some(Ask::Job(hive)),
        None => None,
    }
}

fn cursor_ask(rest: &str) -> Option<Ask>
    ensures { (query : List ℕ) → IsFound Root.Cursor rest.now query result }
{
    match hive_named(rest) {
        Some(hive) => Some(Ask::Cursor(hive)),
        None => None,
    }
}

// What is asked by a path that is the whole of a route.
fn whole(rest: &str, asked: Ask) -> Option<Ask>
    ensures { IsWhen (rest.now ≡ []) asked result }
{
    if rest.is_empty() { Some(asked) } else { None }
}

fn commit_ask(rest: &str, word: CommitWord) -> Option<Ask>
    ensures { IsWhen (rest.now ≡ []) (Ask.Commit word) result }
{
    whole(rest, Ask::Commit(word))
}

// What is asked by a path that begins with the root and has this behind it.
fn ask_behind(alloc: Global, root: Root, rest: &str, query: &str) -> Result<Option<Ask>, NoMemory>
    ensures { IfOk result (IsFound root rest.now query.now) }
{
    match root {
        Root::Index => Ok(whole(rest, Ask::Index)),
        Root::Catalog => catalog_ask(alloc, rest),
        Root::Plain => registration_ask(alloc, HiveName::Plain, rest),
        Root::SemVer2 => registration_ask(alloc, HiveName::SemVer2, rest),
        Root::Flat => flat_ask(alloc, rest),
        Root::Autocomplete => Ok(whole(rest, Ask::Autocomplete(Text::copy_of(alloc, query)?))),
        Root::Publish => Ok(commit_ask(rest, CommitWord::Publish)),
        Root::Unlist => Ok(commit_ask(rest, CommitWord::Unlist)),
        Root::Relist => Ok(commit_ask(rest, CommitWord::Relist)),
        Root::Delete => Ok(commit_ask(rest, CommitWord::Delete)),
        Root::Job => Ok(job_ask(rest)),
        Root::Cursor => Ok(cursor_ask(rest)),
        Root::Stop => Ok(whole(rest, Ask::Stop)),
    }
}

// What the path and the query ask for, under the path's method.
fn asked(alloc: Global, path: &str, query: &str) -> Result<Option<Ask>, NoMemory>
    ensures { IfOk result (λ found. MatchOption found ((asked : Ask) → AsksFor path.now query.now asked → ⊥) (AsksFor path.now query.now)) }
{
    let Some(root) = find_root(path) else {
        return Ok(None);
    };
    let Some(rest) = after_prefix(path, root.text()) else {
        return Ok(None);
    };
    ask_behind(alloc, root, rest, query)
}

// What is asked, where the method is that of the path.
fn by_method(method: &str, asked: Ask) -> Result<Ask, RouteErr>
    ensures ok { IfOk result (λ a. (a ≡ asked) × (method.now ≡ verb_name (verb_of asked))) }
    ensures err { IfErr result (λ e. (e ≡ RouteErr.Method (verb_of asked)) × (method.now ≢ verb_name (verb_of asked))) }
{
    let verb = asked.verb();
    if method == name_of(verb) {
        Ok(asked)
    } else {
        Err(RouteErr::Method(verb))
    }
}

/// What a request asks for. The target is cut at its first `?`, and its path isn't decoded. An id or a version in it has
/// to be its own key, and a number is without leading zeros. The name of a hive's document is that in the hive's area.
pub fn route(alloc: Global, method: &str, target: &str) -> Result<Ask, RouteErr>
    ensures ok { IfOk result (HasRoute method.now target.now) }
    ensures missing { result ≡ Err RouteErr.NotFound → IsUnknown target.now }
    ensures method { (verb : Verb) → result ≡ Err (RouteErr.Method verb) → NeedsVerb method.now target.now verb }
{
    let (path, query) = at_query(target);
    match asked(alloc, path, query)? {
        Some(asked) => by_method(method, asked),
        None => Err(RouteErr::NotFound),
    }
}
