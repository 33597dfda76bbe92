// What the words of a command mean.
ghost use Rattle.std.specs.Prelude.{◌≡◌, ◌≢◌, ◌≤◌, ◌∷◌, [], ℕ, List, length, map, option_map, string_bytes, IfOk, IfSome, IfNone};
ghost use Rattle.feed_words.specs.Words.{given};
ghost use Rattle.feed_app.specs.Hives.{hive_by_word};
ghost use Rattle.feed_app.specs.Commands.{Job, Cursor, init_with, is_init, may_give, name_kind, of_one_word, of_two_words, of_given, of_more_words, of_plain, asked};
ghost use Rattle.feed_words.specs.Words.{texts};

use crate::hives::hive_by_word;
use admin_wire::NameKind;
use feed_routes::base_ok;
use feed_words::Words;
use fold_core::HiveName;
use pkg_meta::NoMemory;
use std::alloc::Global;

/// What the words of a command ask for.
#[derive(Clone, Copy)]
pub enum Command<'a> {
    /// Make the catalog of no commits at this base address.
    Init(&'a str),
    /// Commit the publish that the input holds.
    Publish,
    /// Commit what is asked for the versions that these words name, by pairs of an id and a version.
    Names(NameKind, &'a [String]),
    /// Make a round of this hive.
    Job(HiveName),
    /// Tell the number of this hive's cursor.
    Cursor(HiveName),
    /// Give the document that this path names.
    Get(&'a str),
}

// The word, where it is one.
fn one_word(words: &[String]) -> Option<&str>
    ensures some { IfSome result (λ w. map string_bytes words.now ≡ w.now ∷ []) }
    ensures none { IfNone result ((word : List ℕ) → map string_bytes words.now ≡ word ∷ [] → ⊥) }
{
    match words {
        [word] => Some(word.as_str()),
        _ => None,
    }
}

// The words, where they are two.
fn two_words(words: &[String]) -> Option<(&str, &str)>
    ensures some { IfSome result (λ p. map string_bytes words.now ≡ p.0.now ∷ p.1.now ∷ []) }
    ensures none { IfNone result ((first second : List ℕ) → map string_bytes words.now ≡ first ∷ second ∷ [] → ⊥) }
{
    match words {
        [first, second] => Some((first.as_str(), second.as_str())),
        _ => None,
    }
}

// What one word means.
fn meaning_of_one<'a>(word: &str) -> Option<Command<'a>>
    ensures { option_map asked result ≡ of_one_word word.now }
{
    match word {
        "publish" => Some(Command::Publish),
        _ => None,
    }
}

// What `init` with this word means.
fn init_at(alloc: Global, base: &str) -> Result<Option<Command<'_>>, NoMemory>
    ensures { IfOk result (λ found. option_map asked found ≡ init_with base.now) }
{
    if base_ok(alloc, base)? {
        Ok(Some(Command::Init(base)))
    } else {
        Ok(None)
    }
}

// What `job` with this word means.
fn job_of(word: &str) -> Option<Command<'_>>
    ensures { option_map asked result ≡ option_map Job (hive_by_word word.now) }
{
    match hive_by_word(word) {
        Some(hive) => Some(Command::Job(hive)),
        None => None,
    }
}

// What `cursor` with this word means.
fn cursor_of(word: &str) -> Option<Command<'_>>
    ensures { option_map asked result ≡ option_map Cursor (hive_by_word word.now) }
{
    match hive_by_word(word) {
        Some(hive) => Some(Command::Cursor(hive)),
        None => None,
    }
}

// What two words mean.
fn meaning_of_two<'a>(
    alloc: Global,
    word: &str,
    object: &'a str,
) -> Result<Option<Command<'a>>, NoMemory>
    ensures { IfOk result (λ found. option_map asked found ≡ of_two_words word.now object.now) }
{
    match word {
        "init" => init_at(alloc, object),
        "job" => Ok(job_of(object)),
        "cursor" => Ok(cursor_of(object)),
        "get" => Ok(Some(Command::Get(object))),
        _ => Ok(None),
    }
}

// What is asked for the versions that are named behind this word.
fn name_kind(word: &str) -> Option<NameKind>
    ensures { result ≡ name_kind word.now }
{
    match word {
        "unlist" => Some(NameKind::Unlist),
        "list" => Some(NameKind::Relist),
        "delete" => Some(NameKind::Delete),
        _ => None,
    }
}

// The first word and those behind it, where they are three or more.
fn more_words(words: &[String]) -> Option<(&str, &[String])>
    ensures some { IfSome result (λ p. (map string_bytes words.now ≡ p.0.now ∷ map string_bytes p.1.now) × (2 ≤ length p.1.now)) }
    ensures none { IfNone result (length words.now ≤ 2) }
{
    match words {
        [word, names @ ..] if names.len() >= 2 => Some((word.as_str(), names)),
        _ => None,
    }
}

// What a word means that has two or more behind it.
fn meaning_of_more<'a>(word: &str, names: &'a [String]) -> Option<Command<'a>>
    ensures { option_map asked result ≡ of_more_words word.now (texts names.now) }
{
    if names.len() % 2 != 0 {
        return None;
    }
    Some(Command::Names(name_kind(word)?, names))
}

// What plain words mean.
fn meaning_of_plain(alloc: Global, words: &[String]) -> Result<Option<Command<'_>>, NoMemory>
    ensures { IfOk result (λ found. option_map asked found ≡ of_plain (texts words.now)) }
{
    if let Some(word) = one_word(words) {
        return Ok(meaning_of_one(word));
    }
    if let Some((word, object)) = two_words(words) {
        return meaning_of_two(alloc, word, object);
    }
    match more_words(words) {
        Some((word, names)) => Ok(meaning_of_more(word, names)),
        None => Ok(None),
    }
}

// Whether it is `init`.
fn is_init(command: Command<'_>) -> bool
    ensures { result ≡ is_init (asked command.entry) }
{
    match command {
        Command::Init(_) => true,
        Command::Publish
        | Command::Names(_, _)
        | Command::Job(_)
        | Command::Cursor(_)
        | Command::Get(_) => false,
    }
}

// Whether a command may be given this base address; `init` may be given none.
fn may_give(alloc: Global, base: Option<&str>, init: bool) -> Result<bool, NoMemory>
    ensures { IfOk result (λ may. may ≡ may_give (option_map (λ t. t.now) base.entry) init) }
{
    match base {
        None => Ok(true),
        Some(base) if !init => base_ok(alloc, base),
        Some(_) => Ok(false),
    }
}

/// What the words of a command mean, and nothing where they have no meaning. Every command but `init` may be given a base
/// address.
pub fn meaning_of(alloc: Global, words: &Words) -> Result<Option<Command<'_>>, NoMemory>
    ensures { IfOk result (λ found. option_map asked found ≡ of_given (given words.now)) }
{
    let Some(command) = meaning_of_plain(alloc, &words.plain)? else {
        return Ok(None);
    };
    if may_give(alloc, words.base(), is_init(command))? {
        Ok(Some(command))
    } else {
        Ok(None)
    }
}
