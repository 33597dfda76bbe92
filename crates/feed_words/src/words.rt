// Plain words and options.
ghost use Rattle.std.specs.Prelude.{◌≡◌, ◌∷◌, ◌++◌, ℕ, List, codes, IfOk, IfSome, IfNone, not, option_map, string_bytes};
ghost use Rattle.feed_words.specs.Words.{begins_plain, given, given_in, is_option, options_in, plain_in, texts, value_of};

use feed_base::NoMemory;
use std::alloc::Global;

/// What the words of a command give.
#[derive(Drop)]
pub struct Words {
    /// The words that don't begin with `-`, in their order, but for the second of an option.
    pub plain: Vec<String>,
    /// The text of the option `--base`.
    pub base: Option<String>,
}

impl Words {
    /// The text of the option `--base`, where it is given.
    pub fn base(&self) -> Option<&str>
        ensures { option_map (λ t. t.now) result ≡ (given self.now).base }
    {
        match &self.base {
            Some(base) => Some(base.as_str()),
            None => None,
        }
    }
}

// Whether a word isn't plain.
fn is_option(word: &str) -> bool
    ensures { result ≡ is_option word.now }
{
    word.starts_with("-")
}

// The text of an option.
fn value_of(option: &str) -> Option<&str>
    ensures { option_map (λ t. t.now) result ≡ value_of option.now }
{
    option.strip_prefix("--base=")
}

// The text of an option of two words at the beginning, and the words behind it.
fn option_of_two(words: &[String]) -> Option<(&str, &[String])>
    ensures some { IfSome result (λ p. texts words.now ≡ codes "--base" ∷ p.0.now ∷ texts p.1.now) }
    ensures none { IfNone result ((value : List ℕ) (rest : List (List ℕ)) → texts words.now ≡ codes "--base" ∷ value ∷ rest → ⊥) }
{
    match words {
        [word, value, rest @ ..] if word.as_str() == "--base" => Some((value.as_str(), rest)),
        _ => None,
    }
}

// An option of two words as one.
fn as_one(alloc: Global, value: &str) -> Result<String, NoMemory>
    ensures { IfOk result (λ word. string_bytes word ≡ codes "--base=" ++ value.now) }
{
    Ok(format!(in alloc; "--base={value}")?)
}

// The options and the plain words, of words in which an option may stand as two.
fn part(alloc: Global, words: &[String]) -> Result<(Vec<String>, Vec<String>), NoMemory>
    ensures options { IfOk result (λ p. texts p.0.items ≡ options_in (texts words.now)) }
    ensures plain { IfOk result (λ p. texts p.1.items ≡ plain_in (texts words.now)) }
{
    let mut options = Vec::new(alloc);
    let mut plain = Vec::new(alloc);
    let mut rest = words;
    while let [word, behind @ ..] = rest {
        if let Some((value, more)) = option_of_two(rest) {
            options.push(as_one(alloc, value)?)?;
            rest = more;
            continue;
        }
        let text = word.as_str();
        let copy = String::from_str(alloc, text)?;
        if is_option(text) {
            options.push(copy)?;
        } else {
            plain.push(copy)?;
        }
        rest = behind;
    }
    Ok((options, plain))
}

// Whether an option stands before the command's word.
fn begins_with_option(words: &[String]) -> bool
    ensures { result ≡ not (begins_plain (texts words.now)) }
{
    match words {
        [word, ..] => is_option(word.as_str()),
        _ => false,
    }
}

/// What the words of a command give, its own word among them. There is one option, `--base=<text>` or `--base <text>`,
/// which stands anywhere behind the command's word, once. Nothing, where another word begins with `-`, `-` and `--` among
/// them, or an option stands twice, before the command's word or without a text behind it.
pub fn read_words(alloc: Global, words: &[String]) -> Result<Option<Words>, NoMemory>
    ensures { IfOk result (λ found. option_map given found ≡ given_in (texts words.now)) }
{
    if begins_with_option(words) {
        return Ok(None);
    }
    let (options, plain) = part(alloc, words)?;
    match options.as_slice() {
        [] => Ok(Some(Words { plain, base: None })),
        [option] => match value_of(option.as_str()) {
            Some(value) => Ok(Some(Words {
                plain,
                base: Some(String::from_str(alloc, value)?),
            })),
            None => Ok(None),
        },
        _ => Ok(None),
    }
}
