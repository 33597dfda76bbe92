// Reading a version.
ghost use Rattle.std.specs.Prelude.{◌≡◌, ℕ, ◌≤◌, ◌<◌, ◌+◌, IfErr, IfNone, IfOk, IfSome, length};
ghost use Rattle.std.specs.Option.{ForSome};
ghost use Rattle.std.specs.Str.{IsAscii};
ghost use Rattle.std.specs.Fmt.{decimal};
ghost use Rattle.nuget_version.specs.Grammar.{Spells};
ghost use Rattle.nuget_version.specs.Parts.{full_of, marked, numbers_of};
ghost use Rattle.nuget_version.specs.Refusals.{IsRefused};
ghost use Rattle.nuget_version.specs.Walk.{IsFoundIn, behind_of};
ghost use Rattle.nuget_version.specs.declared.version.Version.{Version};

use crate::errors::VersionErr;
use crate::values::{NoMemory, Text};
use crate::version::Version;
use crate::walk::{Found, walk};
use std::alloc::Global;

// The most bytes of a version's text, and of its full form.
const MOST: usize = 64;

impl Version {
    /// Reads a version: one to four numbers joined by dots, where missing ones are 0 and leading
    /// zeros don't count, then labels behind `-`, then metadata behind `+` (SemVer 2.0.0, sections
    /// 9 and 10). A text and its full form have at most 64 bytes, a number is at most 2147483647.
    pub fn parse(alloc: Global, text: &str) -> Result<Version, VersionErr>
        ensures ok { IfOk result (λ v. Spells text.now v) }
        ensures refused { IfErr result (λ e. IsRefused text.now e) }
        ensures accepts { (v : Version) → Spells text.now v → IfErr result (λ e. e ≡ VersionErr.Memory) }
    {
        let found = checked(text)?;
        let labels = behind(text, found.dash, found.plus.unwrap_or(text.len()));
        let meta = behind(text, found.plus, text.len());
        let (major, minor) = (found.major.value, found.minor.value);
        let (patch, revision) = (found.patch.value, found.revision.value);
        if let Some(len) = too_long(major, minor, patch, revision, labels, meta) {
            return Err(VersionErr::TooLong(len as u64));
        }
        let labels = Text::copy_of(alloc, labels)?;
        let meta = Text::copy_of(alloc, meta)?;
        Ok(Version {
            major,
            minor,
            patch,
            revision,
            labels,
            meta,
        })
    }

    /// The version that a text spells, by the grammar of `parse`, and nothing where it spells none.
    pub fn read(alloc: Global, text: &str) -> Result<Option<Version>, NoMemory>
        ensures found { IfOk result (λ o. IfSome o (λ v. Spells text.now v)) }
        ensures none { IfOk result (λ o. IfNone o ((v : Version) → Spells text.now v → ⊥)) }
    {
        match Version::parse(alloc, text) {
            Ok(version) => Ok(Some(version)),
            Err(error) => match error {
                VersionErr::Memory => Err(NoMemory),
                _ => Ok(None),
            },
        }
    }
}

// The refusals that come before the full form's.
fn checked(text: &str) -> Result<Found, VersionErr>
    ensures found { IfOk result (λ f. IsFoundIn text.now f) }
    ensures refused { IfErr result (λ e. IsRefused text.now e) }
    ensures none { IfErr result (λ e. (v : Version) → Spells text.now v → ⊥) }
{
    if text.is_empty() {
        return Err(VersionErr::Empty);
    }
    if text.len() > MOST {
        return Err(VersionErr::TooLong(text.len() as u64));
    }
    let found = match walk(text.as_bytes()) {
        Ok(found) => found,
        Err(at) => return Err(VersionErr::BadByte(at as u64)),
    };
    match found.too_big() {
        Some(at) => Err(VersionErr::NumberTooBig(at as u64)),
        None => Ok(found),
    }
}

// The text between a mark and this end, and nothing without a mark.
fn behind(text: &str, mark: Option<usize>, end: usize) -> &str
    requires ascii { IsAscii text.now }
    requires before { ForSome mark (λ at. at < end) }
    requires within { end ≤ length text.now }
    ensures value { result.now ≡ behind_of text.now mark end }
    ensures fits { length result.now ≤ length text.now }
{
    match mark {
        Some(at) => &text[at + 1..end],
        None => "",
    }
}

// How many bytes the full form has, where it has too many.
fn too_long(
    major: u32,
    minor: u32,
    patch: u32,
    revision: u32,
    labels: &str,
    meta: &str,
) -> Option<usize>
    requires labels { length labels.now ≤ 64 }
    requires meta { length meta.now ≤ 64 }
    ensures some { IfSome result (λ len. (len ≡ length (full_of major minor patch revision labels.now meta.now)) × (64 < len)) }
    ensures none { IfNone result (length (full_of major minor patch revision labels.now meta.now) ≤ 64) }
{
    // The numbers have at most 43 bytes, the marks two.
    if labels.len() + meta.len() <= MOST - 45 {
        return None;
    }
    let numbers = numbers_len(major, minor, patch, revision);
    let len = numbers + marked_len(labels) + marked_len(meta);
    if len > MOST { Some(len) } else { None }
}

// How many bytes the printed number has.
fn digits_len(number: u32) -> usize
    ensures value { result ≡ length (decimal number) }
    ensures small { result ≤ 10 }
{
    let mut left = number;
    let mut len = 1;
    while left >= 10 {
        left /= 10;
        len += 1;
    }
    len
}

// How many bytes the printed numbers have.
pub(crate) fn numbers_len(major: u32, minor: u32, patch: u32, revision: u32) -> usize
    ensures value { result ≡ length (numbers_of major minor patch revision) }
    ensures small { result ≤ 43 }
{
    let three = digits_len(major) + digits_len(minor) + digits_len(patch) + 2;
    if revision == 0 {
        three
    } else {
        three + 1 + digits_len(revision)
    }
}

// How many bytes a text behind its mark has.
pub(crate) fn marked_len(text: &str) -> usize
    requires { length text.now ≤ 64 }
    ensures value { (mark : ℕ) → result ≡ length (marked mark text.now) }
    ensures small { result ≤ 65 }
{
    if text.is_empty() { 0 } else { text.len() + 1 }
}
