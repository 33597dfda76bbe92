// The precedence of versions.
ghost use Rattle.std.specs.Prelude.{◌≡◌, ◌==◌, ◌∷◌, ◌<◌, List, ℕ, [], length, map, OnSome, IfSome, IfNone, position};
ghost use Rattle.std.specs.Char.{is_ascii_digit};
ghost use Rattle.std.specs.Cmp.Lexicographic.{slice_cmp};
ghost use Rattle.std.specs.List.{list_all};
ghost use Rattle.std.specs.Ordering.{nat_cmp};
ghost use Rattle.std.specs.Str.{str_to_ascii_lowercase};
ghost use Rattle.nuget_version.specs.Parts.{parts};
ghost use Rattle.nuget_version.specs.Precedence.{is_numeric, labels_cmp, part_cmp, precedence};

use crate::version::Version;
use std::cmp::Ordering;

impl Version {
    /// The precedence of SemVer 2.0.0, section 11, with the fourth number behind the third, and
    /// with labels compared without regard to case. Metadata doesn't count.
    pub fn compare(&self, other: &Version) -> Ordering
        ensures { result ≡ precedence self.now other.now }
    {
        if self.major != other.major {
            return self.major.cmp(&other.major);
        }
        if self.minor != other.minor {
            return self.minor.cmp(&other.minor);
        }
        if self.patch != other.patch {
            return self.patch.cmp(&other.patch);
        }
        if self.revision != other.revision {
            return self.revision.cmp(&other.revision);
        }
        cmp_labels(self.labels.as_bytes(), other.labels.as_bytes())
    }
}

fn cmp_labels(a: &[u8], b: &[u8]) -> Ordering
    ensures { result ≡ labels_cmp (str_to_ascii_lowercase a.now) (str_to_ascii_lowercase b.now) }
{
    match (a.is_empty(), b.is_empty()) {
        (true, true) => Ordering::Equal,
        (true, false) => Ordering::Greater,
        (false, true) => Ordering::Less,
        (false, false) => cmp_parts(a, b),
    }
}

// Compares two dotted texts part by part. A text that ends first comes first.
fn cmp_parts(a: &[u8], b: &[u8]) -> Ordering
    ensures { result
        ≡ slice_cmp (λ x y. part_cmp (str_to_ascii_lowercase x) (str_to_ascii_lowercase y)) (parts a.now) (parts b.now) }
{
    let mut left = a;
    let mut right = b;
    loop {
        let (x, left_rest) = first_part(left);
        let (y, right_rest) = first_part(right);
        let ordering = cmp_part(x, y);
        if ordering != Ordering::Equal {
            return ordering;
        }
        match (left_rest, right_rest) {
            (None, None) => return Ordering::Equal,
            (None, Some(_)) => return Ordering::Less,
            (Some(_), None) => return Ordering::Greater,
            (Some(more), Some(others)) => {
                left = more;
                right = others;
            }
        }
    }
}

// The first part of a dotted text, and what stands behind its dot.
fn first_part(text: &[u8]) -> (&[u8], Option<&[u8]>)
    ensures last { IfNone result.1 (parts text.now ≡ result.0.now ∷ []) }
    ensures more { IfSome result.1 (λ rest. parts text.now ≡ result.0.now ∷ parts rest.now) }
    ensures shorter { IfSome result.1 (λ rest. length rest.now < length text.now) }
{
    match dot_at(text) {
        Some(at) => (&text[..at], Some(&text[at + 1..])),
        None => (text, None),
    }
}

fn dot_at(text: &[u8]) -> Option<usize>
    ensures { result ≡ position (λ b. b == 46) text.now }
{
    text.iter().position(|b| *b == b'.')
}

// Two numbers go by value, by their lengths first, since no zero leads.
fn cmp_part(x: &[u8], y: &[u8]) -> Ordering
    ensures { result ≡ part_cmp (str_to_ascii_lowercase x.now) (str_to_ascii_lowercase y.now) }
{
    match (is_numeric(x), is_numeric(y)) {
        (true, true) => x.len().cmp(&y.len()).then(x.cmp(y)),
        (true, false) => Ordering::Less,
        (false, true) => Ordering::Greater,
        (false, false) => cmp_text(x, y),
    }
}

fn is_numeric(part: &[u8]) -> bool
    ensures { result ≡ is_numeric part.now }
{
    match part {
        [] => false,
        [first, rest @ ..] => first.is_ascii_digit()
            && (*first != b'0' || rest.is_empty())
            && are_digits(rest),
    }
}

fn are_digits(text: &[u8]) -> bool
    ensures { result ≡ list_all is_ascii_digit text.now }
{
    text.iter().all(|b| b.is_ascii_digit())
}

// By bytes, in lower case.
fn cmp_text(x: &[u8], y: &[u8]) -> Ordering
    ensures { result ≡ slice_cmp nat_cmp (str_to_ascii_lowercase x.now) (str_to_ascii_lowercase y.now) }
{
    for i in 0..x.len().min(y.len()) {
        let ordering = x[i].to_ascii_lowercase().cmp(&y[i].to_ascii_lowercase());
        if ordering != Ordering::Equal {
            return ordering;
        }
    }
    x.len().cmp(&y.len())
}
