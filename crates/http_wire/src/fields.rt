// What the fields of a head say of its request.
ghost use Rattle.std.specs.Prelude.{◌≡◌, length, map, codes, reverse, All, IfSome};
ghost use Rattle.std.specs.List.{list_all};
ghost use Rattle.std.specs.Str.{bytes_eq, str_eq_ignore_ascii_case};
ghost use Rattle.httparse.specs.Grammar.{skip_ows, trim_ows};
ghost use Rattle.httparse.specs.Spans.{IsHeaderWithin, IsWithin, header_bytes};
ghost use Rattle.http_wire.specs.Fields.{announced, asks_to_close, body_size, count_of, is_close, is_last, values_of};
ghost use Rattle.http_wire.specs.Found.{found_values};

use crate::length::text_length;
use httparse::spans::{HeaderSpan, Span};

// Whether these are the same word, in any case.
fn same_in_any_case(word: &[u8], other: &[u8]) -> bool
    ensures { result ≡ str_eq_ignore_ascii_case word.now other.now }
{
    word.eq_ignore_ascii_case(other)
}

// How many of the fields have this name.
fn count_named(bytes: &[u8], fields: &[HeaderSpan], name: &[u8]) -> usize
    requires { All (IsHeaderWithin (length bytes.now)) fields.now }
    ensures { result ≡ count_of name.now (map (header_bytes bytes.now) fields.now) }
{
    let mut count = 0;
    for field in fields {
        if same_in_any_case(field.name.of(bytes), name) {
            count += 1;
        }
    }
    count
}

// Whether a value is the text that was found before, if one was.
fn agrees(bytes: &[u8], found: Option<Span>, value: &[u8]) -> bool
    requires { IfSome found (IsWithin (length bytes.now)) }
    ensures { result ≡ list_all (λ first. bytes_eq value.now first) (found_values bytes.now found) }
{
    match found {
        None => true,
        Some(first) => value == first.of(bytes),
    }
}

// The length that the fields Content-Length announce, or the status of their refusal.
fn announced_length(bytes: &[u8], fields: &[HeaderSpan]) -> Result<usize, u16>
    requires { All (IsHeaderWithin (length bytes.now)) fields.now }
    ensures { result ≡ announced (values_of (codes "content-length") (map (header_bytes bytes.now) fields.now)) }
{
    let mut found: Option<Span> = None;
    for field in fields {
        if same_in_any_case(field.name.of(bytes), b"content-length") {
            if !agrees(bytes, found, field.value.of(bytes)) {
                return Err(400);
            }
            found = Some(field.value);
        }
    }
    match found {
        None => Ok(0),
        Some(value) => text_length(value.of(bytes)),
    }
}

/// How many bytes of body follow a head of this minor version, or the status of its first refusal.
pub fn body_length(bytes: &[u8], minor: u8, fields: &[HeaderSpan]) -> Result<usize, u16>
    requires { All (IsHeaderWithin (length bytes.now)) fields.now }
    ensures { result ≡ body_size minor (map (header_bytes bytes.now) fields.now) }
{
    let hosts = count_named(bytes, fields, b"host");
    if hosts > 1 || (minor == 1 && hosts == 0) {
        return Err(400);
    }
    if count_named(bytes, fields, b"transfer-encoding") > 0 {
        return Err(501);
    }
    if count_named(bytes, fields, b"content-encoding") > 0 {
        return Err(415);
    }
    announced_length(bytes, fields)
}

// The bytes from the first that is no space or tab.
fn skip_front(bytes: &[u8]) -> &[u8]
    ensures { result.now ≡ skip_ows bytes.now }
{
    let mut rest = bytes;
    while let [b' ' | b'\t', behind @ ..] = rest {
        rest = behind;
    }
    rest
}

// The bytes up to the last that is no space or tab.
fn skip_back(bytes: &[u8]) -> &[u8]
    ensures { result.now ≡ reverse (skip_ows (reverse bytes.now)) }
{
    let mut rest = bytes;
    while let [before @ .., b' ' | b'\t'] = rest {
        rest = before;
    }
    rest
}

fn is_close_word(piece: &[u8]) -> bool
    ensures { result ≡ is_close piece.now }
{
    same_in_any_case(skip_back(skip_front(piece)), b"close")
}

// Whether one of the pieces between commas is `close` (RFC 9110, section 7.6.1).
fn has_close(value: &[u8]) -> bool
    ensures { result ≡ asks_to_close value.now }
{
    value
        .split(|byte| *byte == b',')
        .any(|piece| is_close_word(piece))
}

/// Whether a head of this minor version is the last of its link.
pub fn closes(bytes: &[u8], minor: u8, fields: &[HeaderSpan]) -> bool
    requires { All (IsHeaderWithin (length bytes.now)) fields.now }
    ensures { result ≡ is_last minor (map (header_bytes bytes.now) fields.now) }
{
    if minor == 0 {
        return true;
    }
    for field in fields {
        if same_in_any_case(field.name.of(bytes), b"connection")
            && has_close(field.value.of(bytes))
        {
            return true;
        }
    }
    false
}
