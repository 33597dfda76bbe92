// Where a head ends, found as its bytes come in.
ghost use Rattle.std.specs.Prelude.{◌≡◌, ◌≤◌, ◌+◌, length, drop, [], None, IfSome, IfNone};
ghost use Rattle.http_wire.specs.Lines.{blank, ending, head_span};
ghost use Rattle.http_wire.specs.Scanned.{IsScanned, IsSpan, Looks};

use memchr::memchr;

// How many bytes the line end at the front takes: 0 where none is there, or only the CR of one.
fn line_end(bytes: &[u8]) -> usize
    ensures { result ≡ ending bytes.now }
{
    match bytes {
        [b'\n', ..] => 1,
        [b'\r', b'\n', ..] => 2,
        _ => 0,
    }
}

// The place behind the empty lines that stand at a place.
fn skip_empty(bytes: &[u8], from: usize) -> usize
    requires { from ≤ length bytes.now }
    ensures from { from ≤ result }
    ensures within { result ≤ length bytes.now }
    ensures is { result ≡ from + blank (drop from bytes.now) }
{
    let mut at = from;
    'lines: loop {
        if line_end(&bytes[at..]) == 0 {
            return at;
        }
        at += 1;
    }
}

/// What a look for a head's end found.
#[derive(Clone, Copy)]
pub enum Look {
    /// The head ends at this place.
    End(usize),
    /// It doesn't end yet, and the look goes on from this place.
    On(usize),
}

// Looks for a head's end from a place on.
fn find_end(bytes: &[u8], from: usize) -> Look
    requires { from ≤ length bytes.now }
    ensures { Looks bytes.now from result }
{
    let mut at = from;
    'lines: loop {
        match memchr(b'\n', &bytes[at..]) {
            None => return Look::On(bytes.len()),
            Some(n) => {
                let line = at + n;
                let rest = &bytes[line + 1..];
                let end = line_end(rest);
                if end > 0 {
                    return Look::End(line + 1 + end);
                }
                if rest.len() < 2 {
                    return Look::On(line);
                }
                at = line + 1;
            }
        }
    }
}

/// How far the bytes of a head were looked at: the empty lines before it, and the place up to which it
/// has no end.
#[derive(Clone, Copy)]
pub struct Scan {
    pub skipped: usize,
    pub looked: usize,
}

impl Scan {
    pub fn new() -> Scan
        ensures { IsScanned [] result.skipped result.looked }
    {
        Scan {
            skipped: 0,
            looked: 0,
        }
    }

    // Skips the empty lines that came in.
    fn skip(self, bytes: &[u8]) -> Scan
        requires { IsScanned bytes.now self.skipped self.looked }
        ensures scanned { IsScanned bytes.now result.skipped result.looked }
        ensures blank { result.skipped ≡ blank bytes.now }
    {
        let skipped = skip_empty(bytes, self.skipped);
        if skipped == self.skipped {
            self
        } else {
            Scan {
                skipped,
                looked: skipped,
            }
        }
    }

    /// Looks on in the bytes, of which more came in: where the head ends, if it does.
    pub fn look(&mut self, bytes: &[u8]) -> Option<usize>
        requires { IsScanned bytes.now self.old.skipped self.old.looked }
        ensures scanned { IsScanned bytes.now self.new.skipped self.new.looked }
        ensures blank { self.new.skipped ≡ blank bytes.now }
        ensures found { IfSome result (λ end. IsSpan bytes.now (self.new.skipped, end)) }
        ensures none { IfNone result (head_span bytes.now ≡ None) }
    {
        let scan = self.skip(bytes);
        *self = scan;
        match find_end(bytes, scan.looked) {
            Look::End(end) => Some(end),
            Look::On(looked) => {
                *self = Scan {
                    skipped: scan.skipped,
                    looked,
                };
                None
            }
        }
    }
}
