// A link that gives its bytes in pieces.
ghost use Rattle.std.specs.Prelude.{◌≡◌, ◌<◌, ◌≤◌, Some, None, length, drop};

use feed_base::{Failed, Link};

/// How bytes are cut: no read gives more than `size` of them, or goes over one of two places.
#[derive(Clone, Copy)]
pub struct Cuts {
    size: usize,
    first: usize,
    second: usize,
    ghost some: { 0 < size },
}

impl Cuts {
    pub fn none() -> Cuts {
        Cuts {
            size: usize::MAX,
            first: 0,
            second: 0,
        }
    }

    pub fn at(first: usize, second: usize) -> Cuts {
        Cuts {
            size: usize::MAX,
            first,
            second,
        }
    }

    pub fn pieces(size: usize) -> Cuts
        requires { 0 < size }
    {
        Cuts {
            size,
            first: 0,
            second: 0,
        }
    }
}

/// Bytes that a link gives in pieces. What is written is dropped.
#[derive(Drop)]
pub struct CutLink<'a> {
    bytes: &'a [u8],
    cuts: Cuts,
    at: usize,
    ghost inside: { at ≤ length bytes.now },
}

impl<'a> CutLink<'a> {
    pub fn of(bytes: &'a [u8], cuts: Cuts) -> CutLink<'a> {
        CutLink { bytes, cuts, at: 0 }
    }
}

// No more than goes to a place that lies ahead.
fn up_to(n: usize, at: usize, place: usize) -> usize
    ensures most { result ≤ n }
    ensures goes { 0 < n → 0 < result }
{
    if at < place { n.min(place - at) } else { n }
}

impl<'a> Link for CutLink<'a> {
    ghost left = { λ l. Some (drop l.at l.bytes.now) };

    ghost written = { λ _. None };

    ghost read_faults = { λ _. 0 };

    ghost write_faults = { λ _. 0 };

    fn read(&mut self, buffer: &mut [u8]) -> Result<usize, Failed> {
        let left = self.bytes.len() - self.at;
        let n = buffer.len().min(left).min(self.cuts.size);
        let n = up_to(n, self.at, self.cuts.first);
        let n = up_to(n, self.at, self.cuts.second);
        let (front, _) = buffer.split_at_mut(n);
        front.copy_from_slice(&self.bytes[self.at..self.at + n]);
        self.at += n;
        Ok(n)
    }

    fn write(&mut self, _piece: &[u8]) -> Result<(), Failed> {
        Ok(())
    }
}
