// A link that gives its bytes in three reads.
ghost use Rattle.std.specs.Prelude.{◌≡◌, ◌<◌, ◌≤◌, None, Some, drop, length};

use feed_base::{Failed, Link, NoMemory, Sink, SinkMem};
use std::alloc::Global;

// How many bytes it takes at the most.
const ROOM: u64 = 4096;

/// Bytes of which no read goes over one of two places. What is written is kept.
#[derive(Drop)]
pub struct CutLink<'a> {
    bytes: &'a [u8],
    first: usize,
    second: usize,
    at: usize,
    output: SinkMem,
    ghost inside: { at ≤ length bytes.now },
}

impl<'a> CutLink<'a> {
    pub fn of(
        alloc: Global,
        bytes: &'a [u8],
        first: usize,
        second: usize,
    ) -> Result<CutLink<'a>, NoMemory> {
        Ok(CutLink {
            bytes,
            first,
            second,
            at: 0,
            output: SinkMem::new(alloc, ROOM, &[])?,
        })
    }

    /// What was written.
    pub fn written(&self) -> &[u8] {
        self.output.bytes()
    }
}

// No more than goes to a place that lies ahead.
fn up_to(n: usize, at: usize, place: usize) -> usize
    ensures most { result ≤ n }
    ensures goes { 0 < n → 0 < result }
{
    if at < place { n.min(place - at) } else { n }
}

impl<'a> Link for CutLink<'a> {
    ghost left = { λ l. Some (drop l.at l.bytes.now) };

    ghost written = { λ _. None };

    ghost read_faults = { λ _. 0 };

    ghost write_faults = { λ l. ⟦<SinkMem as Sink>⟧.faults l.output };

    fn read(&mut self, buffer: &mut [u8]) -> Result<usize, Failed> {
        let left = self.bytes.len() - self.at;
        let n = buffer.len().min(left);
        let n = up_to(n, self.at, self.first);
        let n = up_to(n, self.at, self.second);
        let (front, _) = buffer.split_at_mut(n);
        front.copy_from_slice(&self.bytes[self.at..self.at + n]);
        self.at += n;
        Ok(n)
    }

    fn write(&mut self, piece: &[u8]) -> Result<(), Failed> {
        self.output.write(piece)
    }
}
