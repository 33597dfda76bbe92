// A link that asks the same thing over and over.
ghost use Rattle.std.specs.Prelude.{◌≡◌, ◌≤◌, None};

use feed_base::{Failed, Link};

const REQUEST: &[u8] = b"GET /v3/flat/foo/index.json HTTP/1.1\r\nHost: f.test\r\n\r\n";

/// A link that gives one request so many times, each in a read of its own, and counts the bytes that are written.
#[derive(Drop)]
pub struct Asking {
    left: u64,
    written: u64,
}

impl Asking {
    pub fn new(left: u64) -> Asking {
        Asking { left, written: 0 }
    }

    /// How many bytes were written.
    pub fn written(&self) -> u64 {
        self.written
    }
}

impl Link for Asking {
    ghost left = { λ _. None };

    ghost written = { λ _. None };

    ghost read_faults = { λ _. 0 };

    ghost write_faults = { λ _. 0 };

    fn read(&mut self, buffer: &mut [u8]) -> Result<usize, Failed> {
        if self.left == 0 || buffer.len() < REQUEST.len() {
            return Ok(0);
        }
        self.left -= 1;
        let (front, _) = buffer.split_at_mut(REQUEST.len());
        front.copy_from_slice(REQUEST);
        Ok(REQUEST.len())
    }

    fn write(&mut self, piece: &[u8]) -> Result<(), Failed> {
        self.written = self.written.saturating_add(piece.len() as u64);
        Ok(())
    }
}
