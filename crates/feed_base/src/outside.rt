// Where bytes come from and go to, and the clock.
ghost use Rattle.std.specs.Prelude.{◌≡◌, ◌<◌, ◌≤◌, ℕ, List, Option, length, IfOk, IsErr};
ghost use Rattle.feed_base.specs.Clock.{last_tick, Tells};
ghost use Rattle.feed_base.specs.Counts.{CountsFault};
ghost use Rattle.feed_base.specs.Sink.{Writes};
ghost use Rattle.feed_base.specs.Source.{Reads};

use std::fmt;

/// A call of the outside failed.
#[derive(Clone, Copy, Debug, PartialEq, Eq)]
pub struct Failed;

impl fmt::Display for Failed {
    fn fmt<W: fmt::Write>(&self, f: &mut fmt::Formatter<W>) -> fmt::Result {
        f.write_str("the operation failed")
    }
}

/// Where bytes come from.
pub trait Source: Drop {
    /// The bytes that are left, where the source tells them. A read that fails leaves them.
    ghost left: { Self → Option (List ℕ) };

    /// Counts the reads that fail, and stays at the greatest number of 64 bits.
    ghost faults: { Self → ℕ };

    /// Reads the next bytes into the first places of the buffer, and answers how many. 0 is the end.
    fn read(&mut self, buffer: &mut [u8]) -> Result<usize, Failed>
        requires { 0 < length buffer.old }
        ensures within { IfOk result (λ n. n ≤ length buffer.new) }
        ensures reads { Reads (left self.old) (left self.new) buffer.new result }
        ensures counted { CountsFault (faults self.old) (faults self.new) (IsErr result) };
}

/// Where bytes go to.
pub trait Sink: Drop {
    /// What went out, where the sink tells it.
    ghost written: { Self → Option (List ℕ) };

    /// Counts the writes that fail, and stays at the greatest number of 64 bits.
    ghost faults: { Self → ℕ };

    /// Writes the whole piece, or fails with a prefix of it written.
    fn write(&mut self, piece: &[u8]) -> Result<(), Failed>
        ensures writes { Writes piece.now (written self.old) (written self.new) result }
        ensures counted { CountsFault (faults self.old) (faults self.new) (IsErr result) };
}

/// Two ends of one connection: where bytes come from, and where bytes go to.
pub trait Link: Drop {
    /// The bytes that are left to be read, where the link tells them. A read that fails leaves them.
    ghost left: { Self → Option (List ℕ) };

    /// What went out, where the link tells it.
    ghost written: { Self → Option (List ℕ) };

    /// Counts the reads that fail, and stays at the greatest number of 64 bits.
    ghost read_faults: { Self → ℕ };

    /// Counts the writes that fail, and stays at the greatest number of 64 bits.
    ghost write_faults: { Self → ℕ };

    /// Reads the next bytes into the first places of the buffer, and answers how many. 0 is the end.
    fn read(&mut self, buffer: &mut [u8]) -> Result<usize, Failed>
        requires { 0 < length buffer.old }
        ensures within { IfOk result (λ n. n ≤ length buffer.new) }
        ensures reads { Reads (left self.old) (left self.new) buffer.new result }
        ensures counted { CountsFault (read_faults self.old) (read_faults self.new) (IsErr result) }
        ensures same_written { written self.new ≡ written self.old }
        ensures same_write_faults { write_faults self.new ≡ write_faults self.old };

    /// Writes the whole piece, or fails with a prefix of it written.
    fn write(&mut self, piece: &[u8]) -> Result<(), Failed>
        ensures writes { Writes piece.now (written self.old) (written self.new) result }
        ensures counted { CountsFault (write_faults self.old) (write_faults self.new) (IsErr result) }
        ensures same_left { left self.new ≡ left self.old }
        ensures same_read_faults { read_faults self.new ≡ read_faults self.old };
}

/// A clock, in ticks of 100 nanoseconds since the beginning of the year 1.
pub trait Clock: Drop {
    /// The answers so far, where the clock tells them. What is said of them holds while they are fewer
    /// than the greatest number of 64 bits.
    ghost answers: { Self → Option (List ℕ) };

    fn now(&mut self) -> u64
        ensures within { result ≤ last_tick }
        ensures told { Tells result (answers self.old) (answers self.new) };
}
