// A link in memory.
ghost use Rattle.std.specs.Prelude.{◌≡◌, ◌<◌, ◌≤◌, ◌↔◌, Some, [], length, IfOk, OnErr, IsErr};
ghost use Rattle.feed_base.specs.Counts.{CountsFault};
ghost use Rattle.feed_base.specs.Sink.{Writes};
ghost use Rattle.feed_base.specs.Source.{Reads};

use crate::{Bytes, Failed, Link, NoMemory, Sink, SinkMem, Source, SourceMem};
use std::alloc::Global;

/// Bytes to be read, and room for what is written. The reads and writes of some numbers fail, each
/// numbered from 1.
///
/// Its room is reserved when it is made, so no call takes memory. A piece that the room left doesn't hold
/// counts as a fault, and nothing of it is taken.
#[derive(Drop)]
pub struct LinkMem {
    input: SourceMem,
    output: SinkMem,
}

impl LinkMem {
    ghost use Rattle.feed_base.specs.Memory.{IsNewLink};

    pub fn of(
        alloc: Global,
        bytes: Bytes,
        room: u64,
        reads: &[u64],
        writes: &[u64],
    ) -> Result<Self, NoMemory>
        ensures left { IfOk result (λ l. ⟦<LinkMem as Link>⟧.left l ≡ Some bytes) }
        ensures written { IfOk result (λ l. ⟦<LinkMem as Link>⟧.written l ≡ Some []) }
        ensures read_faults { IfOk result (λ l. ⟦<LinkMem as Link>⟧.read_faults l ≡ 0) }
        ensures write_faults { IfOk result (λ l. ⟦<LinkMem as Link>⟧.write_faults l ≡ 0) }
        ensures fresh { IfOk result (IsNewLink room reads.now writes.now) }
    {
        Ok(LinkMem {
            input: SourceMem::of(alloc, bytes, reads)?,
            output: SinkMem::new(alloc, room, writes)?,
        })
    }

    /// What was written.
    pub fn bytes(&self) -> &[u8]
        ensures { ⟦<LinkMem as Link>⟧.written self.now ≡ Some result.now }
    {
        self.output.bytes()
    }
}

impl Link for LinkMem {
    ghost use Rattle.feed_base.specs.Memory.{ReadIsToFail, HasRead, WriteIsToFail, HasWritten};

    ghost left = { λ l. ⟦<SourceMem as Source>⟧.left l.input };

    ghost written = { λ l. ⟦<SinkMem as Sink>⟧.written l.output };

    ghost read_faults = { λ l. ⟦<SourceMem as Source>⟧.faults l.input };

    ghost write_faults = { λ l. ⟦<SinkMem as Sink>⟧.faults l.output };

    fn read(&mut self, buffer: &mut [u8]) -> Result<usize, Failed>
        requires { 0 < length buffer.old }
        ensures within { IfOk result (λ n. n ≤ length buffer.new) }
        ensures reads { Reads (⟦<LinkMem as Link>⟧.left self.old) (⟦<LinkMem as Link>⟧.left self.new) buffer.new result }
        ensures counted { CountsFault (⟦<LinkMem as Link>⟧.read_faults self.old) (⟦<LinkMem as Link>⟧.read_faults self.new) (IsErr result) }
        ensures same_written { ⟦<LinkMem as Link>⟧.written self.new ≡ ⟦<LinkMem as Link>⟧.written self.old }
        ensures same_write_faults { ⟦<LinkMem as Link>⟧.write_faults self.new ≡ ⟦<LinkMem as Link>⟧.write_faults self.old }
        ensures exact { IsErr result ↔ ReadIsToFail self.old.input }
        ensures called { HasRead self.old.input self.new.input }
        ensures same_output { self.new.output ≡ self.old.output }
    {
        self.input.read(buffer)
    }

    fn write(&mut self, piece: &[u8]) -> Result<(), Failed>
        ensures writes { Writes piece.now (⟦<LinkMem as Link>⟧.written self.old) (⟦<LinkMem as Link>⟧.written self.new) result }
        ensures counted { CountsFault (⟦<LinkMem as Link>⟧.write_faults self.old) (⟦<LinkMem as Link>⟧.write_faults self.new) (IsErr result) }
        ensures same_left { ⟦<LinkMem as Link>⟧.left self.new ≡ ⟦<LinkMem as Link>⟧.left self.old }
        ensures same_read_faults { ⟦<LinkMem as Link>⟧.read_faults self.new ≡ ⟦<LinkMem as Link>⟧.read_faults self.old }
        ensures exact { IsErr result ↔ WriteIsToFail self.old.output piece.now }
        ensures kept { OnErr result (⟦<LinkMem as Link>⟧.written self.new ≡ ⟦<LinkMem as Link>⟧.written self.old) }
        ensures called { HasWritten self.old.output self.new.output }
        ensures same_input { self.new.input ≡ self.old.input }
    {
        self.output.write(piece)
    }
}
