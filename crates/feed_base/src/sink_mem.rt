// A sink in memory.
ghost use Rattle.std.specs.Prelude.{◌≡◌, ◌≤◌, ◌↔◌, Some, [], IfOk, OnErr, IsErr};
ghost use Rattle.feed_base.specs.Counts.{CountsFault};
ghost use Rattle.feed_base.specs.Sink.{Writes};
ghost use Rattle.std.specs.Vec.{vec_len, vec_capacity};

use crate::{Failed, NoMemory, Sink, next_count};
use std::alloc::Global;

/// A sink with room for some bytes, where the writes of some numbers fail. Writes are numbered from 1.
///
/// Its room is reserved when it is made, so a write takes no memory. A piece that the room left doesn't
/// hold counts as a fault, and nothing of it is taken.
#[derive(Drop)]
pub struct SinkMem {
    taken: Vec<u8>,
    room: usize,
    calls: u64,
    faults: u64,
    fails: Vec<u64>,
    ghost reserved: { room ≤ vec_capacity taken },
    ghost inside: { vec_len taken ≤ room },
}

impl SinkMem {
    ghost use Rattle.feed_base.specs.Memory.{IsNewSink};

    pub fn new(alloc: Global, room: u64, fails: &[u64]) -> Result<Self, NoMemory>
        ensures written { IfOk result (λ s. ⟦<SinkMem as Sink>⟧.written s ≡ Some []) }
        ensures faults { IfOk result (λ s. ⟦<SinkMem as Sink>⟧.faults s ≡ 0) }
        ensures fresh { IfOk result (IsNewSink room fails.now) }
    {
        let room = room as usize;
        Ok(SinkMem {
            fails: fails.to_vec(alloc)?,
            taken: Vec::with_capacity(alloc, room)?,
            room,
            calls: 0,
            faults: 0,
        })
    }

    /// What the sink has taken.
    pub fn bytes(&self) -> &[u8]
        ensures { ⟦<SinkMem as Sink>⟧.written self.now ≡ Some result.now }
    {
        self.taken.as_slice()
    }
}

impl Sink for SinkMem {
    ghost use Rattle.feed_base.specs.Memory.{WriteIsToFail, HasWritten};

    ghost written = { λ s. Some s.taken.items };

    ghost faults = { λ s. s.faults };

    fn write(&mut self, piece: &[u8]) -> Result<(), Failed>
        ensures writes { Writes piece.now (⟦<SinkMem as Sink>⟧.written self.old) (⟦<SinkMem as Sink>⟧.written self.new) result }
        ensures counted { CountsFault (⟦<SinkMem as Sink>⟧.faults self.old) (⟦<SinkMem as Sink>⟧.faults self.new) (IsErr result) }
        ensures exact { IsErr result ↔ WriteIsToFail self.old piece.now }
        ensures kept { OnErr result (⟦<SinkMem as Sink>⟧.written self.new ≡ ⟦<SinkMem as Sink>⟧.written self.old) }
        ensures called { HasWritten self.old self.new }
    {
        self.calls = next_count(self.calls);
        if self.fails.contains(&self.calls) || piece.len() > self.room - self.taken.len() {
            self.faults = next_count(self.faults);
            return Err(Failed);
        }
        if self.taken.extend_from_slice(piece).is_err() {
            unreachable!();
        }
        Ok(())
    }
}
