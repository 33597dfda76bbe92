// A source in memory.
ghost use Rattle.std.specs.Prelude.{◌≡◌, ◌<◌, ◌≤◌, ◌↔◌, Some, length, drop, IfOk, IsErr};
ghost use Rattle.feed_base.specs.Counts.{CountsFault};
ghost use Rattle.feed_base.specs.Source.{Reads};

use crate::{Bytes, Failed, NoMemory, Source, next_count};
use std::alloc::Global;

/// Bytes to be read, where the reads of some numbers fail. Reads are numbered from 1.
#[derive(Drop)]
pub struct SourceMem {
    bytes: Vec<u8>,
    at: usize,
    calls: u64,
    faults: u64,
    fails: Vec<u64>,
    ghost inside: { at ≤ length bytes.items },
}

impl SourceMem {
    ghost use Rattle.feed_base.specs.Memory.{IsNewSource};

    pub fn of(alloc: Global, bytes: Bytes, fails: &[u64]) -> Result<Self, NoMemory>
        ensures left { IfOk result (λ s. ⟦<SourceMem as Source>⟧.left s ≡ Some bytes) }
        ensures faults { IfOk result (λ s. ⟦<SourceMem as Source>⟧.faults s ≡ 0) }
        ensures fresh { IfOk result (IsNewSource fails.now) }
    {
        Ok(SourceMem {
            fails: fails.to_vec(alloc)?,
            bytes: bytes.into_vec(),
            at: 0,
            calls: 0,
            faults: 0,
        })
    }
}

impl Source for SourceMem {
    ghost use Rattle.feed_base.specs.Memory.{ReadIsToFail, HasRead};

    ghost left = { λ s. Some (drop s.at s.bytes.items) };

    ghost faults = { λ s. s.faults };

    fn read(&mut self, buffer: &mut [u8]) -> Result<usize, Failed>
        requires { 0 < length buffer.old }
        ensures within { IfOk result (λ n. n ≤ length buffer.new) }
        ensures reads { Reads (⟦<SourceMem as Source>⟧.left self.old) (⟦<SourceMem as Source>⟧.left self.new) buffer.new result }
        ensures counted { CountsFault (⟦<SourceMem as Source>⟧.faults self.old) (⟦<SourceMem as Source>⟧.faults self.new) (IsErr result) }
        ensures exact { IsErr result ↔ ReadIsToFail self.old }
        ensures called { HasRead self.old self.new }
    {
        self.calls = next_count(self.calls);
        if self.fails.contains(&self.calls) {
            self.faults = next_count(self.faults);
            return Err(Failed);
        }
        let n = buffer.len().min(self.bytes.len() - self.at);
        let (front, _) = buffer.split_at_mut(n);
        front.copy_from_slice(&self.bytes[self.at..self.at + n]);
        self.at += n;
        Ok(n)
    }
}
