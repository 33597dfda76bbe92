// A clock in memory.
ghost use Rattle.std.specs.Prelude.{◌≡◌, ◌≤◌, ◌<◌, ℕ, Some, [], length, slice_index, All, IfOk};
ghost use Rattle.feed_base.specs.Clock.{last_tick, Tells, answers_of};

use crate::{Clock, NoMemory, next_count};
use std::alloc::Global;

/// A clock that answers the numbers of a list in turn, and stays at the last one.
#[derive(Drop)]
pub struct ClockList {
    list: Vec<u64>,
    calls: u64,
    ghost some: { 0 < length list.items },
    ghost within: { (k : ℕ) → k < length list.items → slice_index list.items k ≤ last_tick },
}

impl ClockList {
    ghost use Rattle.feed_base.specs.Memory.{IsNewClock};

    pub fn of(alloc: Global, list: &[u64]) -> Result<Self, NoMemory>
        requires some { 0 < length list.now }
        requires within { All (λ t. t ≤ last_tick) list.now }
        ensures answers { IfOk result (λ c. ⟦<ClockList as Clock>⟧.answers c ≡ Some []) }
        ensures fresh { IfOk result (IsNewClock list.now) }
    {
        Ok(ClockList {
            list: list.to_vec(alloc)?,
            calls: 0,
        })
    }
}

impl Clock for ClockList {
    ghost use Rattle.feed_base.specs.Memory.{IsNextAnswer, HasAnswered};

    ghost answers = { λ c. Some (answers_of c.list.items c.calls) };

    fn now(&mut self) -> u64
        ensures within { result ≤ last_tick }
        ensures told { Tells result (⟦<ClockList as Clock>⟧.answers self.old) (⟦<ClockList as Clock>⟧.answers self.new) }
        ensures next { IsNextAnswer result self.old }
        ensures called { HasAnswered self.old self.new }
    {
        let last = self.list.len() - 1;
        let at = self.calls.min(last as u64) as usize;
        self.calls = next_count(self.calls);
        self.list[at]
    }
}
