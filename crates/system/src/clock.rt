// The system's clock.
ghost use Rattle.std.specs.Prelude.{◌≡◌, ◌≤◌, ◌<◌, ◌↔◌, IfSome, IsNone};
ghost use Rattle.feed_base.specs.Clock.{last_tick};
ghost use Rattle.system.specs.Epoch.{tick_at};

use feed_base::Clock;
use std::time::{self, SystemTime, UNIX_EPOCH};

// 1970 in ticks of 100 nanoseconds since the beginning of the year 1.
const YEAR_1970: u128 = 621_355_968_000_000_000;

// The last tick of the year 9999.
const LAST_TICK: u64 = 3_155_378_975_999_999_999;

/// The tick of a moment so many nanoseconds after the beginning of 1970, and none after the last tick.
pub fn ticks_of_nanos(nanos: u128) -> Option<u64>
    ensures value { IfSome result (λ ticks. ticks ≡ tick_at nanos) }
    ensures none { IsNone result ↔ (last_tick < tick_at nanos) }
{
    let ticks = nanos / 100 + YEAR_1970;
    if ticks > LAST_TICK as u128 {
        None
    } else {
        Some(ticks as u64)
    }
}

// The clock's nanoseconds since the beginning of 1970, where they can be read.
fn nanos_of(clock: &impl time::Clock) -> Option<u128> {
    let since = SystemTime::now(clock)
        .ok()?
        .duration_since(UNIX_EPOCH)
        .ok()?;
    Some(since.as_nanos())
}

/// The system's clock. Where it can't be read it answers its last answer, at first 0, and after the last tick that tick.
#[derive(Drop)]
pub struct SystemClock<T: time::Clock + Drop> {
    clock: T,
    last: u64,
    ghost within: { last ≤ last_tick },
}

impl<T: time::Clock + Drop> SystemClock<T> {
    pub fn new(clock: T) -> Self {
        SystemClock { clock, last: 0 }
    }
}

impl<T: time::Clock + Drop> Clock for SystemClock<T> {
    ghost use Rattle.std.specs.Prelude.{None};

    ghost answers = { λ c. None };

    fn now(&mut self) -> u64 {
        if let Some(nanos) = nanos_of(&self.clock) {
            self.last = ticks_of_nanos(nanos).unwrap_or(LAST_TICK);
        }
        self.last
    }
}
