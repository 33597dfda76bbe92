ghost use Rattle.std.specs.Prelude.{◌≡◌, ◌+◌, ◌≤◌, ◌↔◌, IsSome, IfSome, IsNone, IfOk, IfErr, ℕ, max, string_bytes, ◌<◌};
ghost use Rattle.ticks.specs.Parts.{civil_of};
ghost use Rattle.ticks.specs.Reading.{NamesMoment, Refuses};
ghost use Rattle.ticks.specs.Stamp.{stamp_text, date_text, time_text};

use crate::civil::{self, CivilDate};
use crate::error::TickErr;
use crate::{form, reading};
use nuget_version::{NoMemory, Text};
use std::alloc::{AllocError, Global};
use std::marker::Model;

/// The number of the last moment, 9999-12-31T23:59:59.9999999.
pub const LAST: u64 = 3_155_378_975_999_999_999;

const TICKS_PER_SECOND: u64 = 10_000_000;

const TICKS_PER_DAY: u64 = 864_000_000_000;

/// A moment: a number of ticks of 100 nanoseconds since 0001-01-01T00:00:00, up to `LAST`.
///
/// The Unix epoch is tick 621,355,968,000,000,000. A contract sees a moment as its number.
#[derive(Clone, Copy, Debug, PartialEq, Eq, PartialOrd, Ord)]
pub struct Ticks {
    number: u64,
}

impl Model for Ticks {
    ghost use Rattle.std.specs.Prelude.{ℕ, ◌≤◌};

    ghost Value = { ℕ };

    ghost view = { λ t. t.number };

    ghost invariant = { λ t. t.number ≤ 3_155_378_975_999_999_999 };

    ghost inverse = { λ n. record { number = n } };
}

impl Ticks {
    /// The moment of a number, if the calendar's years up to 9999 have it.
    pub fn of(n: u64) -> Option<Ticks>
        ensures within { IsSome result ↔ (n ≤ LAST) }
        ensures value { IfSome result (λ t. t ≡ n) }
    {
        if n <= LAST {
            Some(Ticks { number: n })
        } else {
            None
        }
    }

    /// The ticks since 0001-01-01T00:00:00.
    pub fn number(&self) -> u64
        ensures value { result ≡ self.now }
        ensures within { result ≤ LAST }
    {
        self.number
    }

    /// Reads `YYYY-MM-DDTHH:MM:SS`, then a point and 1 to 7 decimals or none, then `Z` or `+00:00`:
    /// the `date-time` of RFC 3339, section 5.6, in UTC, with capital letters and without leap seconds.
    ///
    /// It takes no memory, so it never answers `Memory`.
    pub fn read(text: &str) -> Result<Ticks, TickErr>
        ensures reads { IfOk result (NamesMoment text.now) }
        ensures accepts { (n : ℕ) → NamesMoment text.now n → result ≡ Ok n }
        ensures refuses { IfErr result (Refuses text.now) }
        ensures printed { (n : ℕ) → n ≤ LAST → text.now ≡ stamp_text n → result ≡ Ok n }
    {
        let bytes = text.as_bytes();
        match form::scan(bytes) {
            Ok(places) => match reading::moment(bytes, places) {
                Some(moment) => Ok(moment),
                None => Err(TickErr::OutOfRange),
            },
            Err(at) => Err(TickErr::BadByte(at as u64)),
        }
    }

    /// The text `YYYY-MM-DDTHH:MM:SS.fffffffZ`, 28 bytes.
    pub fn print(&self, alloc: Global) -> Result<Text, NoMemory>
        ensures { IfOk result (λ t. t ≡ stamp_text self.now) }
    {
        let date = civil::date_of((self.number / TICKS_PER_DAY) as u32);
        let date = date_text(alloc, date)?;
        let time = time_text(alloc, self.number % TICKS_PER_DAY)?;
        let text = format!(in alloc; "{date}T{time}Z")?;
        Ok(Text::of(text))
    }
}

/// The moment that follows `last` while the clock shows `now`: moments rise where the clock doesn't.
pub fn after(last: Ticks, now: Ticks) -> Option<Ticks>
    ensures none { IsNone result ↔ (last ≡ LAST) }
    ensures value { IfSome result (λ t. t ≡ max now (last + 1)) }
{
    let next = Ticks::of(last.number() + 1)?;
    Some(next.max(now))
}

// `YYYY-MM-DD`.
fn date_text(alloc: Global, date: CivilDate) -> Result<String, AllocError>
    requires year { date.year < 10_000 }
    requires month { date.month < 100 }
    requires day { date.day < 100 }
    ensures { IfOk result (λ t. string_bytes t ≡ date_text (civil_of date)) }
{
    let CivilDate { year, month, day } = date;
    format!(in alloc; "{year:04}-{month:02}-{day:02}")
}

// `HH:MM:SS.fffffff` of the ticks since midnight.
fn time_text(alloc: Global, since_midnight: u64) -> Result<String, AllocError>
    requires { since_midnight < 864_000_000_000 }
    ensures { IfOk result (λ t. string_bytes t ≡ time_text since_midnight) }
{
    let hour = since_midnight / 36_000_000_000;
    let minute = since_midnight / 600_000_000 % 60;
    let second = since_midnight / TICKS_PER_SECOND % 60;
    let ticks = since_midnight % TICKS_PER_SECOND;
    format!(in alloc; "{hour:02}:{minute:02}:{second:02}.{ticks:07}")
}
