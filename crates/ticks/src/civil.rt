// The civil date of a day, from jiff's calendar.
ghost use Rattle.std.specs.Prelude.{◌≡◌, ◌<◌, ℕ, IfSome, IfNone};
ghost use Rattle.std.specs.Int.{IsInRange};
ghost use Rattle.ticks.specs.Stamp.{civil_date};
ghost use Rattle.ticks.specs.Calendar.{IsDateAt};
ghost use Rattle.ticks.specs.Parts.{civil_of};

use jiff_core::civil::Date;

/// The days from -9999-01-01, where jiff counts from, to 0001-01-01.
const DAYS_BEFORE_FIRST: u32 = 3_652_425;

/// A date of the years 1 to 9999.
#[derive(Clone, Copy)]
pub struct CivilDate {
    pub year: u16,
    pub month: u8,
    pub day: u8,
}

/// The date so many days after 0001-01-01.
pub fn date_of(day: u32) -> CivilDate
    requires { day < 3_652_059 }
    ensures year { result.year ≡ (civil_date day).year }
    ensures month { result.month ≡ (civil_date day).month }
    ensures day { result.day ≡ (civil_date day).day }
    ensures year_in { IsInRange 1 9999 result.year }
    ensures month_in { IsInRange 1 12 result.month }
    ensures day_in { IsInRange 1 31 result.day }
{
    let date = Date::from_days_since_min(day + DAYS_BEFORE_FIRST);
    CivilDate {
        year: date.year as u16,
        month: date.month,
        day: date.day,
    }
}

/// How many days after 0001-01-01 the date is, if the calendar has it from that day on.
pub fn day_of(date: CivilDate) -> Option<u32>
    requires year { date.year < 10_000 }
    requires month { date.month < 100 }
    requires day { date.day < 100 }
    ensures some { IfSome result (λ n. IsDateAt n (civil_of date)) }
    ensures none { IfNone result ((n : ℕ) → IsDateAt n (civil_of date) → ⊥) }
    ensures within { IfSome result (λ n. n < 3_652_059) }
{
    match Date::new(date.year as i16, date.month as i8, date.day as i8) {
        Ok(found) => found.days_since_min().checked_sub(DAYS_BEFORE_FIRST),
        Err(_) => None,
    }
}
