// The moment that a text of the form names.
ghost use Rattle.std.specs.Prelude.{◌≡◌, ◌≤◌, ◌<◌, ◌+◌, ◌-◌, ◌*◌, ◌^◌, ℕ, length, take, drop, true, IfSome, IfNone};
ghost use Rattle.std.specs.Str.Parse.{AllDigits, digits_value};
ghost use Rattle.ticks.specs.Parts.{ArePartsOf, IsDatePartOf};
ghost use Rattle.ticks.specs.Reading.{Written, FitsForm, IsTextOf, IsMomentOf, NamesMoment};
ghost use Rattle.ticks.specs.Scan.{IsNumberAt, is_stamp, tail_places};

use crate::civil::{self, CivilDate};
use crate::ticks::Ticks;

/// The numbers of a text. The decimals are in ticks.
#[derive(Clone, Copy)]
pub struct Parts {
    pub date: CivilDate,
    pub hour: u8,
    pub minute: u8,
    pub second: u8,
    pub ticks: u32,
}

// The number that decimal digits write.
fn number(digits: &[u8]) -> u32
    requires digits { AllDigits 10 digits.now }
    requires short { length digits.now ≤ 7 }
    ensures { result ≡ digits_value 10 digits.now }
{
    let mut number = 0;
    for digit in digits {
        number = number * 10 + u32::from(*digit - b'0');
    }
    number
}

// The number that so many digits write, from a place on.
fn number_at(text: &[u8], at: usize, width: usize) -> u32
    requires digits { IsNumberAt width at text.now }
    requires short { width ≤ 7 }
    ensures value { result ≡ digits_value 10 (take width (drop at text.now)) }
    ensures within { result < 10 ^ width }
{
    number(&text[at..at + width])
}

// The date that a text of the form writes.
fn date_in(text: &[u8]) -> CivilDate
    requires { is_stamp text.now ≡ true }
    ensures { (w : Written) → IsTextOf w text.now → IsDatePartOf w result }
{
    CivilDate {
        year: number_at(text, 0, 4) as u16,
        month: number_at(text, 5, 2) as u8,
        day: number_at(text, 8, 2) as u8,
    }
}

// What one of the last decimals counts, after so many of them.
const TICKS_OF_LAST_DECIMAL: [u32; 8] = [10_000_000, 1_000_000, 100_000, 10_000, 1000, 100, 10, 1];

// The ticks that its decimals write.
fn ticks_in(text: &[u8], places: usize) -> u32
    requires form { is_stamp text.now ≡ true }
    requires places { places ≡ tail_places (drop 19 text.now) }
    ensures value { (w : Written) → IsTextOf w text.now → result ≡ w.fraction * 10 ^ (7 - w.places) }
    ensures within { result < 10_000_000 }
{
    number_at(text, 20, places) * TICKS_OF_LAST_DECIMAL[places]
}

// The numbers of a text of the form that has so many decimals.
fn read_parts(text: &[u8], places: usize) -> Parts
    requires form { is_stamp text.now ≡ true }
    requires places { places ≡ tail_places (drop 19 text.now) }
    ensures { (w : Written) → IsTextOf w text.now → ArePartsOf w result }
{
    Parts {
        date: date_in(text),
        hour: number_at(text, 11, 2) as u8,
        minute: number_at(text, 14, 2) as u8,
        second: number_at(text, 17, 2) as u8,
        ticks: ticks_in(text, places),
    }
}

// The seconds since midnight, if a clock shows that time.
fn seconds_of_day(hour: u8, minute: u8, second: u8) -> Option<u32>
    ensures some { IfSome result (λ n. n ≡ (hour * 60 + minute) * 60 + second) }
    ensures within { IfSome result (λ n. (hour < 24) × (minute < 60) × (second < 60)) }
    ensures none { IfNone result ((hour < 24) × (minute < 60) × (second < 60) → ⊥) }
{
    if hour >= 24 || minute >= 60 || second >= 60 {
        return None;
    }
    Some((u32::from(hour) * 60 + u32::from(minute)) * 60 + u32::from(second))
}

// The moment with these numbers, if the calendar and the clock have it.
fn moment_of(parts: Parts) -> Option<Ticks>
    requires { (w : Written) × FitsForm w × ArePartsOf w parts }
    ensures names { (w : Written) → ArePartsOf w parts → IfSome result (IsMomentOf w) }
    ensures only { (w : Written) → ArePartsOf w parts → (n : ℕ) → IsMomentOf w n → result ≡ Some n }
{
    let days = civil::day_of(parts.date)?;
    let seconds = seconds_of_day(parts.hour, parts.minute, parts.second)?;
    let seconds = u64::from(days) * 86_400 + u64::from(seconds);
    Ticks::of(seconds * 10_000_000 + u64::from(parts.ticks))
}

/// The moment that a text of the form names, if there is one.
pub fn moment(text: &[u8], places: usize) -> Option<Ticks>
    requires form { is_stamp text.now ≡ true }
    requires places { places ≡ tail_places (drop 19 text.now) }
    ensures names { IfSome result (NamesMoment text.now) }
    ensures only { (n : ℕ) → NamesMoment text.now n → result ≡ Some n }
{
    moment_of(read_parts(text, places))
}
