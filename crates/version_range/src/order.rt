// Comparing versions with the ends of a range.
ghost use Rattle.std.specs.Prelude.{◌≡◌, ◌↔◌, IsTrue};
ghost use Rattle.version_range.specs.Order.{are_ordered};
ghost use Rattle.version_range.specs.Holds.{IsAboveLow, IsBelowHigh};

use nuget_version::Version;
use std::cmp::Ordering;

// Whether the ends aren't inverted.
pub fn are_ordered(
    low: &Option<Version>,
    low_in: bool,
    high: &Option<Version>,
    high_in: bool,
) -> bool
    ensures { result ≡ are_ordered low.now low_in high.now high_in }
{
    match (low, high) {
        (Some(low), Some(high)) => match low.compare(high) {
            Ordering::Less => true,
            Ordering::Equal => low_in && high_in,
            Ordering::Greater => false,
        },
        _ => true,
    }
}

pub fn is_above_low(low: &Option<Version>, low_in: bool, v: &Version) -> bool
    ensures { IsTrue result ↔ IsAboveLow low.now low_in v.now }
{
    match low {
        None => true,
        Some(low) => match low.compare(v) {
            Ordering::Less => true,
            Ordering::Equal => low_in,
            Ordering::Greater => false,
        },
    }
}

pub fn is_below_high(high: &Option<Version>, high_in: bool, v: &Version) -> bool
    ensures { IsTrue result ↔ IsBelowHigh high.now high_in v.now }
{
    match high {
        None => true,
        Some(high) => match v.compare(high) {
            Ordering::Less => true,
            Ordering::Equal => high_in,
            Ordering::Greater => false,
        },
    }
}
