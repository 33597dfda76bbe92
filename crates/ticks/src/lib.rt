//! Moments in ticks of 100 nanoseconds since 0001-01-01T00:00:00, and their text in the proleptic Gregorian calendar.
//!
//! The text of a moment, its stamp, is a function of its number, and stamps rise as their moments do. A catalog's
//! `commitTimeStamp` is such a stamp (Microsoft Learn, NuGet Server API, "Catalog").
//!
//! ```rust
//! let stamp = moment.print(alloc)?;
//! let moment = Ticks::read(stamp.as_str())?;
//! let next = after(moment, now);
//! ```
//!
//! This crate reads no clock, and knows no time zone but UTC.
#![tactic(auto)]

mod civil;
mod error;
mod form;
mod laws;
mod reading;
mod ticks;

pub use error::TickErr;
pub use laws::{stamps_are_short, stamps_rise, stamps_show_their_moments};
pub use ticks::{LAST, Ticks, after};
