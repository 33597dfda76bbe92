// Why a text names no moment.
use std::error::Error;
use std::fmt;

/// Why a text names no moment.
#[derive(Clone, Copy, Debug, PartialEq, Eq)]
pub enum TickErr {
    /// The text hasn't the form: its longest prefix that begins a text of the form has this length.
    BadByte(u64),

    /// The text has the form, and the calendar and the clock have no such moment, as at February 30.
    OutOfRange,

    /// Out of memory.
    Memory,
}

impl fmt::Display for TickErr {
    fn fmt<W: fmt::Write>(&self, f: &mut fmt::Formatter<W>) -> fmt::Result {
        match self {
            TickErr::BadByte(at) => write!(f, "not a UTC date and time at byte {at}"),
            TickErr::OutOfRange => write!(f, "no such date and time"),
            TickErr::Memory => write!(f, "out of memory"),
        }
    }
}

impl Error for TickErr {}
