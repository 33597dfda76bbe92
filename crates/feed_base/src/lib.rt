//! The outside of the feed, as traits: where bytes come from and go to, links of both, and the clock.
//!
//! Each trait whose calls can fail counts its faults: the count is one more after a call that answers
//! `Failed`, up to the greatest number of 64 bits, and is as it was after any other. So code that is generic
//! over a trait can't tell a fault that there wasn't. What a source has left, what a sink has taken and what
//! a clock has answered are told where the type can tell it: those in memory do.
//!
//! This crate opens no file and no socket, and takes no handle.
#![tactic(auto)]

mod clock_list;
mod count;
mod link_mem;
mod outside;
mod sink_mem;
mod source_mem;
mod status;
mod take;

pub use clock_list::ClockList;
pub use count::next_count;
pub use link_mem::LinkMem;
pub use nuget_version::{Bytes, Many, NoMemory, Text};
pub use outside::{Clock, Failed, Link, Sink, Source};
pub use sink_mem::SinkMem;
pub use source_mem::SourceMem;
pub use status::Status;
pub use take::{TakeErr, read_all};
