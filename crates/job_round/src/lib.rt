//! The job that takes a hive on from its cursor.
#![tactic(auto)]

mod calls;
mod cursor;
mod ids;
mod items;
mod job;
mod passes;
mod round;
mod states;
mod stop;

pub use id_pass::{RoundErr, RoundOut};
pub use job::{cursor_of, run_round};
