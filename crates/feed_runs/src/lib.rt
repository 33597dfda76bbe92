//! Runs of the program's commands over stores in memory, for tests: what a command is given, which of its calls fail,
//! and what the first publish leaves.
#![tactic(auto)]

mod first;
mod runs;

pub use first::{
    BAR, DONE, FIRST, FIRST_COMMANDS, FOO, INDEX, LEAF, MISSING, PAGE, USAGE, VERSIONS,
};
pub use runs::{Exchange, Given, LAST, NEW_YEAR, behind, empty, holds, run, with_body};
