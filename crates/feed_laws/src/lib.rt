//! What stays true of a feed, whatever happens to it: over every list of events of commits, rounds, passes,
//! reads, faults and crashes that the rules allow, a sound feed stays sound.
//!
//! A feed here is a catalog with its area, any number of hives, each with its documents, its states, its
//! cursor and perhaps a standing round, and whether it is up. This crate has definitions and laws alone: its
//! functions have empty bodies, and their contracts are the laws.
#![tactic(auto)]

mod laws;

pub use laws::{
    calls_are_steps, calls_meet_conditions, commits_are_steps, feeds_begin_sound, feeds_grow,
    feeds_stay_sound, passes_are_steps, reads_are_fresh, restarts_find_commits, rounds_settle,
};
