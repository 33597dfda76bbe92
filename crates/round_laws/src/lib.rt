//! What a round of a job leaves of a hive's area. It has no body of its own: each function is empty, and its
//! clauses are laws of the definitions of `job_round` and `hive_laws`.
#![tactic(auto)]

mod laws;

pub use laws::{rounds_keep_cursors, rounds_settle, rounds_stay_sound, sound_rounds_are_whole};
