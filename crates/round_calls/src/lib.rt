//! Each store call of a pass and of a round on a hive's store meets its condition. It has no body of its
//! own: each function is empty, and its clauses are laws that join `id_pass` and `job_round`, which say
//! which calls are made, to the conditions of `fold_core`.
#![tactic(auto)]

mod laws;

pub use laws::{passes_meet_conditions, rounds_meet_conditions};
