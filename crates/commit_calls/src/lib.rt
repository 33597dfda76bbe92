//! Each store call of a commit, of a settling and of an opening meets its condition, and so is a step of a
//! feed. It has no body of its own: each function is empty, and its clauses are laws that join
//! `catalog_core`, which says which calls are made, to the conditions of `catalog_doc` and to `feed_laws`.
#![tactic(auto)]

mod laws;

pub use laws::{commits_are_runs, commits_meet_conditions, openings_meet_conditions};
