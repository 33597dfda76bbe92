//! The calls of a pass lead an id to the catalog's end. It has no body of its own: each function is empty,
//! and its clauses are laws of the definitions of `id_pass` and `hive_laws`.
#![tactic(auto)]

mod laws;

pub use laws::passes_lead_ids;
