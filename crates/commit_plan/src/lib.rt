//! The commit that changes make of a catalog and its puts, as values, or why the changes are refused.
//! No call of a store but gets of leaves is made here.
#![tactic(auto)]

mod committing;
mod hash;
mod known;
mod last;
mod listing;
mod making;
mod pages;
mod places;
mod plan;

pub use committing::plan_changes;
pub use hash::package_hash;
pub use known::commit_err_for;
pub use plan::CommitPlan;
