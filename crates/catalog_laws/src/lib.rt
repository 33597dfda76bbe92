//! What holds of every catalog: a commit that the verdict lets onto one keeps it one, its values are those of
//! the code's types, and an area that spells it is led on by the commit's puts.
#![tactic(auto)]

mod laws;

pub use laws::{
    catalogs_have_values, commits_are_lawful, commits_lead_on, first_verdicts, later_verdicts,
    verdicts_at_limits,
};
