//! What stays true of a hive over a pass, the cursor's put and a further commit, id by id. It has no body
//! of its own: each function is empty, and its clauses are laws of the definitions of `fold_core` and of
//! this crate.
#![tactic(auto)]

mod areas;
mod hives;
mod ids;
mod passes;

pub use areas::{
    areas_hold_prefixes, areas_stay_sound, areas_tell_states, passes_keep_areas,
    rounds_settle_areas,
};
pub use hives::{fronts_are_lawful, hives_have_laws};
pub use ids::{cursors_move_on, ids_stay_sound, others_stay_sound, sound_ids_are_clean};
pub use passes::{passes_keep_sound, steps_keep_sound};
