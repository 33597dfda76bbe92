//! An area spells one catalog at the most, and a leaf is that of one item.
#![tactic(auto)]

mod laws;

pub use laws::{areas_spell_one, leaves_tell_items};
