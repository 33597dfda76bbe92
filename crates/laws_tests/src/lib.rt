//! A small model of a hive over a catalog, walked at random: the rules of what may happen keep it sound, and
//! each rule that is made weaker doesn't.
//!
//! The model is written from the rules' words, apart from the definitions: two ids with three versions each,
//! one item a commit, and documents that are numbers. What the laws prove of every feed is seen here of many
//! small ones, so a definition that nothing meets, or that says too much, would show.
//!
//! This crate has nothing but tests.
#![tactic(auto)]

#[cfg(test)]
mod events;
#[cfg(test)]
mod model;
#[cfg(test)]
mod random;
#[cfg(test)]
mod sound;
#[cfg(test)]
mod walks;
