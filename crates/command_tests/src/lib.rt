//! Tests of the program's commands over stores in memory, and of what they tell where calls fail.
//!
//! This crate has nothing but tests: what a clause says is proved where the function stands.
#![tactic(auto)]

#[cfg(test)]
mod commands;
#[cfg(test)]
mod failures;
#[cfg(test)]
mod jobs;
#[cfg(test)]
mod same;
#[cfg(test)]
mod words;
