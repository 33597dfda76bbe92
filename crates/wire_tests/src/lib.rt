//! Tables of bodies and of reply lines, with what they are read as and how they are written.
//!
//! This crate has nothing but tests: what a clause says is proved where the function stands.
#![tactic(auto)]

#[cfg(test)]
mod bodies;
#[cfg(test)]
mod lines;
#[cfg(test)]
mod same;
