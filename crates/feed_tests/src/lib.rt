//! Tests of stores, sources, sinks and clocks in memory, of a store in a folder, and of the bodies that `publish` takes.
//!
//! This crate has nothing but tests: what a clause says is proved where the function stands.
#![tactic(auto)]

#[cfg(test)]
mod blobs;
#[cfg(test)]
mod bodies;
#[cfg(test)]
mod folders;
#[cfg(test)]
mod outside;
#[cfg(test)]
mod same;
