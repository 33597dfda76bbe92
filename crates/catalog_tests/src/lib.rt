//! Tests of commits, openings, settlings and rows over stores in memory, and of the cursor's document.
//!
//! This crate has nothing but tests: what a clause says is proved where the function stands.
#![tactic(auto)]

#[cfg(test)]
mod copies;
#[cfg(test)]
mod cursors;
#[cfg(test)]
mod ends;
#[cfg(test)]
mod feeds;
#[cfg(test)]
mod limits;
#[cfg(test)]
mod openings;
#[cfg(test)]
mod reads;
#[cfg(test)]
mod rows;
#[cfg(test)]
mod same;
#[cfg(test)]
mod stops;
