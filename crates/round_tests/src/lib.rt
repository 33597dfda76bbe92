//! Tests of rounds: what a hive's area holds behind them is compared with the from-scratch documents.
//!
//! This crate has nothing but tests: what a clause says is proved where the function stands.
#![tactic(auto)]

#[cfg(test)]
mod areas;
#[cfg(test)]
mod changes;
#[cfg(test)]
mod failures;
#[cfg(test)]
mod random;
#[cfg(test)]
mod rounds;
#[cfg(test)]
mod same;
#[cfg(test)]
mod stops;
#[cfg(test)]
mod walks;
