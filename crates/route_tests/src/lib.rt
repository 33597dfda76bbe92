//! Tables of requests with what they ask for, of base addresses and of service indexes, and a service.
//!
//! This crate has nothing but tests: what a clause says is proved where the function stands.
#![tactic(auto)]

#[cfg(test)]
mod bases;
#[cfg(test)]
mod indexes;
#[cfg(test)]
mod requests;
#[cfg(test)]
mod same;
#[cfg(test)]
mod services;
