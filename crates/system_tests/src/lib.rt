//! Tests of the streams, the clock, the lock and the stores that the system gives.
#![tactic(auto)]

#[cfg(test)]
mod folders;
#[cfg(test)]
mod same;
#[cfg(test)]
mod streams;
