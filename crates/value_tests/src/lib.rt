//! Tables of values, from the standards or by hand, against what the crates below answer.
#![tactic(auto)]

#[cfg(test)]
mod errors;
#[cfg(test)]
mod ids;
#[cfg(test)]
mod json_texts;
#[cfg(test)]
mod metadata;
#[cfg(test)]
mod moments;
#[cfg(test)]
mod ranges;
#[cfg(test)]
mod same;
#[cfg(test)]
mod versions;
