//! Tables of catalogs, against the documents that the content hive, both registration hives and the auto hive make of
//! them from scratch; and of texts, against the states that they are.
#![tactic(auto)]

#[cfg(test)]
mod auto;
#[cfg(test)]
mod catalogs;
#[cfg(test)]
mod content;
#[cfg(test)]
mod pages;
#[cfg(test)]
mod passes;
#[cfg(test)]
mod same;
#[cfg(test)]
mod states;
#[cfg(test)]
mod texts;
