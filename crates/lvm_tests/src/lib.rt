//! Tests of the crates that read volume groups: texts, labels and rings, groups.
//!
//! It promises nothing, and nothing stands on it. It stands on the crates that it tests.
#![tactic(auto)]

#[cfg(test)]
mod group_texts;
#[cfg(test)]
mod groups;
#[cfg(test)]
mod labels;
#[cfg(test)]
mod partitions;
