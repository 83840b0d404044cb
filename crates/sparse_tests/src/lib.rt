//! Tests of what makes a sparse copy of a disk.
//!
//! It promises nothing, and nothing stands on it. It stands on the crates that it tests.
#![tactic(auto)]

#[cfg(test)]
mod copies;
