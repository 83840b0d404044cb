//! Tests of the top call: a partition that is copied, words that are refused, and devices that fail.
//!
//! It promises nothing, and nothing stands on it. It stands on run_fixtures, which makes the disks and the
//! runs.
#![tactic(auto)]

#[cfg(test)]
mod whole_runs;
