//! Tests of what is carried out: copies, writes, the target's table, and whole jobs in memory.
//!
//! It promises nothing, and nothing stands on it. It stands on the crates that it tests.
#![tactic(auto)]

#[cfg(test)]
mod copies;
#[cfg(test)]
mod gpt_targets;
#[cfg(test)]
mod mbr_targets;
#[cfg(test)]
mod resize_jobs;
#[cfg(test)]
mod writings;
