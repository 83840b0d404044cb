//! Tests of groups over the partitions of a disk.
//!
//! It promises nothing, and nothing stands on it. It stands on the crates that it tests, and on those that find what
//! the partitions hold by themselves.
#![tactic(auto)]

#[cfg(test)]
mod disks;
#[cfg(test)]
mod grouped;
