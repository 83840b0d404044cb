//! Tests of the crates that everything else stands on: disks of bytes and doubles of devices, checksums, sets of
//! numbers, runs of a disk as a disk, and swap headers.
//!
//! It promises nothing, and nothing stands on it. It stands on the crates that it tests.
#![tactic(auto)]

#[cfg(test)]
mod checksums;
#[cfg(test)]
mod memory_disks;
#[cfg(test)]
mod sets;
#[cfg(test)]
mod swap_headers;
#[cfg(test)]
mod views;
