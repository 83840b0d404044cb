//! Tests of the crates that read XFS volumes, over doubles and over what other programs wrote.
//!
//! It promises nothing, and nothing stands on it. It stands on the crates that it tests, and on disk_fixtures.
#![tactic(auto)]

#[cfg(test)]
mod chunks;
#[cfg(test)]
mod contents;
#[cfg(test)]
mod directories;
#[cfg(test)]
mod directory_files;
#[cfg(test)]
mod entries;
#[cfg(test)]
mod forks;
#[cfg(test)]
mod free_space;
#[cfg(test)]
mod headers;
#[cfg(test)]
mod inodes;
#[cfg(test)]
mod list_mark;
#[cfg(test)]
mod records;
#[cfg(test)]
mod superblocks;
#[cfg(test)]
mod texts;
#[cfg(test)]
mod trees;
#[cfg(test)]
mod volume;
#[cfg(test)]
mod whole;
