//! Tests of what a guest is by the contents of its partitions, and of what of its disk is free.
//!
//! It promises nothing, and nothing stands on it. It stands on guest_view, volume_choice and free_sectors, which it
//! tests, on the crates whose types are in what they answer, on words for jobs, on gpt_table for a disk with a GPT, and
//! on disk_fixtures.
#![tactic(auto)]

#[cfg(test)]
mod alone;
#[cfg(test)]
mod answers;
#[cfg(test)]
mod areas;
#[cfg(test)]
mod freed;
#[cfg(test)]
mod groups;
#[cfg(test)]
mod written;
