//! Tests of the crates that read and write partition tables, and of a guest as its table has it.
//!
//! It promises nothing, and nothing stands on it. It stands on the crates that it tests.
#![tactic(auto)]

#[cfg(test)]
mod gpt_tables;
#[cfg(test)]
mod guests;
#[cfg(test)]
mod mbr_tables;
