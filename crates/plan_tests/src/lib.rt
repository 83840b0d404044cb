//! Tests of the planner, and of the words of a command line.
//!
//! It promises nothing, and nothing stands on it. It stands on the crates that it tests.
#![tactic(auto)]

#[cfg(test)]
mod job_words;
#[cfg(test)]
mod plans;
#[cfg(test)]
mod wider_plans;
