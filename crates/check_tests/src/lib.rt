//! Tests of the check of a whole XFS volume: its reasons, its claims, its log, and what a volume holds.
//!
//! It promises nothing, and nothing stands on it. It stands on the crates that it tests, and on disk_fixtures.
#![tactic(auto)]

#[cfg(test)]
mod check_change;
#[cfg(test)]
mod check_claims;
#[cfg(test)]
mod check_reasons;
#[cfg(test)]
mod check_sound;
#[cfg(test)]
mod large;
#[cfg(test)]
mod logs;
#[cfg(test)]
mod volume_contents;
