//! Tests of the top call on jobs of virt-resize: wishes of every kind, and tables with a GPT or a chain.
//!
//! It promises nothing, and nothing stands on it. It stands on run_fixtures, which makes the disks and the
//! runs, and on disk_base for checksums.
#![tactic(auto)]

#[cfg(test)]
mod wished_runs;
