//! Doubles for tests of whole runs: disks with a table of MBR, built in memory, and runs over disks and sinks in
//! memory, with a call that fails where that is asked for.
//!
//! It is for the tests of the top call; no program stands on it. [`with_slots`] makes a disk, and [`after_run`] gives
//! what a run over two of them left. It promises nothing but how long the disks are that it makes.
//!
//! It stands on virt_run, which runs, and on disk_base for disks and sinks in memory.
#![tactic(auto)]

mod images;
mod runs;

pub use images::{Slot, are_all, filled, part, put, put_table, with_slots};
pub use runs::{Failing, Left, NONE, SOURCE, Seen, TARGET, after_run};
