//! Copies a disk without its free sectors to a blank disk of the same size.
//!
//! It promises upwards: [`copy_out`] takes no memory and answers Ok wherever no disk failed. The target then
//! holds zeros in the free sectors and what the source holds elsewhere, all of it lasting, and was written at
//! most once for each piece of what is kept that isn't all zero.
//!
//! It stands on disk_base for disks, on run_set for the free sectors, and on run_copy for the copying.
#![tactic(auto)]

mod copying;

pub use copying::copy_out;
