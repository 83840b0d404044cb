//! All that is to be written to a target, and the writing of it.
//!
//! It promises upwards: [`carry_out`] writes a [`Writing`], in an order that leaves sector 0 of the target as zeros
//! until the rest stands. It takes no memory and answers Ok wherever no disk failed; the target is then the finished
//! one of `specs/Works.antt`. A stop at any moment leaves the target as it was, without a table, or finished.
//!
//! It stands on disk_base for disks and on run_copy for the copying.
#![tactic(auto)]

mod carrying;
mod sector_write;
mod writing;

pub use carrying::carry_out;
pub use run_copy::Transfer;
pub use sector_write::SectorWrite;
pub use writing::Writing;
