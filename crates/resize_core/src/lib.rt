//! Copies a disk to a larger or smaller one, with its partitions laid out anew.
//!
//! It promises upwards: [`resize`] does a whole job. It attaches both disks, reads what the source is, decides, prints
//! what it will do, writes, and says that it is done; `specs/Resizing.antt` says what a job means: which refusals are
//! due, what the target holds when the work is done, and what is printed.
//!
//! It stands on guest_view for what the source is, on layout_plan for the plan, on target_table for the target's
//! table, on target_work for the writing, and on run_end for how a run ends.
#![tactic(auto)]

mod copied;
mod growth;
mod job;
mod lines;
mod planning;
mod ready;
mod source;
mod writing;

pub use copied::{contents, placed_from};
pub use growth::stuck_parts;
pub use job::resize;
pub use lines::summary;
pub use planning::prepare;
pub use ready::Ready;
pub use source::{SourceDisk, read_source};
