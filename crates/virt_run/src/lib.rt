//! A whole run of virt-resize or virt-sparsify, from the words to the status.
//!
//! It promises upwards: [`run`] does what the words ask for on two disks, tells on standard error how it ended, and
//! answers the status; `specs/Ran.antt` says what a run promises, in words of disks and text, `specs/Words.antt` what
//! the words mean and which jobs are served, and `specs/Lines.antt` what is told, byte by byte.
//!
//! It stands on words for the job that the words spell, on resize_core for the jobs of virt-resize, on run_end for how
//! a run ends, on layout_plan for why there is no plan, and on disk_base for disks and sinks.
#![tactic(auto)]

mod report;
mod running;
mod tool;

pub use running::run;
