//! Which sectors of a guest's disk are free: what its volumes don't use, what its groups haven't given out, and what a job
//! zeroes; without what the job ignores.
//!
//! It is for whoever gives the free sectors of a disk back, by leaving them out of a copy or in place.
//!
//! It promises upwards: [`free_runs`] gives exactly those sectors, as a set, each on the disk. `specs/Free.antt` says which
//! they are.
//!
//! It stands on guest_view for guests and on the crates of what they hold, on volume_choice for what a job names of them,
//! and on run_set for sets.
#![tactic(auto)]

mod freeing;
mod group;
mod logical;
mod part;
mod putting;
mod volume;

pub use freeing::free_runs;
