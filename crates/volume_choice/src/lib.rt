//! Which volumes of a guest a job names, to be ignored or zeroed; and whether the others can be read.
//!
//! It is for whoever gives up what a guest doesn't use: what is ignored stays as it is, what is zeroed goes whole, and all
//! else has to be read.
//!
//! It promises upwards: [`choices`] gives what the names of a job stand for in a guest, or says exactly why the job can't
//! be done with it: the first volume that must be read and can't, or the least place of a word whose volume isn't there.
//! [`Choices`] tells of each partition, logical volume and group whether it is ignored or zeroed.
//! `specs/Chosen.antt` says what a name stands for and what is ignored or zeroed then, `specs/Unread.antt` which volumes
//! must be read.
//!
//! It stands on guest_view for guests and on words for jobs.
#![tactic(auto)]

mod choosing;
mod chosen;
mod fault;
mod naming;
mod unread;

pub use choosing::choices;
pub use chosen::{Choices, Chosen};
pub use fault::{ChoiceFault, UnreadVolume};
