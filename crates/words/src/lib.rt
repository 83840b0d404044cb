//! The command line of both tools.
//!
//! It promises upwards: [`read_words`] answers any list of words, whatever their bytes. It gives the job that
//! `job_of` of `specs/JobOf.antt` gives, and where that gives a fault, this very fault with its place.
//! Only want of memory may come instead. The definition divides the words into items, judges each item by
//! itself and by those before it, and collects the job from them; `specs/Options.antt` has the table of
//! options, `specs/Spelling.antt` and `specs/Sizes.antt` what the values spell.
//!
//! It stands on layout_plan's wishes, and on the lists and names of disk_base. It opens nothing and prints
//! nothing.
#![tactic(auto)]

mod faults;
mod items;
mod job;
mod options;
mod reader;
mod size;
mod spelling;
mod usage;
mod wishes;

pub use job::{Job, LvWish, ResizeJob, SparsifyJob, Unknown, VolumeName, VolumeWish};
pub use reader::read_words;
pub use usage::Usage;
