//! How a run ends, whatever the tool.
//!
//! It promises upwards: [`End`], every way in which a run ends, by phases, and the status of each;
//! `specs/Ending.antt` says what each end promises of the disks and streams, given what the job means, and
//! names no tool. A tool gives a `Meaning` and shows that at most one status is due of it.
//!
//! It stands on disk_base for disks, on words for what is wrong with words, on guest_view for why a disk is no
//! guest, on volume_content for why a content isn't read, and on layout_plan for why there is no plan.
#![tactic(auto)]

mod end;

pub use end::{End, Failing, Refusal, SourceFault, VolumeFault, status_of};
