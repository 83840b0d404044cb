//! What a disk is: its partition table, its partitions by number, and what each of them holds.
//!
//! It promises upwards: [`inspect`] gives the guest that a disk spells, or says exactly why it spells none;
//! [`one_guest`] is the law that there is one answer, and [`contents_stay`] that what partitions hold is the same wherever
//! their sectors are. A [`Guest`] holds what a plan asks of a source, and of each
//! partition what it holds: XFS, swap, a group of LVM2 with its logical volumes, or what isn't read, and why.
//! `specs/Guests.antt` says what the guest of a disk is, `specs/Partitions.antt` which partitions a table names,
//! `specs/Contents.antt` what they hold and how many sectors they need.
//!
//! It stands on disk_base for disks, on mbr_table and gpt_table for their tables, on layout_plan for roles, on
//! partition_content for what a partition holds by itself, and on group_content for what partitions are to each other.
#![tactic(auto)]

mod clash;
mod content;
mod fault;
mod finding;
mod guest;
mod holding;
mod inspecting;
mod laws;
mod partition;
mod partitions;
mod table;

pub use content::Content;
pub use fault::InspectFault;
pub use guest::{Guest, GuestPart};
pub use inspecting::inspect;
pub use laws::{contents_stay, one_guest};
pub use partition::Partition;
pub use table::Table;
