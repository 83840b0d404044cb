//! The group of volumes that a text of LVM2 spells, over the partitions that were found.
//!
//! It promises upwards: [`group_of`] gives the group that a tree spells, or the first fault, both exactly; a [`Group`]
//! gives its names, its physical volumes, its logical volumes as runs of sectors, and the extents that are in none.
//! `specs/Spelt.antt` says what items spell, `specs/Judged.antt` what each fault is, `specs/Volumes.antt` where volumes
//! lie, `specs/Free.antt` what is free, and `specs/Answer.antt` what is answered.
//!
//! It stands on lvm_text for trees, on lvm_label for labels, and on disk_base for lists and names. The fields are those
//! of the LVM2 metadata text format; segments are striped over one physical volume, and numbers are at most 2^31.
//! Names and extents are looked up in ordered maps, so the work grows by little more than the length of the text.
#![tactic(auto)]

mod fault;
mod free;
mod group;
mod judged;
mod known;
mod lookup;
mod names;
mod order;
mod part;
mod reading;
mod span;
mod spans;
mod spelt;
mod taken;
mod types;
mod values;

pub use fault::GroupFault;
pub use group::Group;
pub use reading::group_of;
pub use types::Member;
