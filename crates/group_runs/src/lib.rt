//! Where the logical volumes of a group stand on a disk, whose partitions are the group's physical volumes.
//!
//! It promises upwards: [`disk_runs`] gives the runs of a volume as runs of the disk; and, as laws of every group
//! ([`volumes_lie_in_members`]), its volumes lie in its physical volumes, and where these lie apart on the disk, so do
//! the runs of all volumes; its physical volumes are some of those that were found, each once, and fit their partitions
//! ([`members_are_found`]). `specs/Places.antt` has the definitions, `specs/Laws.antt` the laws.
//!
//! It stands on lvm_group for groups, and on disk_base for runs.
#![tactic(auto)]

mod laws;
mod placing;

pub use laws::{members_are_found, volumes_lie_in_members};
pub use placing::disk_runs;
