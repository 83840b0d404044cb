//! What the physical volumes of a disk make together: groups of volumes, and what their logical volumes hold.
//!
//! It is for whoever looks at all partitions of a guest, once it is known what each of them holds by itself:
//! [`standings`] answers for each partition whether it stands alone, holds a group (its first member does), is a
//! later member of one, or isn't read, and why.
//!
//! It promises upwards: partitions whose metadata areas hold one text, byte for byte, are members of the group that the
//! text spells, or are all unread for its fault; each logical volume's runs on the disk, which lie apart, and what they
//! hold. `specs/Standing.antt` says what a partition is, `specs/Grouped.antt` what its group takes and where its
//! volumes stand; and [`one_standing`] is the law that there is one answer.
//!
//! It stands on partition_content for what a partition holds by itself, on lvm_text and lvm_group for texts and groups,
//! on group_runs for where volumes lie, on disk_view and volume_content for reading them, and on disk_base.
#![tactic(auto)]

mod laws;
mod members;
mod standing;
mod volumes;

pub use laws::one_standing;
pub use standing::standings;
pub use types::{FoundPartition, GroupContent, GroupVolume, Membership, Standing};

mod types;
