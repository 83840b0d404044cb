//! The whole check of an XFS volume.
//!
//! It is for whoever stands on such a volume: [`check`] reads all of its metadata, once, and answers Ok only where the
//! volume is valid, and a reason only where it speaks against the volume.
//!
//! It promises upwards, besides: what is free in a valid volume carries no file. Whatever its free blocks hold, it is
//! valid, has the same blocks free, and has the same file at each path, with all its bytes, attributes and times.
//! And a valid volume lies in the blocks that its superblock counts: on any disk that begins with them and has room for
//! them, it is the same.
//!
//! What is seen of a volume is a value that has each block which the check stands on: `specs/Seen.antt` has it, after the
//! XFS Algorithms & Data Structures guide. All else is a function of that value: `specs/Parts.antt` says which blocks
//! have a use, `specs/Valid.antt` when the volume is valid and which reasons speak against it, and `specs/Frame.antt`
//! which files it has.
//!
//! It stands on xfs_super, xfs_tree, xfs_alloc, xfs_inode, xfs_files and xfs_log, for the parts of a volume, on run_set,
//! for sets of blocks, and on disk_base.
#![tactic(auto)]

mod checking;
mod chunks;
mod claims;
mod group;
mod groups;
mod head;
mod inode;
mod inodes;
mod laws;
mod space;
mod unmount;
mod volume;

pub use checking::check;
pub use laws::{
    blocks_hold_volume, free_holds_nothing, groups_stay_in_growth, no_reason_against_valid,
};
pub use volume::Volume;
