//! The superblock of an XFS volume, and the headers of its groups.
//!
//! It is for whoever reads such a volume: it says what the superblock, and the AGF, AGI and AGFL of a group
//! spell, where groups and blocks lie, and why a volume can't be served or isn't valid. Its functions take
//! bytes and give values; none of them touches a disk.
//!
//! It promises, exactly: a superblock or a header is answered only where no [`Reason`] speaks against it, with
//! its fields, and a reason only where that one does; and a [`Super`] agrees with itself, whoever makes it.
//! `specs/Superblock.antt` and `specs/Headers.antt` have each field and each rule, after the XFS Algorithms &
//! Data Structures guide, for file systems of version 5 with blocks of 4096 bytes.
//!
//! It stands on disk_base, for numbers in bytes and for checksums, and on block_claims for what a block is.
#![tactic(auto)]

mod agf;
mod agfl;
mod agi;
mod bytes;
mod geometry;
mod header;
mod laws;
mod reason;
mod superblock;

pub use agf::{Agf, agf_of};
pub use agfl::{agfl_entry, agfl_of, used_entry, used_of};
pub use agi::{Agi, agi_of};
pub use geometry::Super;
pub use laws::{
    facts_are_tests, groups_are_the_volume, headers_stand_in_blocks, sound_without_a_reason,
};
pub use reason::{CheckFault, Reason};
pub use superblock::super_of;
