//! The inodes of an XFS volume, the extents of their forks, and what their files contain.
//!
//! It is for whoever reads such a volume: [`chunks_of`] reads the tree of a group's chunks of inodes, [`read_inode`]
//! one inode, [`inode_in`] one whose block was read already, [`extents_of`] the extents of one of its forks, and
//! [`content_at`] a piece of what it contains, at once whatever the size of the file.
//!
//! It promises, exactly: each of the first four answers only where no reason speaks against what it read, and a
//! reason only where it does; chunks and extents claim just the blocks of their trees and their own, none twice; and
//! the bytes of a content are those of the extents, zeros where there is none. What is seen of an inode is a value
//! that has all its blocks, of which all else is a function: `specs/Core.antt`, `specs/Seen.antt` and
//! `specs/Chunks.antt` have it, after the XFS Algorithms & Data Structures guide, `specs/Inode.antt` and
//! `specs/ForkReading.antt` the reasons, and `specs/Content.antt` the content. It depends on the blocks that it claims
//! alone ([`inodes_stand_in_claims`]).
//!
//! It stands on xfs_tree, for trees, extents and claims, on xfs_super and on disk_base.
#![tactic(auto)]

mod bytes;
mod chunk;
mod chunks;
mod claiming;
mod content;
mod core_fields;
mod extent;
mod extents;
mod fork;
mod inode;
mod laws;
mod place;
mod search;
mod target;

pub use chunk::{chunk_block, inode_number, inodes_in_block, is_allocated, is_hole};
pub use chunks::chunks_of;
pub use claiming::told;
pub use content::content_at;
pub use core_fields::Core;
pub use extents::extents_of;
pub use inode::{inode_in, read_inode};
pub use laws::{content_is_read, inodes_stand_in_claims, inodes_stay_in_growth, no_inode_reason};
pub use place::lies_in_volume;
