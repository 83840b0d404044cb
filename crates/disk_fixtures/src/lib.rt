//! Doubles for tests: what stands on disks, built in memory.
//!
//! It is for the tests of the crates that read disks; no program stands on it. [`Built`] is a volume that is changed
//! byte by byte; [`Built::whole`] makes a valid one, with a file of each kind. It promises nothing of what it builds,
//! but that each checksum of a header, a block and an inode is right (`specs/Sums.antt`): what is right is judged by
//! the crates under test, and by the bytes of `mkfs.rt`, which other programs wrote.
//!
//! It stands on disk_base.
#![tactic(auto)]

mod built;
mod directory;
mod fork;
mod inode;
mod leaf;
mod mkfs;
mod space;
mod tree;
mod whole;
mod xfs;

pub use built::Built;
pub use directory::{StoredEntry, entry_block, short_form};
pub use fork::{
    ExtentLeaf, StoredAttribute, StoredExtent, attribute_block, listed, rooted, target_block,
};
pub use inode::StoredInode;
pub use leaf::{GroupLeaf, StoredChunk};
pub use mkfs::INODE_512;
pub use space::USED_RUNS;
pub use tree::{IDENTITY, TreeBlock};
pub use whole::{
    AWAY, DEVICE, DIRECTORY, FAR_LINK, FILE, NEAR_LINK, NOTED, PIPE, ROOT, SIZES, TREE, data_byte,
};
pub use xfs::{Header, Volume, made, resum};
