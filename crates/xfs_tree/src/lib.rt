//! The trees of records in an XFS volume: of free space, of inodes, and of the extents of a file.
//!
//! It is for whoever reads such a volume: [`walk`] reads the tree of a group, and [`walk_fork`] the one whose
//! root stands in an inode, of any kind of [`Record`]; each block is read once, and claimed in a [`Mark`].
//!
//! It promises, exactly: records are answered only where no fault holds of any block of the tree, they are those
//! of its leaves in order, and just the tree's blocks were claimed; and each fault that is answered holds of the
//! block that it names. `specs/Block.antt`, `specs/Tree.antt` and `specs/Fork.antt` have what is seen of a tree
//! and each rule, after the XFS Algorithms & Data Structures guide; `specs/Records.antt` the records. What is
//! seen depends on the tree's blocks alone, and stays when the volume grows ([`are_same_sights`], [`grows`]).
//!
//! It stands on xfs_super, for the volume and its groups, on block_claims for claims, and on disk_base.
#![tactic(auto)]

mod block;
mod chunk;
mod claiming;
mod extent;
mod fault;
mod fork;
mod free_run;
mod laws;
mod mark;
mod record;
mod row;
mod sparse_chunk;
mod taking;
mod walking;

pub use chunk::{Chunk, FreeChunk};
pub use claiming::claim_run;
pub use extent::Extent;
pub use fault::TreeFault;
pub use fork::walk_fork;
pub use free_run::{ByCount, ByStart};
pub use laws::{
    are_all_in_order, are_joined, are_same_sights, faults_exclude, fork_faults_exclude, grows,
    is_one_tree,
};
pub use mark::Mark;
pub use record::Record;
pub use sparse_chunk::{FreeSparseChunk, SparseChunk};
pub use walking::{Walked, walk, walk_levels};
