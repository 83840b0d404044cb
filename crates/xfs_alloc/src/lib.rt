//! The free space of a group of an XFS volume.
//!
//! It is for whoever reads such a volume: [`free_of`] reads the tree of free runs by start and the one by count,
//! and answers the runs and the blocks of both trees ([`Free`]).
//!
//! It promises, exactly: free space is answered only where both trees have no fault, hold the same runs, have as
//! many blocks as the AGF says, and no block of them is claimed twice; and a reason only where it speaks against
//! the group. `specs/Free.antt` has what is seen and each rule, after the XFS Algorithms & Data Structures guide,
//! and `specs/FreeSpace.antt` the value that is answered. What is seen depends on the blocks of the two trees
//! alone ([`is_same_free`]).
//!
//! It stands on xfs_tree, for the trees and for claims, on xfs_super and on disk_base.
#![tactic(auto)]

mod claiming;
mod free;
mod judging;
mod laws;
mod reading;

pub use free::{Free, Shape};
pub use laws::{free_grows, is_same_free, no_free_reason};
pub use reading::free_of;
