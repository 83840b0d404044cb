//! What holds of every tree.
ghost use Rattle.xfs_tree.specs.Laws.{FaultsExclude, ForkFaultsExclude, IsOneTree, AreSameSights, Grows, AreJoined, AreAllInOrder};

use crate::record::Record;

/// The law that a tree excludes each fault but those that say nothing of it. A call does nothing.
pub fn faults_exclude<R: Record>()
    ensures { FaultsExclude R.form }
{}

/// The law that the tree of a fork excludes each fault but those that say nothing of it. A call does nothing.
pub fn fork_faults_exclude<R: Record>()
    ensures { ForkFaultsExclude R.form }
{}

/// The law that what is seen has one list of records at most. A call does nothing.
pub fn is_one_tree<R: Record>()
    ensures { IsOneTree R.form }
{}

/// The law that what is seen of a tree depends on the blocks that are seen alone. A call does nothing.
pub fn are_same_sights<R: Record>()
    ensures { AreSameSights R.form }
{}

/// The law that a volume which grew shows the same trees, and that they stay sound. A call does nothing.
pub fn grows<R: Record>()
    ensures { Grows R.form }
{}

/// The law that a tree is the join of the trees at its root's pointers. A call does nothing.
pub fn are_joined<R: Record>()
    ensures { AreJoined R.form }
{}

/// The law that records which are in order one by one are so at any distance. A call does nothing.
pub fn are_all_in_order<R: Record>()
    ensures { AreAllInOrder R.form }
{}
