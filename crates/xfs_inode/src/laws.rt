//! What holds of the inodes of a volume.
ghost use Rattle.xfs_inode.specs.Laws.{InodesStandInClaims, ContentIsRead, InodesStayInGrowth, NoInodeReason};

/// The law that a fork, an inode and the chunks of a group as they are seen depend on the blocks that they claim
/// alone, and an inode on the block that it stands in. A call does nothing.
pub fn inodes_stand_in_claims()
    ensures { InodesStandInClaims }
{}

/// The law that an inode as it is seen contains what its blocks hold. A call does nothing.
pub fn content_is_read()
    ensures { ContentIsRead }
{}

/// The law that growth leaves each inode, and the chunks of each group, as they are seen. A call does nothing.
pub fn inodes_stay_in_growth()
    ensures { InodesStayInGrowth }
{}

/// The law that no reason speaks against a sound fork, against sound chunks or against a sound inode. A call does
/// nothing.
pub fn no_inode_reason()
    ensures { NoInodeReason }
{}
