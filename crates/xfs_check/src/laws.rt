//! What holds of every volume.
ghost use Rattle.xfs_check.specs.Laws.{NoReasonAgainstValid, FreeHoldsNothing, BlocksHoldVolume, GroupsStayInGrowth};

/// The law that no reason speaks against a valid volume. A call does nothing.
pub fn no_reason_against_valid()
    ensures { NoReasonAgainstValid }
{}

/// The law that what is free in a valid volume carries no file. A call does nothing.
pub fn free_holds_nothing()
    ensures { FreeHoldsNothing }
{}

/// The law that a valid volume lies in the blocks that its superblock counts: it is the same on any disk that begins with
/// them and has room for them. A call does nothing.
pub fn blocks_hold_volume()
    ensures { BlocksHoldVolume }
{}

/// The law that growth leaves each group as it is seen. A call does nothing.
pub fn groups_stay_in_growth()
    ensures { GroupsStayInGrowth }
{}
