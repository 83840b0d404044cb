//! What holds of the free space of a group.
ghost use Rattle.xfs_alloc.specs.Laws.{NoFreeReason, IsSameFree, FreeGrows};

/// The law that no reason speaks against sound free space. A call does nothing.
pub fn no_free_reason()
    ensures { NoFreeReason }
{}

/// The law that what is seen of the free space of a group depends on the blocks of its trees alone. A call does
/// nothing.
pub fn is_same_free()
    ensures { IsSameFree }
{}

/// The law that a volume which grew shows the same free space in its old groups, and that the trees stay sound.
/// A call does nothing.
pub fn free_grows()
    ensures { FreeGrows }
{}
