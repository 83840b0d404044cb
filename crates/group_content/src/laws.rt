//! What holds of all that partitions are among each other.
ghost use Rattle.group_content.specs.Laws.{OneStanding};

/// The law that a partition is one thing among the others of its disk. A call does nothing.
pub fn one_standing()
    ensures { OneStanding }
{}
