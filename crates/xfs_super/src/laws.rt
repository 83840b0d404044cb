//! What holds of the definitions.
ghost use Rattle.xfs_super.specs.Laws.{NoReasonSpeaks, NoReasonIsLeft, HeadersStandInBlocks, FactsAreTests, GroupsAreTheVolume};

/// The law that a superblock or a header is sound exactly where no reason speaks against it. A call does
/// nothing.
pub fn sound_without_a_reason()
    ensures excluded { NoReasonSpeaks }
    ensures nothing_else { NoReasonIsLeft }
{}

/// The law that the sector of a header stands in a block of the volume, so that what is seen of a volume by its
/// blocks is what was read of it by sectors. A call does nothing.
pub fn headers_stand_in_blocks()
    ensures { HeadersStandInBlocks }
{}

/// The law that the facts of a [`crate::Super`] on its groups and its log say what the tests of a superblock
/// say. A call does nothing.
pub fn facts_are_tests()
    ensures { FactsAreTests }
{}

/// The law that the groups of a volume are the volume: each lies inside it and has room for its headers, and
/// each block is one of a group. A call does nothing.
pub fn groups_are_the_volume()
    ensures { GroupsAreTheVolume }
{}
