//! What partitions are to each other.
use disk_base::Run;
use lvm_group::Group;
use partition_content::Found;
use volume_content::{Inner, Why};

/// A partition, and what it holds by itself.
#[derive(Drop)]
pub struct FoundPartition {
    pub number: u32,
    /// Its sectors on the disk.
    pub run: Run,
    pub found: Found,
}

/// A logical volume: where it stands on the disk, in its order, and what it holds.
#[derive(Drop)]
pub struct GroupVolume {
    pub runs: Vec<Run>,
    pub inner: Inner,
}

/// A group, and its logical volumes in its order.
#[derive(Drop)]
pub struct GroupContent {
    pub group: Group,
    pub volumes: Vec<GroupVolume>,
}

/// What a partition is in its group.
#[derive(Clone, Copy, Debug, PartialEq, Eq)]
pub struct Membership {
    /// The number of the partition that holds the group, which is its first member.
    pub holder: u32,
    /// How many of its sectors it has by the group's text.
    pub device: u64,
}

/// What a partition is among the others.
#[derive(Drop)]
pub enum Standing {
    /// It is no physical volume whose text is known.
    Alone,
    /// It holds a group, as its first member.
    Holder(Membership, GroupContent),
    /// It is a later member of a group.
    Member(Membership),
    /// It isn't read: its text, or the group that the text spells, has a fault.
    Unread(Why),
}

/// Why the partitions with a text make no group.
#[derive(Clone, Copy, Debug, PartialEq, Eq)]
pub(crate) enum Ungrouped {
    /// They aren't read, and why.
    Unread(Why),
    /// Memory was refused.
    Memory,
}
