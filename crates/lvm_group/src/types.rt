//! What a text spells of a group.
use disk_base::{List, Name};
use lvm_label::Label;

/// A partition that has a label: one of those that `group_of` is handed.
#[derive(Clone, Copy, Debug, PartialEq, Eq)]
pub struct Member {
    /// The partition's number.
    pub part: u32,
    /// Its label.
    pub label: Label,
    /// Its length in sectors.
    pub sectors: u64,
}

/// A physical volume as a text spells it.
#[derive(Debug, Drop)]
pub struct PhysicalVolume {
    /// Its name in the text.
    pub name: Name,
    /// Its identifier, without marks.
    pub id: Name,
    /// Its `dev_size`, in sectors.
    pub size: u32,
    /// Its `pe_start`: the sector at which its first extent begins.
    pub start: u32,
    /// Its `pe_count`: how many extents it has.
    pub count: u32,
}

/// Where a segment lies: a physical volume, by its number in the text's order, and its first extent there.
#[derive(Clone, Copy, Debug, PartialEq, Eq)]
pub struct Stripe {
    pub member: usize,
    pub first: i64,
}

/// A segment of a logical volume.
#[derive(Clone, Copy, Debug, PartialEq, Eq)]
pub struct Segment {
    /// Its first extent in the volume.
    pub start: u32,
    /// How many extents it has.
    pub count: u32,
    /// Where it lies, where it is of the one kind that is known: striped over one physical volume.
    pub stripe: Option<Stripe>,
}

/// A logical volume as a text spells it.
#[derive(Debug, Drop)]
pub struct LogicalVolume {
    pub name: Name,
    pub segments: List<Segment>,
}

/// A group as a text spells it.
#[derive(Debug, Drop)]
pub struct Spelt {
    pub name: Name,
    /// Its `extent_size`, in sectors.
    pub extent: u32,
    pub physicals: List<PhysicalVolume>,
    pub logicals: List<LogicalVolume>,
}
