//! Why a job can't be done with a guest.
use volume_content::Why;

/// A volume that must be read and can't.
#[derive(Clone, Copy, Debug, PartialEq, Eq)]
pub struct UnreadVolume {
    /// The number of its partition, or of the one that holds its group.
    pub part: u32,
    /// The place of a logical volume in its group.
    pub lv: Option<u32>,
    pub why: Why,
}

/// Why a job can't be done with a guest.
#[derive(Clone, Copy, Debug, PartialEq, Eq)]
pub enum ChoiceFault {
    /// That volume, the first by partition and then by its group's order, must be read and can't.
    Volume(UnreadVolume),
    /// The volume that the word of that place names isn't there.
    NoSuchVolume { place: u64 },
    /// Memory was refused.
    Memory,
}
