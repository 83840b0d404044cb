//! The jobs that a command line may ask for.
use disk_base::{List, Name};
use layout_plan::{Layout, Wish};

/// What the command line asks for.
#[derive(Debug, Drop)]
pub enum Job {
    /// The first word was `virt-resize`.
    Resize(ResizeJob),
    /// The first word was `virt-sparsify`.
    Sparsify(SparsifyJob),
}

/// A copy of a disk with its partitions laid out anew.
#[derive(Debug, Drop)]
pub struct ResizeJob {
    /// The disk that is read.
    pub source: Name,
    /// The disk that is written.
    pub target: Name,
    /// What is wished of partitions, in the order of the words.
    pub wishes: List<Wish>,
    /// How the partitions are laid out.
    pub layout: Layout,
    /// The logical volumes to expand, in the order of the words.
    pub lvs: List<LvWish>,
    /// Whether the boot area is copied.
    pub boot: bool,
    /// Whether contents grow with their partitions.
    pub grow: bool,
    /// What is done about a content that can't grow.
    pub unknown: Unknown,
    /// Whether pieces that are all zero are left unwritten.
    pub sparse: bool,
    /// Whether nothing is written at all.
    pub dry: bool,
    /// Whether nothing is printed.
    pub quiet: bool,
}

/// A logical volume to expand. `place` is the index of the word that holds the option's value.
#[derive(Debug, Drop)]
pub struct LvWish {
    pub place: u64,
    pub group: Name,
    pub lv: Name,
}

/// What is done about a content that should grow and can't.
#[derive(Clone, Copy, Debug, PartialEq, Eq)]
pub enum Unknown {
    /// It stays as it is.
    Ignore,
    /// It stays as it is, and the summary says so.
    Warn,
    /// The job is refused.
    Error,
}

/// A copy of a disk without its free sectors, or a disk whose free sectors are given back.
#[derive(Debug, Drop)]
pub struct SparsifyJob {
    /// The disk that is read.
    pub source: Name,
    /// The disk that is written, or none where the source itself is.
    pub target: Option<Name>,
    /// The volumes whose contents aren't looked into, in the order of the words.
    pub ignore: List<VolumeWish>,
    /// The volumes whose contents are left out, in the order of the words.
    pub zero: List<VolumeWish>,
    /// Whether nothing is printed.
    pub quiet: bool,
}

/// A volume that an option names. `place` is the index of the word that holds the option's value.
#[derive(Debug, Drop)]
pub struct VolumeWish {
    pub place: u64,
    pub volume: VolumeName,
}

/// How a volume is named.
#[derive(Debug, Drop)]
pub enum VolumeName {
    /// A partition, by its number.
    Part(u32),
    /// A logical volume, by its group and its own name.
    Lv(Name, Name),
    /// A whole group.
    Group(Name),
}
