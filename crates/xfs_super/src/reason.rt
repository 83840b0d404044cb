//! Why a volume isn't valid.
ghost use Rattle.std.specs.Prelude.{◌≡◌};
ghost use Rattle.xfs_super.specs.declared.reason.CheckFault.TheVariants as faults;

use disk_base::Failed;
use std::alloc::{AllocError, AllocFailed};
use std::error::Error;
use std::fmt;

/// Why a check of a volume gives no volume.
#[derive(Clone, Copy, Debug, PartialEq, Eq)]
pub enum CheckFault {
    /// The volume isn't valid, for that reason.
    Bad(Reason),
    /// The disk failed.
    Device,
    /// Memory was refused.
    Memory,
}

/// Why a volume isn't valid, or has a feature that isn't served. A `sector` has 512 bytes and counts from the
/// start of the volume; a `block` beside a `group` counts from the start of the group.
#[derive(Clone, Copy, Debug, PartialEq, Eq)]
pub enum Reason {
    /// The sizes in the superblock contradict one another or the volume, or aren't served.
    Geometry,
    /// The file system isn't of version 5 with file types, or has a feature that isn't known.
    Feature,
    /// Files may share blocks.
    Reflink,
    /// There is a tree of the owners of blocks.
    ReverseMap,
    /// There is a part for real-time files.
    RealTime,
    /// The log is kept on another device.
    ExternalLog,
    /// The file system was marked as one that has to be repaired.
    NeedsRepair,
    /// The file system wasn't made to the end.
    InProgress,
    /// The superblock or a header of a group, which begins at that sector, has a wrong checksum.
    Checksum { sector: u64 },
    /// One of these doesn't say what it must.
    Header { sector: u64 },
    /// A block of a tree isn't what it must be.
    Tree { group: u32, block: u32 },
    /// The two trees of the free space of a group hold other records.
    FreeTreesDiffer { group: u32 },
    /// A group stores another number of free blocks than its tree has.
    FreeCount { group: u32, stored: u32, found: u64 },
    /// An inode, or the chunk that begins with it, isn't what it must be.
    Inode { ino: u64 },
    /// An extent of that inode lies outside its group or out of order.
    Extent { ino: u64 },
    /// A block of that directory, counted in the file, spells no entries.
    Directory { ino: u64, block: u64 },
    /// A block of the volume has two uses.
    ClaimedTwice { block: u64 },
    /// The log isn't ended by an unmount.
    DirtyLog,
    /// The log has no record.
    LogShape,
}

impl fmt::Display for Reason {
    ghost use Rattle.std.specs.Prelude.{Some};
    ghost use Rattle.xfs_super.specs.Text.{reason_text};

    ghost output = { λ reason. Some (reason_text reason) };

    fn fmt<W: fmt::Write>(&self, f: &mut fmt::Formatter<W>) -> fmt::Result {
        match *self {
            Reason::Geometry => write!(f, "Geometry"),
            Reason::Feature => write!(f, "Feature"),
            Reason::Reflink => write!(f, "Reflink"),
            Reason::ReverseMap => write!(f, "ReverseMap"),
            Reason::RealTime => write!(f, "RealTime"),
            Reason::ExternalLog => write!(f, "ExternalLog"),
            Reason::NeedsRepair => write!(f, "NeedsRepair"),
            Reason::InProgress => write!(f, "InProgress"),
            Reason::Checksum { sector } => write!(f, "Checksum sector={sector}"),
            Reason::Header { sector } => write!(f, "Header sector={sector}"),
            Reason::Tree { group, block } => write!(f, "Tree group={group} block={block}"),
            Reason::FreeTreesDiffer { group } => write!(f, "FreeTreesDiffer group={group}"),
            Reason::FreeCount {
                group,
                stored,
                found,
            } => write!(f, "FreeCount group={group} stored={stored} found={found}"),
            Reason::Inode { ino } => write!(f, "Inode ino={ino}"),
            Reason::Extent { ino } => write!(f, "Extent ino={ino}"),
            Reason::Directory { ino, block } => write!(f, "Directory ino={ino} block={block}"),
            Reason::ClaimedTwice { block } => write!(f, "ClaimedTwice block={block}"),
            Reason::DirtyLog => write!(f, "DirtyLog"),
            Reason::LogShape => write!(f, "LogShape"),
        }
    }
}

impl Error for Reason {}

impl fmt::Display for CheckFault {
    ghost use Rattle.std.specs.Prelude.{Some};
    ghost use Rattle.xfs_super.specs.Text.{fault_text};

    ghost output = { λ fault. Some (fault_text fault) };

    fn fmt<W: fmt::Write>(&self, f: &mut fmt::Formatter<W>) -> fmt::Result {
        match self {
            CheckFault::Bad(reason) => write!(f, "{reason}"),
            CheckFault::Device => write!(f, "Device"),
            CheckFault::Memory => write!(f, "Memory"),
        }
    }
}

impl Error for CheckFault {}

impl From<Reason> for CheckFault {
    ghost from_gives = { λ reason fault. fault ≡ faults.Bad reason };

    fn from(reason: Reason) -> CheckFault {
        CheckFault::Bad(reason)
    }
}

impl From<Failed> for CheckFault {
    ghost from_gives = { λ _ fault. fault ≡ faults.Device };

    fn from(_failed: Failed) -> CheckFault {
        CheckFault::Device
    }
}

impl From<AllocError> for CheckFault {
    ghost from_gives = { λ _ fault. fault ≡ faults.Memory };

    fn from(_refused: AllocError) -> CheckFault {
        CheckFault::Memory
    }
}

impl<T: Drop> From<AllocFailed<T>> for CheckFault {
    ghost from_gives = { λ _ fault. fault ≡ faults.Memory };

    fn from(_refused: AllocFailed<T>) -> CheckFault {
        CheckFault::Memory
    }
}
