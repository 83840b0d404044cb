//! Why a disk has no table.
ghost use Rattle.std.specs.Prelude.{◌≡◌};
ghost use Rattle.mbr_table.specs.declared.fault.MbrFault.TheVariants as faults;

use disk_base::Failed;
use std::alloc::AllocFailed;
use thiserror::Error;

/// Why a disk has no table.
#[derive(Clone, Copy, Debug, PartialEq, Eq, Error)]
pub enum MbrFault {
    /// The disk has no sector, or its sector 0 doesn't end with 55 AA.
    #[error("NoSignature")]
    NoSignature,
    /// That slot, counted from 1, is the first that starts at sector 0, ends past the disk, or holds a
    /// second extended partition.
    #[error("Entry number={number}")]
    Entry { number: u32 },
    /// The extended boot record in that sector lies outside the extended partition, came before in the
    /// chain, doesn't end with 55 AA, or has a logical partition that starts at it or ends outside.
    #[error("Chain at={at}")]
    Chain { at: u64 },
    /// The extended boot record in that sector would be the 61st of its chain.
    #[error("TooMany at={at}")]
    TooMany { at: u64 },
    /// The disk failed.
    #[error("Device")]
    Device,
    /// Memory was refused.
    #[error("Memory")]
    Memory,
}

impl From<Failed> for MbrFault {
    ghost from_gives = { λ _ fault. fault ≡ faults.Device };

    fn from(_failed: Failed) -> MbrFault {
        MbrFault::Device
    }
}

impl<T: Drop> From<AllocFailed<T>> for MbrFault {
    ghost from_gives = { λ _ fault. fault ≡ faults.Memory };

    fn from(_refused: AllocFailed<T>) -> MbrFault {
        MbrFault::Memory
    }
}
