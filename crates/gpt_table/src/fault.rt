//! Why a disk has no table.
ghost use Rattle.std.specs.Prelude.{◌≡◌};
ghost use Rattle.gpt_table.specs.declared.fault.GptFault.TheVariants as faults;

use disk_base::Failed;
use std::alloc::{AllocError, AllocFailed};
use thiserror::Error;

/// Why a disk has no table.
#[derive(Clone, Copy, Debug, PartialEq, Eq, Error)]
pub enum GptFault {
    /// Neither the primary header nor its backup is valid.
    #[error("NoHeader")]
    NoHeader,
    /// A sound header asks for another number of entries than 128, or for entries of another size than
    /// 128 bytes.
    #[error("Shape count={count} size={size}")]
    Shape { count: u32, size: u32 },
    /// That entry, counted from 1, is the first that ends before it starts or lies outside the usable
    /// sectors.
    #[error("Entry number={number}")]
    Entry { number: u32 },
    /// The disk failed.
    #[error("Device")]
    Device,
    /// Memory was refused.
    #[error("Memory")]
    Memory,
}

impl From<Failed> for GptFault {
    ghost from_gives = { λ _ fault. fault ≡ faults.Device };

    fn from(_failed: Failed) -> GptFault {
        GptFault::Device
    }
}

impl From<AllocError> for GptFault {
    ghost from_gives = { λ _ fault. fault ≡ faults.Memory };

    fn from(_refused: AllocError) -> GptFault {
        GptFault::Memory
    }
}

impl<T: Drop> From<AllocFailed<T>> for GptFault {
    ghost from_gives = { λ _ fault. fault ≡ faults.Memory };

    fn from(_refused: AllocFailed<T>) -> GptFault {
        GptFault::Memory
    }
}
