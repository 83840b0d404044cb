//! Why an area has no text.
ghost use Rattle.std.specs.Prelude.{◌≡◌};
ghost use Rattle.lvm_label.specs.declared.fault.RingFault.TheVariants as faults;

use disk_base::Failed;
use std::alloc::{AllocError, AllocFailed};
use std::fmt;

/// Why an area has no text. The first that holds is named, but for `Place`, which also stands between `Empty`
/// and `Checksum`.
#[derive(Clone, Copy, Debug, PartialEq, Eq)]
pub enum RingFault {
    /// The area doesn't lie in the volume in whole sectors, or has fewer than 1024 bytes or more than 2^26; or
    /// its text begins outside the part behind the header, has no byte, or is longer than that part.
    Place,
    /// The area's first sector has a wrong checksum, magic or version, or names another place or length.
    Header,
    /// The text is to be ignored, by bit 0 of its flags.
    Ignored,
    /// No text is named: its offset and size are both zero.
    Empty,
    /// The text has another checksum.
    Checksum,
    /// The disk failed.
    Device,
    /// Memory was refused.
    Memory,
}

impl fmt::Display for RingFault {
    ghost use Rattle.std.specs.Prelude.{Some};
    ghost use Rattle.lvm_label.specs.Text.{ring_fault_text};

    ghost output = { λ fault. Some (ring_fault_text fault) };

    fn fmt<W: fmt::Write>(&self, f: &mut fmt::Formatter<W>) -> fmt::Result {
        match *self {
            RingFault::Place => write!(f, "Place"),
            RingFault::Header => write!(f, "Header"),
            RingFault::Ignored => write!(f, "Ignored"),
            RingFault::Empty => write!(f, "Empty"),
            RingFault::Checksum => write!(f, "Checksum"),
            RingFault::Device => write!(f, "Device"),
            RingFault::Memory => write!(f, "Memory"),
        }
    }
}

impl std::error::Error for RingFault {}

impl From<Failed> for RingFault {
    ghost from_gives = { λ _ fault. fault ≡ faults.Device };

    fn from(_failed: Failed) -> RingFault {
        RingFault::Device
    }
}

impl From<AllocError> for RingFault {
    ghost from_gives = { λ _ fault. fault ≡ faults.Memory };

    fn from(_refused: AllocError) -> RingFault {
        RingFault::Memory
    }
}

impl<T: Drop> From<AllocFailed<T>> for RingFault {
    ghost from_gives = { λ _ fault. fault ≡ faults.Memory };

    fn from(_refused: AllocFailed<T>) -> RingFault {
        RingFault::Memory
    }
}
