//! Why a disk is no guest.
ghost use Rattle.std.specs.Prelude.{◌≡◌};
ghost use Rattle.guest_view.specs.Guests.{fault_of_content, fault_of_gpt, fault_of_mbr};
ghost use Rattle.guest_view.specs.declared.fault.InspectFault.TheVariants.{Device, Memory};

use disk_base::Failed;
use gpt_table::GptFault;
use mbr_table::MbrFault;
use std::alloc::AllocError;
use std::fmt;
use volume_content::ContentFault;

/// Why a disk is no guest. Numbers of slots, entries and partitions count from 1; `at` is a sector of 512 bytes.
#[derive(Clone, Copy, Debug, PartialEq, Eq)]
pub enum InspectFault {
    /// It has more than 2^31 sectors.
    TooLarge { sectors: u64 },
    /// It has no sector, or its sector 0 doesn't end with 55 AA.
    NoSignature,
    /// That slot or entry is the first bad one.
    Entry { number: u32 },
    /// The record of the chain in that sector is bad.
    Chain { at: u64 },
    /// The record in that sector would be the 61st of the chain.
    TooMany { at: u64 },
    /// Neither header of the GPT is valid.
    NoHeader,
    /// The header of the GPT is sound, and its array has another shape.
    Shape { count: u32, size: u32 },
    /// These are the first two partitions that share a sector.
    Overlap { a: u32, b: u32 },
    /// The disk failed.
    Device,
    /// Memory was refused.
    Memory,
}

impl InspectFault {
    /// What a fault of an MBR says of the disk.
    pub(crate) fn of_mbr(fault: MbrFault) -> InspectFault
        ensures { result ≡ fault_of_mbr fault }
    {
        match fault {
            MbrFault::NoSignature => InspectFault::NoSignature,
            MbrFault::Entry { number } => InspectFault::Entry { number },
            MbrFault::Chain { at } => InspectFault::Chain { at },
            MbrFault::TooMany { at } => InspectFault::TooMany { at },
            MbrFault::Device => InspectFault::Device,
            MbrFault::Memory => InspectFault::Memory,
        }
    }

    /// What a fault of a GPT says of the disk.
    pub(crate) fn of_gpt(fault: GptFault) -> InspectFault
        ensures { result ≡ fault_of_gpt fault }
    {
        match fault {
            GptFault::NoHeader => InspectFault::NoHeader,
            GptFault::Shape { count, size } => InspectFault::Shape { count, size },
            GptFault::Entry { number } => InspectFault::Entry { number },
            GptFault::Device => InspectFault::Device,
            GptFault::Memory => InspectFault::Memory,
        }
    }
}

impl From<ContentFault> for InspectFault {
    ghost from_gives = { λ fault told. told ≡ fault_of_content fault };

    fn from(fault: ContentFault) -> InspectFault {
        match fault {
            ContentFault::Device => InspectFault::Device,
            ContentFault::Memory => InspectFault::Memory,
        }
    }
}

impl From<Failed> for InspectFault {
    ghost from_gives = { λ _ fault. fault ≡ Device };

    fn from(_failed: Failed) -> InspectFault {
        InspectFault::Device
    }
}

impl From<AllocError> for InspectFault {
    ghost from_gives = { λ _ fault. fault ≡ Memory };

    fn from(_error: AllocError) -> InspectFault {
        InspectFault::Memory
    }
}

impl fmt::Display for InspectFault {
    ghost use Rattle.std.specs.Prelude.{Some};
    ghost use Rattle.guest_view.specs.FaultTexts.{inspect_text};

    ghost output = { λ fault. Some (inspect_text fault) };

    fn fmt<W: fmt::Write>(&self, f: &mut fmt::Formatter<W>) -> fmt::Result {
        match *self {
            InspectFault::TooLarge { sectors } => write!(f, "TooLarge sectors={sectors}"),
            InspectFault::NoSignature => f.write_str("NoSignature"),
            InspectFault::Entry { number } => write!(f, "Entry number={number}"),
            InspectFault::Chain { at } => write!(f, "Chain at={at}"),
            InspectFault::TooMany { at } => write!(f, "TooMany at={at}"),
            InspectFault::NoHeader => f.write_str("NoHeader"),
            InspectFault::Shape { count, size } => write!(f, "Shape count={count} size={size}"),
            InspectFault::Overlap { a, b } => write!(f, "Overlap a={a} b={b}"),
            InspectFault::Device => f.write_str("Device"),
            InspectFault::Memory => f.write_str("Memory"),
        }
    }
}

impl std::error::Error for InspectFault {}
