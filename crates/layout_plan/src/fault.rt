//! Why there is no plan.

ghost use Rattle.std.specs.Prelude.{◌≡◌};
ghost use Rattle.layout_plan.specs.declared.fault.NoPlan.TheVariants.{Memory};

use std::alloc::AllocError;
use std::fmt;

/// Why there is no plan. Sectors and ends are in sectors of the target; `part` is a number in the source,
/// `place` the index of the word that asks for what can't be.
#[derive(Clone, Copy, Debug, PartialEq, Eq)]
pub enum NoPlan {
    /// The target has no room for a table.
    TooSmall {
        sectors: u64,
    },
    /// The target has more than 2^31 sectors.
    TooLarge {
        sectors: u64,
    },
    /// No partition of the source has the number that is named.
    NoSuchPart {
        place: u64,
    },
    /// A partition is named twice.
    NamedTwice {
        place: u64,
    },
    /// The extended partition is named; its length follows from the logical ones.
    Extended {
        place: u64,
    },
    /// A partition would have no sector.
    Empty {
        part: u32,
    },
    /// A partition would be shorter than its content.
    WouldCut {
        part: u32,
        content: u64,
        wanted: u64,
    },
    /// The layout ends at `end`, behind the last sector that partitions may take.
    DoesNotFit {
        end: u64,
        limit: u64,
    },
    /// Nothing is left over for the partition that would take it.
    NoSurplus {
        limit: u64,
    },
    /// Nothing is lacking that a partition would have to give up.
    NoDeficit {
        end: u64,
    },
    /// Memory was refused.
    Memory,
}

impl From<AllocError> for NoPlan {
    ghost from_gives = { λ _ fault. fault ≡ Memory };

    fn from(_error: AllocError) -> NoPlan {
        NoPlan::Memory
    }
}

impl fmt::Display for NoPlan {
    ghost use Rattle.std.specs.Prelude.{Some};
    ghost use Rattle.layout_plan.specs.Texts.{no_plan_text};

    ghost output = { λ fault. Some (no_plan_text fault) };

    fn fmt<W: fmt::Write>(&self, f: &mut fmt::Formatter<W>) -> fmt::Result {
        match *self {
            NoPlan::TooSmall { sectors } => write!(f, "TooSmall sectors={sectors}"),
            NoPlan::TooLarge { sectors } => write!(f, "TooLarge sectors={sectors}"),
            NoPlan::NoSuchPart { place } => write!(f, "NoSuchPart place={place}"),
            NoPlan::NamedTwice { place } => write!(f, "NamedTwice place={place}"),
            NoPlan::Extended { place } => write!(f, "Extended place={place}"),
            NoPlan::Empty { part } => write!(f, "Empty part={part}"),
            NoPlan::WouldCut {
                part,
                content,
                wanted,
            } => write!(f, "WouldCut part={part} content={content} wanted={wanted}"),
            NoPlan::DoesNotFit { end, limit } => write!(f, "DoesNotFit end={end} limit={limit}"),
            NoPlan::NoSurplus { limit } => write!(f, "NoSurplus limit={limit}"),
            NoPlan::NoDeficit { end } => write!(f, "NoDeficit end={end}"),
            NoPlan::Memory => f.write_str("Memory"),
        }
    }
}

impl std::error::Error for NoPlan {}
