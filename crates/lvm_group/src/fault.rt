//! Why a text and the members that were found are no group.
ghost use Rattle.std.specs.Prelude.{◌≡◌};
ghost use Rattle.lvm_group.specs.declared.fault.GroupFault.TheVariants as faults;

use std::alloc::AllocError;
use std::fmt;

/// Why a text and the members that were found are no group. The faults are tried in this order, and `lv` is the number
/// of the first volume that has the fault, counted from 0 in the text's order.
#[derive(Clone, Copy, Debug, PartialEq, Eq)]
pub enum GroupFault {
    /// There isn't one section at the top; a needed value is missing, of another kind, negative or above 2^31; a name
    /// begins with `-`; the size of an extent is 0; or a physical volume or its extents end behind its partition.
    Field,
    /// The text names no physical volume, or others than those that were found; or one of these has no metadata area or
    /// more than two.
    Members,
    /// A segment of that volume isn't striped over one physical volume.
    Kind { lv: u32 },
    /// The segments of that volume don't follow one another from extent 0, one has no extent or leaves its physical
    /// volume, or one shares an extent with an earlier one of this or an earlier volume.
    Segments { lv: u32 },
    /// Memory was refused, or the text names 2^32 volumes.
    Memory,
}

impl fmt::Display for GroupFault {
    ghost use Rattle.std.specs.Prelude.{Some};
    ghost use Rattle.lvm_group.specs.Text.{group_fault_text};

    ghost output = { λ fault. Some (group_fault_text fault) };

    fn fmt<W: fmt::Write>(&self, f: &mut fmt::Formatter<W>) -> fmt::Result {
        match *self {
            GroupFault::Field => write!(f, "Field"),
            GroupFault::Members => write!(f, "Members"),
            GroupFault::Kind { lv } => write!(f, "Kind lv={lv}"),
            GroupFault::Segments { lv } => write!(f, "Segments lv={lv}"),
            GroupFault::Memory => write!(f, "Memory"),
        }
    }
}

impl std::error::Error for GroupFault {}

impl From<AllocError> for GroupFault {
    ghost from_gives = { λ _ fault. fault ≡ faults.Memory };

    fn from(_refused: AllocError) -> GroupFault {
        GroupFault::Memory
    }
}
