//! The partitions of a source, and where a plan places them.
ghost use Rattle.std.specs.Prelude.{◌≡◌};
ghost use Rattle.layout_plan.specs.Roles.{is_extended_role, is_logical, same_class};

/// The kind of a partition table.
#[derive(Clone, Copy, Debug, PartialEq, Eq)]
pub enum Kind {
    Mbr,
    Gpt,
}

/// What a partition is in its table: an MBR slot or a GPT entry, the extended slot of an MBR, or a logical
/// partition inside that.
#[derive(Clone, Copy, Debug, PartialEq, Eq)]
pub enum Role {
    Slot,
    Extended,
    Logical,
}

impl Role {
    /// Whether it is the extended slot.
    pub(crate) fn is_extended(self) -> bool
        ensures { result ≡ is_extended_role self }
    {
        matches!(self, Role::Extended)
    }

    /// Whether it is a logical partition.
    pub(crate) fn is_logical(self) -> bool
        ensures { result ≡ is_logical self }
    {
        matches!(self, Role::Logical)
    }
}

/// A partition of the source, in sectors; `content` is how many of them its content needs.
#[derive(Clone, Copy, Debug, PartialEq, Eq)]
pub struct Part {
    pub number: u32,
    pub role: Role,
    pub start: u64,
    pub count: u64,
    pub content: u64,
}

impl Part {
    /// Whether another part is numbered with this one.
    pub(crate) fn is_of_class(&self, other: &Part) -> bool
        ensures { result ≡ same_class self.now other.now }
    {
        if self.role.is_logical() {
            other.role.is_logical()
        } else {
            !other.role.is_logical()
        }
    }
}

/// A partition of the target, in sectors. `from` is its number in the source, or 0 for one that the source
/// hasn't; `ebr` is the sector of its extended boot record, or 0 where there is none.
#[derive(Clone, Copy, Debug, PartialEq, Eq)]
pub struct Placed {
    pub from: u32,
    pub number: u32,
    pub ebr: u64,
    pub start: u64,
    pub count: u64,
    pub fate: Fate,
}

/// What becomes of a partition that is made on the target.
#[derive(Clone, Copy, Debug, PartialEq, Eq)]
pub enum Fate {
    /// Its length stays.
    Kept,
    /// Its length differs.
    Resized,
    /// Its content isn't copied.
    Ignored,
    /// It is the extended partition, round the logical ones.
    Extended,
}
