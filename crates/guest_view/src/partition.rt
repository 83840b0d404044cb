//! A partition where it lies.
ghost use Rattle.std.specs.Prelude.{◌≡◌};
ghost use Rattle.guest_view.specs.Partitions.{IsReachable, clashes, holds_sector, meets};

use layout_plan::Role;

/// A partition as the table names it, in sectors of 512 bytes; `ebr` is the sector of its extended boot
/// record, or 0 where it has none.
#[derive(Clone, Copy, Debug, PartialEq, Eq)]
pub struct Partition {
    pub number: u32,
    pub role: Role,
    pub start: u64,
    pub count: u64,
    pub ebr: u64,
}

impl Partition {
    // Whether that sector is one of its own.
    fn holds(&self, sector: u64) -> bool
        requires { IsReachable self.now }
        ensures { result ≡ holds_sector self.now sector }
    {
        self.start <= sector && sector < self.start + self.count
    }

    // Whether the two have a sector in common.
    fn meets(&self, other: &Partition) -> bool
        requires own { IsReachable self.now }
        requires other { IsReachable other.now }
        ensures { result ≡ meets self.now other.now }
    {
        self.start < other.start + other.count && other.start < self.start + self.count
    }

    /// Whether the two may not stand in one table.
    pub(crate) fn clashes(&self, other: &Partition) -> bool
        requires own { IsReachable self.now }
        requires other { IsReachable other.now }
        ensures { result ≡ clashes self.now other.now }
    {
        match (self.role, other.role) {
            (Role::Logical, Role::Logical) => self.meets(other)
                || self.holds(other.ebr)
                || other.holds(self.ebr),
            (Role::Logical, _) | (_, Role::Logical) => false,
            _ => self.meets(other),
        }
    }
}
