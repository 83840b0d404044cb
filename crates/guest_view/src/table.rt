//! The table of a disk, of either kind.
ghost use Rattle.std.specs.Prelude.{◌≡◌};
ghost use Rattle.guest_view.specs.Guests.{kind_of};

use gpt_table::Gpt;
use layout_plan::Kind;
use mbr_table::Mbr;

/// The table of a disk: a classic one in sector 0 and its chain (UEFI specification, 5.2.1), or a GUID partition
/// table (UEFI specification, 5.3).
#[derive(Debug, Drop)]
pub enum Table {
    Mbr(Mbr),
    Gpt(Gpt),
}

impl Table {
    /// Its kind.
    pub fn kind(&self) -> Kind
        ensures { result ≡ kind_of self.now }
    {
        match self {
            Table::Mbr(_) => Kind::Mbr,
            Table::Gpt(_) => Kind::Gpt,
        }
    }
}
