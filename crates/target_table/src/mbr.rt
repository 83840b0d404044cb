//! The sectors of an MBR.
ghost use Rattle.std.specs.Prelude.{◌≡◌};
ghost use Rattle.guest_view.specs.declared.table.Table.TheVariants.{Mbr as OfMbr};
ghost use Rattle.target_table.specs.inside.Sources.{IsPlanSomewhere, MakesTable};

use crate::chain::{base_of, records};
use crate::slots::{logicals_to, slots_to};
use crate::table_sectors::TableSectors;
use guest_view::Guest;
use layout_plan::Planned;
use mbr_table::{Mbr, mbr_sector};
use std::alloc::{AllocError, Global};

/// The sectors of the table that a plan makes of a guest's MBR; `head` is bytes 0 to 445 of sector 0.
pub(crate) fn sectors_of_mbr(
    alloc: Global,
    guest: &Guest,
    mbr: &Mbr,
    planned: &Planned,
    head: &[u8; 446],
) -> Result<TableSectors, AllocError>
    requires table { guest.now.table ≡ OfMbr mbr.now }
    requires plan { IsPlanSomewhere guest.now planned.now }
    ensures { MakesTable guest.now planned.now head.now result }
{
    // What is known of a guest's table and parts is asked for, though they are seen in `mbr`.
    let _table = guest.table();
    let _parts = guest.parts();
    let slots = slots_to(mbr, planned);
    let mut first = [0; 512];
    mbr_sector(head, &slots, &mut first);
    let logicals = logicals_to(alloc, mbr, planned)?;
    let writes = records(alloc, base_of(&slots), &logicals)?;
    Ok(TableSectors { first, writes })
}
