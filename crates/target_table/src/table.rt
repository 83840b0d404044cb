//! The sectors of the target's table.
ghost use Rattle.std.specs.Prelude.{◌≡◌, IfOk, length};
ghost use Rattle.target_table.specs.Planned.{AreTableSectors, IsSomePlan};

use crate::gpt::sectors_of_gpt;
use crate::mbr::sectors_of_mbr;
use crate::table_sectors::TableSectors;
use crate::target::Target;
use guest_view::{Guest, Table};
use layout_plan::Planned;
use std::alloc::{AllocError, Global};

/// Sector 0 of a target of `sectors` sectors, and the rest of its table, for a plan of a guest; `head` is bytes 0 to 445
/// of sector 0.
pub fn table_for(
    alloc: Global,
    guest: &Guest,
    planned: &Planned,
    head: &[u8; 446],
    sectors: u64,
) -> Result<TableSectors, AllocError>
    requires { IsSomePlan guest.now sectors planned.now }
    ensures first { IfOk result (λ made. length made.first ≡ 512) }
    ensures sectors { IfOk result (λ made. AreTableSectors guest.now.table planned.now head.now sectors made.first made.writes.items) }
{
    match guest.table() {
        Table::Mbr(mbr) => sectors_of_mbr(alloc, guest, mbr, planned, head),
        Table::Gpt(gpt) => {
            let target = Target {
                planned,
                head,
                sectors,
            };
            sectors_of_gpt(alloc, guest, gpt, &target)
        }
    }
}
