//! Reading what a disk is.
ghost use Rattle.std.specs.Prelude.{◌≡◌, ◌^◌, ◌<◌, ◌≤◌, IsTrue, IfOk, IfErr, IsErrOf, Err, true, ◌↔◌};
ghost use Rattle.disk_base.specs.Faults.{Rose};
ghost use Rattle.guest_view.specs.declared.fault.InspectFault.TheVariants.{Device, TooLarge};
ghost use Rattle.guest_view.specs.Guests.{IsGuest, IsLeftToGpt, IsNoGuest, IsSoundTable, IsTableOf};
ghost use Rattle.guest_view.specs.inside.Sound.{ArePartitionsOf, IsGuestBy, IsNoGuestBy};

use crate::clash::first_clash;
use crate::fault::InspectFault;
use crate::finding::contents;
use crate::guest::Guest;
use crate::partition::Partition;
use crate::partitions::partitions;
use crate::table::Table;
use disk_base::{Blocks, Failed, MOST_SECTORS, SECTOR};
use gpt_table::read_gpt;
use mbr_table::{is_protective, read_mbr};
use std::alloc::Global;

// The partitions of a table, or the first two of them that clash.
fn apart_partitions(
    alloc: Global,
    sectors: u64,
    table: &Table,
) -> Result<Vec<Partition>, InspectFault>
    requires { IsSoundTable sectors table.now }
    ensures partitions { IfOk result (λ partitions. ArePartitionsOf table.now partitions.items) }
    ensures fault { IfErr result (IsNoGuestBy table.now) }
{
    let partitions = partitions(alloc, table, sectors)?;
    if let Some((a, b)) = first_clash(&partitions) {
        return Err(InspectFault::Overlap { a, b });
    }
    Ok(partitions)
}

// Whether sector 0 leaves the disk to a GPT.
fn is_left_to_gpt<B: Blocks>(disk: &mut B) -> Result<bool, Failed>
    ensures read { B.only_read disk.old disk.new }
    ensures left { IsTrue B.tells → IfOk result (λ left. (left ≡ true) ↔ IsLeftToGpt (B.size disk.old) (B.image disk.old)) }
    ensures cause { IfErr result (λ _. Rose (B.faults disk.old) (B.faults disk.new)) }
{
    if disk.sectors() == 0 {
        return Ok(false);
    }
    let mut bytes = [0; SECTOR];
    disk.read(0, &mut bytes)?;
    Ok(is_protective(&bytes))
}

// The table in sector 0 and its chain, of a disk that isn't left to a GPT.
fn read_own<B: Blocks>(alloc: Global, disk: &mut B) -> Result<Table, InspectFault>
    requires few { B.size disk.old ≤ 2 ^ 31 }
    requires own { IsTrue B.tells → IsLeftToGpt (B.size disk.old) (B.image disk.old) → ⊥ }
    ensures read { B.only_read disk.old disk.new }
    ensures table { IsTrue B.tells → IfOk result (IsTableOf (B.size disk.old) (B.image disk.old)) }
    ensures sound { IfOk result (IsSoundTable (B.size disk.old)) }
    ensures fault { IsTrue B.tells → IfErr result (IsNoGuest (B.size disk.old) (B.image disk.old)) }
    ensures device { IsErrOf result Device → Rose (B.faults disk.old) (B.faults disk.new) }
{
    match read_mbr(alloc, disk) {
        Ok(mbr) => Ok(Table::Mbr(mbr)),
        Err(fault) => Err(InspectFault::of_mbr(fault)),
    }
}

// The GPT of a disk that is left to one.
fn read_left<B: Blocks>(alloc: Global, disk: &mut B) -> Result<Table, InspectFault>
    requires few { B.size disk.old ≤ 2 ^ 31 }
    requires left { IsTrue B.tells → IsLeftToGpt (B.size disk.old) (B.image disk.old) }
    ensures read { B.only_read disk.old disk.new }
    ensures table { IsTrue B.tells → IfOk result (IsTableOf (B.size disk.old) (B.image disk.old)) }
    ensures sound { IfOk result (IsSoundTable (B.size disk.old)) }
    ensures fault { IsTrue B.tells → IfErr result (IsNoGuest (B.size disk.old) (B.image disk.old)) }
    ensures device { IsErrOf result Device → Rose (B.faults disk.old) (B.faults disk.new) }
{
    match read_gpt(alloc, disk) {
        Ok(gpt) => Ok(Table::Gpt(gpt)),
        Err(fault) => Err(InspectFault::of_gpt(fault)),
    }
}

// The table of a disk that isn't too large.
fn read_table<B: Blocks>(alloc: Global, disk: &mut B) -> Result<Table, InspectFault>
    requires few { B.size disk.old ≤ 2 ^ 31 }
    ensures read { B.only_read disk.old disk.new }
    ensures table { IsTrue B.tells → IfOk result (IsTableOf (B.size disk.old) (B.image disk.old)) }
    ensures sound { IfOk result (IsSoundTable (B.size disk.old)) }
    ensures fault { IsTrue B.tells → IfErr result (IsNoGuest (B.size disk.old) (B.image disk.old)) }
    ensures device { IsErrOf result Device → Rose (B.faults disk.old) (B.faults disk.new) }
{
    let left = is_left_to_gpt(disk)?;
    if left {
        read_left(alloc, disk)
    } else {
        read_own(alloc, disk)
    }
}

// The guest of a table, whose partitions are these.
fn guest_of<B: Blocks>(
    alloc: Global,
    disk: &mut B,
    table: Table,
    partitions: &[Partition],
) -> Result<Guest, InspectFault>
    requires sound { IsSoundTable (B.size disk.old) table }
    requires partitions { ArePartitionsOf table partitions.now }
    ensures read { B.only_read disk.old disk.new }
    ensures guest { IsTrue B.tells → IfOk result (IsGuestBy (B.size disk.old) (B.image disk.old) table) }
    ensures sectors { IfOk result (λ guest. guest.sectors ≡ B.size disk.old) }
    ensures fault { IsTrue B.tells → IfErr result (IsNoGuest (B.size disk.old) (B.image disk.old)) }
    ensures device { IsErrOf result Device → Rose (B.faults disk.old) (B.faults disk.new) }
{
    let sectors = disk.sectors();
    let parts = contents(alloc, disk, partitions)?;
    Ok(Guest {
        sectors,
        table,
        parts,
    })
}

/// What a disk is, in sectors of 512 bytes: its table is read, its partitions are held against each other, and what they
/// hold is read. After `Device` and `Memory` nothing is known of the disk.
pub fn inspect<B: Blocks>(alloc: Global, disk: &mut B) -> Result<Guest, InspectFault>
    ensures read { B.only_read disk.old disk.new }
    ensures guest { IsTrue B.tells → IfOk result (λ guest. IsGuest (B.size disk.old) (B.image disk.old) guest) }
    ensures fault { IsTrue B.tells → IfErr result (λ fault. IsNoGuest (B.size disk.old) (B.image disk.old) fault) }
    ensures sectors { IfOk result (λ guest. guest.sectors ≡ B.size disk.old) }
    ensures large { 2 ^ 31 < B.size disk.old → result ≡ Err (TooLarge (B.size disk.old)) }
    ensures device { IsErrOf result Device → Rose (B.faults disk.old) (B.faults disk.new) }
{
    let sectors = disk.sectors();
    if sectors > MOST_SECTORS {
        return Err(InspectFault::TooLarge { sectors });
    }
    let table = read_table(alloc, disk)?;
    let partitions = match apart_partitions(alloc, sectors, &table) {
        Ok(partitions) => partitions,
        Err(fault) => return Err(fault),
    };
    guest_of(alloc, disk, table, partitions.as_slice())
}
