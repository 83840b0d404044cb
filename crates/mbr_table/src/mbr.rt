//! Reading the table.
ghost use Rattle.std.specs.Prelude.{◌≡◌, ◌^◌, ◌<◌, ◌≤◌, IsTrue, OnOk, IfOk, IfErr, IsErrOf};
ghost use Rattle.disk_base.specs.Faults.{Rose};
ghost use Rattle.mbr_table.specs.Mbr.{AreSound, IsMbrTable, HasMbrFault, AreWithin, AreLogicals, OneMbrTable, OneFault};
ghost use Rattle.mbr_table.specs.inside.Walk.{IsReadSector, IsLogicalsFault};

use crate::chain::read_chain;
use crate::fault::MbrFault;
use crate::sector::{SectorTable, extended_in, judge_sector};
use crate::slot::{Logical, Slot};
use disk_base::{Blocks, SECTOR};
use std::alloc::Global;
use std::marker::Model;

/// The table of a disk.
#[derive(Debug, Drop)]
pub struct Mbr {
    head: [u8; 446],
    slots: [Slot; 4],
    logicals: Vec<Logical>,
}

impl Model for Mbr {
    ghost use Rattle.mbr_table.specs.Mbr.{Table, AreWithin};

    ghost Value = { Table };

    ghost view = { λ m. record { head = m.head; slots = m.slots; logicals = m.logicals.items } };

    ghost invariant = { λ m. AreWithin m.slots m.logicals.items };
}

impl Mbr {
    /// Bytes 0 to 445: boot code, disk signature and two further bytes.
    pub fn head(&self) -> &[u8; 446]
        ensures { result.now ≡ self.now.head }
    {
        &self.head
    }

    /// The four slots, in their order on the disk.
    pub fn slots(&self) -> &[Slot; 4]
        ensures { result.now ≡ self.now.slots }
    {
        &self.slots
    }

    /// The logical partitions, in the order of their chain.
    pub fn logicals(&self) -> &[Logical]
        ensures logicals { result.now ≡ self.now.logicals }
        ensures within { AreWithin self.now.slots self.now.logicals }
    {
        self.logicals.as_slice()
    }
}

/// What sector 0 says.
fn read_sector<B: Blocks>(disk: &mut B) -> Result<SectorTable, MbrFault>
    requires some { 0 < B.size disk.old }
    ensures read { B.only_read disk.old disk.new }
    ensures found { IfOk result (λ found. IsReadSector B.tells (B.image disk.old) (B.size disk.old) found) }
    ensures fault { IsTrue B.tells → IfErr result (λ fault. HasMbrFault (B.size disk.old) (B.image disk.old) fault) }
    ensures device { IsErrOf result MbrFault.Device → Rose (B.faults disk.old) (B.faults disk.new) }
{
    let sectors = disk.sectors();
    let mut bytes = [0; SECTOR];
    disk.read(0, &mut bytes)?;
    judge_sector(sectors, &bytes)
}

/// The logical partitions of a disk whose table has these slots.
fn read_logicals<B: Blocks>(
    alloc: Global,
    disk: &mut B,
    slots: &[Slot; 4],
) -> Result<Vec<Logical>, MbrFault>
    requires sound { AreSound (B.size disk.old) slots.now }
    requires addressed { B.size disk.old ≤ 2 ^ 31 }
    ensures read { B.only_read disk.old disk.new }
    ensures within { IfOk result (λ all. AreWithin slots.now all.items) }
    ensures logicals { IsTrue B.tells → IfOk result (λ all. AreLogicals (B.image disk.old) slots.now all.items) }
    ensures fault { IsTrue B.tells → IfErr result (λ fault. IsLogicalsFault (B.image disk.old) slots.now fault) }
    ensures device { IsErrOf result MbrFault.Device → Rose (B.faults disk.old) (B.faults disk.new) }
{
    match extended_in(slots) {
        Some(extended) => read_chain(alloc, disk, &extended),
        None => Ok(Vec::new(alloc)),
    }
}

/// The table of a disk that has sectors.
fn read_table<B: Blocks>(alloc: Global, disk: &mut B) -> Result<Mbr, MbrFault>
    requires some { 0 < B.size disk.old }
    requires addressed { B.size disk.old ≤ 2 ^ 31 }
    ensures read { B.only_read disk.old disk.new }
    ensures table { IsTrue B.tells → IfOk result (λ table. IsMbrTable (B.size disk.old) (B.image disk.old) table) }
    ensures fault { IsTrue B.tells → IfErr result (λ fault. HasMbrFault (B.size disk.old) (B.image disk.old) fault) }
    ensures sound { IfOk result (λ table. AreSound (B.size disk.old) table.slots) }
    ensures within { IfOk result (λ table. AreWithin table.slots table.logicals) }
    ensures device { IsErrOf result MbrFault.Device → Rose (B.faults disk.old) (B.faults disk.new) }
{
    let found = read_sector(disk)?;
    let logicals = read_logicals(alloc, disk, &found.slots)?;
    Ok(Mbr {
        head: found.head,
        slots: found.slots,
        logicals,
    })
}

/// The table of a disk, in sectors of 512 bytes: sector 0 is read, and where it has an extended partition
/// each record of its chain, once. Of a disk without sectors nothing is read. After `Device` and `Memory`
/// nothing is known of the table.
pub fn read_mbr<B: Blocks>(alloc: Global, disk: &mut B) -> Result<Mbr, MbrFault>
    requires { B.size disk.old ≤ 2 ^ 31 }
    ensures read { B.only_read disk.old disk.new }
    ensures table { IsTrue B.tells → IfOk result (λ table. IsMbrTable (B.size disk.old) (B.image disk.old) table) }
    ensures fault { IsTrue B.tells → IfErr result (λ fault. HasMbrFault (B.size disk.old) (B.image disk.old) fault) }
    ensures some { OnOk result (0 < B.size disk.old) }
    ensures sound { IfOk result (λ table. AreSound (B.size disk.old) table.slots) }
    ensures within { IfOk result (λ table. AreWithin table.slots table.logicals) }
    ensures empty { B.size disk.old ≡ 0 → IsErrOf result MbrFault.NoSignature }
    ensures unread { B.size disk.old ≡ 0 → disk.new ≡ disk.old }
    ensures device { IsErrOf result MbrFault.Device → Rose (B.faults disk.old) (B.faults disk.new) }
{
    if disk.sectors() == 0 {
        return Err(MbrFault::NoSignature);
    }
    read_table(alloc, disk)
}

/// The law that a disk has at most one table, and no reason against it where it has one. A call does nothing.
pub fn one_table()
    ensures { OneMbrTable }
{}

/// The law that at most one reason stands against a disk, beside a device's fault and want of memory. A call
/// does nothing.
pub fn one_fault()
    ensures { OneFault }
{}
