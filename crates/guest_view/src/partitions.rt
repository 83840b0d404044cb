//! The partitions that a table names.
ghost use Rattle.std.specs.Option.{option_to_list};
ghost use Rattle.std.specs.Prelude.{◌≡◌, ◌-◌, ◌≤◌, ◌++◌, length, IfOk, OnOk, Some, slice_index_or, None};
ghost use Rattle.gpt_table.specs.Gpt.{AreInside};
ghost use Rattle.guest_view.specs.Guests.{IsSoundTable};
ghost use Rattle.guest_view.specs.Partitions.{entry_partition, logical_partition, named_from, partitions_of, slot_partition};
ghost use Rattle.guest_view.specs.declared.table.Table.TheVariants.{Mbr as OfMbr};
ghost use Rattle.mbr_table.specs.Mbr.{AreWithin};

use crate::partition::Partition;
use crate::table::Table;
use gpt_table::{Entry, Gpt};
use layout_plan::Role;
use mbr_table::{Logical, Mbr, Slot};
use std::alloc::{AllocError, Global};

// The partition of a slot, if it is used.
fn of_slot(number: u32, slot: &Slot) -> Option<Partition>
    ensures { result ≡ slot_partition number slot.now }
{
    if !slot.is_used() {
        return None;
    }
    let Slot { start, count, .. } = *slot;
    let role = if slot.is_extended() {
        Role::Extended
    } else {
        Role::Slot
    };
    Some(Partition {
        number,
        role,
        start: u64::from(start),
        count: u64::from(count),
        ebr: 0,
    })
}

// The partition of a record of the chain.
fn of_logical(number: u32, logical: &Logical) -> Partition
    ensures { Some result ≡ logical_partition number logical.now }
{
    let Logical { ebr, slot } = *logical;
    let Slot { start, count, .. } = slot;
    Partition {
        number,
        role: Role::Logical,
        start: u64::from(start),
        count: u64::from(count),
        ebr: u64::from(ebr),
    }
}

// The partition of an entry.
fn of_entry(number: u32, entry: &Entry) -> Partition
    requires order { entry.now.first ≤ entry.now.last }
    requires few { entry.now.last ≤ 4294967296 }
    ensures { Some result ≡ entry_partition number (Some entry.now) }
{
    let Entry { first, last, .. } = *entry;
    Partition {
        number,
        role: Role::Slot,
        start: first,
        count: last + 1 - first,
        ebr: 0,
    }
}

// The partition of the entry of that number, if it is used.
fn of_number(gpt: &Gpt, number: u32, sectors: u64) -> Option<Partition>
    requires few { sectors ≤ 2147483648 }
    requires inside { AreInside sectors gpt.now.entries }
    requires some { 1 ≤ number }
    ensures { result ≡ entry_partition number (slice_index_or gpt.now.entries (number - 1) None) }
{
    match gpt.entry(number) {
        None => None,
        Some(entry) => Some(of_entry(number, entry)),
    }
}

// Puts a partition behind the others, if there is one.
fn add(partitions: &mut Vec<Partition>, named: Option<Partition>) -> Result<(), AllocError>
    ensures { OnOk result (partitions.new.items ≡ partitions.old.items ++ option_to_list named) }
{
    if let Some(partition) = named {
        partitions.push(partition)?;
    }
    Ok(())
}

// Adds the partitions of the slots.
fn add_slots(partitions: &mut Vec<Partition>, slots: &[Slot; 4]) -> Result<(), AllocError>
    ensures { OnOk result (partitions.new.items ≡ partitions.old.items ++ named_from slot_partition 1 slots.now) }
{
    for (i, slot) in slots.iter().enumerate() {
        add(partitions, of_slot(i as u32 + 1, slot))?;
    }
    Ok(())
}

// Adds the partitions of the chain.
fn add_logicals(partitions: &mut Vec<Partition>, logicals: &[Logical]) -> Result<(), AllocError>
    requires { length logicals.now ≤ 60 }
    ensures { OnOk result (partitions.new.items ≡ partitions.old.items ++ named_from logical_partition 5 logicals.now) }
{
    for (i, logical) in logicals.iter().enumerate() {
        add(partitions, Some(of_logical(i as u32 + 5, logical)))?;
    }
    Ok(())
}

// Adds the partitions of the entries.
fn add_entries(partitions: &mut Vec<Partition>, gpt: &Gpt, sectors: u64) -> Result<(), AllocError>
    requires few { sectors ≤ 2147483648 }
    requires inside { AreInside sectors gpt.now.entries }
    ensures { OnOk result (partitions.new.items ≡ partitions.old.items ++ named_from entry_partition 1 gpt.now.entries) }
{
    for number in 1..129 {
        add(partitions, of_number(gpt, number, sectors))?;
    }
    Ok(())
}

// Adds the partitions of an MBR.
fn add_of_mbr(partitions: &mut Vec<Partition>, mbr: &Mbr) -> Result<(), AllocError>
    requires { AreWithin mbr.now.slots mbr.now.logicals }
    ensures { OnOk result (partitions.new.items ≡ partitions.old.items ++ partitions_of (OfMbr mbr.now)) }
{
    add_slots(partitions, mbr.slots())?;
    add_logicals(partitions, mbr.logicals())?;
    Ok(())
}

/// The partitions of a table of a disk of `sectors` sectors, by number.
pub(crate) fn partitions(
    alloc: Global,
    table: &Table,
    sectors: u64,
) -> Result<Vec<Partition>, AllocError>
    requires { IsSoundTable sectors table.now }
    ensures { IfOk result (λ partitions. partitions.items ≡ partitions_of table.now) }
{
    let mut partitions = Vec::new(alloc);
    match table {
        Table::Mbr(mbr) => add_of_mbr(&mut partitions, mbr)?,
        Table::Gpt(gpt) => add_entries(&mut partitions, gpt, sectors)?,
    }
    Ok(partitions)
}
