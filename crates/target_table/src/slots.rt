//! The slots of the target, and the logical partitions of its chain.
ghost use Rattle.std.specs.Prelude.{◌≡◌, ℕ, ◌+◌, ◌-◌, ◌^◌, ◌<◌, ◌≤◌, ◌==◌, find, true, false, IfOk, IfSome, All};
ghost use Rattle.layout_plan.specs.declared.part.Placed.{Placed};
ghost use Rattle.target_table.specs.Slots.{has_record, placed_logical, placed_slot, placed_under, spare_slot, target_logicals, target_slot, target_slots};
ghost use Rattle.target_table.specs.inside.Sources.{IsFromMbr, IsOfMbr};

use layout_plan::{Placed, Planned};
use mbr_table::{Logical, Mbr, Slot};
use std::alloc::{AllocError, Global};

/// A slot whose entry is all zero.
const EMPTY: Slot = Slot {
    status: 0,
    kind: 0,
    start: 0,
    count: 0,
};

/// The type of a partition for Linux.
const LINUX: u8 = 0x83;

// The slot on the target of a partition that is placed.
fn slot_to(mbr: &Mbr, placed: &Placed) -> Slot
    requires from { IsFromMbr mbr.now placed.now }
    requires bare { has_record placed.now ≡ false }
    ensures { result ≡ placed_slot mbr.now.slots placed.now }
{
    let slot = mbr.slots()[placed.from as usize - 1];
    let Placed { start, count, .. } = *placed;
    Slot {
        start: start as u32,
        count: count as u32,
        ..slot
    }
}

// The slot of that number where no partition of the source has it.
fn slot_to_spare(extra: Option<Placed>, number: u32) -> Slot
    requires { IfSome extra (λ one. one.start + one.count ≤ 2 ^ 31) }
    ensures { result ≡ spare_slot extra number }
{
    match extra {
        Some(one) if one.number == number => Slot {
            status: 0,
            kind: LINUX,
            start: one.start as u32,
            count: one.count as u32,
        },
        _ => EMPTY,
    }
}

// The partition that is placed under that number.
fn placed_with(mbr: &Mbr, planned: &Planned, number: u32) -> Option<Placed>
    requires of { IsOfMbr mbr.now planned.now }
    requires low { number ≤ 4 }
    ensures found { result ≡ placed_under planned.now number }
    ensures from { IfSome result (IsFromMbr mbr.now) }
    ensures bare { IfSome result (λ placed. has_record placed ≡ false) }
{
    for one in planned.parts() {
        if one.number == number {
            return Some(*one);
        }
    }
    None
}

// The slot of that number.
fn slot_with(mbr: &Mbr, planned: &Planned, number: u32) -> Slot
    requires of { IsOfMbr mbr.now planned.now }
    requires low { number ≤ 4 }
    ensures { result ≡ target_slot mbr.now.slots planned.now number }
{
    match placed_with(mbr, planned, number) {
        Some(placed) => slot_to(mbr, &placed),
        None => slot_to_spare(planned.extra(), number),
    }
}

/// The slots of the target.
pub(crate) fn slots_to(mbr: &Mbr, planned: &Planned) -> [Slot; 4]
    requires { IsOfMbr mbr.now planned.now }
    ensures { result ≡ target_slots mbr.now.slots planned.now }
{
    [
        slot_with(mbr, planned, 1),
        slot_with(mbr, planned, 2),
        slot_with(mbr, planned, 3),
        slot_with(mbr, planned, 4),
    ]
}

// The logical partition on the target of one that is placed.
fn logical_to(mbr: &Mbr, placed: &Placed) -> Logical
    requires from { IsFromMbr mbr.now placed.now }
    requires of_chain { has_record placed.now ≡ true }
    ensures { result ≡ placed_logical mbr.now.logicals placed.now }
{
    let Logical { slot, .. } = mbr.logicals()[placed.from as usize - 5];
    let Placed {
        ebr,
        start,
        count,
        ..
    } = *placed;
    Logical {
        ebr: ebr as u32,
        slot: Slot {
            start: start as u32,
            count: count as u32,
            ..slot
        },
    }
}

/// The logical partitions of the target, by number.
pub(crate) fn logicals_to(
    alloc: Global,
    mbr: &Mbr,
    planned: &Planned,
) -> Result<Vec<Logical>, AllocError>
    requires { IsOfMbr mbr.now planned.now }
    ensures { IfOk result (λ all. all.items ≡ target_logicals mbr.now.logicals planned.now) }
{
    let mut all = Vec::new(alloc);
    for placed in planned.parts() {
        if placed.ebr != 0 {
            all.push(logical_to(mbr, placed))?;
        }
    }
    Ok(all)
}
