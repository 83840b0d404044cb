//! The records of the target's chain.
ghost use Rattle.std.specs.Prelude.{◌≡◌, ◌<◌, ◌≤◌, All, IfOk, length, slice_index_or};
ghost use Rattle.target_table.specs.Slots.{AreRecordWrites, chain_base, no_logical, record_write};
ghost use Rattle.target_table.specs.inside.Sources.{IsBehindBase};
ghost use Rattle.mbr_table.specs.Record.{link_after};
ghost use Rattle.mbr_table.specs.Slot.{holds_extended};

use disk_base::Name;
use mbr_table::{Logical, Slot, ebr_sector};
use std::alloc::{AllocError, Global};
use target_work::SectorWrite;

// Whether a slot holds an extended partition.
fn holds_extended(slot: &Slot) -> bool
    ensures { result ≡ holds_extended slot.now }
{
    slot.is_used() && slot.is_extended()
}

/// Where the extended partition of these slots starts; 0 where there is none.
pub(crate) fn base_of(slots: &[Slot; 4]) -> u32
    ensures { result ≡ chain_base slots.now }
{
    for slot in slots {
        if holds_extended(slot) {
            return slot.start;
        }
    }
    0
}

// What a record says of the next one.
fn link(base: u32, logicals: &[Logical], i: usize) -> Option<(u32, u32)>
    requires behind { All (IsBehindBase base) logicals.now }
    requires within { i < length logicals.now }
    ensures { result ≡ link_after base logicals.now i }
{
    if i + 1 == logicals.len() {
        return None;
    }
    let Logical { ebr, slot } = logicals[i + 1];
    Some((ebr - base, (slot.end() - u64::from(ebr)) as u32))
}

// The record of a logical partition, in its sector.
fn record_of(
    alloc: Global,
    base: u32,
    logicals: &[Logical],
    i: usize,
) -> Result<SectorWrite, AllocError>
    requires behind { All (IsBehindBase base) logicals.now }
    requires within { i < length logicals.now }
    ensures { IfOk result (λ made. made ≡ record_write base logicals.now i (slice_index_or logicals.now i no_logical)) }
{
    let Logical { ebr, slot } = logicals[i];
    let Slot { start, .. } = slot;
    let own = Slot {
        start: start - ebr,
        ..slot
    };
    let mut bytes = [0; 512];
    ebr_sector(&own, link(base, logicals, i), &mut bytes);
    Ok(SectorWrite {
        at: u64::from(ebr),
        bytes: Name::of(alloc, &bytes)?,
    })
}

/// The records of a chain whose extended partition starts at `base`, in their order.
pub(crate) fn records(
    alloc: Global,
    base: u32,
    logicals: &[Logical],
) -> Result<Vec<SectorWrite>, AllocError>
    requires { All (IsBehindBase base) logicals.now }
    ensures { IfOk result (λ writes. AreRecordWrites base logicals.now writes.items) }
{
    let mut writes = Vec::new(alloc);
    for i in 0..logicals.len() {
        writes.push(record_of(alloc, base, logicals, i)?)?;
    }
    Ok(writes)
}
