//! What of the source is copied, and where to.
ghost use Rattle.std.specs.Option.{option_to_list};
ghost use Rattle.std.specs.Prelude.{◌≡◌, ◌++◌, ◌≤◌, IfOk, OnOk};
ghost use Rattle.layout_plan.specs.Tables.{floor_of};
ghost use Rattle.resize_core.specs.Contents.{boot_end, boot_transfer, boot_transfers, content_transfer, content_transfers, is_copied, placed_from, transfer_to};

use guest_view::GuestPart;
use layout_plan::{Fate, Kind, Placed, Planned};
use run_copy::Transfer;
use std::alloc::{AllocError, Global};

/// The most sectors before the boot area's end.
const MOST_BOOT: u64 = 4096;

/// What is placed of the source's partition of that number.
pub fn placed_from(planned: &Planned, number: u32) -> Option<Placed>
    ensures { result ≡ placed_from planned.now number }
{
    for placed in planned.parts() {
        if placed.from == number {
            return Some(*placed);
        }
    }
    None
}

/// Whether the content of a partition is copied.
pub(crate) fn is_copied(fate: Fate) -> bool
    ensures { result ≡ is_copied fate }
{
    match fate {
        Fate::Kept | Fate::Resized => true,
        Fate::Ignored | Fate::Extended => false,
    }
}

// The content of a partition.
fn content(part: &GuestPart, placed: &Placed, sparse: bool) -> Transfer
    ensures { result ≡ content_transfer sparse part.now placed.now }
{
    Transfer {
        from: part.start,
        to: placed.start,
        count: part.count.min(placed.count),
        sparse,
    }
}

// The content of a partition, where it is copied.
fn transfer_to(part: &GuestPart, placed: Option<Placed>, sparse: bool) -> Option<Transfer>
    ensures { result ≡ transfer_to sparse part.now placed }
{
    match placed {
        Some(placed) if is_copied(placed.fate) => Some(content(part, &placed, sparse)),
        _ => None,
    }
}

// Puts a transfer behind the others, if there is one.
fn add(transfers: &mut Vec<Transfer>, one: Option<Transfer>) -> Result<(), AllocError>
    ensures { OnOk result (transfers.new.items ≡ transfers.old.items ++ option_to_list one) }
{
    if let Some(transfer) = one {
        transfers.push(transfer)?;
    }
    Ok(())
}

/// The contents to copy, by number; `sparse` says that pieces of zeros are left out.
pub fn contents(
    alloc: Global,
    parts: &[GuestPart],
    planned: &Planned,
    sparse: bool,
) -> Result<Vec<Transfer>, AllocError>
    ensures { IfOk result (λ transfers. transfers.items ≡ content_transfers sparse planned.now parts.now) }
{
    let mut transfers = Vec::new(alloc);
    for part in parts {
        let placed = placed_from(planned, part.number);
        add(&mut transfers, transfer_to(part, placed, sparse))?;
    }
    Ok(transfers)
}

// The first sector that a partition may take.
fn floor(kind: Kind) -> u64
    ensures { result ≡ floor_of kind }
{
    match kind {
        Kind::Mbr => 1,
        Kind::Gpt => 34,
    }
}

/// Where the boot area ends.
pub(crate) fn boot_end(kind: Kind, parts: &[GuestPart], planned: &Planned) -> u64
    ensures { result ≡ boot_end kind parts.now planned.now }
{
    let placed = planned.parts();
    if parts.is_empty() || placed.is_empty() {
        return floor(kind);
    }
    let least = parts
        .iter()
        .fold(MOST_BOOT, |least, part| least.min(part.start));
    placed.iter().fold(least, |least, one| least.min(one.start))
}

// The boot area up to that sector.
fn boot_area(kind: Kind, end: u64) -> Transfer
    ensures { result ≡ boot_transfer kind end }
{
    let from = floor(kind);
    Transfer {
        from,
        to: from,
        count: end.saturating_sub(from),
        sparse: false,
    }
}

/// Adds the boot area up to that sector, where it is copied.
pub(crate) fn add_boot_area(
    transfers: &mut Vec<Transfer>,
    boot: bool,
    kind: Kind,
    end: u64,
) -> Result<(), AllocError>
    ensures { OnOk result (transfers.new.items ≡ transfers.old.items ++ boot_transfers boot kind end) }
{
    if boot {
        transfers.push(boot_area(kind, end))?;
    }
    Ok(())
}
