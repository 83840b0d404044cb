//! Contents that would have to grow, and those of them that can't.
ghost use Rattle.std.specs.Option.{option_to_list};
ghost use Rattle.std.specs.Prelude.{◌≡◌, ◌++◌, All, IfOk, OnOk};
ghost use Rattle.guest_view.specs.Contents.{PartFits};
ghost use Rattle.resize_core.specs.Growth.{can_grow, grows, grows_at, has_growth, has_lost, has_to_grow, holder_of, is_holder, is_lost, keeps_content, stuck_at, stuck_part, stuck_parts, why_lost, why_stuck};

use crate::copied::{is_copied, placed_from};
use guest_view::{Content, GuestPart};
use layout_plan::{Placed, Planned};
use lvm_group::GroupFault;
use run_end::VolumeFault;
use std::alloc::{AllocError, Global};
use volume_content::Why;

// Whether the content of a partition has to grow.
fn has_to_grow(grow: bool, part: &GuestPart, placed: &Placed) -> bool
    ensures { result ≡ has_to_grow grow part.now placed.now }
{
    grow && is_copied(placed.fate) && part.count < placed.count
}

// The partition that holds the group of a physical volume.
fn holder_of(content: &Content) -> Option<u32>
    ensures { result ≡ holder_of content.now }
{
    match content {
        Content::Group(_, membership, _) | Content::Member(_, membership) => Some(
            membership.holder,
        ),
        Content::Extended | Content::Xfs(_) | Content::Swap(_) | Content::Unread(_) => None,
    }
}

// Whether it is that partition.
fn is_holder(holder: u32, number: Option<u32>) -> bool
    ensures { result ≡ is_holder holder number }
{
    match number {
        Some(number) => number == holder,
        None => false,
    }
}

// Whether a partition is copied, with the sectors that its content needs.
fn keeps_content(part: &GuestPart, placed: Option<Placed>) -> bool
    requires { PartFits part.now }
    ensures { result ≡ keeps_content part.now placed }
{
    match placed {
        Some(placed) => is_copied(placed.fate) && part.needed() <= placed.count,
        None => false,
    }
}

// Whether a partition is a physical volume of the group that `holder` holds, and is deleted, ignored or cut.
fn is_lost(planned: &Planned, holder: u32, part: &GuestPart) -> bool
    requires { PartFits part.now }
    ensures { result ≡ is_lost planned.now holder part.now }
{
    is_holder(holder, holder_of(&part.content))
        && !keeps_content(part, placed_from(planned, part.number))
}

// Whether the group that `holder` holds loses a physical volume.
fn has_lost(planned: &Planned, parts: &[GuestPart], holder: u32) -> bool
    requires { All PartFits parts.now }
    ensures { result ≡ has_lost planned.now parts.now holder }
{
    for part in parts {
        if is_lost(planned, holder, part) {
            return true;
        }
    }
    false
}

// Why the content of a physical volume can't grow, whose group may lose one.
fn why_lost(lost: bool) -> Option<Why>
    ensures { result ≡ why_lost lost }
{
    if lost {
        Some(Why::Group(GroupFault::Members))
    } else {
        None
    }
}

// Why a content can't grow.
fn why_stuck(planned: &Planned, parts: &[GuestPart], content: &Content) -> Option<Why>
    requires { All PartFits parts.now }
    ensures { result ≡ why_stuck planned.now parts.now content.now }
{
    match content {
        Content::Extended | Content::Xfs(_) | Content::Swap(_) => None,
        Content::Group(_, membership, _) | Content::Member(_, membership) => {
            why_lost(has_lost(planned, parts, membership.holder))
        }
        Content::Unread(why) => Some(*why),
    }
}

// Why the content of a partition can't grow, where it has to.
fn stuck_at(
    grow: bool,
    planned: &Planned,
    parts: &[GuestPart],
    part: &GuestPart,
    placed: Option<Placed>,
) -> Option<Why>
    requires { All PartFits parts.now }
    ensures { result ≡ stuck_at grow planned.now parts.now part.now placed }
{
    match placed {
        Some(placed) if has_to_grow(grow, part, &placed) => why_stuck(
            planned,
            parts,
            &part.content,
        ),
        _ => None,
    }
}

// The same with the partition's number.
fn stuck_part(
    grow: bool,
    planned: &Planned,
    parts: &[GuestPart],
    part: &GuestPart,
) -> Option<VolumeFault>
    requires { All PartFits parts.now }
    ensures { result ≡ stuck_part grow planned.now parts.now part.now }
{
    match stuck_at(
        grow,
        planned,
        parts,
        part,
        placed_from(planned, part.number),
    ) {
        None => None,
        Some(why) => Some(VolumeFault {
            part: part.number,
            why,
        }),
    }
}

// Puts a fault behind the others, if there is one.
fn add(faults: &mut Vec<VolumeFault>, one: Option<VolumeFault>) -> Result<(), AllocError>
    ensures { OnOk result (faults.new.items ≡ faults.old.items ++ option_to_list one) }
{
    if let Some(fault) = one {
        faults.push(fault)?;
    }
    Ok(())
}

/// The partitions whose contents have to grow and can't, by number. `grow` says that contents grow with their
/// partitions.
pub fn stuck_parts(
    alloc: Global,
    parts: &[GuestPart],
    planned: &Planned,
    grow: bool,
) -> Result<Vec<VolumeFault>, AllocError>
    requires { All PartFits parts.now }
    ensures { IfOk result (λ faults. faults.items ≡ stuck_parts grow planned.now parts.now) }
{
    let mut faults = Vec::new(alloc);
    for part in parts {
        add(&mut faults, stuck_part(grow, planned, parts, part))?;
    }
    Ok(faults)
}

// Whether a content can grow.
fn can_grow(planned: &Planned, parts: &[GuestPart], content: &Content) -> bool
    requires { All PartFits parts.now }
    ensures { result ≡ can_grow planned.now parts.now content.now }
{
    match content {
        Content::Extended | Content::Unread(_) => false,
        Content::Xfs(_) | Content::Swap(_) => true,
        Content::Group(_, membership, _) | Content::Member(_, membership) => {
            !has_lost(planned, parts, membership.holder)
        }
    }
}

// Whether the content of a partition has to grow and can.
fn grows(grow: bool, planned: &Planned, parts: &[GuestPart], part: &GuestPart) -> bool
    requires { All PartFits parts.now }
    ensures { result ≡ grows grow planned.now parts.now part.now }
{
    match placed_from(planned, part.number) {
        Some(placed) => has_to_grow(grow, part, &placed) && can_grow(planned, parts, &part.content),
        None => false,
    }
}

/// Whether some content has to grow and can.
pub fn has_growth(parts: &[GuestPart], planned: &Planned, grow: bool) -> bool
    requires { All PartFits parts.now }
    ensures { result ≡ has_growth grow planned.now parts.now }
{
    for part in parts {
        if grows(grow, planned, parts, part) {
            return true;
        }
    }
    false
}
