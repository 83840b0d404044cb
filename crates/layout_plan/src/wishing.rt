//! What is wrong with wishes and lengths, before anything is laid out.
ghost use Rattle.std.specs.Prelude.{◌≡◌, ℕ, ◌^◌, ◌<◌, ◌≤◌, ◌==◌, ◌&&◌, All, IfErr, OnOk, Some, None, length, take, slice_index_or};
ghost use Rattle.std.specs.List.{list_any};
ghost use Rattle.layout_plan.specs.declared.part.Part.{Part};
ghost use Rattle.layout_plan.specs.declared.wish.Wish.{Wish};
ghost use Rattle.layout_plan.specs.Roles.{is_extended_role};
ghost use Rattle.layout_plan.specs.Faults.{AreAllowed, IsFirstBadLength, IsFirstBadWish, length_fault, wish_fault, would_cut};

use crate::fault::NoPlan;
use crate::part::Part;
use crate::sizing::{is_deleted, wanted, wish_of};
use crate::wish::{What, Wish};

/// Whether a part has that number.
fn has_part(parts: &[Part], number: u32) -> bool
    ensures { result ≡ list_any (λ (part : Part). part.number == number) parts.now }
{
    parts.iter().any(|part| part.number == number)
}

/// Whether the part of that number is the extended one.
fn has_extended(parts: &[Part], number: u32) -> bool
    ensures { result ≡ list_any (λ (part : Part). part.number == number && is_extended_role part.role) parts.now }
{
    parts
        .iter()
        .any(|part| part.number == number && part.role.is_extended())
}

/// Whether a wish names the part of that number.
fn is_named(wishes: &[Wish], number: u32) -> bool
    ensures { result ≡ list_any (λ (other : Wish). other.part == number) wishes.now }
{
    wishes.iter().any(|other| other.part == number)
}

/// What is wrong with a wish that stands behind the earlier ones.
fn wish_fault(parts: &[Part], earlier: &[Wish], wish: &Wish) -> Option<NoPlan>
    ensures { result ≡ wish_fault parts.now earlier.now wish.now }
{
    let place = wish.place;
    if !has_part(parts, wish.part) {
        Some(NoPlan::NoSuchPart { place })
    } else if is_named(earlier, wish.part) {
        Some(NoPlan::NamedTwice { place })
    } else if has_extended(parts, wish.part) {
        Some(NoPlan::Extended { place })
    } else {
        None
    }
}

/// Judges the wishes in their order.
pub fn judge_wishes(parts: &[Part], wishes: &[Wish]) -> Result<(), NoPlan>
    ensures fine { OnOk result (AreAllowed parts.now wishes.now) }
    ensures fault { IfErr result (IsFirstBadWish parts.now wishes.now) }
{
    for (place, wish) in wishes.iter().enumerate() {
        if let Some(fault) = wish_fault(parts, &wishes[..place], wish) {
            return Err(fault);
        }
    }
    Ok(())
}

/// Whether a wish may not cut a part's content, and would.
fn would_cut(what: Option<What>, content: u64, new: u64) -> bool
    ensures { result ≡ would_cut what content new }
{
    matches!(what, Some(What::Resize(_))) && new < content
}

/// What is wrong with the length that a part shall have.
fn length_fault(wishes: &[Wish], part: &Part) -> Option<NoPlan>
    requires { part.now.count ≤ 2 ^ 31 }
    ensures { result ≡ length_fault wishes.now part.now }
{
    let Part {
        number,
        content,
        ..
    } = *part;
    let new = wanted(wishes, part);
    if is_deleted(wishes, part) {
        None
    } else if new == 0 {
        Some(NoPlan::Empty { part: number })
    } else if would_cut(wish_of(wishes, number), content, new) {
        Some(NoPlan::WouldCut {
            part: number,
            content,
            wanted: new,
        })
    } else {
        None
    }
}

/// Judges the lengths that the parts shall have, by rising number.
pub fn judge_lengths(wishes: &[Wish], parts: &[Part]) -> Result<(), NoPlan>
    requires { All (λ (part : Part). part.count ≤ 2 ^ 31) parts.now }
    ensures fine { OnOk result (All (λ (part : Part). length_fault wishes.now part ≡ None) parts.now) }
    ensures fault { IfErr result (IsFirstBadLength wishes.now parts.now) }
{
    for part in parts {
        if let Some(fault) = length_fault(wishes, part) {
            return Err(fault);
        }
    }
    Ok(())
}
