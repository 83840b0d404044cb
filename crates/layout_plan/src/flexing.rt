//! The part that takes what the others leave over, or gives up what they lack.
ghost use Rattle.std.specs.Prelude.{◌≡◌, ℕ, ◌^◌, ◌<◌, ◌≤◌, All, Contains, IfOk, IfErr, IfSome, Some};
ghost use Rattle.layout_plan.specs.declared.wish.What.TheVariants.{Expand, Shrink};
ghost use Rattle.layout_plan.specs.Wishes.{flexible_part, is_flexible_wish, wish_of};
ghost use Rattle.layout_plan.specs.inside.Tasks.{EndsAt, FitsWith, GivesUp, HasFlexible, HasNone, IsFlexed, IsMostOf, IsRightOf, IsTooLongWith, Takes};

use crate::fault::NoPlan;
use crate::laying::{Laid, lay};
use crate::part::Part;
use crate::sizing::wish_of;
use crate::task::Task;
use crate::wish::{What, Wish};
use std::alloc::{AllocError, Global};

/// More sectors than any disk has.
const TOO_MANY: u64 = 4294967296;

/// Whether a part takes or gives up.
fn is_flexible(wishes: &[Wish], part: &Part) -> bool
    ensures { result ≡ is_flexible_wish (wish_of wishes.now part.now.number) }
{
    matches!(
        wish_of(wishes, part.number),
        Some(What::Expand | What::Shrink)
    )
}

/// The part that takes or gives up.
fn flexible_part(wishes: &[Wish], parts: &[Part]) -> Option<Part>
    ensures part { result ≡ flexible_part wishes.now parts.now }
    ensures there { IfSome result (Contains parts.now) }
{
    for part in parts {
        if is_flexible(wishes, part) {
            return Some(*part);
        }
    }
    None
}

/// Where the layout ends with so many sectors.
fn end_with(alloc: Global, task: &Task, sectors: u64) -> Result<u64, AllocError>
    requires { sectors ≤ 2 ^ 33 }
    ensures { IfOk result (EndsAt task.now sectors) }
{
    let laid = lay(alloc, task, sectors)?;
    Ok(laid.last)
}

/// The most sectors with which the layout ends at the limit or before it: it does with `low`, and doesn't with
/// `high`.
fn greatest(alloc: Global, task: &Task, low: u64, high: u64) -> Result<u64, AllocError>
    requires fitting { FitsWith task.now low }
    requires too_many { IsTooLongWith task.now high }
    requires order { low < high }
    requires small { high ≤ 2 ^ 33 }
    ensures greatest { IfOk result (IsMostOf task.now) }
    ensures low { IfOk result (λ sectors. low ≤ sectors) }
    ensures high { IfOk result (λ sectors. sectors < high) }
{
    let mut fitting = low;
    let mut too_many = high;
    while fitting + 1 < too_many {
        let middle = fitting + (too_many - fitting) / 2;
        if end_with(alloc, task, middle)? <= task.limit {
            fitting = middle;
        } else {
            too_many = middle;
        }
    }
    Ok(fitting)
}

/// The most sectors that fit of a part that takes or gives up, where `low` do.
fn most(alloc: Global, task: &Task, part: &Part, low: u64) -> Result<u64, AllocError>
    requires flexible { flexible_part task.now.wishes.now task.now.parts.now ≡ Some part.now }
    requires fitting { FitsWith task.now low }
    requires low { low ≤ 2 ^ 31 }
    ensures greatest { IfOk result (IsMostOf task.now) }
    ensures low { IfOk result (λ sectors. low ≤ sectors) }
    ensures small { IfOk result (λ sectors. sectors ≤ 2 ^ 33) }
{
    // With so many it ends behind the limit, which is what the search stands on.
    end_with(alloc, task, TOO_MANY)?;
    greatest(alloc, task, low, TOO_MANY)
}

/// The sectors of a part that takes.
fn taken(alloc: Global, task: &Task, part: &Part) -> Result<u64, NoPlan>
    requires flexible { HasFlexible task.now Expand part.now }
    requires small { part.now.count ≤ 2 ^ 31 }
    ensures taken { IfOk result (Takes task.now part.now) }
    ensures small { IfOk result (λ sectors. sectors ≤ 2 ^ 33) }
    ensures none { IfErr result (HasNone task.now) }
{
    let count = part.count;
    let limit = task.limit;
    let end = end_with(alloc, task, count)?;
    if limit < end {
        return Err(NoPlan::DoesNotFit { end, limit });
    }
    let sectors = most(alloc, task, part, count)?;
    if sectors == count {
        return Err(NoPlan::NoSurplus { limit });
    }
    Ok(sectors)
}

/// The sectors of a part that gives up.
fn given_up(alloc: Global, task: &Task, part: &Part) -> Result<u64, NoPlan>
    requires flexible { HasFlexible task.now Shrink part.now }
    requires small { part.now.count ≤ 2 ^ 31 }
    ensures given_up { IfOk result (GivesUp task.now part.now) }
    ensures small { IfOk result (λ sectors. sectors ≤ 2 ^ 33) }
    ensures none { IfErr result (HasNone task.now) }
{
    let limit = task.limit;
    let last = end_with(alloc, task, part.count)?;
    if last <= limit {
        return Err(NoPlan::NoDeficit { end: last });
    }
    let end = end_with(alloc, task, 1)?;
    if limit < end {
        return Err(NoPlan::DoesNotFit { end, limit });
    }
    let sectors = most(alloc, task, part, 1)?;
    if sectors < part.content {
        return Err(NoPlan::WouldCut {
            part: part.number,
            content: part.content,
            wanted: sectors,
        });
    }
    Ok(sectors)
}

/// The sectors of the part that takes or gives up; 0 where none does.
fn flexible_sectors(alloc: Global, task: &Task) -> Result<u64, NoPlan>
    ensures right { IfOk result (IsRightOf task.now) }
    ensures small { IfOk result (λ sectors. sectors ≤ 2 ^ 33) }
    ensures none { IfErr result (HasNone task.now) }
{
    let Some(part) = flexible_part(task.wishes, task.parts) else {
        return Ok(0);
    };
    match wish_of(task.wishes, part.number) {
        Some(What::Expand) => taken(alloc, task, &part),
        Some(What::Shrink) => given_up(alloc, task, &part),
        _ => Ok(0),
    }
}

/// The layout of the parts that remain, where the part that takes or gives up has its sectors.
pub fn flexed(alloc: Global, task: &Task) -> Result<Laid, NoPlan>
    ensures flexed { IfOk result (IsFlexed task.now) }
    ensures none { IfErr result (HasNone task.now) }
{
    let limit = task.limit;
    let sectors = flexible_sectors(alloc, task)?;
    let laid = lay(alloc, task, sectors)?;
    if limit < laid.last {
        return Err(NoPlan::DoesNotFit {
            end: laid.last,
            limit,
        });
    }
    Ok(laid)
}
