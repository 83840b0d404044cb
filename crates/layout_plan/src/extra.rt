//! The partition that takes what is left over.
ghost use Rattle.std.specs.Prelude.{◌≡◌, ℕ, ◌+◌, ◌^◌, ◌<◌, ◌≤◌, ◌↔◌, true, IsTrue, MatchOption};
ghost use Rattle.layout_plan.specs.Plans.{AllTaken, IsExtra, IsLeastFree, is_taken};
ghost use Rattle.layout_plan.specs.Tables.{most_numbers};

use crate::alignment::next_multiple;
use crate::part::{Fate, Kind, Placed};
use crate::wish::Layout;

/// The sectors of the least partition that is made of what is left over.
const LEAST_EXTRA: u64 = 20480;

/// How many numbers a table has for partitions.
fn numbers(kind: Kind) -> u32
    ensures { result ≡ most_numbers kind }
{
    match kind {
        Kind::Mbr => 4,
        Kind::Gpt => 128,
    }
}

/// Whether a partition has the number.
fn has_number(placed: &[Placed], number: u32) -> bool
    ensures { result ≡ is_taken placed.now number }
{
    placed.iter().any(|one| one.number == number)
}

/// The least number from 1 to `most` that no partition has.
fn least_free(placed: &[Placed], most: u32) -> Option<u32>
    requires { most < 2 ^ 31 }
    ensures { MatchOption result (AllTaken most placed.now) (IsLeastFree most placed.now) }
{
    for number in 1..most + 1 {
        if !has_number(placed, number) {
            return Some(number);
        }
    }
    None
}

/// The partition from the next multiple of the alignment behind `end` up to `limit`, where it is asked for, is
/// large enough and finds a number.
pub fn extra_part(
    kind: Kind,
    layout: &Layout,
    placed: &[Placed],
    end: u64,
    limit: u64,
) -> Option<Placed>
    requires some { 1 ≤ layout.now.align }
    requires room { end < 2 ^ 63 }
    ensures { IsExtra kind layout.now end placed.now limit result }
{
    let align = layout.align;
    if !layout.extra {
        return None;
    }
    let start = next_multiple(end, u64::from(align));
    if limit < start + LEAST_EXTRA {
        return None;
    }
    let number = least_free(placed, numbers(kind))?;
    Some(Placed {
        from: 0,
        number,
        ebr: 0,
        start,
        count: limit - start,
        fate: Fate::Kept,
    })
}
