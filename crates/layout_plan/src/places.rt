//! What a plan makes of each part.
ghost use Rattle.std.specs.Prelude.{◌≡◌, ◌≢◌, ℕ, ◌^◌, ◌≤◌, true, length, AllPairs, Contains, IfOk};
ghost use Rattle.layout_plan.specs.declared.part.Part.{Part};
ghost use Rattle.layout_plan.specs.Plans.{IsLogicalEnd, StandsAt};
ghost use Rattle.layout_plan.specs.Roles.{has_logical, is_extended_role};
ghost use Rattle.layout_plan.specs.Wishes.{remaining};
ghost use Rattle.layout_plan.specs.inside.Tasks.{EndsBehind, HasLengthIn, IsLaidOut, Makes, MakesAll};

use crate::laying::Laid;
use crate::line::Spot;
use crate::part::{Part, Placed, Role};
use crate::sizing::{fate_of, number_of, remaining, wanted};
use crate::task::Task;
use std::alloc::{AllocError, Global};

/// Where the part comes to stand.
fn spot_of(laid: &[Part], spots: &[Spot], part: &Part) -> Spot
    requires other_numbers { AllPairs (λ (one other : Part). one.number ≢ other.number) laid.now }
    requires as_many { length spots.now ≡ length laid.now }
    requires there { Contains laid.now part.now }
    ensures { StandsAt laid.now spots.now part.now result }
{
    for (place, other) in laid.iter().enumerate() {
        if other.number == part.number {
            return spots[place];
        }
    }
    // The part is there, so that the loop has found it.
    unreachable!()
}

/// Where the last of the logical partitions ends.
fn logical_end(laid: &[Part], spots: &[Spot]) -> u64
    requires some { has_logical laid.now ≡ true }
    requires as_many { length spots.now ≡ length laid.now }
    ensures { IsLogicalEnd laid.now spots.now result }
{
    let mut last = 0;
    for (place, part) in laid.iter().enumerate() {
        if part.role.is_logical() {
            last = spots[place].end;
        }
    }
    last
}

/// The length of a part that starts there.
fn length_of(laid: &Laid, part: &Part, start: u64) -> u64
    requires small { part.now.count ≤ 2 ^ 31 }
    requires as_many { length laid.now.spots.items ≡ length laid.now.parts.items }
    requires some { is_extended_role part.now.role ≡ true → has_logical laid.now.parts.items ≡ true }
    requires around { is_extended_role part.now.role ≡ true → EndsBehind laid.now start }
    ensures { HasLengthIn laid.now part.now start result }
{
    match part.role {
        Role::Extended => logical_end(&laid.parts, &laid.spots) - start,
        Role::Slot | Role::Logical => wanted(&laid.wishes, part),
    }
}

/// What is made of a part that remains.
fn placed(task: &Task, laid: &Laid, part: &Part) -> Placed
    requires laid { IsLaidOut task.now laid.now.sectors laid.now }
    requires there { Contains (remaining laid.now.wishes.items task.now.parts.now) part.now }
    ensures { Makes task.now laid.now part.now result }
{
    let spot = spot_of(&laid.parts, &laid.spots, part);
    Placed {
        from: part.number,
        number: number_of(&laid.wishes, task.parts, part),
        ebr: spot.ebr,
        start: spot.start,
        count: length_of(laid, part, spot.start),
        fate: fate_of(&laid.wishes, part),
    }
}

/// What is made of each of the parts that remain.
pub fn place(alloc: Global, task: &Task, laid: &Laid) -> Result<Vec<Placed>, AllocError>
    requires { IsLaidOut task.now laid.now.sectors laid.now }
    ensures { IfOk result (λ all. MakesAll task.now laid.now all.items) }
{
    let mut all = Vec::new(alloc);
    for part in &remaining(alloc, &laid.wishes, task.parts)? {
        all.push(placed(task, laid, part))?;
    }
    Ok(all)
}
