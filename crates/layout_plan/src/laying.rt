//! The order in which parts are laid out, and where each one comes to stand.
ghost use Rattle.std.specs.Prelude.{◌≡◌, ℕ, ◌^◌, ◌<◌, ◌≤◌, if◌then◌else◌, All, AllPairs, IsPermutation, IfOk};
ghost use Rattle.layout_plan.specs.declared.part.Part.{Part};
ghost use Rattle.layout_plan.specs.Plans.{Begins, ComesBefore, IsLeastStart, extended_start};
ghost use Rattle.layout_plan.specs.Roles.{is_logical};
ghost use Rattle.layout_plan.specs.Tables.{floor_of};
ghost use Rattle.layout_plan.specs.inside.Tasks.{IsLaidOut, rest};

use crate::alignment::next_multiple;
use crate::line::{Line, Spot, lay_out};
use crate::part::{Kind, Part};
use crate::settling::settled;
use crate::sizing::{pieces_of, remaining};
use crate::task::Task;
use crate::wish::Wish;
use std::alloc::{AllocError, Global};

/// The first sector that a partition may take.
pub fn floor(kind: Kind) -> u64
    ensures { result ≡ floor_of kind }
{
    match kind {
        Kind::Mbr => 1,
        Kind::Gpt => 34,
    }
}

/// Where the extended partition starts; 0 where there is none.
#[tactic(auto, unfolding(crate::specs::Plans::extended_start))]
fn extended_start(parts: &[Part]) -> u64
    ensures { result ≡ extended_start parts.now }
{
    for part in parts {
        if part.role.is_extended() {
            return part.start;
        }
    }
    0
}

/// Where the turn of a part is, where that of the logical ones is at `outer`.
fn turn(outer: u64, part: &Part) -> u64
    ensures { result ≡ (if is_logical part.now.role then outer else part.now.start) }
{
    if part.role.is_logical() {
        outer
    } else {
        part.start
    }
}

/// The parts that remain, each at its turn.
fn by_turn(alloc: Global, task: &Task) -> Result<Vec<Part>, AllocError>
    ensures same_parts { IfOk result (λ laid. IsPermutation (rest task.now) laid.items) }
    ensures in_turn { IfOk result (λ laid. AllPairs (ComesBefore task.now.parts.now) laid.items) }
{
    let outer = extended_start(task.parts);
    // The parts stand by rising number, and the sort keeps that order where two have one turn.
    let mut laid = remaining(alloc, task.wishes, task.parts)?;
    laid.sort_by_key(|part| turn(outer, part))?;
    Ok(laid)
}

/// The least start of the parts, or `other` where there is no part.
fn least_start(parts: &[Part], other: u64) -> u64
    requires parts { All (λ (part : Part). part.start < 2 ^ 32) parts.now }
    requires other { other < 2 ^ 32 }
    ensures least { IsLeastStart parts.now result }
    ensures small { result < 2 ^ 32 }
{
    parts.iter().map(|part| part.start).min().unwrap_or(other)
}

/// Where the first partition starts.
fn begin(task: &Task) -> u64
    ensures begins { Begins task.now.kind task.now.layout.now task.now.parts.now result }
    ensures small { result < 2 ^ 32 }
{
    let floor = floor(task.kind);
    if task.layout.always {
        next_multiple(floor, u64::from(task.layout.align))
    } else {
        least_start(task.parts, floor)
    }
}

/// The parts that are made, each at its turn, where each one comes to stand, and where the last one ends. The part
/// that takes or gives up has so many sectors, as the wishes say.
#[derive(Debug, Drop)]
pub struct Laid {
    pub sectors: u64,
    pub wishes: Vec<Wish>,
    pub parts: Vec<Part>,
    pub spots: Vec<Spot>,
    pub last: u64,
}

/// Lays the parts that remain out, where the part that takes or gives up gets so many sectors.
pub fn lay(alloc: Global, task: &Task, sectors: u64) -> Result<Laid, AllocError>
    requires { sectors ≤ 2 ^ 33 }
    ensures { IfOk result (IsLaidOut task.now sectors) }
{
    let align = u64::from(task.layout.align);
    let wishes = settled(alloc, sectors, task.wishes)?;
    let parts = by_turn(alloc, task)?;
    let pieces = pieces_of(alloc, &wishes, &parts)?;
    let line = lay_out(alloc, align, begin(task), floor(task.kind), &pieces)?;
    let Line { spots, last } = line;
    Ok(Laid {
        sectors,
        wishes,
        parts,
        spots,
        last,
    })
}
