//! Gaps between the entries of a line.
ghost use Rattle.std.specs.Prelude.{◌≡◌, ◌<◌, ◌≤◌, ◌+◌, ◌^◌, ◌++◌, true, OnOk, IfOk};
ghost use Rattle.std.specs.List.{list_all};
ghost use Rattle.lvm_group.specs.inside.Line.{last_gap, free_on_line, free_on_all, is_small};
ghost use Rattle.lvm_group.specs.inside.Parts.{IsPartOf, as_runs, gaps_of};

use crate::part::Part;
use crate::types::PhysicalVolume;
use crate::values::pushed;
use disk_base::List;
use std::alloc::{AllocError, Global};
use std::collections::BTreeMap;

/// The runs, with the gap from `at` up to `begin`, if there is one.
fn with_gap(
    part: &Part,
    runs: List<(u32, u64, u64)>,
    at: u128,
    begin: u128,
) -> Result<List<(u32, u64, u64)>, AllocError>
    requires from { part.now.lo ≤ at }
    requires inside { begin ≤ part.now.end }
    ensures { IfOk result (λ more. more ≡ runs ++ as_runs part.now (last_gap part.now.lo at begin)) }
{
    if begin <= at {
        return Ok(runs);
    }
    let extent = u64::from(part.extent);
    let first = (at - part.lo) as u64;
    let count = (begin - at) as u64;
    let run = (
        part.member,
        u64::from(part.start) + first * extent,
        count * extent,
    );
    let more = pushed(runs, run)?;
    Ok(more)
}

/// The runs, with what no entry has of that part.
fn with_gaps(
    line: &BTreeMap<u128, u128>,
    part: &Part,
    earlier: List<(u32, u64, u64)>,
) -> Result<List<(u32, u64, u64)>, AllocError>
    requires { part.now.lo < 2 ^ 127 }
    ensures { IfOk result (λ more. more ≡ earlier ++ as_runs part.now (gaps_of part.now line.now.entries)) }
{
    let mut runs = earlier;
    let mut at = part.lo;
    for (behind, begin) in line.range(part.lo + 1..) {
        if part.end <= *begin {
            return with_gap(part, runs, at, part.end);
        }
        runs = with_gap(part, runs, at, *begin)?;
        at = at.max(*behind);
    }
    with_gap(part, runs, at, part.end)
}

/// The part of a physical volume of which so much is known.
fn part_of(member: u32, start: u32, count: u32, extent: u32) -> Part
    ensures part { IsPartOf member start count extent result }
    ensures small { count < 4294967296 }
{
    let lo = u128::from(member) * 1099511627776;
    Part {
        member,
        start,
        extent,
        lo,
        end: lo + u128::from(count),
    }
}

/// The runs, with what is free of that physical volume.
fn with_free(
    line: &BTreeMap<u128, u128>,
    member: u32,
    p: &PhysicalVolume,
    extent: u32,
    runs: List<(u32, u64, u64)>,
) -> Result<List<(u32, u64, u64)>, AllocError>
    ensures free { IfOk result (λ more. more ≡ runs ++ free_on_line member extent line.now.entries p.now) }
    ensures small { OnOk result (is_small p.now ≡ true) }
{
    with_gaps(line, &part_of(member, p.start, p.count, extent), runs)
}

/// What is free of each of these physical volumes.
pub(crate) fn free_on_all(
    alloc: Global,
    line: &BTreeMap<u128, u128>,
    ps: &[PhysicalVolume],
    extent: u32,
) -> Result<List<(u32, u64, u64)>, AllocError>
    ensures free { IfOk result (λ runs. runs ≡ free_on_all 0 extent line.now.entries ps.now) }
    ensures small { OnOk result (list_all is_small ps.now ≡ true) }
{
    let mut runs = List::new(alloc);
    let mut member = 0;
    for p in ps {
        runs = with_free(line, member, p, extent, runs)?;
        if member == 4294967295 {
            return Err(AllocError);
        }
        member += 1;
    }
    Ok(runs)
}
