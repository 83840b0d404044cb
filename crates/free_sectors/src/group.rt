//! What groups haven't given out.
ghost use Rattle.std.specs.Prelude.{◌≡◌, IsTrue, OnOk, map};
ghost use Rattle.free_sectors.specs.Free.{IsInFreeExtent, member_places, part_run};
ghost use Rattle.free_sectors.specs.inside.Adding.{Gathers};
ghost use Rattle.group_runs.specs.Places.{member_run};
ghost use Rattle.lvm_group.specs.declared.types.Member.{Member};

use crate::putting::Gathered;
use disk_base::Run;
use group_content::GroupContent;
use guest_view::GuestPart;
use std::alloc::{AllocError, Global};

// The run of the partition of that number.
fn part_run(parts: &[GuestPart], number: u32) -> Run
    ensures { result ≡ part_run parts.now number }
{
    for part in parts {
        if part.number == number {
            return Run {
                start: part.start,
                count: part.count,
            };
        }
    }
    Run { start: 0, count: 0 }
}

// The run of a group's physical volume of that index.
fn member_run(parts: &[GuestPart], content: &GroupContent, index: u32) -> Run
    ensures { result ≡ member_run (member_places parts.now content.now) index }
{
    if index < content.group.member_count() {
        return part_run(parts, content.group.member(index).part);
    }
    Run { start: 0, count: 0 }
}

/// The extents of a group that no logical volume has.
pub(crate) fn put_free(
    out: &mut Gathered,
    alloc: Global,
    parts: &[GuestPart],
    content: &GroupContent,
) -> Result<(), AllocError>
    ensures { OnOk result (Gathers out.old out.new (IsInFreeExtent parts.now content.now)) }
{
    for run in content.group.free_extents() {
        let member = member_run(parts, content, run.0);
        out.put(alloc, member.start.saturating_add(run.1), run.2)?;
    }
    Ok(())
}

/// The same, if the group is chosen.
pub(crate) fn put_free_if(
    out: &mut Gathered,
    alloc: Global,
    parts: &[GuestPart],
    content: &GroupContent,
    is_chosen: bool,
) -> Result<(), AllocError>
    ensures { OnOk result (Gathers out.old out.new (λ x. IsTrue is_chosen × IsInFreeExtent parts.now content.now x)) }
{
    if !is_chosen {
        return Ok(());
    }
    put_free(out, alloc, parts, content)?;
    Ok(())
}
