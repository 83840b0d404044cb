//! Runs of physical volumes as runs of the disk.
ghost use Rattle.std.specs.Prelude.{◌≡◌, ◌^◌, All, IfOk};
ghost use Rattle.disk_base.specs.Run.{IsWithin};
ghost use Rattle.group_runs.specs.Places.{LiesInMember, disk_run, disk_runs};

use disk_base::Run;
use std::alloc::{AllocError, Global};

// A run of a physical volume as a run of the disk.
fn disk_run(members: &[Run], run: (u32, u64, u64)) -> Run
    requires few { All (IsWithin (2 ^ 31)) members.now }
    requires inside { LiesInMember members.now run }
    ensures { result ≡ disk_run members.now run }
{
    let (member, first, count) = run;
    let place = members[member as usize];
    Run {
        start: place.start + first,
        count,
    }
}

/// Runs of physical volumes, each with its physical volume, its first sector there and its sectors, as runs of the
/// disk, of at most 2^31 sectors. `members` has the run of each physical volume on the disk, in the group's order.
pub fn disk_runs(
    alloc: Global,
    members: &[Run],
    runs: &[(u32, u64, u64)],
) -> Result<Vec<Run>, AllocError>
    requires few { All (IsWithin (2 ^ 31)) members.now }
    requires inside { All (LiesInMember members.now) runs.now }
    ensures { IfOk result (λ placed. placed.items ≡ disk_runs members.now runs.now) }
{
    let mut placed = Vec::new(alloc);
    for run in runs {
        placed.push(disk_run(members, *run))?;
    }
    Ok(placed)
}
