//! Reading the free space of a group.
ghost use Rattle.std.specs.Prelude.{◌≡◌, ℕ, ◌*◌, ◌<◌, ◌≤◌, IsTrue, IfOk, IfErr, IsErrOf, OnOk};
ghost use Rattle.disk_base.specs.Faults.{Rose};
ghost use Rattle.xfs_alloc.specs.Free.{IsFreeOn, HasFaultOn, FreeClaimed};
ghost use Rattle.xfs_alloc.specs.FreeSpace.{space_on};
ghost use Rattle.xfs_super.specs.Headers.{IsSoundAgf};
ghost use Rattle.xfs_super.specs.Super.{geometry_of};
ghost use Rattle.xfs_tree.specs.Marks.{AdmitsVolume};

use crate::claiming::{claim_runs, told};
use crate::free::Free;
use crate::judging::judge;
use disk_base::Blocks;
use std::alloc::Global;
use xfs_super::{Agf, CheckFault, Super};
use xfs_tree::{ByCount, ByStart, Mark, walk_levels};

/// The free space of a group (XFS Algorithms & Data Structures, 'AG Free Space B+trees'), whose AGF that is. The
/// blocks of its two trees are read, each once, and are claimed, and so are the blocks of the runs of free
/// blocks.
///
/// # Errors
///
/// `Bad` with a reason that speaks against the trees, the runs, their number in the AGF or the claims, of several
/// any. `Device` where a read failed, and `Memory` where memory was refused. Then some of the blocks are claimed.
pub fn free_of<B: Blocks, M: Mark>(
    alloc: Global,
    disk: &mut B,
    geo: &Super,
    group: u32,
    agf: &Agf,
    marks: &mut M,
) -> Result<Free, CheckFault>
    requires volume { 8 * geo.now.dblocks ≤ B.size disk.old }
    requires group { group < geo.now.agcount }
    requires agf { IsSoundAgf (geometry_of geo.now) group agf.now }
    requires admits { AdmitsVolume geo.now (M.admits marks.old) }
    ensures read { B.only_read disk.old disk.new }
    ensures sound { IsTrue B.tells → OnOk result (IsFreeOn geo.now group agf.now (B.image disk.old) (M.claimed marks.old)) }
    ensures space { IsTrue B.tells → IfOk result (λ free. free ≡ space_on geo.now group agf.now (B.image disk.old)) }
    ensures claimed { IsTrue B.tells → OnOk result
        (FreeClaimed geo.now group agf.now (B.image disk.old) (M.claimed marks.old) (M.claimed marks.new)) }
    ensures fault { IsTrue B.tells → IfErr result (HasFaultOn geo.now group agf.now (B.image disk.old) (M.claimed marks.old)) }
    ensures device { IsErrOf result CheckFault.Device → Rose (B.faults disk.old) (B.faults disk.new) }
    ensures admits { (g b : ℕ) → M.admits marks.new g b ≡ M.admits marks.old g b }
{
    let starts = match walk_levels::<ByStart, B, M>(
        alloc,
        disk,
        geo,
        group,
        agf.bno_root,
        agf.bno_level,
        marks,
    ) {
        Ok(walked) => walked,
        Err(fault) => return Err(told(geo, fault)),
    };
    let counts = match walk_levels::<ByCount, B, M>(
        alloc,
        disk,
        geo,
        group,
        agf.cnt_root,
        agf.cnt_level,
        marks,
    ) {
        Ok(walked) => walked,
        Err(fault) => return Err(told(geo, fault)),
    };
    judge(
        alloc,
        group,
        agf,
        starts.records.items(),
        counts.records.items(),
    )?;
    match claim_runs(geo, group, starts.records.items(), marks) {
        Ok(()) => {}
        Err(fault) => return Err(told(geo, fault)),
    }
    let free = Free::of(alloc, geo, &starts, &counts)?;
    Ok(free)
}
