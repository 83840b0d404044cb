//! Claims on the blocks of free runs.
ghost use Rattle.std.specs.Prelude.{◌≡◌, ℕ, ◌<◌, IsTrue, IfErr, OnOk};
ghost use Rattle.std.specs.List.{All};
ghost use Rattle.xfs_alloc.specs.Free.{runs_blocks};
ghost use Rattle.xfs_alloc.specs.inside.Telling.{told};
ghost use Rattle.xfs_super.specs.Super.{geometry_of};
ghost use Rattle.xfs_tree.specs.Marks.{marked, AreClaimed, AdmitsVolume, IsClaimFault};
ghost use Rattle.xfs_tree.specs.Records.{by_start};

use xfs_super::{CheckFault, Reason, Super};
use xfs_tree::{ByStart, Mark, TreeFault, claim_run};

/// Claims the blocks of the runs of a group, which lie in it.
pub(crate) fn claim_runs<M: Mark>(
    geo: &Super,
    group: u32,
    runs: &[ByStart],
    marks: &mut M,
) -> Result<(), TreeFault>
    requires group { group < geo.now.agcount }
    requires lie { All (λ r. IsTrue (by_start.inside (geometry_of geo.now) group r)) runs.now }
    requires admits { AdmitsVolume geo.now (M.admits marks.old) }
    ensures claimed { OnOk result
        (AreClaimed geo.now (M.claimed marks.old) (runs_blocks (geometry_of geo.now) group runs.now) (M.claimed marks.new)) }
    ensures fault { IfErr result (IsClaimFault geo.now.agblocks
        (marked geo.now.agblocks (M.claimed marks.old)) (runs_blocks (geometry_of geo.now) group runs.now)) }
    ensures admits { (g b : ℕ) → M.admits marks.new g b ≡ M.admits marks.old g b }
{
    let begin = (group as u64) * (geo.agblocks as u64);
    for run in runs {
        claim_run(geo, begin + (run.start as u64), run.count as u64, marks)?;
    }
    Ok(())
}

/// A fault of a tree, as a check names it.
pub(crate) fn told(geo: &Super, fault: TreeFault) -> CheckFault
    ensures { result ≡ told geo.now.agblocks fault }
{
    match fault {
        TreeFault::Checksum { group, block } => CheckFault::Bad(Reason::Tree { group, block }),
        TreeFault::Header { group, block } => CheckFault::Bad(Reason::Tree { group, block }),
        TreeFault::Level { group, block } => CheckFault::Bad(Reason::Tree { group, block }),
        TreeFault::Order { group, block } => CheckFault::Bad(Reason::Tree { group, block }),
        TreeFault::Range { group, block } => CheckFault::Bad(Reason::Tree { group, block }),
        TreeFault::Marked { group, block } => CheckFault::Bad(Reason::ClaimedTwice {
            block: (group as u64) * (geo.agblocks as u64) + (block as u64),
        }),
        TreeFault::Device => CheckFault::Device,
        TreeFault::Memory => CheckFault::Memory,
    }
}
