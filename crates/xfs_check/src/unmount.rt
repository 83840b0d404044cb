//! Checking the log of a volume.
ghost use Rattle.std.specs.Prelude.{◌≡◌, ℕ, ◌*◌, ◌≤◌, [], ◌∷◌, IsTrue, IfErr, IsErrOf, OnOk};
ghost use Rattle.block_claims.specs.Agreement.{block};
ghost use Rattle.disk_base.specs.Faults.{Rose};
ghost use Rattle.xfs_check.specs.Parts.{LogBlocks};
ghost use Rattle.xfs_check.specs.inside.Steps.{AreTaken, IsStepRefused};
ghost use Rattle.xfs_log.specs.Log.{IsCleanLog, SpeaksAgainstLog, log_seen};
ghost use Rattle.xfs_super.specs.Super.{geometry_of};
ghost use Rattle.xfs_tree.specs.Marks.{marked, AdmitsVolume};

use disk_base::Blocks;
use xfs_inode::told;
use xfs_log::{judge_log, log_first};
use xfs_super::{CheckFault, Super};
use xfs_tree::{Mark, claim_run};

/// Checks that the log was ended by an unmount, and takes its blocks.
pub(crate) fn check_log<B: Blocks, M: Mark>(
    disk: &mut B,
    geo: &Super,
    marks: &mut M,
) -> Result<(), CheckFault>
    requires volume { 8 * geo.now.dblocks ≤ B.size disk.old }
    requires admits { AdmitsVolume geo.now (M.admits marks.old) }
    ensures read { B.only_read disk.old disk.new }
    ensures clean { IsTrue B.tells → OnOk result
        (IsCleanLog (log_seen (geometry_of geo.now) (block (B.image disk.old)))) }
    ensures taken { OnOk result (AreTaken (geometry_of geo.now) (LogBlocks ∷ [])
        (marked geo.now.agblocks (M.claimed marks.old)) (marked geo.now.agblocks (M.claimed marks.new))) }
    ensures fault { IsTrue B.tells → IfErr result (IsStepRefused
        (SpeaksAgainstLog (log_seen (geometry_of geo.now) (block (B.image disk.old)))) (geometry_of geo.now) (LogBlocks ∷ [])
        (marked geo.now.agblocks (M.claimed marks.old))) }
    ensures device { IsErrOf result CheckFault.Device → Rose (B.faults disk.old) (B.faults disk.new) }
{
    match claim_run(geo, log_first(geo), u64::from(geo.logblocks), marks) {
        Ok(()) => {}
        Err(fault) => return Err(told(geo, fault)),
    }
    judge_log(disk, geo)?;
    Ok(())
}
