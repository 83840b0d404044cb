//! Checking an inode.
ghost use Rattle.std.specs.Prelude.{◌≡◌, ℕ, ◌*◌, ◌≤◌, [], ◌∷◌, IsTrue, IfErr, IsErrOf, OnOk};
ghost use Rattle.block_claims.specs.Agreement.{block};
ghost use Rattle.disk_base.specs.Faults.{Rose};
ghost use Rattle.xfs_check.specs.inside.Reading.{inode_in_buffer};
ghost use Rattle.xfs_check.specs.inside.Steps.{AreChecked, AreRefused};
ghost use Rattle.xfs_super.specs.Super.{geometry_of};
ghost use Rattle.xfs_tree.specs.Marks.{marked, AdmitsVolume};

use disk_base::Blocks;
use std::alloc::Global;
use xfs_files::judge_directory;
use xfs_inode::{extents_of, inode_in};
use xfs_super::{CheckFault, Super};
use xfs_tree::Mark;

/// Checks an inode, with which `bytes` begin, and takes the trees and the extents of its forks.
pub(crate) fn check_inode<B: Blocks, M: Mark>(
    alloc: Global,
    disk: &mut B,
    geo: &Super,
    ino: u64,
    bytes: &[u8; 2048],
    marks: &mut M,
) -> Result<(), CheckFault>
    requires volume { 8 * geo.now.dblocks ≤ B.size disk.old }
    requires admits { AdmitsVolume geo.now (M.admits marks.old) }
    ensures read { B.only_read disk.old disk.new }
    ensures checked { IsTrue B.tells → OnOk result (AreChecked (geometry_of geo.now)
        (inode_in_buffer geo.now ino bytes.now (B.image disk.old) ∷ [])
        (marked geo.now.agblocks (M.claimed marks.old)) (marked geo.now.agblocks (M.claimed marks.new))) }
    ensures fault { IsTrue B.tells → IfErr result (AreRefused (geometry_of geo.now)
        (inode_in_buffer geo.now ino bytes.now (B.image disk.old) ∷ [])
        (marked geo.now.agblocks (M.claimed marks.old))) }
    ensures device { IsErrOf result CheckFault.Device → Rose (B.faults disk.old) (B.faults disk.new) }
    ensures admits { (g b : ℕ) → M.admits marks.new g b ≡ M.admits marks.old g b }
{
    let core = inode_in(disk, geo, ino, bytes)?;
    let contents = extents_of(alloc, disk, geo, &core, bytes, false, marks)?;
    extents_of(alloc, disk, geo, &core, bytes, true, marks)?;
    judge_directory(disk, geo, &core, bytes, contents.items())?;
    Ok(())
}
