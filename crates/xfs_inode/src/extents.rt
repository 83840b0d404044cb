//! Reading the extents of an inode.
ghost use Rattle.std.specs.Prelude.{◌≡◌, ℕ, ◌*◌, ◌≤◌, IsTrue, true, IfOk, IfErr, IsErrOf, OnOk};
ghost use Rattle.block_claims.specs.Agreement.{block};
ghost use Rattle.disk_base.specs.Faults.{Rose};
ghost use Rattle.xfs_inode.specs.Core.{fork_holds};
ghost use Rattle.xfs_inode.specs.Extents.{AreSoundExtents};
ghost use Rattle.xfs_inode.specs.ForkReading.{fork_in_buffer, fork_on, IsSoundForkOn, HasFaultInForkOn, ClaimedByFork};
ghost use Rattle.xfs_inode.specs.Seen.{fork_tree, extents_seen};
ghost use Rattle.xfs_inode.specs.inside.Reading.{IsReadFork, IsReadFault};
ghost use Rattle.xfs_inode.specs.inside.Telling.{fork_as_data};
ghost use Rattle.xfs_super.specs.Super.{geometry_of};
ghost use Rattle.xfs_tree.specs.Marks.{marked, AreClaimed, AdmitsVolume};
ghost use Rattle.xfs_tree.specs.Tree.{blocks_of};

use crate::claiming::{claim_extents, told};
use crate::core_fields::Core;
use crate::extent::{are_sound, listed_extents};
use crate::fork::{Fork, fork_in};
use disk_base::{Blocks, List};
use std::alloc::Global;
use xfs_super::{CheckFault, Reason, Super};
use xfs_tree::{Extent, Mark, TreeFault, walk_fork};

/// The extents of a fork, as it lists them or its tree has them; the blocks of the tree are claimed.
fn read_extents<B: Blocks, M: Mark>(
    alloc: Global,
    disk: &mut B,
    geo: &Super,
    fork: &Fork<'_>,
    marks: &mut M,
) -> Result<List<Extent>, TreeFault>
    requires volume { 8 * geo.now.dblocks ≤ B.size disk.old }
    requires fork { fork_holds (fork_as_data fork.now) ≡ true }
    requires admits { AdmitsVolume geo.now (M.admits marks.old) }
    ensures read { B.only_read disk.old disk.new }
    ensures fork { IsTrue B.tells → IfOk result
        (IsReadFork (geometry_of geo.now) (block (B.image disk.old)) (fork_as_data fork.now)) }
    ensures claimed { IsTrue B.tells → OnOk result (AreClaimed geo.now (M.claimed marks.old)
        (blocks_of (fork_tree (block (B.image disk.old)) (geometry_of geo.now) (fork_as_data fork.now))) (M.claimed marks.new)) }
    ensures fault { IsTrue B.tells → IfErr result (IsReadFault (geometry_of geo.now) (block (B.image disk.old))
        (fork_as_data fork.now) (marked geo.now.agblocks (M.claimed marks.old))) }
    ensures device { IsErrOf result TreeFault.Device → Rose (B.faults disk.old) (B.faults disk.new) }
    ensures admits { (g b : ℕ) → M.admits marks.new g b ≡ M.admits marks.old g b }
{
    if fork.format == 2 {
        let extents = listed_extents(alloc, fork.bytes, fork.count as usize)?;
        return Ok(extents);
    }
    if fork.format == 3 {
        let extents = walk_fork(alloc, disk, geo, fork.ino, fork.bytes, marks)?;
        return Ok(extents);
    }
    Ok(List::new(alloc))
}

/// The extents of an inode, whose core that is and with which `bytes` begin: those of its data fork, or those of
/// its attribute fork. A fork in another format has none. The blocks of their tree, if there is one, are read,
/// each once, and are claimed, and so are the blocks of the extents.
///
/// # Errors
///
/// `Bad` with a reason that speaks against the fork, its tree, its extents or the claims, of several any. `Device`
/// where a read failed, and `Memory` where memory was refused. Then some of the blocks are claimed.
pub fn extents_of<B: Blocks, M: Mark>(
    alloc: Global,
    disk: &mut B,
    geo: &Super,
    core: &Core,
    bytes: &[u8; 2048],
    attribute: bool,
    marks: &mut M,
) -> Result<List<Extent>, CheckFault>
    requires volume { 8 * geo.now.dblocks ≤ B.size disk.old }
    requires admits { AdmitsVolume geo.now (M.admits marks.old) }
    ensures read { B.only_read disk.old disk.new }
    ensures sound { IsTrue B.tells → OnOk result (IsSoundForkOn geo.now
        (fork_in_buffer geo.now core.now bytes.now attribute) (B.image disk.old) (M.claimed marks.old)) }
    ensures extents { IsTrue B.tells → IfOk result (λ extents. extents
        ≡ extents_seen (fork_on geo.now (fork_in_buffer geo.now core.now bytes.now attribute) (B.image disk.old))) }
    ensures claimed { IsTrue B.tells → OnOk result (ClaimedByFork geo.now
        (fork_in_buffer geo.now core.now bytes.now attribute) (B.image disk.old) (M.claimed marks.old) (M.claimed marks.new)) }
    ensures fault { IsTrue B.tells → IfErr result (HasFaultInForkOn geo.now
        (fork_in_buffer geo.now core.now bytes.now attribute) (B.image disk.old) (M.claimed marks.old)) }
    ensures device { IsErrOf result CheckFault.Device → Rose (B.faults disk.old) (B.faults disk.new) }
    ensures laid { IfOk result (AreSoundExtents (geometry_of geo.now)) }
    ensures admits { (g b : ℕ) → M.admits marks.new g b ≡ M.admits marks.old g b }
{
    let inode = &bytes[..geo.inodesize as usize];
    let Some(fork) = fork_in(geo, core, inode, attribute) else {
        return Err(CheckFault::Bad(Reason::Inode { ino: core.ino }));
    };
    let extents = match read_extents(alloc, disk, geo, &fork, marks) {
        Ok(extents) => extents,
        Err(fault) => return Err(told(geo, fault)),
    };
    if !are_sound(geo, extents.items()) {
        return Err(CheckFault::Bad(Reason::Extent { ino: core.ino }));
    }
    match claim_extents(geo, extents.items(), marks) {
        Ok(()) => {}
        Err(fault) => return Err(told(geo, fault)),
    }
    Ok(extents)
}
