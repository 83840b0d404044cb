//! Checking the chunks of inodes of a group.
ghost use Rattle.std.specs.Prelude.{◌≡◌, ℕ, ◌*◌, ◌<◌, ◌≤◌, true, IsTrue, IfOk, IfErr, IsErrOf, OnOk};
ghost use Rattle.std.specs.List.{All};
ghost use Rattle.block_claims.specs.Agreement.{block};
ghost use Rattle.disk_base.specs.Faults.{Rose};
ghost use Rattle.xfs_check.specs.Parts.{chunk_parts};
ghost use Rattle.xfs_check.specs.Seen.{agi_seen, free_inode_tree};
ghost use Rattle.xfs_check.specs.Valid.{AreSoundInodeTrees, HasFreeInodeTreeFault, IsSoundFreeInodeTree, SpeaksAgainstInodes};
ghost use Rattle.xfs_check.specs.inside.Reading.{head_on, group_on, IsHeadRead};
ghost use Rattle.xfs_check.specs.inside.Steps.{AreTaken, IsStepRefused};
ghost use Rattle.xfs_inode.specs.Chunks.{IsSoundChunk, tree_chunks};
ghost use Rattle.xfs_super.specs.Headers.{IsSoundAgi};
ghost use Rattle.xfs_super.specs.Super.{geometry_of};
ghost use Rattle.xfs_tree.specs.Marks.{marked, AreClaimed, AdmitsVolume};
ghost use Rattle.xfs_tree.specs.Tree.{blocks_of};

use crate::head::Head;
use disk_base::{Blocks, List};
use std::alloc::Global;
use xfs_inode::{chunks_of, told};
use xfs_super::{Agi, CheckFault, Super};
use xfs_tree::{FreeChunk, FreeSparseChunk, Mark, SparseChunk, TreeFault, walk};

/// Walks the tree of the chunks of a group that have a free inode, where the superblock says that there is one.
fn walk_free_inodes<B: Blocks, M: Mark>(
    alloc: Global,
    disk: &mut B,
    geo: &Super,
    group: u32,
    agi: &Agi,
    marks: &mut M,
) -> Result<(), TreeFault>
    requires volume { 8 * geo.now.dblocks ≤ B.size disk.old }
    requires group { group < geo.now.agcount }
    requires agi { IsSoundAgi (geometry_of geo.now) group agi.now }
    requires admits { AdmitsVolume geo.now (M.admits marks.old) }
    ensures read { B.only_read disk.old disk.new }
    ensures sound { IsTrue B.tells → OnOk result (IsSoundFreeInodeTree (geometry_of geo.now) group
        (free_inode_tree (geometry_of geo.now) group agi.now (block (B.image disk.old)))) }
    ensures claimed { IsTrue B.tells → OnOk result (AreClaimed geo.now (M.claimed marks.old)
        (blocks_of (free_inode_tree (geometry_of geo.now) group agi.now (block (B.image disk.old)))) (M.claimed marks.new)) }
    ensures fault { IsTrue B.tells → IfErr result (HasFreeInodeTreeFault (geometry_of geo.now) group
        (free_inode_tree (geometry_of geo.now) group agi.now (block (B.image disk.old)))
        (marked geo.now.agblocks (M.claimed marks.old))) }
    ensures device { IsErrOf result TreeFault.Device → Rose (B.faults disk.old) (B.faults disk.new) }
    ensures admits { (g b : ℕ) → M.admits marks.new g b ≡ M.admits marks.old g b }
{
    if !geo.finobt {
        return Ok(());
    }
    if geo.sparse {
        walk::<FreeSparseChunk, B, M>(
            alloc,
            disk,
            geo,
            group,
            agi.free_root,
            agi.free_level,
            marks,
        )?;
        return Ok(());
    }
    walk::<FreeChunk, B, M>(
        alloc,
        disk,
        geo,
        group,
        agi.free_root,
        agi.free_level,
        marks,
    )?;
    Ok(())
}

/// Checks the trees of the inodes of a group whose headers were read, and takes them: the blocks of both trees, and
/// those of the chunks, which are answered.
pub(crate) fn check_chunks<B: Blocks, M: Mark>(
    alloc: Global,
    disk: &mut B,
    geo: &Super,
    group: u32,
    head: &Head,
    marks: &mut M,
) -> Result<List<SparseChunk>, CheckFault>
    requires volume { 8 * geo.now.dblocks ≤ B.size disk.old }
    requires group { group < geo.now.agcount }
    requires agi { IsSoundAgi (geometry_of geo.now) group head.now.agi }
    requires head { IsTrue B.tells → IsHeadRead (geometry_of geo.now) group (head_on geo.now group (B.image disk.old)) head.now }
    requires admits { AdmitsVolume geo.now (M.admits marks.old) }
    ensures read { B.only_read disk.old disk.new }
    ensures chunks { IsTrue B.tells → IfOk result (λ chunks.
        chunks ≡ tree_chunks (geometry_of geo.now) group (group_on geo.now group (B.image disk.old)).inode_levels) }
    ensures laid { IfOk result (All (IsSoundChunk (geometry_of geo.now) group)) }
    ensures sound { IsTrue B.tells → OnOk result
        (AreSoundInodeTrees (geometry_of geo.now) (group_on geo.now group (B.image disk.old))) }
    ensures taken { IsTrue B.tells → OnOk result (AreTaken (geometry_of geo.now)
        (chunk_parts (group_on geo.now group (B.image disk.old)))
        (marked geo.now.agblocks (M.claimed marks.old)) (marked geo.now.agblocks (M.claimed marks.new))) }
    ensures fault { IsTrue B.tells → IfErr result (IsStepRefused
        (SpeaksAgainstInodes (geometry_of geo.now) (group_on geo.now group (B.image disk.old))) (geometry_of geo.now)
        (chunk_parts (group_on geo.now group (B.image disk.old))) (marked geo.now.agblocks (M.claimed marks.old))) }
    ensures device { IsErrOf result CheckFault.Device → Rose (B.faults disk.old) (B.faults disk.new) }
    ensures admits { (g b : ℕ) → M.admits marks.new g b ≡ M.admits marks.old g b }
{
    let chunks = chunks_of(alloc, disk, geo, group, &head.agi, marks)?;
    match walk_free_inodes(alloc, disk, geo, group, &head.agi, marks) {
        Ok(()) => {}
        Err(fault) => return Err(told(geo, fault)),
    }
    Ok(chunks)
}
