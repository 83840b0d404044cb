//! Reading the chunks of inodes of a group.
ghost use Rattle.std.specs.Prelude.{◌≡◌, ℕ, ◌*◌, ◌<◌, ◌≤◌, map, true, IsTrue, IfOk, IfErr, IsErrOf, OnOk};
ghost use Rattle.std.specs.List.{All};
ghost use Rattle.block_claims.specs.Agreement.{block};
ghost use Rattle.disk_base.specs.Faults.{Rose};
ghost use Rattle.xfs_inode.specs.Chunks.{IsSoundChunk, chunk_len, chunk_block, chunk_blocks, chunks_blocks, full_chunk, inode_tree_on, chunks_on, AreSoundChunksOn, HasChunkFaultOn, ClaimedByChunks};
ghost use Rattle.xfs_inode.specs.inside.ReadingChunks.{AreReadChunks, IsChunkReadFault};
ghost use Rattle.xfs_super.specs.Headers.{IsSoundAgi};
ghost use Rattle.xfs_super.specs.Super.{geometry_of};
ghost use Rattle.xfs_tree.specs.Marks.{marked, AreClaimed, AdmitsVolume, IsClaimFault};
ghost use Rattle.xfs_tree.specs.Tree.{blocks_of};
ghost use Rattle.xfs_tree.specs.declared.fault.TreeFault.TheVariants.{Memory};

use crate::chunk::{
    chunk_block, first_unsound, full_chunk, inode_number, inodes_in_block, is_hole,
};
use crate::claiming::told;
use disk_base::{Blocks, List};
use std::alloc::Global;
use xfs_super::{Agi, CheckFault, Reason, Super};
use xfs_tree::{Chunk, Mark, SparseChunk, TreeFault, claim_run, walk};

/// Claims block `j` of a chunk, if it isn't a hole.
fn claim_block<M: Mark>(
    geo: &Super,
    group: u32,
    chunk: &SparseChunk,
    j: u32,
    marks: &mut M,
) -> Result<(), TreeFault>
    requires group { group < geo.now.agcount }
    requires sound { IsSoundChunk (geometry_of geo.now) group chunk.now }
    requires j { j < chunk_len (geometry_of geo.now) }
    requires admits { AdmitsVolume geo.now (M.admits marks.old) }
    ensures claimed { OnOk result (AreClaimed geo.now (M.claimed marks.old)
        (chunk_block (geometry_of geo.now) group chunk.now j) (M.claimed marks.new)) }
    ensures fault { IfErr result (IsClaimFault geo.now.agblocks (marked geo.now.agblocks (M.claimed marks.old))
        (chunk_block (geometry_of geo.now) group chunk.now j)) }
    ensures admits { (g b : ℕ) → M.admits marks.new g b ≡ M.admits marks.old g b }
{
    if is_hole(chunk, inodes_in_block(geo) * j) {
        return Ok(());
    }
    claim_run(geo, chunk_block(geo, group, chunk, j), 1, marks)?;
    Ok(())
}

/// Claims the blocks of a chunk.
fn claim_chunk<M: Mark>(
    geo: &Super,
    group: u32,
    chunk: &SparseChunk,
    marks: &mut M,
) -> Result<(), TreeFault>
    requires group { group < geo.now.agcount }
    requires sound { IsSoundChunk (geometry_of geo.now) group chunk.now }
    requires admits { AdmitsVolume geo.now (M.admits marks.old) }
    ensures claimed { OnOk result (AreClaimed geo.now (M.claimed marks.old)
        (chunk_blocks (geometry_of geo.now) group chunk.now) (M.claimed marks.new)) }
    ensures fault { IfErr result (IsClaimFault geo.now.agblocks (marked geo.now.agblocks (M.claimed marks.old))
        (chunk_blocks (geometry_of geo.now) group chunk.now)) }
    ensures admits { (g b : ℕ) → M.admits marks.new g b ≡ M.admits marks.old g b }
{
    let len = 64 / inodes_in_block(geo);
    for j in 0..len {
        claim_block(geo, group, chunk, j, marks)?;
    }
    Ok(())
}

/// Claims the blocks of chunks.
fn claim_chunks<M: Mark>(
    geo: &Super,
    group: u32,
    chunks: &[SparseChunk],
    marks: &mut M,
) -> Result<(), TreeFault>
    requires group { group < geo.now.agcount }
    requires sound { All (IsSoundChunk (geometry_of geo.now) group) chunks.now }
    requires admits { AdmitsVolume geo.now (M.admits marks.old) }
    ensures claimed { OnOk result (AreClaimed geo.now (M.claimed marks.old)
        (chunks_blocks (geometry_of geo.now) group chunks.now) (M.claimed marks.new)) }
    ensures fault { IfErr result (IsClaimFault geo.now.agblocks (marked geo.now.agblocks (M.claimed marks.old))
        (chunks_blocks (geometry_of geo.now) group chunks.now)) }
    ensures admits { (g b : ℕ) → M.admits marks.new g b ≡ M.admits marks.old g b }
{
    for chunk in chunks {
        claim_chunk(geo, group, chunk, marks)?;
    }
    Ok(())
}

/// Chunks without holes as ones that may have some.
fn full_chunks(alloc: Global, chunks: &[Chunk]) -> Result<List<SparseChunk>, TreeFault>
    ensures chunks { IfOk result (λ full. full ≡ map full_chunk chunks.now) }
    ensures memory { IfErr result (λ fault. fault ≡ Memory) }
{
    let mut full = List::new(alloc);
    for chunk in chunks {
        full.push(full_chunk(chunk))?;
    }
    Ok(full)
}

/// The chunks in the tree of a group, whose blocks are claimed.
fn read_chunks<B: Blocks, M: Mark>(
    alloc: Global,
    disk: &mut B,
    geo: &Super,
    group: u32,
    agi: &Agi,
    marks: &mut M,
) -> Result<List<SparseChunk>, TreeFault>
    requires volume { 8 * geo.now.dblocks ≤ B.size disk.old }
    requires group { group < geo.now.agcount }
    requires agi { IsSoundAgi (geometry_of geo.now) group agi.now }
    requires admits { AdmitsVolume geo.now (M.admits marks.old) }
    ensures read { B.only_read disk.old disk.new }
    ensures chunks { IsTrue B.tells → IfOk result
        (AreReadChunks (geometry_of geo.now) group (inode_tree_on geo.now group agi.now (B.image disk.old))) }
    ensures claimed { IsTrue B.tells → OnOk result (AreClaimed geo.now (M.claimed marks.old)
        (blocks_of (inode_tree_on geo.now group agi.now (B.image disk.old))) (M.claimed marks.new)) }
    ensures fault { IsTrue B.tells → IfErr result (IsChunkReadFault (geometry_of geo.now) group
        (inode_tree_on geo.now group agi.now (B.image disk.old)) (marked geo.now.agblocks (M.claimed marks.old))) }
    ensures device { IsErrOf result TreeFault.Device → Rose (B.faults disk.old) (B.faults disk.new) }
    ensures admits { (g b : ℕ) → M.admits marks.new g b ≡ M.admits marks.old g b }
{
    if geo.sparse {
        let chunks = walk::<SparseChunk, B, M>(
            alloc, disk, geo, group, agi.root, agi.level, marks,
        )?;
        return Ok(chunks);
    }
    let chunks = walk::<Chunk, B, M>(alloc, disk, geo, group, agi.root, agi.level, marks)?;
    let full = full_chunks(alloc, chunks.items())?;
    Ok(full)
}

/// The chunks of inodes of a group, whose AGI that is (XFS Algorithms & Data Structures, 'Inode B+tree'): where the
/// superblock has none with holes, none of them has one. The blocks of their tree are read, each once, and are
/// claimed, and so are the blocks of the chunks, but for those in holes.
///
/// # Errors
///
/// `Bad` with a reason that speaks against the tree, its chunks or the claims, of several any; of a chunk, `Inode`
/// names its first inode. `Device` where a read failed, and `Memory` where memory was refused. Then some of the
/// blocks are claimed.
pub fn chunks_of<B: Blocks, M: Mark>(
    alloc: Global,
    disk: &mut B,
    geo: &Super,
    group: u32,
    agi: &Agi,
    marks: &mut M,
) -> Result<List<SparseChunk>, CheckFault>
    requires volume { 8 * geo.now.dblocks ≤ B.size disk.old }
    requires group { group < geo.now.agcount }
    requires agi { IsSoundAgi (geometry_of geo.now) group agi.now }
    requires admits { AdmitsVolume geo.now (M.admits marks.old) }
    ensures read { B.only_read disk.old disk.new }
    ensures sound { IsTrue B.tells → OnOk result
        (AreSoundChunksOn geo.now group agi.now (B.image disk.old) (M.claimed marks.old)) }
    ensures chunks { IsTrue B.tells → IfOk result (λ chunks. chunks ≡ chunks_on geo.now group agi.now (B.image disk.old)) }
    ensures claimed { IsTrue B.tells → OnOk result
        (ClaimedByChunks geo.now group agi.now (B.image disk.old) (M.claimed marks.old) (M.claimed marks.new)) }
    ensures fault { IsTrue B.tells → IfErr result
        (HasChunkFaultOn geo.now group agi.now (B.image disk.old) (M.claimed marks.old)) }
    ensures device { IsErrOf result CheckFault.Device → Rose (B.faults disk.old) (B.faults disk.new) }
    ensures laid { IfOk result (All (IsSoundChunk (geometry_of geo.now) group)) }
    ensures admits { (g b : ℕ) → M.admits marks.new g b ≡ M.admits marks.old g b }
{
    let chunks = match read_chunks(alloc, disk, geo, group, agi, marks) {
        Ok(chunks) => chunks,
        Err(fault) => return Err(told(geo, fault)),
    };
    if let Some(at) = first_unsound(geo, group, chunks.items()) {
        let ino = inode_number(geo, group, &chunks.items()[at], 0);
        return Err(CheckFault::Bad(Reason::Inode { ino }));
    }
    match claim_chunks(geo, group, chunks.items(), marks) {
        Ok(()) => {}
        Err(fault) => return Err(told(geo, fault)),
    }
    Ok(chunks)
}
