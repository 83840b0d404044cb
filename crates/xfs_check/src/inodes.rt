//! Checking the inodes of a group.
ghost use Rattle.std.specs.Prelude.{◌≡◌, ℕ, ◌+◌, ◌*◌, ◌/◌, ◌^◌, ◌<◌, ◌≤◌, length, replicate, false, IsTrue, IfOk, IfErr, IsErrOf, OnOk};
ghost use Rattle.std.specs.List.{All};
ghost use Rattle.block_claims.specs.Agreement.{block};
ghost use Rattle.disk_base.specs.Faults.{Rose, HasCause};
ghost use Rattle.disk_base.specs.Image.{bytes_at};
ghost use Rattle.xfs_check.specs.Seen.{inode_at_place, inodes_in_bytes};
ghost use Rattle.xfs_check.specs.Valid.{has_root};
ghost use Rattle.xfs_check.specs.inside.Reading.{chunk_place, inodes_of_chunk_block, inodes_of_chunk, inodes_of_chunks};
ghost use Rattle.xfs_check.specs.inside.Steps.{AreChecked, AreRefused};
ghost use Rattle.xfs_inode.specs.Chunks.{IsSoundChunk, chunk_len};
ghost use Rattle.xfs_inode.specs.Inode.{front_inode};
ghost use Rattle.xfs_super.specs.Super.{geometry_of};
ghost use Rattle.xfs_tree.specs.Marks.{marked, AdmitsVolume};

use crate::head::BLOCK;
use crate::inode::check_inode;
use disk_base::{Blocks, Failed, put};
use std::alloc::{AllocError, Global};
use xfs_inode::{chunk_block, inode_number, inodes_in_block, is_allocated, is_hole};
use xfs_super::{CheckFault, Super};
use xfs_tree::{Mark, SparseChunk};

/// Block `block` of a chunk of inodes of that group.
#[derive(Clone, Copy)]
pub(crate) struct ChunkBlock<'a> {
    group: u32,
    chunk: &'a SparseChunk,
    block: u32,
}

/// The inode at place `k` of a block, in front of a buffer.
fn inode_at(geo: &Super, bytes: &[u8], k: u32) -> [u8; 2048]
    requires long { length bytes.now ≡ 4096 }
    requires place { k < 2 ^ geo.now.inopblog }
    ensures { front_inode geo.now result ≡ bytes_at bytes.now (geo.now.inodesize * k) geo.now.inodesize }
{
    let size = geo.inodesize as usize;
    let from = size * k as usize;
    let mut inode = [0; 2048];
    put(&mut inode, 0, &bytes[from..from + size]);
    inode
}

/// Checks the inode at place `k` of a block, if it is in use; answers whether it is the root.
fn check_place<B: Blocks, M: Mark>(
    alloc: Global,
    disk: &mut B,
    geo: &Super,
    at: &ChunkBlock<'_>,
    bytes: &[u8],
    k: u32,
    marks: &mut M,
) -> Result<bool, CheckFault>
    requires volume { 8 * geo.now.dblocks ≤ B.size disk.old }
    requires block { at.now.block < chunk_len (geometry_of geo.now) }
    requires long { length bytes.now ≡ 4096 }
    requires place { k < 2 ^ geo.now.inopblog }
    requires admits { AdmitsVolume geo.now (M.admits marks.old) }
    ensures read { B.only_read disk.old disk.new }
    ensures checked { IsTrue B.tells → OnOk result (AreChecked (geometry_of geo.now)
        (inode_at_place (geometry_of geo.now) (block (B.image disk.old)) at.now.group at.now.chunk.now bytes.now
        (2 ^ geo.now.inopblog * at.now.block + k) k)
        (marked geo.now.agblocks (M.claimed marks.old)) (marked geo.now.agblocks (M.claimed marks.new))) }
    ensures root { IsTrue B.tells → IfOk result (λ root. root ≡ has_root (geometry_of geo.now)
        (inode_at_place (geometry_of geo.now) (block (B.image disk.old)) at.now.group at.now.chunk.now bytes.now
        (2 ^ geo.now.inopblog * at.now.block + k) k)) }
    ensures fault { IsTrue B.tells → IfErr result (AreRefused (geometry_of geo.now)
        (inode_at_place (geometry_of geo.now) (block (B.image disk.old)) at.now.group at.now.chunk.now bytes.now
        (2 ^ geo.now.inopblog * at.now.block + k) k)
        (marked geo.now.agblocks (M.claimed marks.old))) }
    ensures device { IsErrOf result CheckFault.Device → Rose (B.faults disk.old) (B.faults disk.new) }
    ensures admits { (g b : ℕ) → M.admits marks.new g b ≡ M.admits marks.old g b }
{
    let i = inodes_in_block(geo) * at.block + k;
    if !is_allocated(at.chunk, i) {
        return Ok(false);
    }
    let ino = inode_number(geo, at.group, at.chunk, i);
    check_inode(alloc, disk, geo, ino, &inode_at(geo, bytes, k), marks)?;
    Ok(ino == geo.rootino)
}

/// Checks the inodes in a block that are in use; answers whether the root is one of them.
fn check_places<B: Blocks, M: Mark>(
    alloc: Global,
    disk: &mut B,
    geo: &Super,
    at: &ChunkBlock<'_>,
    bytes: &[u8],
    marks: &mut M,
) -> Result<bool, CheckFault>
    requires volume { 8 * geo.now.dblocks ≤ B.size disk.old }
    requires block { at.now.block < chunk_len (geometry_of geo.now) }
    requires long { length bytes.now ≡ 4096 }
    requires admits { AdmitsVolume geo.now (M.admits marks.old) }
    ensures read { B.only_read disk.old disk.new }
    ensures checked { IsTrue B.tells → OnOk result (AreChecked (geometry_of geo.now)
        (inodes_in_bytes (geometry_of geo.now) (block (B.image disk.old)) at.now.group at.now.chunk.now at.now.block bytes.now)
        (marked geo.now.agblocks (M.claimed marks.old)) (marked geo.now.agblocks (M.claimed marks.new))) }
    ensures root { IsTrue B.tells → IfOk result (λ root. root ≡ has_root (geometry_of geo.now)
        (inodes_in_bytes (geometry_of geo.now) (block (B.image disk.old)) at.now.group at.now.chunk.now at.now.block bytes.now)) }
    ensures fault { IsTrue B.tells → IfErr result (AreRefused (geometry_of geo.now)
        (inodes_in_bytes (geometry_of geo.now) (block (B.image disk.old)) at.now.group at.now.chunk.now at.now.block bytes.now)
        (marked geo.now.agblocks (M.claimed marks.old))) }
    ensures device { IsErrOf result CheckFault.Device → Rose (B.faults disk.old) (B.faults disk.new) }
    ensures admits { (g b : ℕ) → M.admits marks.new g b ≡ M.admits marks.old g b }
{
    let mut root = false;
    for k in 0..inodes_in_block(geo) {
        root |= check_place(alloc, disk, geo, at, bytes, k, marks)?;
    }
    Ok(root)
}

/// Checks the inodes in a block of a chunk, which holds `bytes` where it is no hole; answers whether the root is one of
/// them.
fn check_chunk_block<B: Blocks, M: Mark>(
    alloc: Global,
    disk: &mut B,
    geo: &Super,
    at: &ChunkBlock<'_>,
    bytes: &[u8],
    marks: &mut M,
) -> Result<bool, CheckFault>
    requires volume { 8 * geo.now.dblocks ≤ B.size disk.old }
    requires block { at.now.block < chunk_len (geometry_of geo.now) }
    requires long { length bytes.now ≡ 4096 }
    requires held { IsTrue B.tells → bytes.now
        ≡ block (B.image disk.old) (chunk_place (geometry_of geo.now) at.now.group at.now.chunk.now at.now.block) }
    requires admits { AdmitsVolume geo.now (M.admits marks.old) }
    ensures read { B.only_read disk.old disk.new }
    ensures checked { IsTrue B.tells → OnOk result (AreChecked (geometry_of geo.now)
        (inodes_of_chunk_block (geometry_of geo.now) (block (B.image disk.old)) at.now.group at.now.chunk.now at.now.block)
        (marked geo.now.agblocks (M.claimed marks.old)) (marked geo.now.agblocks (M.claimed marks.new))) }
    ensures root { IsTrue B.tells → IfOk result (λ root. root ≡ has_root (geometry_of geo.now)
        (inodes_of_chunk_block (geometry_of geo.now) (block (B.image disk.old)) at.now.group at.now.chunk.now at.now.block)) }
    ensures fault { IsTrue B.tells → IfErr result (AreRefused (geometry_of geo.now)
        (inodes_of_chunk_block (geometry_of geo.now) (block (B.image disk.old)) at.now.group at.now.chunk.now at.now.block)
        (marked geo.now.agblocks (M.claimed marks.old))) }
    ensures device { IsErrOf result CheckFault.Device → Rose (B.faults disk.old) (B.faults disk.new) }
    ensures admits { (g b : ℕ) → M.admits marks.new g b ≡ M.admits marks.old g b }
{
    if is_hole(at.chunk, inodes_in_block(geo) * at.block) {
        return Ok(false);
    }
    let root = check_places(alloc, disk, geo, at, bytes, marks)?;
    Ok(root)
}

/// How many blocks a chunk has.
fn blocks_in_chunk(geo: &Super) -> u32
    ensures blocks { result ≡ chunk_len (geometry_of geo.now) }
    ensures some { 1 ≤ result }
    ensures most { result ≤ 64 }
{
    64 / inodes_in_block(geo)
}

/// Reads the blocks of a chunk, its holes too, in one call.
fn read_chunk<B: Blocks>(
    disk: &mut B,
    geo: &Super,
    group: u32,
    chunk: &SparseChunk,
    out: &mut [u8],
) -> Result<(), Failed>
    requires volume { 8 * geo.now.dblocks ≤ B.size disk.old }
    requires group { group < geo.now.agcount }
    requires sound { IsSoundChunk (geometry_of geo.now) group chunk.now }
    requires long { length out.old ≡ 4096 * chunk_len (geometry_of geo.now) }
    ensures long { length out.new ≡ length out.old }
    ensures bytes { IsTrue B.tells → OnOk result (out.new
        ≡ bytes_at (B.image disk.old) (4096 * chunk_place (geometry_of geo.now) group chunk.now 0) (length out.old)) }
    ensures read { B.only_read disk.old disk.new }
    ensures cause { HasCause (B.faults disk.old) (B.faults disk.new) result }
{
    // Read for its place: the last block lies in the volume, so all do.
    let _last = chunk_block(geo, group, chunk, blocks_in_chunk(geo) - 1);
    disk.read(
        geo.sector_of(group, chunk.start / inodes_in_block(geo)),
        out,
    )?;
    Ok(())
}

/// Checks the inodes of a chunk whose blocks hold `bytes`; answers whether the root is one of them.
fn check_blocks<B: Blocks, M: Mark>(
    alloc: Global,
    disk: &mut B,
    geo: &Super,
    group: u32,
    chunk: &SparseChunk,
    bytes: &[u8],
    marks: &mut M,
) -> Result<bool, CheckFault>
    requires volume { 8 * geo.now.dblocks ≤ B.size disk.old }
    requires long { length bytes.now ≡ 4096 * chunk_len (geometry_of geo.now) }
    requires held { IsTrue B.tells → bytes.now
        ≡ bytes_at (B.image disk.old) (4096 * chunk_place (geometry_of geo.now) group chunk.now 0) (length bytes.now) }
    requires admits { AdmitsVolume geo.now (M.admits marks.old) }
    ensures read { B.only_read disk.old disk.new }
    ensures checked { IsTrue B.tells → OnOk result (AreChecked (geometry_of geo.now)
        (inodes_of_chunk (geometry_of geo.now) (block (B.image disk.old)) group chunk.now)
        (marked geo.now.agblocks (M.claimed marks.old)) (marked geo.now.agblocks (M.claimed marks.new))) }
    ensures root { IsTrue B.tells → IfOk result (λ root. root ≡ has_root (geometry_of geo.now)
        (inodes_of_chunk (geometry_of geo.now) (block (B.image disk.old)) group chunk.now)) }
    ensures fault { IsTrue B.tells → IfErr result (AreRefused (geometry_of geo.now)
        (inodes_of_chunk (geometry_of geo.now) (block (B.image disk.old)) group chunk.now)
        (marked geo.now.agblocks (M.claimed marks.old))) }
    ensures device { IsErrOf result CheckFault.Device → Rose (B.faults disk.old) (B.faults disk.new) }
    ensures admits { (g b : ℕ) → M.admits marks.new g b ≡ M.admits marks.old g b }
{
    let mut root = false;
    for number in 0..blocks_in_chunk(geo) {
        let at = ChunkBlock {
            group,
            chunk,
            block: number,
        };
        let from = BLOCK * number as usize;
        root |= check_chunk_block(alloc, disk, geo, &at, &bytes[from..from + BLOCK], marks)?;
    }
    Ok(root)
}

/// Checks the inodes of a chunk that are in use; answers whether the root is one of them. What `buffer` holds is open
/// then.
fn check_chunk<B: Blocks, M: Mark>(
    alloc: Global,
    disk: &mut B,
    geo: &Super,
    group: u32,
    chunk: &SparseChunk,
    buffer: &mut [u8],
    marks: &mut M,
) -> Result<bool, CheckFault>
    requires volume { 8 * geo.now.dblocks ≤ B.size disk.old }
    requires group { group < geo.now.agcount }
    requires sound { IsSoundChunk (geometry_of geo.now) group chunk.now }
    requires long { length buffer.old ≡ 4096 * chunk_len (geometry_of geo.now) }
    requires admits { AdmitsVolume geo.now (M.admits marks.old) }
    ensures long { length buffer.new ≡ length buffer.old }
    ensures read { B.only_read disk.old disk.new }
    ensures checked { IsTrue B.tells → OnOk result (AreChecked (geometry_of geo.now)
        (inodes_of_chunk (geometry_of geo.now) (block (B.image disk.old)) group chunk.now)
        (marked geo.now.agblocks (M.claimed marks.old)) (marked geo.now.agblocks (M.claimed marks.new))) }
    ensures root { IsTrue B.tells → IfOk result (λ root. root ≡ has_root (geometry_of geo.now)
        (inodes_of_chunk (geometry_of geo.now) (block (B.image disk.old)) group chunk.now)) }
    ensures fault { IsTrue B.tells → IfErr result (AreRefused (geometry_of geo.now)
        (inodes_of_chunk (geometry_of geo.now) (block (B.image disk.old)) group chunk.now)
        (marked geo.now.agblocks (M.claimed marks.old))) }
    ensures device { IsErrOf result CheckFault.Device → Rose (B.faults disk.old) (B.faults disk.new) }
    ensures admits { (g b : ℕ) → M.admits marks.new g b ≡ M.admits marks.old g b }
{
    read_chunk(disk, geo, group, chunk, buffer)?;
    let root = check_blocks(alloc, disk, geo, group, chunk, buffer, marks)?;
    Ok(root)
}

/// A buffer of zeros.
fn zeros(alloc: Global, count: usize) -> Result<Vec<u8>, AllocError>
    ensures { IfOk result (λ bytes. length bytes.items ≡ count) }
{
    vec![in alloc; 0; count]
}

/// Checks the inodes of some chunks of a group that are in use, and takes the trees and the extents of their forks;
/// answers whether the root of the files is one of them. Each chunk is read in one call.
pub(crate) fn check_inodes<B: Blocks, M: Mark>(
    alloc: Global,
    disk: &mut B,
    geo: &Super,
    group: u32,
    chunks: &[SparseChunk],
    marks: &mut M,
) -> Result<bool, CheckFault>
    requires volume { 8 * geo.now.dblocks ≤ B.size disk.old }
    requires group { group < geo.now.agcount }
    requires sound { All (IsSoundChunk (geometry_of geo.now) group) chunks.now }
    requires admits { AdmitsVolume geo.now (M.admits marks.old) }
    ensures read { B.only_read disk.old disk.new }
    ensures checked { IsTrue B.tells → OnOk result (AreChecked (geometry_of geo.now)
        (inodes_of_chunks (geometry_of geo.now) (block (B.image disk.old)) group chunks.now)
        (marked geo.now.agblocks (M.claimed marks.old)) (marked geo.now.agblocks (M.claimed marks.new))) }
    ensures root { IsTrue B.tells → IfOk result (λ root. root ≡ has_root (geometry_of geo.now)
        (inodes_of_chunks (geometry_of geo.now) (block (B.image disk.old)) group chunks.now)) }
    ensures fault { IsTrue B.tells → IfErr result (AreRefused (geometry_of geo.now)
        (inodes_of_chunks (geometry_of geo.now) (block (B.image disk.old)) group chunks.now)
        (marked geo.now.agblocks (M.claimed marks.old))) }
    ensures device { IsErrOf result CheckFault.Device → Rose (B.faults disk.old) (B.faults disk.new) }
    ensures admits { (g b : ℕ) → M.admits marks.new g b ≡ M.admits marks.old g b }
{
    let mut buffer = zeros(alloc, BLOCK * blocks_in_chunk(geo) as usize)?;
    let mut root = false;
    for chunk in chunks {
        root |= check_chunk(alloc, disk, geo, group, chunk, &mut buffer, marks)?;
    }
    Ok(root)
}
