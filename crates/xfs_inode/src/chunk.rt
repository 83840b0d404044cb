//! The inodes and the blocks of a chunk.
ghost use Rattle.std.specs.Prelude.{◌≡◌, ◌+◌, ◌*◌, ◌/◌, ◌%◌, ◌^◌, ◌<◌, ◌≤◌, IsTrue, ◌↔◌, MatchOption};
ghost use Rattle.std.specs.List.{All};
ghost use Rattle.xfs_inode.specs.Chunks.{is_hole, is_allocated, inode_number, full_chunk, chunk_len, HasWholeBlocks, IsSoundChunk};
ghost use Rattle.xfs_inode.specs.inside.ReadingChunks.{IsUnsoundAt};
ghost use Rattle.xfs_super.specs.Super.{geometry_of};

use xfs_super::Super;
use xfs_tree::{Chunk, Record, SparseChunk};

/// Whether inode `i` of the 64 of a chunk isn't there.
pub fn is_hole(chunk: &SparseChunk, i: u32) -> bool
    requires { i < 64 }
    ensures { result ≡ is_hole chunk.now i }
{
    u32::from(chunk.holemask) >> (i / 4) & 1 == 1
}

/// Whether inode `i` of the 64 of a chunk is there and in use.
pub fn is_allocated(chunk: &SparseChunk, i: u32) -> bool
    requires { i < 64 }
    ensures { result ≡ is_allocated chunk.now i }
{
    !is_hole(chunk, i) && chunk.free >> i & 1 != 1
}

/// The number that the inodes of a group count from.
fn group_base(geo: &Super, group: u32) -> u64
    ensures base { result ≡ group * 2 ^ (geo.now.agblklog + geo.now.inopblog) }
    ensures small { result ≤ 2 ^ 63 }
{
    (group as u64) << (geo.agblklog + geo.inopblog)
}

/// The number of inode `i` of a chunk of that group.
pub fn inode_number(geo: &Super, group: u32, chunk: &SparseChunk, i: u32) -> u64
    requires { i < 64 }
    ensures { result ≡ inode_number (geometry_of geo.now) group chunk.now i }
{
    group_base(geo, group) + (chunk.start as u64) + (i as u64)
}

/// A chunk without holes as one that may have some.
pub(crate) fn full_chunk(chunk: &Chunk) -> SparseChunk
    ensures { result ≡ full_chunk chunk.now }
{
    SparseChunk {
        start: chunk.start,
        holemask: 0,
        count: 64,
        freecount: (chunk.freecount % 256) as u8,
        free: chunk.free,
    }
}

/// How many inodes a block has.
pub fn inodes_in_block(geo: &Super) -> u32
    ensures inodes { result ≡ 2 ^ geo.now.inopblog }
    ensures some { 1 ≤ result }
    ensures most { result ≤ 8 }
{
    1 << geo.inopblog
}

/// Whether inode `i` of a chunk is there where the first one of its block is.
fn is_as_first(width: u32, chunk: &SparseChunk, i: u32) -> bool
    requires some { 1 ≤ width }
    requires i { i < 64 }
    ensures { IsTrue result ↔ (is_hole chunk.now i ≡ is_hole chunk.now (i / width * width)) }
{
    is_hole(chunk, i) == is_hole(chunk, i / width * width)
}

/// Whether no hole of a chunk splits a block.
fn has_whole_blocks(geo: &Super, chunk: &SparseChunk) -> bool
    ensures { IsTrue result ↔ HasWholeBlocks (geometry_of geo.now) chunk.now }
{
    let width = inodes_in_block(geo);
    for i in 0..64 {
        if !is_as_first(width, chunk, i) {
            return false;
        }
    }
    true
}

/// Whether a chunk lies in its group, begins with a block, and has no hole that splits one.
fn is_sound_chunk(geo: &Super, group: u32, chunk: &SparseChunk) -> bool
    requires { group < geo.now.agcount }
    ensures { IsTrue result ↔ IsSoundChunk (geometry_of geo.now) group chunk.now }
{
    if !chunk.inside(geo, group) || chunk.start % inodes_in_block(geo) != 0 {
        return false;
    }
    has_whole_blocks(geo, chunk)
}

/// The first chunk that isn't sound, if there is one.
pub(crate) fn first_unsound(geo: &Super, group: u32, chunks: &[SparseChunk]) -> Option<usize>
    requires { group < geo.now.agcount }
    ensures { MatchOption result
        (All (IsSoundChunk (geometry_of geo.now) group) chunks.now)
        (IsUnsoundAt (geometry_of geo.now) group chunks.now) }
{
    for i in 0..chunks.len() {
        if !is_sound_chunk(geo, group, &chunks[i]) {
            return Some(i);
        }
    }
    None
}

/// Block `j` of a sound chunk, by its number in the volume.
pub fn chunk_block(geo: &Super, group: u32, chunk: &SparseChunk, j: u32) -> u64
    requires group { group < geo.now.agcount }
    requires sound { IsSoundChunk (geometry_of geo.now) group chunk.now }
    requires j { j < chunk_len (geometry_of geo.now) }
    ensures block { result ≡ group * geo.now.agblocks + chunk.now.start / 2 ^ geo.now.inopblog + j }
    ensures inside { result + 1 ≤ geo.now.dblocks }
{
    // Read for its range: no number of a block passes it.
    let _dblocks = geo.dblocks;
    let first = chunk.start / inodes_in_block(geo);
    (group as u64) * (geo.agblocks as u64) + (first as u64) + (j as u64)
}
