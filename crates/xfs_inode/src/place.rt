//! Where blocks of a volume stand.
ghost use Rattle.std.specs.Prelude.{◌≡◌, ◌+◌, ◌*◌, ◌/◌, ◌-◌, ◌%◌, ◌^◌, ◌<◌, ◌≤◌, IsTrue, ◌↔◌, true, OnOk, MatchOption};
ghost use Rattle.block_claims.specs.Agreement.{block};
ghost use Rattle.disk_base.specs.Faults.{HasCause};
ghost use Rattle.xfs_inode.specs.Extents.{block_named, covers};
ghost use Rattle.xfs_inode.specs.Seen.{inode_block};
ghost use Rattle.xfs_super.specs.Super.{geometry_of};
ghost use Rattle.xfs_tree.specs.Records.{by_file};

use disk_base::{Blocks, Failed};
use xfs_super::Super;
use xfs_tree::Extent;

/// Bytes of a block.
pub(crate) const BLOCK: usize = 4096;

/// The group that a block number names, and the block in it.
fn parted(geo: &Super, number: u64) -> (u64, u64)
    ensures group { result.0 ≡ number / 2 ^ geo.now.agblklog }
    ensures block { result.1 ≡ number % 2 ^ geo.now.agblklog }
    ensures small { result.1 < 2 ^ 63 }
{
    let group = number >> geo.agblklog;
    (group, number - (group << geo.agblklog))
}

/// The block of the volume that a block number names.
pub(crate) fn block_named(geo: &Super, number: u64) -> u64
    requires { block_named (geometry_of geo.now) number ≤ geo.now.dblocks }
    ensures { result ≡ block_named (geometry_of geo.now) number }
{
    // Read for its range, which the block has, too.
    let _dblocks = geo.dblocks;
    let (group, block) = parted(geo, number);
    group * u64::from(geo.agblocks) + block
}

/// The block of the volume that a block number names, if it lies in it.
pub(crate) fn block_inside(geo: &Super, number: u64) -> Option<u64>
    ensures { MatchOption result
        (geo.now.dblocks ≤ block_named (geometry_of geo.now) number)
        (λ at. (at ≡ block_named (geometry_of geo.now) number) × (at < geo.now.dblocks)) }
{
    let (group, block) = parted(geo, number);
    if group >= u64::from(geo.agcount) {
        return None;
    }
    let at = group * u64::from(geo.agblocks) + block;
    if at >= geo.dblocks {
        return None;
    }
    Some(at)
}

/// The first block in the volume of an extent that lies in its group.
pub(crate) fn first_block(geo: &Super, extent: &Extent) -> u64
    requires { IsTrue (by_file.inside (geometry_of geo.now) 0 extent.now) }
    ensures first { result ≡ block_named (geometry_of geo.now) extent.now.block }
    ensures ends { result + extent.now.count ≤ geo.now.dblocks }
{
    block_named(geo, extent.block)
}

/// The block of the volume that holds a block of the file, which an extent covers that lies in its group.
pub(crate) fn block_of(geo: &Super, extent: &Extent, number: u64) -> u64
    requires inside { IsTrue (by_file.inside (geometry_of geo.now) 0 extent.now) }
    requires covers { covers number extent.now ≡ true }
    ensures block { result ≡ block_named (geometry_of geo.now) extent.now.block + (number - extent.now.file) }
    ensures inside { result < geo.now.dblocks }
{
    // Read for its range, which bounds the blocks of the volume.
    let _groups = geo.agcount;
    first_block(geo, extent) + (number - extent.file)
}

/// The number of the block that holds an inode, and at which byte of the block the inode begins.
pub(crate) fn inode_place(geo: &Super, ino: u64) -> (u64, usize)
    ensures number { result.0 ≡ ino / 2 ^ geo.now.inopblog }
    ensures offset { result.1 ≡ ino % 2 ^ geo.now.inopblog * geo.now.inodesize }
    ensures inside { result.1 + geo.now.inodesize ≤ 4096 }
{
    let number = ino >> geo.inopblog;
    let index = ino - (number << geo.inopblog);
    (number, index as usize * geo.inodesize as usize)
}

/// Whether the block that holds an inode lies in the volume.
pub fn lies_in_volume(geo: &Super, ino: u64) -> bool
    ensures { IsTrue result ↔ (inode_block (geometry_of geo.now) ino < geo.now.dblocks) }
{
    let (number, _) = inode_place(geo, ino);
    match block_inside(geo, number) {
        Some(_) => true,
        None => false,
    }
}

/// The sector of 512 bytes at which a block of the volume begins.
pub(crate) fn sector_of(geo: &Super, at: u64) -> u64
    requires { at < geo.now.dblocks }
    ensures { result ≡ 8 * at }
{
    // Read for its range, which bounds the blocks of the volume.
    let _groups = geo.agcount;
    8 * at
}

/// Reads a block of the volume.
pub(crate) fn read_block<B: Blocks>(
    disk: &mut B,
    geo: &Super,
    at: u64,
    out: &mut [u8; BLOCK],
) -> Result<(), Failed>
    requires volume { 8 * geo.now.dblocks ≤ B.size disk.old }
    requires at { at < geo.now.dblocks }
    ensures bytes { IsTrue B.tells → OnOk result (out.new ≡ block (B.image disk.old) at) }
    ensures read { B.only_read disk.old disk.new }
    ensures cause { HasCause (B.faults disk.old) (B.faults disk.new) result }
{
    disk.read(sector_of(geo, at), out)?;
    Ok(())
}
