//! Where the blocks of a directory stand.
ghost use Rattle.std.specs.Prelude.{◌≡◌, ◌+◌, ◌-◌, ◌*◌, ◌/◌, ◌%◌, ◌^◌, ◌<◌, ◌≤◌, min, IsTrue, OnOk};
ghost use Rattle.block_claims.specs.Agreement.{block};
ghost use Rattle.disk_base.specs.Faults.{HasCause};
ghost use Rattle.xfs_files.specs.Directory.{first_index_block};
ghost use Rattle.xfs_inode.specs.Extents.{block_named};
ghost use Rattle.xfs_super.specs.Super.{geometry_of};
ghost use Rattle.xfs_tree.specs.Records.{by_file};

use disk_base::{Blocks, Failed};
use xfs_super::Super;
use xfs_tree::Extent;

/// Bytes of a block.
pub(crate) const BLOCK: usize = 4096;

/// The block of a directory from which on it has indexes, and no entries.
const FIRST_INDEX_BLOCK: u64 = 0x80_0000;

/// The group that a block number names, and the block in it.
fn parted(geo: &Super, number: u64) -> (u64, u64)
    ensures group { result.0 ≡ number / 2 ^ geo.now.agblklog }
    ensures block { result.1 ≡ number % 2 ^ geo.now.agblklog }
    ensures small { result.1 < 2 ^ 63 }
{
    let group = number >> geo.agblklog;
    (group, number - (group << geo.agblklog))
}

/// The block of the volume that a block number names.
fn block_named(geo: &Super, number: u64) -> u64
    requires { block_named (geometry_of geo.now) number ≤ geo.now.dblocks }
    ensures { result ≡ block_named (geometry_of geo.now) number }
{
    // Read for its range, which the block has, too.
    let _dblocks = geo.dblocks;
    let (group, block) = parted(geo, number);
    group * u64::from(geo.agblocks) + block
}

/// The first block in the volume of an extent that lies in its group.
pub(crate) fn first_block(geo: &Super, extent: &Extent) -> u64
    requires { IsTrue (by_file.inside (geometry_of geo.now) 0 extent.now) }
    ensures first { result ≡ block_named (geometry_of geo.now) extent.now.block }
    ensures ends { result + extent.now.count ≤ geo.now.dblocks }
{
    block_named(geo, extent.block)
}

/// How many blocks of an extent stand before the indexes.
pub(crate) fn entry_blocks_in(extent: &Extent) -> u64
    ensures { result ≡ min extent.now.count (first_index_block - extent.now.file) }
{
    u64::from(extent.count).min(FIRST_INDEX_BLOCK.saturating_sub(extent.file))
}

/// The sector of 512 bytes at which a block of the volume begins.
pub(crate) fn sector_of(geo: &Super, at: u64) -> u64
    requires { at < geo.now.dblocks }
    ensures { result ≡ 8 * at }
{
    // Read for its range, which bounds the blocks of the volume.
    let _groups = geo.agcount;
    8 * at
}

/// Reads a block of the volume.
pub(crate) fn read_block<B: Blocks>(
    disk: &mut B,
    geo: &Super,
    at: u64,
    out: &mut [u8; BLOCK],
) -> Result<(), Failed>
    requires volume { 8 * geo.now.dblocks ≤ B.size disk.old }
    requires at { at < geo.now.dblocks }
    ensures bytes { IsTrue B.tells → OnOk result (out.new ≡ block (B.image disk.old) at) }
    ensures read { B.only_read disk.old disk.new }
    ensures cause { HasCause (B.faults disk.old) (B.faults disk.new) result }
{
    disk.read(sector_of(geo, at), out)?;
    Ok(())
}
