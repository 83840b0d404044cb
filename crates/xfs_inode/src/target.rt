//! The block in which the target of a link stands.
ghost use Rattle.std.specs.Prelude.{◌≡◌, true, length, MatchOption};
ghost use Rattle.xfs_inode.specs.Core.{fork_holds, data_fork};
ghost use Rattle.xfs_inode.specs.Inode.{needs_target_block, spells_target_block};
ghost use Rattle.xfs_inode.specs.inside.Targets.{target_extent, HasNoPlace, IsPlace};
ghost use Rattle.xfs_super.specs.Super.{geometry_of};

use crate::bytes::{has_checksum, part};
use crate::core_fields::Core;
use crate::extent::listed_covering;
use crate::fork::fork_in;
use crate::place::{BLOCK, block_inside};
use disk_base::{big_u32, big_u64};
use xfs_super::Super;

/// The block of the volume in which the target of a link stands, if there is one.
pub(crate) fn target_place(geo: &Super, core: &Core, bytes: &[u8]) -> Option<u64>
    requires long { length bytes.now ≡ geo.now.inodesize }
    requires holds { fork_holds (data_fork (geometry_of geo.now) core.now bytes.now) ≡ true }
    requires needs { needs_target_block core.now ≡ true }
    ensures { MatchOption result
        (HasNoPlace (geometry_of geo.now) (target_extent (geometry_of geo.now) core.now bytes.now))
        (IsPlace (geometry_of geo.now) (target_extent (geometry_of geo.now) core.now bytes.now)) }
{
    let fork = fork_in(geo, core, bytes, false)?;
    let extent = listed_covering(0, fork.bytes, fork.count as usize)?;
    block_inside(geo, extent.block)
}

/// Whether a block at that place of the volume holds the target of the link of an inode, which has that many bytes.
pub(crate) fn spells_target_block(
    geo: &Super,
    ino: u64,
    size: u64,
    at: u64,
    bytes: &[u8; BLOCK],
) -> bool
    ensures { result ≡ spells_target_block (geometry_of geo.now) ino size at bytes.now }
{
    big_u32(bytes, 0) == 0x5853_4C4D
        && big_u32(bytes, 4) == 0
        && u64::from(big_u32(bytes, 8)) == size
        && has_checksum(bytes, 12)
        && part(bytes, 16, 16) == geo.meta.as_slice()
        && big_u64(bytes, 32) == ino
        && big_u64(bytes, 40) / 8 == at
        && big_u64(bytes, 40) % 8 == 0
}
