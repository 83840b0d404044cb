//! Judging the blocks of a directory that have entries.
ghost use Rattle.std.specs.Prelude.{◌≡◌, ◌+◌, ◌*◌, ◌<◌, ◌≤◌, [], ◌∷◌, ◌≢◌, map, IsTrue, IfErr, IsErrOf, OnOk};
ghost use Rattle.std.specs.List.{All};
ghost use Rattle.block_claims.specs.Agreement.{block};
ghost use Rattle.disk_base.specs.Faults.{Rose};
ghost use Rattle.xfs_files.specs.Directory.{spells_entry_header, IsSoundEntryBlock, entry_blocks_of, entry_blocks};
ghost use Rattle.xfs_files.specs.inside.Judging.{held_block, IsBlocksFault};
ghost use Rattle.xfs_inode.specs.Extents.{AreSoundExtents};
ghost use Rattle.xfs_inode.specs.Seen.{extent_seen};
ghost use Rattle.xfs_super.specs.Super.{geometry_of};
ghost use Rattle.xfs_super.specs.Superblock.{has_checksum};
ghost use Rattle.xfs_tree.specs.Records.{by_file};

use crate::place::{BLOCK, entry_blocks_in, first_block, read_block, sector_of};
use disk_base::{Blocks, big_u64, crc32c_without, little_u32};
use xfs_dir::block_entries;
use xfs_super::{CheckFault, Reason, Super};
use xfs_tree::Extent;

/// Whether a block spells its checksum.
fn has_checksum(bytes: &[u8; BLOCK]) -> bool
    ensures { result ≡ has_checksum bytes.now 4 }
{
    little_u32(bytes, 4) == crc32c_without(bytes, 4)
}

/// Whether the header of a block at that place of the volume is that of a block of the directory.
fn spells_entry_header(geo: &Super, ino: u64, at: u64, bytes: &[u8; BLOCK]) -> bool
    requires { at < geo.now.dblocks }
    ensures { result ≡ spells_entry_header (geometry_of geo.now) ino (held_block 0 at bytes.now) }
{
    has_checksum(bytes)
        && big_u64(bytes, 8) == sector_of(geo, at)
        && &bytes[24..40] == geo.meta.as_slice()
        && big_u64(bytes, 40) == ino
}

/// Judges what block `file` of a directory holds, which is block `at` of the volume.
fn judge_bytes(
    geo: &Super,
    ino: u64,
    file: u64,
    at: u64,
    bytes: &[u8; BLOCK],
) -> Result<(), CheckFault>
    requires { at < geo.now.dblocks }
    ensures sound { OnOk result (IsSoundEntryBlock (geometry_of geo.now) ino (held_block file at bytes.now)) }
    ensures fault { IfErr result (IsBlocksFault (geometry_of geo.now) ino (held_block file at bytes.now ∷ [])) }
    ensures device { result ≢ Err CheckFault.Device }
{
    let unsound = CheckFault::Bad(Reason::Directory { ino, block: file });
    if !spells_entry_header(geo, ino, at, bytes) {
        return Err(unsound);
    }
    match block_entries(bytes) {
        Ok(_) => Ok(()),
        Err(_) => Err(unsound),
    }
}

/// Judges block `file` of a directory, which is block `at` of the volume.
fn judge_block<B: Blocks>(
    disk: &mut B,
    geo: &Super,
    ino: u64,
    file: u64,
    at: u64,
) -> Result<(), CheckFault>
    requires volume { 8 * geo.now.dblocks ≤ B.size disk.old }
    requires at { at < geo.now.dblocks }
    ensures read { B.only_read disk.old disk.new }
    ensures sound { IsTrue B.tells → OnOk result
        (IsSoundEntryBlock (geometry_of geo.now) ino (held_block file at (block (B.image disk.old) at))) }
    ensures fault { IsTrue B.tells → IfErr result
        (IsBlocksFault (geometry_of geo.now) ino (held_block file at (block (B.image disk.old) at) ∷ [])) }
    ensures device { IsErrOf result CheckFault.Device → Rose (B.faults disk.old) (B.faults disk.new) }
{
    let mut bytes = [0; BLOCK];
    read_block(disk, geo, at, &mut bytes)?;
    judge_bytes(geo, ino, file, at, &bytes)?;
    Ok(())
}

/// Judges the blocks of an extent of a directory that have entries.
fn judge_extent<B: Blocks>(
    disk: &mut B,
    geo: &Super,
    ino: u64,
    extent: &Extent,
) -> Result<(), CheckFault>
    requires volume { 8 * geo.now.dblocks ≤ B.size disk.old }
    requires inside { IsTrue (by_file.inside (geometry_of geo.now) 0 extent.now) }
    ensures read { B.only_read disk.old disk.new }
    ensures sound { IsTrue B.tells → OnOk result (All (IsSoundEntryBlock (geometry_of geo.now) ino)
        (entry_blocks_of (extent_seen (block (B.image disk.old)) (geometry_of geo.now) extent.now))) }
    ensures fault { IsTrue B.tells → IfErr result (IsBlocksFault (geometry_of geo.now) ino
        (entry_blocks_of (extent_seen (block (B.image disk.old)) (geometry_of geo.now) extent.now))) }
    ensures device { IsErrOf result CheckFault.Device → Rose (B.faults disk.old) (B.faults disk.new) }
{
    // Read for its range, which bounds the blocks of the volume.
    let _dblocks = geo.dblocks;
    let first = first_block(geo, extent);
    for k in 0..entry_blocks_in(extent) {
        judge_block(disk, geo, ino, extent.file + k, first + k)?;
    }
    Ok(())
}

/// Judges the blocks of a directory that have entries.
pub(crate) fn judge_blocks<B: Blocks>(
    disk: &mut B,
    geo: &Super,
    ino: u64,
    extents: &[Extent],
) -> Result<(), CheckFault>
    requires volume { 8 * geo.now.dblocks ≤ B.size disk.old }
    requires extents { AreSoundExtents (geometry_of geo.now) extents.now }
    ensures read { B.only_read disk.old disk.new }
    ensures sound { IsTrue B.tells → OnOk result (All (IsSoundEntryBlock (geometry_of geo.now) ino)
        (entry_blocks (map (extent_seen (block (B.image disk.old)) (geometry_of geo.now)) extents.now))) }
    ensures fault { IsTrue B.tells → IfErr result (IsBlocksFault (geometry_of geo.now) ino
        (entry_blocks (map (extent_seen (block (B.image disk.old)) (geometry_of geo.now)) extents.now))) }
    ensures device { IsErrOf result CheckFault.Device → Rose (B.faults disk.old) (B.faults disk.new) }
{
    for extent in extents {
        judge_extent(disk, geo, ino, extent)?;
    }
    Ok(())
}
