//! Judging a directory.
ghost use Rattle.std.specs.Prelude.{◌≡◌, ◌*◌, ◌≤◌, map, IsTrue, IfErr, IsErrOf, OnOk};
ghost use Rattle.block_claims.specs.Agreement.{block};
ghost use Rattle.disk_base.specs.Faults.{Rose};
ghost use Rattle.xfs_files.specs.Directory.{IsSoundDirectory, HasDirectoryFault};
ghost use Rattle.xfs_inode.specs.Extents.{AreSoundExtents};
ghost use Rattle.xfs_inode.specs.Inode.{front_inode};
ghost use Rattle.xfs_inode.specs.Seen.{extent_seen};
ghost use Rattle.xfs_super.specs.Super.{geometry_of};

use crate::entry_block::judge_blocks;
use crate::short::is_sound_short_form;
use disk_base::Blocks;
use xfs_inode::Core;
use xfs_super::{CheckFault, Reason, Super};
use xfs_tree::Extent;

/// Judges a directory, whose core that is, with which `bytes` begin, and whose data fork has these extents: its short
/// form, or each of its blocks that have entries, which are read once each. Another inode passes. It takes no memory.
///
/// # Errors
///
/// `Bad` with `Directory` where the short form (as block 0) or a block, by its number in the file, spells no list of
/// entries, or where a block's header isn't that of the directory. `Device` where a read failed.
pub fn judge_directory<B: Blocks>(
    disk: &mut B,
    geo: &Super,
    core: &Core,
    bytes: &[u8; 2048],
    extents: &[Extent],
) -> Result<(), CheckFault>
    requires volume { 8 * geo.now.dblocks ≤ B.size disk.old }
    requires extents { AreSoundExtents (geometry_of geo.now) extents.now }
    ensures read { B.only_read disk.old disk.new }
    ensures sound { IsTrue B.tells → OnOk result (IsSoundDirectory (geometry_of geo.now) core.now
        (front_inode geo.now bytes.now) (map (extent_seen (block (B.image disk.old)) (geometry_of geo.now)) extents.now)) }
    ensures fault { IsTrue B.tells → IfErr result (HasDirectoryFault (geometry_of geo.now) core.now
        (front_inode geo.now bytes.now) (map (extent_seen (block (B.image disk.old)) (geometry_of geo.now)) extents.now)) }
    ensures device { IsErrOf result CheckFault.Device → Rose (B.faults disk.old) (B.faults disk.new) }
{
    if !core.is_directory() {
        return Ok(());
    }
    if core.format == 1 {
        if !is_sound_short_form(core, &bytes[..geo.inodesize as usize]) {
            return Err(CheckFault::Bad(Reason::Directory {
                ino: core.ino,
                block: 0,
            }));
        }
        return Ok(());
    }
    judge_blocks(disk, geo, core.ino, extents)?;
    Ok(())
}
