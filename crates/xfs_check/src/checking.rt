//! The check.
ghost use Rattle.std.specs.Prelude.{◌≡◌, ℕ, ◌*◌, ◌≤◌, map, length, IsTrue, IfOk, IfErr, IsErrOf, OnOk};
ghost use Rattle.block_claims.specs.Agreement.{block};
ghost use Rattle.disk_base.specs.Faults.{Rose};
ghost use Rattle.xfs_check.specs.Frame.{FreeCarriesNoFile, volume_on};
ghost use Rattle.xfs_check.specs.Seen.{groups_seen};
ghost use Rattle.xfs_check.specs.Valid.{HasCheckFault, IsValidVolume};
ghost use Rattle.xfs_check.specs.Volume.{group_space, volume_space};
ghost use Rattle.xfs_check.specs.inside.Behind.{HasFaultBehind, IsSoundBehind};
ghost use Rattle.xfs_check.specs.inside.Grouping.{as_space};
ghost use Rattle.xfs_check.specs.inside.Reading.{IsHeadRefused};
ghost use Rattle.xfs_log.specs.Log.{log_seen};
ghost use Rattle.xfs_super.specs.Super.{geometry_of};
ghost use Rattle.xfs_super.specs.Superblock.{IsSuperblock, SpeaksAgainst, geometry_in};

use crate::claims::Claims;
use crate::group::Group;
use crate::groups::{CheckedGroups, check_groups};
use crate::head::BLOCK;
use crate::unmount::check_log;
use crate::volume::Volume;
use disk_base::Blocks;
use std::alloc::Global;
use xfs_super::{CheckFault, Reason, Super, super_of};

/// What the superblock of a volume says, which stands in its first sectors.
fn read_superblock<B: Blocks>(disk: &mut B) -> Result<Super, CheckFault>
    ensures read { B.only_read disk.old disk.new }
    ensures sound { IsTrue B.tells → OnOk result (IsSuperblock (B.size disk.old) (block (B.image disk.old) 0)) }
    ensures geometry { IsTrue B.tells → IfOk result (λ geo. geometry_of geo ≡ geometry_in (block (B.image disk.old) 0)) }
    ensures inside { IfOk result (λ geo. 8 * geo.dblocks ≤ B.size disk.old) }
    ensures fault { IsTrue B.tells → IfErr result
        (IsHeadRefused (SpeaksAgainst (B.size disk.old) (block (B.image disk.old) 0))) }
    ensures device { IsErrOf result CheckFault.Device → Rose (B.faults disk.old) (B.faults disk.new) }
{
    let sectors = disk.sectors();
    if sectors < 8 {
        return Err(CheckFault::Bad(Reason::Geometry));
    }
    let mut bytes = [0; BLOCK];
    disk.read(0, &mut bytes)?;
    let geo = super_of(&bytes, sectors)?;
    Ok(geo)
}

/// Checks what stands behind the superblock of a volume: its groups, that the root of the files is there, that no block
/// has two uses, and its log.
fn check_behind<B: Blocks>(
    alloc: Global,
    disk: &mut B,
    geo: &Super,
) -> Result<Vec<Group>, CheckFault>
    requires volume { 8 * geo.now.dblocks ≤ B.size disk.old }
    ensures read { B.only_read disk.old disk.new }
    ensures many { IfOk result (λ groups. length groups.items ≡ geo.now.agcount) }
    ensures space { IsTrue B.tells → IfOk result (λ groups. map as_space groups.items
        ≡ map (group_space (geometry_of geo.now)) (groups_seen (geometry_of geo.now) (block (B.image disk.old)))) }
    ensures sound { IsTrue B.tells → OnOk result (IsSoundBehind (geometry_of geo.now)
        (groups_seen (geometry_of geo.now) (block (B.image disk.old))) (log_seen (geometry_of geo.now) (block (B.image disk.old)))) }
    ensures fault { IsTrue B.tells → IfErr result (HasFaultBehind (geometry_of geo.now)
        (groups_seen (geometry_of geo.now) (block (B.image disk.old))) (log_seen (geometry_of geo.now) (block (B.image disk.old)))) }
    ensures device { IsErrOf result CheckFault.Device → Rose (B.faults disk.old) (B.faults disk.new) }
{
    let mut claims = Claims::new(alloc, geo)?;
    let CheckedGroups { groups, root } = check_groups(alloc, disk, geo, &mut claims)?;
    if !root {
        return Err(CheckFault::Bad(Reason::Inode { ino: geo.rootino }));
    }
    check_log(disk, geo, &mut claims)?;
    Ok(groups)
}

/// Checks a volume, which fills the disk (XFS Algorithms & Data Structures): all of its metadata is read, each block of
/// it once, and each block of the volume is seen to have one use at most. Nothing is written.
///
/// # Errors
///
/// `Bad` with a reason that speaks against the volume, of several any. `Device` where a read failed, and `Memory` where
/// memory was refused.
pub fn check<B: Blocks>(alloc: Global, disk: &mut B) -> Result<Volume, CheckFault>
    ensures read { B.only_read disk.old disk.new }
    ensures valid { IsTrue B.tells → OnOk result (IsValidVolume (B.size disk.old) (volume_on (B.image disk.old))) }
    ensures volume { IsTrue B.tells → IfOk result (λ volume. volume ≡ volume_space (volume_on (B.image disk.old))) }
    ensures frame { IsTrue B.tells → OnOk result (FreeCarriesNoFile (B.size disk.old) (B.image disk.old)) }
    ensures inside { IfOk result (λ volume. 8 * volume.geometry.dblocks ≤ B.size disk.old) }
    ensures fault { IsTrue B.tells → IfErr result (HasCheckFault (B.size disk.old) (volume_on (B.image disk.old))) }
    ensures device { IsErrOf result CheckFault.Device → Rose (B.faults disk.old) (B.faults disk.new) }
{
    let geo = read_superblock(disk)?;
    let groups = check_behind(alloc, disk, &geo)?;
    Ok(Volume::of(geo, groups))
}
