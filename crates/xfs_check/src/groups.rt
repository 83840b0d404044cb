//! Checking the groups of a volume, one after the other.
ghost use Rattle.std.specs.Prelude.{◌≡◌, ℕ, ◌*◌, ◌≤◌, map, length, IsTrue, IfOk, IfErr, IsErrOf, OnOk};
ghost use Rattle.block_claims.specs.Agreement.{block};
ghost use Rattle.disk_base.specs.Faults.{Rose};
ghost use Rattle.xfs_check.specs.Seen.{groups_seen, inodes_of_groups};
ghost use Rattle.xfs_check.specs.Valid.{has_root};
ghost use Rattle.xfs_check.specs.Volume.{group_space};
ghost use Rattle.xfs_check.specs.inside.Grouping.{AreGroupsChecked, AreGroupsRefused, as_space};
ghost use Rattle.xfs_super.specs.Super.{geometry_of};
ghost use Rattle.xfs_tree.specs.Marks.{marked, AdmitsVolume};

use crate::group::{Group, check_group};
use disk_base::Blocks;
use std::alloc::Global;
use xfs_super::{CheckFault, Super};
use xfs_tree::Mark;

/// All groups of a volume, and whether the root of the files is one of their inodes.
#[derive(Drop)]
pub(crate) struct CheckedGroups {
    pub(crate) groups: Vec<Group>,
    pub(crate) root: bool,
}

/// Checks the groups of a volume, and takes all their parts.
pub(crate) fn check_groups<B: Blocks, M: Mark>(
    alloc: Global,
    disk: &mut B,
    geo: &Super,
    marks: &mut M,
) -> Result<CheckedGroups, CheckFault>
    requires volume { 8 * geo.now.dblocks ≤ B.size disk.old }
    requires admits { AdmitsVolume geo.now (M.admits marks.old) }
    ensures read { B.only_read disk.old disk.new }
    ensures many { IfOk result (λ checked. length checked.groups.items ≡ geo.now.agcount) }
    ensures space { IsTrue B.tells → IfOk result (λ checked. map as_space checked.groups.items
        ≡ map (group_space (geometry_of geo.now)) (groups_seen (geometry_of geo.now) (block (B.image disk.old)))) }
    ensures root { IsTrue B.tells → IfOk result (λ checked. checked.root ≡ has_root (geometry_of geo.now)
        (inodes_of_groups (groups_seen (geometry_of geo.now) (block (B.image disk.old))))) }
    ensures checked { IsTrue B.tells → OnOk result (AreGroupsChecked (geometry_of geo.now)
        (groups_seen (geometry_of geo.now) (block (B.image disk.old)))
        (marked geo.now.agblocks (M.claimed marks.old)) (marked geo.now.agblocks (M.claimed marks.new))) }
    ensures fault { IsTrue B.tells → IfErr result (AreGroupsRefused (geometry_of geo.now)
        (groups_seen (geometry_of geo.now) (block (B.image disk.old))) (marked geo.now.agblocks (M.claimed marks.old))) }
    ensures device { IsErrOf result CheckFault.Device → Rose (B.faults disk.old) (B.faults disk.new) }
    ensures admits { (g b : ℕ) → M.admits marks.new g b ≡ M.admits marks.old g b }
{
    let mut groups = Vec::new(alloc);
    let mut root = false;
    for group in 0..geo.agcount {
        let checked = check_group(alloc, disk, geo, group, marks)?;
        groups.push(checked.group)?;
        root |= checked.root;
    }
    Ok(CheckedGroups { groups, root })
}
