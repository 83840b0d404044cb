//! Checking a group.
ghost use Rattle.std.specs.Prelude.{◌≡◌, ℕ, ◌*◌, ◌<◌, ◌≤◌, [], ◌∷◌, IsTrue, IfOk, IfErr, IsErrOf, OnOk};
ghost use Rattle.disk_base.specs.Faults.{Rose};
ghost use Rattle.xfs_check.specs.Seen.{inodes_of_group};
ghost use Rattle.xfs_check.specs.Valid.{has_root};
ghost use Rattle.xfs_check.specs.Volume.{group_space};
ghost use Rattle.xfs_check.specs.inside.Grouping.{AreGroupsChecked, AreGroupsRefused, as_space};
ghost use Rattle.xfs_check.specs.inside.Reading.{group_on};
ghost use Rattle.xfs_super.specs.Super.{geometry_of};
ghost use Rattle.xfs_tree.specs.Marks.{marked, AdmitsVolume};

use crate::chunks::check_chunks;
use crate::head::read_head;
use crate::inodes::check_inodes;
use crate::space::check_space;
use disk_base::Blocks;
use std::alloc::Global;
use xfs_alloc::Free;
use xfs_super::{Agf, Agi, CheckFault, Super};
use xfs_tree::Mark;

/// A group of a volume that was checked: its headers and its free space.
#[derive(Drop)]
pub(crate) struct Group {
    pub(crate) agf: Agf,
    pub(crate) agi: Agi,
    pub(crate) free: Free,
}

/// A group, and whether the root of the files is one of its inodes.
#[derive(Drop)]
pub(crate) struct Checked {
    pub(crate) group: Group,
    pub(crate) root: bool,
}

/// Checks a group, and takes all its parts.
pub(crate) fn check_group<B: Blocks, M: Mark>(
    alloc: Global,
    disk: &mut B,
    geo: &Super,
    group: u32,
    marks: &mut M,
) -> Result<Checked, CheckFault>
    requires volume { 8 * geo.now.dblocks ≤ B.size disk.old }
    requires group { group < geo.now.agcount }
    requires admits { AdmitsVolume geo.now (M.admits marks.old) }
    ensures read { B.only_read disk.old disk.new }
    ensures space { IsTrue B.tells → IfOk result (λ checked.
        as_space checked.group ≡ group_space (geometry_of geo.now) (group_on geo.now group (B.image disk.old))) }
    ensures root { IsTrue B.tells → IfOk result (λ checked.
        checked.root ≡ has_root (geometry_of geo.now) (inodes_of_group (group_on geo.now group (B.image disk.old)))) }
    ensures checked { IsTrue B.tells → OnOk result (AreGroupsChecked (geometry_of geo.now)
        (group_on geo.now group (B.image disk.old) ∷ [])
        (marked geo.now.agblocks (M.claimed marks.old)) (marked geo.now.agblocks (M.claimed marks.new))) }
    ensures fault { IsTrue B.tells → IfErr result (AreGroupsRefused (geometry_of geo.now)
        (group_on geo.now group (B.image disk.old) ∷ []) (marked geo.now.agblocks (M.claimed marks.old))) }
    ensures device { IsErrOf result CheckFault.Device → Rose (B.faults disk.old) (B.faults disk.new) }
    ensures admits { (g b : ℕ) → M.admits marks.new g b ≡ M.admits marks.old g b }
{
    let head = read_head(disk, geo, group)?;
    let free = check_space(alloc, disk, geo, group, &head, marks)?;
    let chunks = check_chunks(alloc, disk, geo, group, &head, marks)?;
    let root = check_inodes(alloc, disk, geo, group, chunks.items(), marks)?;
    Ok(Checked {
        group: Group {
            agf: head.agf,
            agi: head.agi,
            free,
        },
        root,
    })
}
