//! Claims on the blocks of extents.
ghost use Rattle.std.specs.Prelude.{◌≡◌, ℕ, IsTrue, IfErr, OnOk};
ghost use Rattle.std.specs.List.{All};
ghost use Rattle.xfs_inode.specs.inside.Telling.{extents_blocks};
ghost use Rattle.xfs_inode.specs.TreeFaults.{told_of_tree};
ghost use Rattle.xfs_super.specs.Super.{geometry_of};
ghost use Rattle.xfs_tree.specs.Marks.{marked, AreClaimed, AdmitsVolume, IsClaimFault};
ghost use Rattle.xfs_tree.specs.Records.{by_file};

use crate::place::first_block;
use xfs_super::{CheckFault, Reason, Super};
use xfs_tree::{Extent, Mark, TreeFault, claim_run};

/// Claims the blocks of extents, which lie in their groups.
pub(crate) fn claim_extents<M: Mark>(
    geo: &Super,
    extents: &[Extent],
    marks: &mut M,
) -> Result<(), TreeFault>
    requires inside { All (λ e. IsTrue (by_file.inside (geometry_of geo.now) 0 e)) extents.now }
    requires admits { AdmitsVolume geo.now (M.admits marks.old) }
    ensures claimed { OnOk result
        (AreClaimed geo.now (M.claimed marks.old) (extents_blocks (geometry_of geo.now) extents.now) (M.claimed marks.new)) }
    ensures fault { IfErr result (IsClaimFault geo.now.agblocks
        (marked geo.now.agblocks (M.claimed marks.old)) (extents_blocks (geometry_of geo.now) extents.now)) }
    ensures admits { (g b : ℕ) → M.admits marks.new g b ≡ M.admits marks.old g b }
{
    for extent in extents {
        claim_run(geo, first_block(geo, extent), extent.count as u64, marks)?;
    }
    Ok(())
}

/// A fault of a tree, as a check names it.
pub fn told(geo: &Super, fault: TreeFault) -> CheckFault
    ensures { result ≡ told_of_tree geo.now.agblocks fault }
{
    match fault {
        TreeFault::Checksum { group, block } => CheckFault::Bad(Reason::Tree { group, block }),
        TreeFault::Header { group, block } => CheckFault::Bad(Reason::Tree { group, block }),
        TreeFault::Level { group, block } => CheckFault::Bad(Reason::Tree { group, block }),
        TreeFault::Order { group, block } => CheckFault::Bad(Reason::Tree { group, block }),
        TreeFault::Range { group, block } => CheckFault::Bad(Reason::Tree { group, block }),
        TreeFault::Marked { group, block } => CheckFault::Bad(Reason::ClaimedTwice {
            block: (group as u64) * (geo.agblocks as u64) + (block as u64),
        }),
        TreeFault::Device => CheckFault::Device,
        TreeFault::Memory => CheckFault::Memory,
    }
}
