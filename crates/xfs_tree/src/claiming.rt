//! Where the pointers of a tree lead, and claims on blocks.
ghost use Rattle.std.specs.Prelude.{◌≡◌, ℕ, ◌+◌, ◌/◌, ◌%◌, ◌^◌, ◌<◌, ◌≤◌, [], ◌∷◌, Bool, false, IsTrue, IfErr, IfSome, OnOk, IsNone, if◌then◌else◌};
ghost use Rattle.std.specs.List.{range_with_len};
ghost use Rattle.xfs_super.specs.Super.{geometry_of};
ghost use Rattle.xfs_tree.specs.Block.{block_to, leads_to, points_inside};
ghost use Rattle.xfs_tree.specs.Marks.{IsClaimFault, marked, AreClaimed, AdmitsVolume};
ghost use Rattle.xfs_tree.specs.inside.Reading.{AreInVolume};
ghost use Rattle.xfs_tree.specs.inside.Rows.{setting_of_row};

use crate::extent::parted;
use crate::fault::TreeFault;
use crate::mark::Mark;
use crate::record::Record;
use crate::row::{Row, place_of};
use xfs_super::Super;

/// The group that a pointer names, and the block in it.
fn target<R: Record>(row: &Row, pointer: u64) -> (u64, u64)
    ensures group { result.0 ≡ (if R.form.long then pointer / 2 ^ row.now.geo.agblklog else row.now.group) }
    ensures block { result.1 ≡ block_to (setting_of_row R.form row.now) pointer }
{
    if R::LONG {
        parted(&row.geo, pointer)
    } else {
        (u64::from(row.group), pointer)
    }
}

/// The block of the volume that a pointer names, if there is one.
pub(crate) fn follow<R: Record>(row: &Row, pointer: u64) -> Option<u64>
    ensures number { IfSome result (λ n. n ≡ leads_to (setting_of_row R.form row.now) pointer) }
    ensures inside { IfSome result (λ n. IsTrue (points_inside (setting_of_row R.form row.now) (geometry_of row.now.geo) pointer)) }
    ensures small { IfSome result (λ n. n < row.now.geo.dblocks) }
    ensures outside { IsNone result → points_inside (setting_of_row R.form row.now) (geometry_of row.now.geo) pointer ≡ false }
{
    let (home, block) = target::<R>(row, pointer);
    if home >= u64::from(row.geo.agcount) {
        return None;
    }
    if block >= u64::from(row.geo.agblocks) {
        return None;
    }
    let number = home * u64::from(row.geo.agblocks) + block;
    if number >= row.geo.dblocks {
        return None;
    }
    Some(number)
}

/// Claims a block of the volume.
fn claim_one<M: Mark>(geo: &Super, at: u64, marks: &mut M) -> Result<(), TreeFault>
    requires inside { at < geo.now.dblocks }
    requires admits { IsTrue (M.admits marks.old (at / geo.now.agblocks) (at % geo.now.agblocks)) }
    ensures claimed { OnOk result (AreClaimed geo.now (M.claimed marks.old) (at ∷ []) (M.claimed marks.new)) }
    ensures fault { IfErr result (IsClaimFault geo.now.agblocks (marked geo.now.agblocks (M.claimed marks.old)) (at ∷ [])) }
    ensures admits { (g b : ℕ) → M.admits marks.new g b ≡ M.admits marks.old g b }
{
    let place = place_of(geo, at);
    let fresh = marks.claim(place.group, place.block)?;
    if !fresh {
        return Err(TreeFault::Marked {
            group: place.group,
            block: place.block,
        });
    }
    Ok(())
}

/// Claims blocks of the volume, one after the other.
pub(crate) fn claim_all<M: Mark>(
    geo: &Super,
    blocks: &[u64],
    marks: &mut M,
) -> Result<(), TreeFault>
    requires inside { AreInVolume (geometry_of geo.now) blocks.now }
    requires admits { AdmitsVolume geo.now (M.admits marks.old) }
    ensures claimed { OnOk result (AreClaimed geo.now (M.claimed marks.old) blocks.now (M.claimed marks.new)) }
    ensures fault { IfErr result (IsClaimFault geo.now.agblocks (marked geo.now.agblocks (M.claimed marks.old)) blocks.now) }
    ensures admits { (g b : ℕ) → M.admits marks.new g b ≡ M.admits marks.old g b }
{
    for block in blocks {
        claim_one(geo, *block, marks)?;
    }
    Ok(())
}

/// Claims `count` blocks of the volume, from block `first` on, in the order of their numbers.
///
/// # Errors
///
/// `Marked` names a block that was claimed before, and `Memory` comes where memory was refused; no other fault
/// comes. Then the blocks before it are claimed.
pub fn claim_run<M: Mark>(
    geo: &Super,
    first: u64,
    count: u64,
    marks: &mut M,
) -> Result<(), TreeFault>
    requires inside { first + count ≤ geo.now.dblocks }
    requires admits { AdmitsVolume geo.now (M.admits marks.old) }
    ensures claimed { OnOk result (AreClaimed geo.now (M.claimed marks.old) (range_with_len first count) (M.claimed marks.new)) }
    ensures fault { IfErr result
        (IsClaimFault geo.now.agblocks (marked geo.now.agblocks (M.claimed marks.old)) (range_with_len first count)) }
    ensures admits { (g b : ℕ) → M.admits marks.new g b ≡ M.admits marks.old g b }
{
    // Read for its range: no number of a block passes it.
    let _dblocks = geo.dblocks;
    for i in 0..count {
        claim_one(geo, first + i, marks)?;
    }
    Ok(())
}
