//! The extents of a fork: those that it lists, and whether extents are sound.
ghost use Rattle.std.specs.Prelude.{◌≡◌, ◌+◌, ◌*◌, ◌<◌, ◌≤◌, length, true, false, IsTrue, ◌↔◌, IfOk, IfErr};
ghost use Rattle.xfs_inode.specs.Extents.{listed_extent, listed_extents, covers, covering, AreSoundExtents};
ghost use Rattle.xfs_inode.specs.inside.Searching.{IsSoundAt};
ghost use Rattle.xfs_super.specs.Super.{geometry_of};
ghost use Rattle.xfs_tree.specs.declared.fault.TreeFault.TheVariants.{Memory};

use disk_base::List;
use std::alloc::Global;
use xfs_super::Super;
use xfs_tree::{Extent, Record, TreeFault};

/// Extent `k` of a list that stands in a fork.
fn listed_extent(fork: &[u8], k: usize) -> Extent
    requires { 16 * k + 16 ≤ length fork.now }
    ensures { result ≡ listed_extent fork.now k }
{
    let at = 16 * k;
    Extent::read(&fork[at..at + 16])
}

/// The first extents that a fork lists.
pub(crate) fn listed_extents(
    alloc: Global,
    fork: &[u8],
    count: usize,
) -> Result<List<Extent>, TreeFault>
    requires { 16 * count ≤ length fork.now }
    ensures listed { IfOk result (λ extents. extents ≡ listed_extents fork.now count) }
    ensures memory { IfErr result (λ fault. fault ≡ Memory) }
{
    let mut extents = List::new(alloc);
    for k in 0..count {
        extents.push(listed_extent(fork, k))?;
    }
    Ok(extents)
}

/// Whether an extent covers a block of the file.
pub(crate) fn covers(block: u64, extent: &Extent) -> bool
    ensures { result ≡ covers block extent.now }
{
    extent.file <= block && block - extent.file < u64::from(extent.count)
}

/// The first of the extents that a fork lists which covers a block of the file.
pub(crate) fn listed_covering(block: u64, fork: &[u8], count: usize) -> Option<Extent>
    requires { 16 * count ≤ length fork.now }
    ensures { result ≡ covering block (listed_extents fork.now count) }
{
    for k in 0..count {
        let extent = listed_extent(fork, k);
        if covers(block, &extent) {
            return Some(extent);
        }
    }
    None
}

/// Whether extent `i` has a block, lies in its group, and ends where the next one begins, or before it.
fn is_sound_at(geo: &Super, extents: &[Extent], i: usize) -> bool
    requires { i < length extents.now }
    ensures { IsTrue result ↔ IsSoundAt (geometry_of geo.now) extents.now i }
{
    let extent = extents[i];
    if extent.count == 0 || !extent.inside(geo, 0) {
        return false;
    }
    i + 1 == extents.len() || extent.before(&extents[i + 1])
}

/// Whether extents are sound.
pub(crate) fn are_sound(geo: &Super, extents: &[Extent]) -> bool
    ensures yes { result ≡ true → AreSoundExtents (geometry_of geo.now) extents.now }
    ensures no { result ≡ false → AreSoundExtents (geometry_of geo.now) extents.now → ⊥ }
{
    for i in 0..extents.len() {
        if !is_sound_at(geo, extents, i) {
            return false;
        }
    }
    true
}
