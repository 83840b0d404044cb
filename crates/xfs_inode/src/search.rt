//! The extent that covers a block of a file.
ghost use Rattle.std.specs.Prelude.{◌≡◌, ◌+◌, ◌-◌, ◌<◌, ◌≤◌, true, IsTrue, ◌↔◌, IfSome};
ghost use Rattle.xfs_inode.specs.Extents.{covers, covering, AreSoundExtents};
ghost use Rattle.xfs_inode.specs.inside.Searching.{AreApartInFile, IsPartedAt, IsNarrowed};
ghost use Rattle.xfs_super.specs.Super.{geometry_of};
ghost use Rattle.xfs_tree.specs.Records.{by_file};

use xfs_super::Super;
use xfs_tree::Extent;

/// Whether an extent ends at or before a block of the file.
fn ends_by(block: u64, extent: &Extent) -> bool
    ensures { IsTrue result ↔ (extent.now.file + extent.now.count ≤ block) }
{
    extent.file <= block && u64::from(extent.count) <= block - extent.file
}

/// One step of a search by halves.
fn halve(block: u64, extents: &[Extent], low: usize, high: usize) -> (usize, usize)
    requires apart { AreApartInFile extents.now }
    requires some { low < high }
    requires narrowed { IsNarrowed block extents.now low high }
    ensures narrowed { IsNarrowed block extents.now result.0 result.1 }
    ensures nearer { result.1 - result.0 < high - low }
{
    let middle = low + (high - low) / 2;
    let extent = extents[middle];
    if ends_by(block, &extent) {
        return (middle + 1, high);
    }
    (low, middle)
}

/// Where a block parts extents that lie apart.
fn parted_at(block: u64, extents: &[Extent]) -> usize
    requires apart { AreApartInFile extents.now }
    ensures { IsPartedAt block extents.now result }
{
    let mut range = (0, extents.len());
    while range.0 < range.1 {
        range = halve(block, extents, range.0, range.1);
    }
    range.0
}

/// The extent that covers a block of the file, where extents lie apart.
fn covering_by_halves(block: u64, extents: &[Extent]) -> Option<Extent>
    requires apart { AreApartInFile extents.now }
    ensures { result ≡ covering block extents.now }
{
    let at = parted_at(block, extents);
    if at == extents.len() {
        return None;
    }
    let extent = extents[at];
    if block < extent.file {
        return None;
    }
    Some(extent)
}

/// The extent that covers a block of the file, of extents that are sound.
pub(crate) fn find_extent(geo: &Super, block: u64, extents: &[Extent]) -> Option<Extent>
    requires { AreSoundExtents (geometry_of geo.now) extents.now }
    ensures first { result ≡ covering block extents.now }
    ensures covers { IfSome result (λ e. covers block e ≡ true) }
    ensures inside { IfSome result (λ e. IsTrue (by_file.inside (geometry_of geo.now) 0 e)) }
{
    covering_by_halves(block, extents)
}
