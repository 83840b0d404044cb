//! A row of a tree, and where its blocks lie.
ghost use Rattle.std.specs.Prelude.{◌≡◌, ◌*◌, ◌/◌, ◌%◌, ◌<◌, ◌≤◌};

use xfs_super::Super;

/// Blocks of one height in a tree: in which volume, and whose tree it is.
///
/// A short tree is that of a group, which is its owner, too; the owner of a long one is an inode, and its group
/// says nothing. A block of height 0 is a leaf; each has at least that many records or keys.
#[derive(Clone, Copy, Debug, PartialEq, Eq)]
pub(crate) struct Row {
    pub geo: Super,
    pub group: u32,
    pub owner: u64,
    pub height: u32,
    pub least: u32,
    pub ghost owned: { group < geo.agcount },
}

/// A block as a fault names it.
#[derive(Clone, Copy, Debug, PartialEq, Eq)]
pub(crate) struct Place {
    pub group: u32,
    pub block: u32,
}

/// The group of a block, of so many that have that many blocks, and which block of the group it is.
fn parted(at: u64, agblocks: u32, agcount: u32) -> Place
    requires some { 1 ≤ agblocks }
    requires inside { at / agblocks < agcount }
    ensures group { result.group ≡ at / agblocks }
    ensures block { result.block ≡ at % agblocks }
{
    Place {
        group: (at / (agblocks as u64)) as u32,
        block: (at % (agblocks as u64)) as u32,
    }
}

/// The group of a block of the volume, and which block of the group it is.
pub(crate) fn place_of(geo: &Super, at: u64) -> Place
    requires { at < geo.now.dblocks }
    ensures group { result.group ≡ at / geo.now.agblocks }
    ensures block { result.block ≡ at % geo.now.agblocks }
{
    parted(at, geo.agblocks, geo.agcount)
}

/// The sector of 512 bytes at which a block of the volume begins.
pub(crate) fn sector_of(geo: &Super, at: u64) -> u64
    requires { at < geo.now.dblocks }
    ensures { result ≡ 8 * at }
{
    let place = place_of(geo, at);
    geo.sector_of(place.group, place.block)
}
