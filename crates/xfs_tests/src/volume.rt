//! The whole small volume, as the tests of inodes read it.
ghost use Rattle.std.specs.Prelude.{◌≤◌, length, IfOk};

use crate::list_mark::ListMark;
use disk_base::{Blocks, ByteDisk, put};
use disk_fixtures::{SIZES, resum};
use std::alloc::Global;
use std::process::Abort;
use std::test::Fail;
use xfs_inode::{Core, content_at, extents_of, lies_in_volume, read_inode};
use xfs_super::{CheckFault, Super, super_of};

/// Its sectors of 512 bytes.
pub(crate) const SECTORS: u64 = 2048;

/// Its geometry.
pub(crate) fn geometry() -> Result<Super, Fail> {
    Ok(super_of(&SIZES.superblock(), SECTORS)?)
}

/// A superblock of a sector of 512 bytes with those flags for features that not every reader knows.
pub(crate) fn with_features(superblock: &[u8; 4096], flags: u8) -> [u8; 4096] {
    let mut out = *superblock;
    put(&mut out, 219, &[flags]);
    resum(&mut out[..SIZES.sector()], 224);
    out
}

/// An inode of the volume on a disk, and its bytes, or why there is none.
pub(crate) fn inode_on(
    rt: &impl Abort,
    disk: &mut ByteDisk,
    geo: &Super,
    ino: u64,
    bytes: &mut [u8; 2048],
) -> Result<Core, CheckFault> {
    assert!(rt; geo.dblocks <= disk.sectors() / 8);
    assert!(rt; lies_in_volume(geo, ino));
    read_inode(disk, geo, ino, bytes)
}

/// How many bytes were given of an inode's content. The place is the inode and the first byte.
pub(crate) fn piece(
    rt: &impl Abort,
    alloc: Global,
    disk: &mut ByteDisk,
    geo: &Super,
    place: (u64, u64),
    out: &mut [u8],
) -> Result<usize, Fail>
    ensures { IfOk result (λ n. n ≤ length out.old) }
{
    let (ino, offset) = place;
    let mut bytes = [0; 2048];
    let core = inode_on(rt, disk, geo, ino, &mut bytes)?;
    assert!(rt; geo.dblocks <= disk.sectors() / 8);
    let mut marks = ListMark::new(alloc);
    let extents = extents_of::<ByteDisk, ListMark>(
        alloc, disk, geo, &core, &bytes, false, &mut marks,
    )?;
    let n = content_at(disk, geo, &core, &bytes, extents.items(), offset, out)?;
    Ok(n)
}
