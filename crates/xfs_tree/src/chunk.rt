//! Chunks of inodes, without holes: the records of the trees of inodes.
ghost use Rattle.std.specs.Prelude.{◌≡◌, ◌+◌, ◌*◌, ◌^◌, ◌<◌, ◌≤◌, length};
ghost use Rattle.xfs_super.specs.Super.{geometry_of};
ghost use Rattle.xfs_tree.specs.Records.{chunk_before, chunk_inside, fits_chunk};

use crate::record::Record;
use byteorder::{BigEndian, ByteOrder};
use disk_base::{big_u32, big_u64};
use xfs_super::Super;

/// Whether a chunk ends at the start of another one or before it.
pub(crate) fn is_before(start: u32, other: u32) -> bool
    ensures { result ≡ chunk_before start other }
{
    u64::from(start) + 64 <= u64::from(other)
}

/// Whether a chunk lies in its group.
pub(crate) fn is_inside(geo: &Super, group: u32, start: u32) -> bool
    requires { group < geo.now.agcount }
    ensures { result ≡ chunk_inside (geometry_of geo.now) group start }
{
    let inodes = u64::from(geo.group_len(group)) << geo.inopblog;
    u64::from(start) + 64 <= inodes
}

/// Whether the numbers fit their fields, as any do.
fn is_short(_start: u32, _freecount: u32, _free: u64) -> bool
    ensures { result ≡ fits_chunk _start _freecount _free }
{
    true
}

/// A chunk of 64 inodes of a group, the record of its tree of inodes (XFS Algorithms & Data Structures, 'Inode
/// B+tree'): the number of its first inode in the group, how many of its inodes are free, and which.
#[derive(Clone, Copy, Debug, PartialEq, Eq)]
pub struct Chunk {
    pub start: u32,
    pub freecount: u32,
    pub free: u64,
}

impl Record for Chunk {
    ghost use Rattle.std.specs.Prelude.{codes, false};
    ghost use Rattle.std.proofs.Common.{refl, lit≤};
    ghost use Rattle.xfs_tree.specs.Records.{by_inode};
    ghost use Rattle.xfs_tree.specs.inside.ChunkLaws.{chunk_length, chunk_keys, by_inode_back, chunk_strict, chunk_on, chunk_grows};

    const SIZE: usize = 16;

    const KEY: usize = 4;

    const MAGIC: [u8; 4] = *b"IAB3";

    const LONG: bool = false;

    ghost SIZE = { 16 };

    ghost KEY = { 4 };

    ghost MAGIC = { codes "IAB3" };

    ghost LONG = { false };

    ghost form = { by_inode };

    fn read(bytes: &[u8]) -> Chunk {
        Chunk {
            start: big_u32(bytes, 0),
            freecount: big_u32(bytes, 4),
            free: big_u64(bytes, 8),
        }
    }

    fn put(&self, out: &mut [u8]) {
        BigEndian::write_u32(out, self.start);
        BigEndian::write_u32(&mut out[4..], self.freecount);
        BigEndian::write_u64(&mut out[8..], self.free);
    }

    fn fits(&self) -> bool {
        is_short(self.start, self.freecount, self.free)
    }

    fn before(&self, other: &Chunk) -> bool {
        is_before(self.start, other.start)
    }

    fn inside(&self, geo: &Super, group: u32) -> bool {
        is_inside(geo, group, self.start)
    }

    fn key_before(a: &[u8], b: &[u8]) -> bool {
        big_u32(a, 0) < big_u32(b, 0)
    }

    ghost size_is = { refl };

    ghost key_is = { refl };

    ghost magic_is = { refl };

    ghost long_is = { refl };

    ghost sizes = { (lit≤ tt, lit≤ tt) };

    ghost key_sizes = { (lit≤ tt, lit≤ tt) };

    ghost length_bytes = { λ r. chunk_length r.start r.freecount r.free };

    ghost reads_back = { λ r f. by_inode_back r f };

    ghost never_before_itself = { λ r f. chunk_strict r.start };

    ghost before_on = { λ r s t a b c p q. chunk_on r.start s.start t.start p q };

    ghost keys_follow = { λ r s a b p. chunk_keys r.start r.freecount r.free s.start s.freecount s.free a b p };

    ghost inside_grows = { λ geo grown group r g i. chunk_grows geo grown group r.start g i };

    ghost short_keys = { λ e r. refl };
}

/// The same, of the tree of chunks that have a free inode.
#[derive(Clone, Copy, Debug, PartialEq, Eq)]
pub struct FreeChunk {
    pub start: u32,
    pub freecount: u32,
    pub free: u64,
}

impl Record for FreeChunk {
    ghost use Rattle.std.specs.Prelude.{codes, false};
    ghost use Rattle.std.proofs.Common.{refl, lit≤};
    ghost use Rattle.xfs_tree.specs.Records.{by_free_inode};
    ghost use Rattle.xfs_tree.specs.inside.ChunkLaws.{chunk_length, chunk_keys, by_free_inode_back, chunk_strict, chunk_on, chunk_grows};

    const SIZE: usize = 16;

    const KEY: usize = 4;

    const MAGIC: [u8; 4] = *b"FIB3";

    const LONG: bool = false;

    ghost SIZE = { 16 };

    ghost KEY = { 4 };

    ghost MAGIC = { codes "FIB3" };

    ghost LONG = { false };

    ghost form = { by_free_inode };

    fn read(bytes: &[u8]) -> FreeChunk {
        FreeChunk {
            start: big_u32(bytes, 0),
            freecount: big_u32(bytes, 4),
            free: big_u64(bytes, 8),
        }
    }

    fn put(&self, out: &mut [u8]) {
        BigEndian::write_u32(out, self.start);
        BigEndian::write_u32(&mut out[4..], self.freecount);
        BigEndian::write_u64(&mut out[8..], self.free);
    }

    fn fits(&self) -> bool {
        is_short(self.start, self.freecount, self.free)
    }

    fn before(&self, other: &FreeChunk) -> bool {
        is_before(self.start, other.start)
    }

    fn inside(&self, geo: &Super, group: u32) -> bool {
        is_inside(geo, group, self.start)
    }

    fn key_before(a: &[u8], b: &[u8]) -> bool {
        big_u32(a, 0) < big_u32(b, 0)
    }

    ghost size_is = { refl };

    ghost key_is = { refl };

    ghost magic_is = { refl };

    ghost long_is = { refl };

    ghost sizes = { (lit≤ tt, lit≤ tt) };

    ghost key_sizes = { (lit≤ tt, lit≤ tt) };

    ghost length_bytes = { λ r. chunk_length r.start r.freecount r.free };

    ghost reads_back = { λ r f. by_free_inode_back r f };

    ghost never_before_itself = { λ r f. chunk_strict r.start };

    ghost before_on = { λ r s t a b c p q. chunk_on r.start s.start t.start p q };

    ghost keys_follow = { λ r s a b p. chunk_keys r.start r.freecount r.free s.start s.freecount s.free a b p };

    ghost inside_grows = { λ geo grown group r g i. chunk_grows geo grown group r.start g i };

    ghost short_keys = { λ e r. refl };
}
