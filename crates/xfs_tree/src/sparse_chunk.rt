//! Chunks of inodes that may have holes.
ghost use Rattle.std.specs.Prelude.{◌≡◌, ◌+◌, ◌<◌, ◌≤◌, length};
ghost use Rattle.xfs_super.specs.Super.{geometry_of};
ghost use Rattle.xfs_tree.specs.Records.{fits_sparse};

use crate::chunk::{is_before, is_inside};
use crate::record::Record;
use byteorder::{BigEndian, ByteOrder};
use disk_base::{big_u16, big_u32, big_u64};
use xfs_super::Super;

/// Whether the numbers fit their fields, as any do.
fn is_short(_start: u32, _holemask: u16, _count: u8, _freecount: u8, _free: u64) -> bool
    ensures { result ≡ fits_sparse _start _holemask _count _freecount _free }
{
    true
}

/// A chunk of 64 inodes of a group which may have holes, the record of its tree of inodes (XFS Algorithms & Data
/// Structures, 'Sparse Inodes'): a bit of `holemask` is 1 where four inodes aren't there, `count` of them are.
#[derive(Clone, Copy, Debug, PartialEq, Eq)]
pub struct SparseChunk {
    pub start: u32,
    pub holemask: u16,
    pub count: u8,
    pub freecount: u8,
    pub free: u64,
}

impl Record for SparseChunk {
    ghost use Rattle.std.specs.Prelude.{codes, false};
    ghost use Rattle.std.proofs.Common.{refl, lit≤};
    ghost use Rattle.xfs_tree.specs.Records.{by_sparse_inode};
    ghost use Rattle.xfs_tree.specs.inside.ChunkLaws.{sparse_length, sparse_keys, by_sparse_inode_back, chunk_strict, chunk_on, chunk_grows};

    const SIZE: usize = 16;

    const KEY: usize = 4;

    const MAGIC: [u8; 4] = *b"IAB3";

    const LONG: bool = false;

    ghost SIZE = { 16 };

    ghost KEY = { 4 };

    ghost MAGIC = { codes "IAB3" };

    ghost LONG = { false };

    ghost form = { by_sparse_inode };

    fn read(bytes: &[u8]) -> SparseChunk {
        SparseChunk {
            start: big_u32(bytes, 0),
            holemask: big_u16(bytes, 4),
            count: bytes[6],
            freecount: bytes[7],
            free: big_u64(bytes, 8),
        }
    }

    fn put(&self, out: &mut [u8]) {
        BigEndian::write_u32(out, self.start);
        BigEndian::write_u16(&mut out[4..], self.holemask);
        out[6] = self.count;
        out[7] = self.freecount;
        BigEndian::write_u64(&mut out[8..], self.free);
    }

    fn fits(&self) -> bool {
        is_short(
            self.start,
            self.holemask,
            self.count,
            self.freecount,
            self.free,
        )
    }

    fn before(&self, other: &SparseChunk) -> bool {
        is_before(self.start, other.start)
    }

    fn inside(&self, geo: &Super, group: u32) -> bool {
        is_inside(geo, group, self.start)
    }

    fn key_before(a: &[u8], b: &[u8]) -> bool {
        big_u32(a, 0) < big_u32(b, 0)
    }

    ghost size_is = { refl };

    ghost key_is = { refl };

    ghost magic_is = { refl };

    ghost long_is = { refl };

    ghost sizes = { (lit≤ tt, lit≤ tt) };

    ghost key_sizes = { (lit≤ tt, lit≤ tt) };

    ghost length_bytes = { λ r. sparse_length r.start r.holemask r.count r.freecount r.free };

    ghost reads_back = { λ r f. by_sparse_inode_back r f };

    ghost never_before_itself = { λ r f. chunk_strict r.start };

    ghost before_on = { λ r s t a b c p q. chunk_on r.start s.start t.start p q };

    ghost keys_follow = { λ r s a b p. sparse_keys r.start r.holemask r.count r.freecount r.free s.start s.holemask s.count s.freecount s.free a b p };

    ghost inside_grows = { λ geo grown group r g i. chunk_grows geo grown group r.start g i };

    ghost short_keys = { λ e r. refl };
}

/// The same, of the tree of chunks that have a free inode.
#[derive(Clone, Copy, Debug, PartialEq, Eq)]
pub struct FreeSparseChunk {
    pub start: u32,
    pub holemask: u16,
    pub count: u8,
    pub freecount: u8,
    pub free: u64,
}

impl Record for FreeSparseChunk {
    ghost use Rattle.std.specs.Prelude.{codes, false};
    ghost use Rattle.std.proofs.Common.{refl, lit≤};
    ghost use Rattle.xfs_tree.specs.Records.{by_free_sparse_inode};
    ghost use Rattle.xfs_tree.specs.inside.ChunkLaws.{sparse_length, sparse_keys, by_free_sparse_inode_back, chunk_strict, chunk_on, chunk_grows};

    const SIZE: usize = 16;

    const KEY: usize = 4;

    const MAGIC: [u8; 4] = *b"FIB3";

    const LONG: bool = false;

    ghost SIZE = { 16 };

    ghost KEY = { 4 };

    ghost MAGIC = { codes "FIB3" };

    ghost LONG = { false };

    ghost form = { by_free_sparse_inode };

    fn read(bytes: &[u8]) -> FreeSparseChunk {
        FreeSparseChunk {
            start: big_u32(bytes, 0),
            holemask: big_u16(bytes, 4),
            count: bytes[6],
            freecount: bytes[7],
            free: big_u64(bytes, 8),
        }
    }

    fn put(&self, out: &mut [u8]) {
        BigEndian::write_u32(out, self.start);
        BigEndian::write_u16(&mut out[4..], self.holemask);
        out[6] = self.count;
        out[7] = self.freecount;
        BigEndian::write_u64(&mut out[8..], self.free);
    }

    fn fits(&self) -> bool {
        is_short(
            self.start,
            self.holemask,
            self.count,
            self.freecount,
            self.free,
        )
    }

    fn before(&self, other: &FreeSparseChunk) -> bool {
        is_before(self.start, other.start)
    }

    fn inside(&self, geo: &Super, group: u32) -> bool {
        is_inside(geo, group, self.start)
    }

    fn key_before(a: &[u8], b: &[u8]) -> bool {
        big_u32(a, 0) < big_u32(b, 0)
    }

    ghost size_is = { refl };

    ghost key_is = { refl };

    ghost magic_is = { refl };

    ghost long_is = { refl };

    ghost sizes = { (lit≤ tt, lit≤ tt) };

    ghost key_sizes = { (lit≤ tt, lit≤ tt) };

    ghost length_bytes = { λ r. sparse_length r.start r.holemask r.count r.freecount r.free };

    ghost reads_back = { λ r f. by_free_sparse_inode_back r f };

    ghost never_before_itself = { λ r f. chunk_strict r.start };

    ghost before_on = { λ r s t a b c p q. chunk_on r.start s.start t.start p q };

    ghost keys_follow = { λ r s a b p. sparse_keys r.start r.holemask r.count r.freecount r.free s.start s.holemask s.count s.freecount s.free a b p };

    ghost inside_grows = { λ geo grown group r g i. chunk_grows geo grown group r.start g i };

    ghost short_keys = { λ e r. refl };
}
