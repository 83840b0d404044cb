//! Runs of free blocks: the records of the two trees of free space.
ghost use Rattle.std.specs.Prelude.{◌≡◌, ◌+◌, ◌<◌, ◌≤◌, length};
ghost use Rattle.xfs_tree.specs.Records.{are_short};

use crate::record::Record;
use byteorder::{BigEndian, ByteOrder};
use disk_base::big_u32;
use xfs_super::Super;

/// A run of free blocks, in the tree by start.
#[derive(Clone, Copy, Debug, PartialEq, Eq)]
pub struct ByStart {
    pub start: u32,
    pub count: u32,
}

/// A run of free blocks, in the tree by count.
#[derive(Clone, Copy, Debug, PartialEq, Eq)]
pub struct ByCount {
    pub start: u32,
    pub count: u32,
}

/// Whether two numbers fit 4 bytes each, as any do.
fn are_short(_start: u32, _count: u32) -> bool
    ensures { result ≡ are_short _start _count }
{
    true
}

impl Record for ByStart {
    ghost use Rattle.std.specs.Prelude.{codes, false};
    ghost use Rattle.std.proofs.Common.{refl, lit≤};
    ghost use Rattle.xfs_tree.specs.Records.{by_start};
    ghost use Rattle.xfs_tree.specs.inside.RecordLaws.{two_length, by_start_back, by_start_strict, by_start_on, by_start_keys, run_grows};

    const SIZE: usize = 8;

    const KEY: usize = 8;

    const MAGIC: [u8; 4] = *b"AB3B";

    const LONG: bool = false;

    ghost SIZE = { 8 };

    ghost KEY = { 8 };

    ghost MAGIC = { codes "AB3B" };

    ghost LONG = { false };

    ghost form = { by_start };

    fn read(bytes: &[u8]) -> ByStart {
        ByStart {
            start: big_u32(bytes, 0),
            count: big_u32(bytes, 4),
        }
    }

    fn put(&self, out: &mut [u8]) {
        BigEndian::write_u32(out, self.start);
        BigEndian::write_u32(&mut out[4..], self.count);
    }

    fn fits(&self) -> bool {
        are_short(self.start, self.count)
    }

    fn before(&self, other: &ByStart) -> bool {
        u64::from(self.start) + u64::from(self.count) < u64::from(other.start)
    }

    fn inside(&self, geo: &Super, group: u32) -> bool {
        u64::from(self.start) + u64::from(self.count) <= u64::from(geo.group_len(group))
    }

    fn key_before(a: &[u8], b: &[u8]) -> bool {
        big_u32(a, 0) < big_u32(b, 0)
    }

    ghost size_is = { refl };

    ghost key_is = { refl };

    ghost magic_is = { refl };

    ghost long_is = { refl };

    ghost sizes = { (lit≤ tt, lit≤ tt) };

    ghost key_sizes = { (lit≤ tt, lit≤ tt) };

    ghost length_bytes = { λ r. two_length r.start r.count };

    ghost reads_back = { λ r f. by_start_back r f };

    ghost never_before_itself = { λ r f. by_start_strict r };

    ghost before_on = { λ r s t a b c p q. by_start_on r s t p q };

    ghost keys_follow = { λ r s a b p. by_start_keys r s a b p };

    ghost inside_grows = { λ geo grown group r g i. run_grows geo grown group r.start r.count g i };

    ghost short_keys = { λ e r. refl };
}

impl Record for ByCount {
    ghost use Rattle.std.specs.Prelude.{codes, false};
    ghost use Rattle.std.proofs.Common.{refl, lit≤};
    ghost use Rattle.xfs_tree.specs.Records.{by_count};
    ghost use Rattle.xfs_tree.specs.inside.RecordLaws.{two_length, by_count_back, by_count_strict, by_count_on, by_count_keys, run_grows};

    const SIZE: usize = 8;

    const KEY: usize = 8;

    const MAGIC: [u8; 4] = *b"AB3C";

    const LONG: bool = false;

    ghost SIZE = { 8 };

    ghost KEY = { 8 };

    ghost MAGIC = { codes "AB3C" };

    ghost LONG = { false };

    ghost form = { by_count };

    fn read(bytes: &[u8]) -> ByCount {
        ByCount {
            start: big_u32(bytes, 0),
            count: big_u32(bytes, 4),
        }
    }

    fn put(&self, out: &mut [u8]) {
        BigEndian::write_u32(out, self.start);
        BigEndian::write_u32(&mut out[4..], self.count);
    }

    fn fits(&self) -> bool {
        are_short(self.start, self.count)
    }

    fn before(&self, other: &ByCount) -> bool {
        (self.count, self.start) < (other.count, other.start)
    }

    fn inside(&self, geo: &Super, group: u32) -> bool {
        u64::from(self.start) + u64::from(self.count) <= u64::from(geo.group_len(group))
    }

    fn key_before(a: &[u8], b: &[u8]) -> bool {
        (big_u32(a, 4), big_u32(a, 0)) < (big_u32(b, 4), big_u32(b, 0))
    }

    ghost size_is = { refl };

    ghost key_is = { refl };

    ghost magic_is = { refl };

    ghost long_is = { refl };

    ghost sizes = { (lit≤ tt, lit≤ tt) };

    ghost key_sizes = { (lit≤ tt, lit≤ tt) };

    ghost length_bytes = { λ r. two_length r.start r.count };

    ghost reads_back = { λ r f. by_count_back r f };

    ghost never_before_itself = { λ r f. by_count_strict r };

    ghost before_on = { λ r s t a b c p q. by_count_on r s t p q };

    ghost keys_follow = { λ r s a b p. by_count_keys r s a b p };

    ghost inside_grows = { λ geo grown group r g i. run_grows geo grown group r.start r.count g i };

    ghost short_keys = { λ e r. refl };
}
