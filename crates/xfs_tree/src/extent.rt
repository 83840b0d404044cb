//! Extents of a file, as its tree holds them.
ghost use Rattle.std.specs.Prelude.{◌≡◌, ℕ, ◌+◌, ◌/◌, ◌%◌, ◌^◌, ◌≤◌, ◌<◌};
ghost use Rattle.xfs_super.specs.Super.{geometry_of};
ghost use Rattle.xfs_tree.specs.Records.{lies_in_group};

use crate::record::Record;
use byteorder::{BigEndian, ByteOrder};
use disk_base::big_u64;
use xfs_super::Super;

/// A run of blocks of a file, the record of a tree of extents (XFS Algorithms & Data Structures, 'Data
/// Extents'): from block `file` of the file on stand `count` blocks of the volume, whose first one `block` names,
/// with the group in its upper bits. An unwritten one reads as zero.
#[derive(Clone, Copy, Debug, PartialEq, Eq)]
pub struct Extent {
    pub unwritten: bool,
    pub file: u64,
    pub block: u64,
    pub count: u32,
}

/// Whether blocks lie in one group of the volume.
fn lies_in_group(geo: &Super, group: u64, block: u64, count: u32) -> bool
    requires { block < 2 ^ 63 }
    ensures { result ≡ lies_in_group (geometry_of geo.now) group block count }
{
    if group >= u64::from(geo.agcount) {
        return false;
    }
    block + u64::from(count) <= u64::from(geo.group_len(group as u32))
}

/// The group that a block number names, and the block in it.
pub(crate) fn parted(geo: &Super, number: u64) -> (u64, u64)
    ensures group { result.0 ≡ number / 2 ^ geo.now.agblklog }
    ensures block { result.1 ≡ number % 2 ^ geo.now.agblklog }
    ensures small { result.1 < 2 ^ 63 }
{
    let group = number >> geo.agblklog;
    (group, number - (group << geo.agblklog))
}

impl Record for Extent {
    ghost use Rattle.std.specs.Prelude.{codes, true};
    ghost use Rattle.std.proofs.Common.{refl, lit≤};
    ghost use Rattle.xfs_tree.specs.Records.{by_file};
    ghost use Rattle.xfs_tree.specs.inside.RecordLaws.{extent_length, extent_back, extent_strict, extent_on, extent_keys, extent_grows, extent_never_short};

    const SIZE: usize = 16;

    const KEY: usize = 8;

    const MAGIC: [u8; 4] = *b"BMA3";

    const LONG: bool = true;

    ghost SIZE = { 16 };

    ghost KEY = { 8 };

    ghost MAGIC = { codes "BMA3" };

    ghost LONG = { true };

    ghost form = { by_file };

    fn read(bytes: &[u8]) -> Extent {
        let high = big_u64(bytes, 0);
        let low = big_u64(bytes, 8);
        Extent {
            unwritten: 0x8000_0000_0000_0000 <= high,
            file: high % 0x8000_0000_0000_0000 / 0x200,
            block: high % 0x200 * 0x800_0000_0000 + low / 0x20_0000,
            count: (low % 0x20_0000) as u32,
        }
    }

    fn put(&self, out: &mut [u8]) {
        let flag = if self.unwritten {
            0x8000_0000_0000_0000
        } else {
            0
        };
        BigEndian::write_u64(
            out,
            flag + (self.file * 0x200 + self.block / 0x800_0000_0000),
        );
        BigEndian::write_u64(
            &mut out[8..],
            self.block % 0x800_0000_0000 * 0x20_0000 + (self.count as u64),
        );
    }

    fn fits(&self) -> bool {
        self.file < 0x40_0000_0000_0000
            && (self.block < 0x10_0000_0000_0000 && self.count < 0x20_0000)
    }

    fn before(&self, other: &Extent) -> bool {
        self.file < other.file && (self.count as u64) <= other.file - self.file
    }

    fn inside(&self, geo: &Super, _group: u32) -> bool {
        let (group, block) = parted(geo, self.block);
        lies_in_group(geo, group, block, self.count)
    }

    fn key_before(a: &[u8], b: &[u8]) -> bool {
        big_u64(a, 0) < big_u64(b, 0)
    }

    ghost size_is = { refl };

    ghost key_is = { refl };

    ghost magic_is = { refl };

    ghost long_is = { refl };

    ghost sizes = { (lit≤ tt, lit≤ tt) };

    ghost key_sizes = { (lit≤ tt, lit≤ tt) };

    ghost length_bytes = { λ r. extent_length r };

    ghost reads_back = { λ r f. extent_back r f };

    ghost never_before_itself = { λ r f. extent_strict r };

    ghost before_on = { λ r s t a b c p q. extent_on r s t p q };

    ghost keys_follow = { λ r s a b p. extent_keys r s a b p };

    ghost inside_grows = { λ geo grown group r g i. extent_grows geo grown r g i };

    ghost short_keys = { λ e r. absurd (extent_never_short e) };
}
