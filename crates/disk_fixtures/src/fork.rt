//! What stands in the forks of inodes.
ghost use Rattle.disk_fixtures.specs.Sums.{IsSummed};

use crate::built::put_some;
use crate::directory::name_hash;
use crate::tree::IDENTITY;
use crate::xfs::resum;
use disk_base::put;

/// An extent of a file, as it is stored.
#[derive(Clone, Copy, Debug, PartialEq, Eq)]
pub struct StoredExtent {
    pub unwritten: bool,
    /// The first block of the file.
    pub file: u64,
    /// The block number of the first block.
    pub block: u64,
    pub count: u32,
}

impl StoredExtent {
    /// The bytes of the extent: 1 bit, 54, 52 and 21 of its fields.
    pub fn bytes(&self) -> [u8; 16] {
        let flag = if self.unwritten { 1u64 } else { 0 };
        let high = flag << 63 | self.file << 9 | self.block >> 43;
        let low = self.block << 21 | u64::from(self.count);
        let mut out = [0; 16];
        put(&mut out, 0, &high.to_be_bytes());
        put(&mut out, 8, &low.to_be_bytes());
        out
    }
}

/// A fork that lists extents, of which it has room for 21.
pub fn listed(extents: &[StoredExtent]) -> [u8; 336] {
    let mut out = [0; 336];
    for (place, extent) in extents.iter().enumerate() {
        put_some(&mut out, place.saturating_mul(16), &extent.bytes());
    }
    out
}

/// A fork of 48 bytes with the root of a tree of two levels or more: the first block of the file and the block
/// number of each of two blocks below it, of which it has room for no more.
pub fn rooted(level: u16, below: [(u64, u64); 2]) -> [u8; 48] {
    let mut out = [0; 48];
    let [(left, left_block), (right, right_block)] = below;
    put(&mut out, 0, &level.to_be_bytes());
    put(&mut out, 2, &[0, 2]);
    put(&mut out, 4, &left.to_be_bytes());
    put(&mut out, 12, &right.to_be_bytes());
    put(&mut out, 20, &left_block.to_be_bytes());
    put(&mut out, 28, &right_block.to_be_bytes());
    out
}

/// A leaf of the tree of the extents of an inode, which has up to four.
#[derive(Clone, Copy, Debug, PartialEq, Eq)]
pub struct ExtentLeaf {
    pub ino: u64,
    /// Its number in the volume.
    pub at: u64,
    /// The block numbers of the leaves beside it.
    pub left: u64,
    pub right: u64,
}

impl ExtentLeaf {
    /// The bytes of the leaf, with its checksum.
    pub fn bytes(&self, extents: &[StoredExtent]) -> [u8; 4096]
        ensures { IsSummed 64 result }
    {
        let mut out = [0; 4096];
        put(&mut out, 0, b"BMA3");
        put(&mut out, 7, &[(extents.len() % 256) as u8]);
        put(&mut out, 8, &self.left.to_be_bytes());
        put(&mut out, 16, &self.right.to_be_bytes());
        put(&mut out, 24, &self.at.wrapping_mul(8).to_be_bytes());
        put(&mut out, 40, &IDENTITY);
        put(&mut out, 56, &self.ino.to_be_bytes());
        put(&mut out, 72, &listed(extents));
        resum(&mut out, 64);
        out
    }
}

/// A block with the target of the link that an inode is, with its checksum.
pub fn target_block(ino: u64, at: u64, target: &[u8]) -> [u8; 4096]
    ensures { IsSummed 12 result }
{
    let mut out = [0; 4096];
    put(&mut out, 0, b"XSLM");
    put(&mut out, 8, &((target.len() % 4096) as u32).to_be_bytes());
    put(&mut out, 16, &IDENTITY);
    put(&mut out, 32, &ino.to_be_bytes());
    put(&mut out, 40, &at.wrapping_mul(8).to_be_bytes());
    put_some(&mut out, 56, target);
    resum(&mut out, 12);
    out
}

/// The single block of the attributes of an inode, with one of few bytes, and with its checksum.
pub fn attribute_block(ino: u64, at: u64, attribute: &StoredAttribute<'_>) -> [u8; 4096]
    ensures { IsSummed 12 result }
{
    let mut out = [0; 4096];
    put(&mut out, 8, &[0x3B, 0xEE]);
    put(&mut out, 16, &at.wrapping_mul(8).to_be_bytes());
    put(&mut out, 32, &IDENTITY);
    put(&mut out, 48, &ino.to_be_bytes());
    put(&mut out, 56, &attribute.header());
    put(&mut out, 80, &name_hash(attribute.name).to_be_bytes());
    put(&mut out, 84, &attribute.place().to_be_bytes());
    // Its value stands beside its name.
    put(&mut out, 86, &[1]);
    put_some(&mut out, usize::from(attribute.place()), &attribute.head());
    let behind = usize::from(attribute.place()).saturating_add(3);
    put_some(&mut out, behind, attribute.name);
    put_some(
        &mut out,
        behind.saturating_add(attribute.name.len()),
        attribute.value,
    );
    resum(&mut out, 12);
    out
}

/// An attribute of a file.
#[derive(Clone, Copy, Debug)]
pub struct StoredAttribute<'a> {
    pub name: &'a [u8],
    pub value: &'a [u8],
}

impl StoredAttribute<'_> {
    // How many bytes it has, in units of 4.
    fn len(&self) -> u16 {
        ((self.name.len() % 256 + self.value.len() % 256 + 6) / 4 * 4) as u16
    }

    // It stands at the end of its block.
    fn place(&self) -> u16 {
        4096u16.saturating_sub(self.len())
    }

    // The lengths of its value and its name.
    fn head(&self) -> [u8; 3] {
        [
            0,
            (self.value.len() % 256) as u8,
            (self.name.len() % 256) as u8,
        ]
    }

    // How many attributes the block has, how many bytes they take and from where on, and what is free between them
    // and their list.
    fn header(&self) -> [u8; 12] {
        let mut out = [0; 12];
        put(&mut out, 0, &[0, 1]);
        put(&mut out, 2, &self.len().to_be_bytes());
        put(&mut out, 4, &self.place().to_be_bytes());
        put(&mut out, 8, &88u16.to_be_bytes());
        put(&mut out, 10, &self.place().saturating_sub(88).to_be_bytes());
        out
    }
}
