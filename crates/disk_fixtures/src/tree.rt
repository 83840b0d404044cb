//! Blocks of the trees of a group of an XFS volume.
ghost use Rattle.disk_fixtures.specs.Sums.{IsSummed};

use crate::xfs::resum;
use disk_base::put;

/// The identity of the volumes that mkfs.xfs made.
pub const IDENTITY: [u8; 16] = [
    1, 35, 69, 103, 137, 171, 205, 239, 1, 35, 69, 103, 137, 171, 205, 239,
];

/// A block of a tree of free space, with two records or keys, and two pointers where it is a node.
#[derive(Clone, Copy, Debug, PartialEq, Eq)]
pub struct TreeBlock {
    pub magic: [u8; 4],
    pub level: u16,
    /// How many records or keys it says that it has.
    pub count: u16,
    /// The group, which owns it, and its number in the volume.
    pub group: u32,
    pub at: u64,
    /// Start and count of each record or key.
    pub items: [(u32, u32); 2],
    pub pointers: [u32; 2],
}

impl TreeBlock {
    /// The bytes of the block, with its checksum.
    pub fn bytes(&self) -> [u8; 4096]
        ensures { IsSummed 52 result }
    {
        let mut out = [0; 4096];
        put(&mut out, 0, &self.magic);
        put(&mut out, 4, &self.level.to_be_bytes());
        put(&mut out, 6, &self.count.to_be_bytes());
        put(&mut out, 16, &self.at.wrapping_mul(8).to_be_bytes());
        put(&mut out, 32, &IDENTITY);
        put(&mut out, 48, &self.group.to_be_bytes());
        let [first, second] = self.items;
        put(&mut out, 56, &first.0.to_be_bytes());
        put(&mut out, 60, &first.1.to_be_bytes());
        put(&mut out, 64, &second.0.to_be_bytes());
        put(&mut out, 68, &second.1.to_be_bytes());
        if self.level > 0 {
            let [left, right] = self.pointers;
            put(&mut out, 2744, &left.to_be_bytes());
            put(&mut out, 2748, &right.to_be_bytes());
        }
        resum(&mut out, 52);
        out
    }
}
