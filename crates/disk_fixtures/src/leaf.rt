//! Leaves of the trees of a group, which are whole trees.
ghost use Rattle.disk_fixtures.specs.Sums.{IsSummed};

use crate::built::put_some;
use crate::tree::IDENTITY;
use crate::xfs::resum;
use disk_base::put;

/// A chunk of 64 inodes, as a volume stores it whose chunks may have holes.
#[derive(Clone, Copy, Debug, PartialEq, Eq)]
pub struct StoredChunk {
    pub start: u32,
    pub holemask: u16,
    pub count: u8,
    pub freecount: u8,
    pub free: u64,
}

impl StoredChunk {
    /// The bytes of the chunk.
    pub fn bytes(&self) -> [u8; 16] {
        let mut out = [0; 16];
        put(&mut out, 0, &self.start.to_be_bytes());
        put(&mut out, 4, &self.holemask.to_be_bytes());
        put(&mut out, 6, &[self.count, self.freecount]);
        put(&mut out, 8, &self.free.to_be_bytes());
        out
    }
}

/// A leaf of a tree of a group, which has no other blocks.
#[derive(Clone, Copy, Debug, PartialEq, Eq)]
pub struct GroupLeaf {
    pub magic: [u8; 4],
    pub group: u32,
    /// Its number in the volume.
    pub at: u32,
    pub count: u16,
}

impl GroupLeaf {
    /// The bytes of the leaf, with its checksum, where these are its records.
    pub fn bytes(&self, records: &[u8]) -> [u8; 4096]
        ensures { IsSummed 52 result }
    {
        let mut out = [0; 4096];
        put(&mut out, 0, &self.magic);
        put(&mut out, 6, &self.count.to_be_bytes());
        put(&mut out, 8, &[255; 8]);
        put(&mut out, 16, &(8 * u64::from(self.at)).to_be_bytes());
        put(&mut out, 32, &IDENTITY);
        put(&mut out, 48, &self.group.to_be_bytes());
        put_some(&mut out, 56, records);
        resum(&mut out, 52);
        out
    }
}
