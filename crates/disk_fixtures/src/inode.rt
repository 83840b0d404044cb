//! Inodes, as they are stored.
ghost use Rattle.disk_fixtures.specs.Sums.{IsSummed};

use crate::built::put_some;
use crate::tree::IDENTITY;
use crate::xfs::resum;
use disk_base::put;

/// An inode of 512 bytes, which counts its extents in the wide fields. The times are those of no file.
#[derive(Clone, Copy, Debug, PartialEq, Eq)]
pub struct StoredInode {
    pub ino: u64,
    pub mode: u16,
    pub nlink: u32,
    /// Of the data fork: 0 has a device's number, 1 local bytes, 2 a list of extents, 3 the root of their tree.
    pub format: u8,
    pub size: u64,
    pub nblocks: u64,
    pub extents: u64,
    /// How many units of 8 bytes the data fork has; 0 where there is no attribute fork.
    pub forkoff: u8,
    pub aformat: u8,
    pub attribute_extents: u32,
}

impl StoredInode {
    /// An inode that is free.
    pub fn free(ino: u64) -> StoredInode {
        StoredInode {
            ino,
            mode: 0,
            nlink: 0,
            format: 0,
            size: 0,
            nblocks: 0,
            extents: 0,
            forkoff: 0,
            aformat: 0,
            attribute_extents: 0,
        }
    }

    /// A file of that kind and permissions, with an empty list of extents.
    pub fn empty(ino: u64, mode: u16) -> StoredInode {
        let mut made = StoredInode::free(ino);
        made.mode = mode;
        made.nlink = 1;
        made.format = 2;
        made.aformat = 2;
        made
    }

    // The core, without its checksum.
    fn core(&self) -> [u8; 176] {
        let mut out = [0; 176];
        put(&mut out, 0, b"IN");
        put(&mut out, 2, &self.mode.to_be_bytes());
        put(&mut out, 4, &[3, self.format]);
        put(&mut out, 16, &self.nlink.to_be_bytes());
        put(&mut out, 24, &self.extents.to_be_bytes());
        put(&mut out, 56, &self.size.to_be_bytes());
        put(&mut out, 64, &self.nblocks.to_be_bytes());
        put(&mut out, 76, &self.attribute_extents.to_be_bytes());
        put(&mut out, 82, &[self.forkoff, self.aformat]);
        put(&mut out, 96, &[255; 4]);
        put(&mut out, 127, &[0x18]);
        put(&mut out, 152, &self.ino.to_be_bytes());
        put(&mut out, 160, &IDENTITY);
        out
    }

    /// The bytes of the inode, with its checksum and what stands in its forks.
    pub fn bytes(&self, contents: &[u8], attributes: &[u8]) -> [u8; 512]
        ensures { IsSummed 100 result }
    {
        let mut out = [0; 512];
        put(&mut out, 0, &self.core());
        put_some(&mut out, 176, contents);
        if self.forkoff > 0 {
            put_some(&mut out, 176 + 8 * usize::from(self.forkoff), attributes);
        }
        resum(&mut out, 100);
        out
    }
}
