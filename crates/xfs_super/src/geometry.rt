//! Where the groups of a volume and their blocks lie.
ghost use Rattle.std.specs.Prelude.{◌≡◌, ◌<◌, ◌≤◌, ◌^◌};
ghost use Rattle.xfs_super.specs.Geometry.{AreGroups, AreSizes, IsLogPlace, blocks_in_group};

/// What the superblock of a volume says of it. It agrees with itself: the groups are those that the blocks
/// ask for, the sizes are served, and the log lies in one group.
#[derive(Clone, Copy, Debug, PartialEq, Eq)]
pub struct Super {
    /// How many blocks of 4096 bytes the volume has.
    pub dblocks: u64,
    pub uuid: [u8; 16],
    /// The identity that each part of the metadata names.
    pub meta: [u8; 16],
    pub label: [u8; 12],
    /// The block number of the log, which has `logblocks` blocks.
    pub logstart: u64,
    pub logblocks: u32,
    /// The number of the root directory's inode.
    pub rootino: u64,
    /// How many blocks each group but the last has.
    pub agblocks: u32,
    pub agcount: u32,
    /// How many bits of a block number name the block in its group.
    pub agblklog: u8,
    /// How many bytes a sector of the file system has: 512 or 4096.
    pub sectsize: u32,
    /// How many bytes an inode has: 512, 1024 or 2048.
    pub inodesize: u32,
    /// A block has `2^inopblog` inodes.
    pub inopblog: u8,
    /// Whether each group has a tree of the inodes that are free.
    pub finobt: bool,
    /// Whether chunks of inodes may have holes.
    pub sparse: bool,
    /// Whether times may count nanoseconds.
    pub bigtime: bool,
    /// Whether each group counts the blocks of its trees of inodes.
    pub inobtcount: bool,
    /// Whether inodes may count their extents in wider fields.
    pub nrext64: bool,
    pub ghost groups: { AreGroups dblocks agblocks agcount agblklog },
    pub ghost sizes: { AreSizes sectsize inodesize inopblog },
    pub ghost log: { IsLogPlace logstart logblocks dblocks agblocks agcount agblklog },
}

/// How many blocks a group has, of groups of that many blocks.
pub(crate) fn blocks_in_group(dblocks: u64, agblocks: u32, group: u32) -> u32
    requires { agblocks ≤ 2 ^ 28 }
    ensures { result ≡ blocks_in_group dblocks agblocks group }
{
    let before = u64::from(group) * u64::from(agblocks);
    u64::from(agblocks).min(dblocks.saturating_sub(before)) as u32
}

impl Super {
    ghost use Rattle.std.specs.Prelude.{◌≡◌, ◌<◌};
    ghost use Rattle.xfs_super.specs.Geometry.{group_len, sector_of};
    ghost use Rattle.xfs_super.specs.Super.{geometry_of};

    /// How many blocks a group has.
    pub fn group_len(&self, group: u32) -> u32
        requires { group < self.now.agcount }
        ensures { result ≡ group_len (geometry_of self.now) group }
    {
        blocks_in_group(self.dblocks, self.agblocks, group)
    }

    /// The sector of 512 bytes of the volume at which a block of a group begins.
    pub fn sector_of(&self, group: u32, block: u32) -> u64
        requires { group < self.now.agcount }
        ensures { result ≡ sector_of (geometry_of self.now) group block }
    {
        8 * (u64::from(group) * u64::from(self.agblocks) + u64::from(block))
    }
}
