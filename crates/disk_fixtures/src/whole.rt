//! A whole small volume: a root directory, and a file of each kind.
//!
//! It has four groups of 64 blocks, so that the number of an inode is its place in the volume, in units of 512 bytes,
//! and the number of a block its place. xfs_repair 6.1.0 finds no fault of it but that volume and groups are small.

use crate::built::Built;
use crate::directory::{StoredEntry, entry_block, short_form};
use crate::fork::{
    ExtentLeaf, StoredAttribute, StoredExtent, attribute_block, listed, rooted, target_block,
};
use crate::inode::StoredInode;
use crate::leaf::{GroupLeaf, StoredChunk};
use crate::xfs::Volume;
use std::alloc::{AllocError, Global};

/// The sizes of the volume.
pub const SIZES: Volume = Volume {
    large: false,
    dblocks: 256,
    agblocks: 64,
    agcount: 4,
    agblklog: 6,
    logstart: 148,
    logblocks: 8,
};

/// The root directory.
pub const ROOT: u64 = 128;
/// A file of 40000 bytes whose inode lists three extents: blocks 24 and 25 are the first ones of the file, its
/// blocks 5 and 6 aren't written, and block 28 is its block 9.
pub const FILE: u64 = 131;
/// A file of 421883 bytes whose inode has the root of a tree, with the leaves 70 and 200: block 90 is the first one
/// of the file, blocks 91 and 92 are its blocks 3 and 4, its blocks 8 and 9 aren't written, block 210 is its block
/// 12, and blocks 212 to 214 are its blocks 100 to 102.
pub const TREE: u64 = 132;
/// A link whose target, `near/by`, stands in the inode.
pub const NEAR_LINK: u64 = 133;
/// A link whose target, 600 times `x`, stands in block 30.
pub const FAR_LINK: u64 = 134;
/// A device of characters, with the numbers 5 and 1.
pub const DEVICE: u64 = 135;

pub const PIPE: u64 = 136;
/// A directory, whose entries stand in block 7.
pub const DIRECTORY: u64 = 137;
/// An empty file with an attribute, which stands in block 31.
pub const NOTED: u64 = 138;
/// An empty file in the second group.
pub const AWAY: u64 = 640;

static ROOT_ENTRIES: [StoredEntry<'static>; 8] = [
    StoredEntry {
        name: b"file",
        ino: FILE,
        ftype: 1,
    },
    StoredEntry {
        name: b"tree",
        ino: TREE,
        ftype: 1,
    },
    StoredEntry {
        name: b"near",
        ino: NEAR_LINK,
        ftype: 7,
    },
    StoredEntry {
        name: b"far",
        ino: FAR_LINK,
        ftype: 7,
    },
    StoredEntry {
        name: b"device",
        ino: DEVICE,
        ftype: 3,
    },
    StoredEntry {
        name: b"pipe",
        ino: PIPE,
        ftype: 5,
    },
    StoredEntry {
        name: b"directory",
        ino: DIRECTORY,
        ftype: 2,
    },
    StoredEntry {
        name: b"noted",
        ino: NOTED,
        ftype: 1,
    },
];

static DIRECTORY_ENTRIES: [StoredEntry<'static>; 3] = [
    StoredEntry {
        name: b".",
        ino: DIRECTORY,
        ftype: 2,
    },
    StoredEntry {
        name: b"..",
        ino: ROOT,
        ftype: 2,
    },
    StoredEntry {
        name: b"away",
        ino: AWAY,
        ftype: 1,
    },
];

/// The byte at place `at` of a block with contents of a file. It isn't 0.
pub fn data_byte(block: u32, at: usize) -> u8 {
    ((7 * (block as usize % 251) + 13 * (at % 4096) + at % 4096 / 256) % 255 + 1) as u8
}

// A block with contents of a file.
fn data_block(block: u32) -> [u8; 4096] {
    let mut out = [0; 4096];
    for (at, byte) in out.iter_mut().enumerate() {
        *byte = data_byte(block, at);
    }
    out
}

fn extent(file: u64, block: u64, count: u32) -> StoredExtent {
    StoredExtent {
        unwritten: false,
        file,
        block,
        count,
    }
}

fn unwritten(file: u64, block: u64, count: u32) -> StoredExtent {
    StoredExtent {
        unwritten: true,
        file,
        block,
        count,
    }
}

impl Built {
    /// Puts an inode at its place.
    fn put_inode(&mut self, inode: &StoredInode, contents: &[u8], attributes: &[u8]) {
        let bytes = inode.bytes(contents, attributes);
        self.put(512 * (inode.ino % 2048) as usize, &bytes);
    }

    /// Changes bytes of an inode of the whole volume, and makes its checksum right.
    pub fn change_inode(&mut self, ino: u64, at: usize, bytes: &[u8]) {
        let from = 512 * (ino % 2048) as usize;
        self.put(from + at % 512, bytes);
        self.resum(from, 512, 100);
    }

    /// Changes bytes of a block, and makes the checksum right that it holds at byte `sum`.
    pub fn change_block(&mut self, block: u32, at: usize, bytes: &[u8], sum: usize) {
        self.put(4096 * block as usize + at % 4096, bytes);
        self.resum_block(block, sum);
    }

    // The chunk of the first group, of whose inodes 11 are in use.
    fn put_full_chunk(&mut self) {
        let chunk = StoredChunk {
            start: 128,
            holemask: 0,
            count: 64,
            freecount: 53,
            free: 0xFFFF_FFFF_FFFF_F800,
        };
        self.put_chunk(0, 3, &chunk);
        for ino in 128..192 {
            self.put_inode(&StoredInode::free(ino), &[], &[]);
        }
    }

    // The chunk of the second group, of which the lower half is there, and one inode is in use.
    fn put_sparse_chunk(&mut self) {
        let chunk = StoredChunk {
            start: 128,
            holemask: 0xFF00,
            count: 32,
            freecount: 31,
            free: 0xFFFF_FFFF_FFFF_FFFE,
        };
        self.put_chunk(1, 67, &chunk);
        for ino in 640..672 {
            self.put_inode(&StoredInode::free(ino), &[], &[]);
        }
    }

    // The trees of a group that has one chunk; the one of all chunks is that block, and the one of those with free
    // inodes the next.
    fn put_chunk(&mut self, group: u32, at: u32, chunk: &StoredChunk) {
        let all = GroupLeaf {
            magic: *b"IAB3",
            group,
            at,
            count: 1,
        };
        let free = GroupLeaf {
            magic: *b"FIB3",
            group,
            at: at.saturating_add(1),
            count: 1,
        };
        self.put_block(all.at, &all.bytes(&chunk.bytes()));
        self.put_block(free.at, &free.bytes(&chunk.bytes()));
    }

    fn put_data(&mut self, first: u32, end: u32) {
        for block in first..end {
            self.put_block(block, &data_block(block));
        }
    }

    // The file whose inode lists its extents.
    fn put_file(&mut self) {
        let mut inode = StoredInode::empty(FILE, 0o100644);
        inode.size = 40000;
        inode.nblocks = 5;
        inode.extents = 3;
        let extents = [extent(0, 24, 2), unwritten(5, 26, 2), extent(9, 28, 1)];
        self.put_inode(&inode, &listed(&extents), &[]);
        self.put_data(24, 29);
    }

    // The file with a tree.
    fn put_tree(&mut self) {
        let mut inode = StoredInode::empty(TREE, 0o100644);
        inode.format = 3;
        inode.size = 421883;
        inode.nblocks = 11;
        inode.extents = 5;
        inode.forkoff = 6;
        self.put_inode(&inode, &rooted(1, [(0, 70), (8, 200)]), &[]);
        let left = ExtentLeaf {
            ino: TREE,
            at: 70,
            left: u64::MAX,
            right: 200,
        };
        let right = ExtentLeaf {
            ino: TREE,
            at: 200,
            left: 70,
            right: u64::MAX,
        };
        self.put_block(70, &left.bytes(&[extent(0, 90, 1), extent(3, 91, 2)]));
        let late = [
            unwritten(8, 160, 2),
            extent(12, 210, 1),
            extent(100, 212, 3),
        ];
        self.put_block(200, &right.bytes(&late));
        self.put_data(90, 93);
        self.put_data(160, 162);
        self.put_data(210, 211);
        self.put_data(212, 215);
    }

    // The two links.
    fn put_links(&mut self) {
        let mut near = StoredInode::empty(NEAR_LINK, 0o120777);
        near.format = 1;
        near.size = 7;
        self.put_inode(&near, b"near/by", &[]);
        let mut far = StoredInode::empty(FAR_LINK, 0o120777);
        far.size = 600;
        far.nblocks = 1;
        far.extents = 1;
        self.put_inode(&far, &listed(&[extent(0, 30, 1)]), &[]);
        self.put_block(30, &target_block(FAR_LINK, 30, &[b'x'; 600]));
    }

    // The files that need no block for their contents.
    fn put_small_files(&mut self) {
        for ino in [129, 130, AWAY] {
            self.put_inode(&StoredInode::empty(ino, 0o100644), &[], &[]);
        }
        let mut device = StoredInode::empty(DEVICE, 0o020600);
        device.format = 0;
        self.put_inode(&device, &[0, 0x14, 0, 1], &[]);
        let mut pipe = StoredInode::empty(PIPE, 0o010600);
        pipe.format = 0;
        self.put_inode(&pipe, &[], &[]);
        let mut noted = StoredInode::empty(NOTED, 0o100644);
        noted.nblocks = 1;
        noted.forkoff = 24;
        noted.attribute_extents = 1;
        self.put_inode(&noted, &[], &extent(0, 31, 1).bytes());
        let attribute = StoredAttribute {
            name: b"note",
            value: b"kept",
        };
        self.put_block(31, &attribute_block(NOTED, 31, &attribute));
    }

    // The two directories.
    fn put_directories(&mut self) {
        let (bytes, len) = short_form(128, &ROOT_ENTRIES);
        let mut root = StoredInode::empty(ROOT, 0o040755);
        root.format = 1;
        root.nlink = 3;
        root.size = len as u64;
        self.put_inode(&root, &bytes, &[]);
        let mut inode = StoredInode::empty(DIRECTORY, 0o040755);
        inode.nlink = 2;
        inode.size = 4096;
        inode.nblocks = 1;
        inode.extents = 1;
        self.put_inode(&inode, &listed(&[extent(0, 7, 1)]), &[]);
        self.put_block(7, &entry_block(DIRECTORY, 7, &DIRECTORY_ENTRIES));
    }

    /// The whole volume.
    pub fn whole(alloc: Global) -> Result<Built, AllocError> {
        let mut built = Built::new(alloc, 256)?;
        built.put_space();
        built.put_full_chunk();
        built.put_sparse_chunk();
        built.put_file();
        built.put_tree();
        built.put_links();
        built.put_small_files();
        built.put_directories();
        Ok(built)
    }
}
