//! The headers of the groups of the whole small volume, their free space, and the log.
ghost use Rattle.std.specs.Prelude.{◌≤◌};

use crate::built::{Built, put_some};
use crate::leaf::GroupLeaf;
use crate::mkfs::{UNMOUNT, UNMOUNT_DATA};
use crate::whole::SIZES;
use crate::xfs::Header;
use disk_base::put;

/// The blocks in use of the whole small volume: the first one and how many, in their order.
pub const USED_RUNS: [(u32, u32); 15] = [
    // The headers, the trees, the list of free blocks and the entries of a directory.
    (0, 8),
    // The inodes.
    (16, 8),
    // Contents of files.
    (24, 5),
    (30, 2),
    (64, 5),
    // A leaf of a file's tree.
    (70, 1),
    // The inodes of the second group.
    (80, 4),
    (90, 3),
    (128, 5),
    // The log.
    (148, 8),
    (160, 2),
    (192, 5),
    // The other leaf.
    (200, 1),
    (210, 1),
    (212, 3),
];

fn is_used(block: u32) -> bool {
    USED_RUNS.iter().any(|(first, count)| *first <= block && block - *first < *count)
}

/// The free runs of a group: the first block in it and how many.
#[derive(Clone, Copy, Debug, PartialEq, Eq)]
pub(crate) struct FreeRuns {
    runs: [(u32, u32); 16],
    count: u32,
}

impl FreeRuns {
    fn push(&mut self, run: (u32, u32)) {
        let at = self.count as usize;
        if at < self.runs.len() {
            self.runs[at] = run;
            self.count = self.count.saturating_add(1);
        }
    }

    /// The blocks that nothing uses.
    pub(crate) fn of(group: u32) -> FreeRuns {
        let mut free = FreeRuns {
            runs: [(0, 0); 16],
            count: 0,
        };
        let mut open = 0u32;
        for block in 0..65u32 {
            if block < 64 && !is_used(64 * (group % 4) + block) {
                open = open.saturating_add(1);
            } else if open > 0 {
                free.push((block.saturating_sub(open), open));
                open = 0;
            }
        }
        free
    }

    // The runs of so many blocks behind those of others.
    fn push_equal(&mut self, other: &FreeRuns, blocks: u32) {
        for run in &other.runs {
            if run.1 == blocks {
                self.push(*run);
            }
        }
    }

    // The same runs by their counts.
    fn by_count(&self) -> FreeRuns {
        let mut sorted = FreeRuns {
            runs: [(0, 0); 16],
            count: 0,
        };
        for blocks in 1..65 {
            sorted.push_equal(self, blocks);
        }
        sorted
    }

    // How many blocks they have.
    fn total(&self) -> u32 {
        let mut total = 0u32;
        for run in &self.runs {
            total = total.saturating_add(run.1);
        }
        total
    }

    // How many the longest one has.
    fn longest(&self) -> u32 {
        let mut longest = 0;
        for run in &self.runs {
            longest = run.1.max(longest);
        }
        longest
    }

    // The records of a tree, and zeros behind them.
    fn records(&self) -> [u8; 128] {
        let mut out = [0; 128];
        for (place, run) in self.runs.iter().enumerate() {
            let at = place.saturating_mul(8);
            put_some(&mut out, at, &run.0.to_be_bytes());
            put_some(&mut out, at.saturating_add(4), &run.1.to_be_bytes());
        }
        out
    }
}

// What a group of the volume has: its inodes, free ones, the first of them, and entries in its list of free blocks.
#[derive(Clone, Copy)]
struct Numbers {
    inodes: u32,
    free_inodes: u32,
    first_inode: u32,
    listed: u32,
}

fn held_by(group: u32) -> Numbers {
    match group {
        0 => Numbers {
            inodes: 64,
            free_inodes: 53,
            first_inode: 128,
            listed: 2,
        },
        1 => Numbers {
            inodes: 32,
            free_inodes: 31,
            first_inode: 128,
            listed: 0,
        },
        _ => Numbers {
            inodes: 0,
            free_inodes: 0,
            first_inode: u32::MAX,
            listed: 0,
        },
    }
}

// In which sector of its group a header stands, and where it holds its checksum.
fn header_place(header: Header) -> (usize, usize)
    ensures { result.0 ≤ 3 }
{
    match header {
        Header::Superblock => (0, 224),
        Header::Agf => (1, 216),
        Header::Agi => (2, 312),
        Header::Agfl => (3, 32),
    }
}

// The first sector.
fn head(bytes: &[u8; 4096]) -> &[u8] {
    &bytes[..512]
}

impl Built {
    /// Changes bytes of a header of a group of the whole small volume, and makes its checksum right.
    pub fn change_header(&mut self, header: Header, group: u32, at: usize, bytes: &[u8]) {
        let (sector, sum) = header_place(header);
        let from = 512 * (512 * (group as usize % 4) + sector);
        self.put(from + at % 512, bytes);
        self.resum(from, 512, sum);
    }

    // Puts a header of a group as the sizes of the volume have it.
    fn put_header(&mut self, header: Header, group: u32) {
        let bytes = SIZES.header(header, group);
        self.change_header(header, group, 0, head(&bytes));
    }

    // The number of free blocks and the list of them.
    fn put_agf(&mut self, group: u32, free: &FreeRuns) {
        self.put_header(Header::Agf, group);
        let listed = held_by(group).listed;
        let (first, last) = if listed == 0 {
            (0u32, 118u32)
        } else {
            (1, listed)
        };
        let mut fields = [0; 20];
        put(&mut fields, 0, &first.to_be_bytes());
        put(&mut fields, 4, &last.to_be_bytes());
        put(&mut fields, 8, &listed.to_be_bytes());
        put(&mut fields, 12, &free.total().to_be_bytes());
        put(&mut fields, 16, &free.longest().to_be_bytes());
        self.change_header(Header::Agf, group, 40, &fields);
    }

    // The list has the blocks 5 and 6 where it has any.
    fn put_agfl(&mut self, group: u32) {
        self.put_header(Header::Agfl, group);
        let mut entries = [255; 16];
        if held_by(group).listed == 2 {
            put(&mut entries, 0, &5u32.to_be_bytes());
            put(&mut entries, 4, &6u32.to_be_bytes());
        }
        self.change_header(Header::Agfl, group, 40, &entries);
    }

    fn put_agi(&mut self, group: u32) {
        self.put_header(Header::Agi, group);
        let has = held_by(group);
        self.change_header(Header::Agi, group, 16, &has.inodes.to_be_bytes());
        let mut fields = [0; 8];
        put(&mut fields, 0, &has.free_inodes.to_be_bytes());
        put(&mut fields, 4, &has.first_inode.to_be_bytes());
        self.change_header(Header::Agi, group, 28, &fields);
    }

    // A tree of one leaf in block `number` of a group.
    fn put_leaf(&mut self, magic: [u8; 4], place: (u32, u32), count: u32, records: &[u8]) {
        let (group, number) = place;
        let leaf = GroupLeaf {
            magic,
            group,
            at: 64 * (group % 4) + number % 64,
            count: (count % 65536) as u16,
        };
        self.put_block(leaf.at, &leaf.bytes(records));
    }

    // The headers and the trees of a group; where it has no inodes, those of its inodes are empty.
    fn put_group(&mut self, group: u32) {
        let free = FreeRuns::of(group);
        self.put_header(Header::Superblock, group);
        self.put_agf(group, &free);
        self.put_agi(group);
        self.put_agfl(group);
        self.put_leaf(*b"AB3B", (group, 1), free.count, &free.records());
        self.put_leaf(*b"AB3C", (group, 2), free.count, &free.by_count().records());
        if held_by(group).inodes == 0 {
            self.put_leaf(*b"IAB3", (group, 3), 0, &[]);
            self.put_leaf(*b"FIB3", (group, 4), 0, &[]);
        }
    }

    // The sums of all groups: inodes, free ones, and free blocks, listed ones among them.
    fn put_sums(&mut self) {
        let mut sums = [0u64; 3];
        for group in 0..4 {
            let has = held_by(group);
            let blocks = FreeRuns::of(group).total().saturating_add(has.listed);
            let [inodes, free, space] = sums;
            sums = [
                inodes.saturating_add(u64::from(has.inodes)),
                free.saturating_add(u64::from(has.free_inodes)),
                space.saturating_add(u64::from(blocks)),
            ];
        }
        let [inodes, free, space] = sums;
        self.change_header(Header::Superblock, 0, 128, &inodes.to_be_bytes());
        self.change_header(Header::Superblock, 0, 136, &free.to_be_bytes());
        self.change_header(Header::Superblock, 0, 144, &space.to_be_bytes());
    }

    /// Puts the headers and the trees of all groups, and a log that an unmount ended.
    pub(crate) fn put_space(&mut self) {
        for group in 0..4 {
            self.put_group(group);
        }
        self.put_sums();
        self.put(4096 * 148, &UNMOUNT);
        self.put(4096 * 148 + 512, &UNMOUNT_DATA);
    }
}
