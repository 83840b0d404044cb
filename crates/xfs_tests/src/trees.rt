//! Trees by start of a group, in blocks of two records or keys each.
ghost use Rattle.std.specs.Prelude.{◌≡◌, IfOk, replicate};

use crate::list_mark::ListMark;
use disk_base::{Blocks, ByteDisk, List, put};
use disk_fixtures::{TreeBlock, Volume, resum};
use std::alloc::{AllocError, Global};
use std::process::Abort;
use std::test::Fail;
use xfs_super::super_of;
use xfs_tree::{ByStart, TreeFault, walk};

// A volume of two groups of 64 blocks.
pub(crate) const SMALL: Volume = Volume {
    large: false,
    dblocks: 128,
    agblocks: 64,
    agcount: 2,
    agblklog: 6,
    logstart: 60,
    logblocks: 4,
};

const SECTORS: u64 = 1024;

// That many bytes, all zero.
pub(crate) fn zeros(alloc: Global, n: usize) -> Result<Vec<u8>, AllocError>
    ensures { IfOk result (λ bytes. bytes.items ≡ replicate n 0) }
{
    Ok(vec![in alloc; 0u8; n]?)
}

// A block of a tree by start of the second group.
fn block(level: u16, number: u64, items: [(u32, u32); 2], pointers: [u32; 2]) -> TreeBlock {
    TreeBlock {
        magic: *b"AB3B",
        level,
        count: 2,
        group: 1,
        at: 64 + (number & 0xFF),
        items,
        pointers,
    }
}

// A tree of three levels, whose root is block 10 of the group.
fn tree() -> [TreeBlock; 7] {
    [
        block(2, 10, [(20, 2), (40, 1)], [11, 12]),
        block(1, 11, [(20, 2), (30, 1)], [13, 14]),
        block(1, 12, [(40, 1), (50, 4)], [15, 16]),
        block(0, 13, [(20, 2), (24, 1)], [0, 0]),
        block(0, 14, [(30, 1), (33, 2)], [0, 0]),
        block(0, 15, [(40, 1), (44, 1)], [0, 0]),
        block(0, 16, [(50, 4), (55, 9)], [0, 0]),
    ]
}

// What is changed in the tree: which of its blocks, from which byte on, by what, and whether its checksum is
// made right.
#[derive(Clone, Copy)]
struct Change {
    row: usize,
    at: usize,
    bytes: [u8; 4],
    summed: bool,
}

// A disk that has the tree, with a change, and of which a read fails.
fn disk_with(alloc: Global, change: &Change, failing: Option<u64>) -> Result<ByteDisk, AllocError> {
    let mut image = zeros(alloc, 331776)?;
    for (row, made) in tree().iter().enumerate() {
        let mut bytes = made.bytes();
        if row == change.row && change.at < 4000 {
            put(&mut bytes, change.at, &change.bytes);
            if change.summed {
                resum(&mut bytes, 52);
            }
        }
        let place = 303104 + 4096 * row;
        if place + 4096 <= image.len() {
            put(&mut image, place, &bytes);
        }
    }
    image.truncate(331776);
    Ok(ByteDisk::new(image, SECTORS, failing))
}

// The records of the tree on a disk whose root is that block and which has so many levels, or why there are none.
fn records_below(
    rt: &impl Abort,
    alloc: Global,
    disk: &mut ByteDisk,
    marks: &mut ListMark,
    (root, levels): (u32, u32),
) -> Option<Result<List<ByStart>, TreeFault>> {
    let Ok(geo) = super_of(&SMALL.superblock(), SECTORS) else {
        return None;
    };
    assert!(rt; geo.dblocks <= disk.sectors() / 8);
    assert!(rt; 1 < geo.agcount);
    assert!(rt; root < geo.group_len(1));
    assert!(rt; levels > 0);
    Some(walk::<ByStart, ByteDisk, ListMark>(alloc, disk, &geo, 1, root, levels, marks))
}

// The records of the whole tree.
fn walked(
    rt: &impl Abort,
    alloc: Global,
    disk: &mut ByteDisk,
    marks: &mut ListMark,
) -> Option<Result<List<ByStart>, TreeFault>> {
    records_below(rt, alloc, disk, marks, (10, 3))
}

const NOTHING: Change = Change {
    row: 7,
    at: 0,
    bytes: [0; 4],
    summed: true,
};

#[test]
fn walks_one_leaf(rt: HostRuntime) -> Result<(), Fail> {
    let alloc = rt.alloc();
    let mut disk = disk_with(alloc, &NOTHING, None)?;
    let mut marks = ListMark::new(alloc);
    let leaf = (13, 1);
    let Some(Ok(records)) = records_below(&rt, alloc, &mut disk, &mut marks, leaf) else {
        return Err(Fail::new("another answer"));
    };
    let runs = [
        ByStart {
            start: 20,
            count: 2,
        },
        ByStart {
            start: 24,
            count: 1,
        },
    ];
    assert_eq!(rt; records.items(), runs.as_slice());
    let again = records_below(&rt, alloc, &mut disk, &mut marks, leaf);
    let Some(Err(fault)) = again else {
        return Err(Fail::new("another answer"));
    };
    assert_eq!(rt;
        fault,
        TreeFault::Marked {
            group: 1,
            block: 13
        }
    );
    let change = Change {
        row: 3,
        at: 52,
        bytes: [1, 2, 3, 4],
        summed: false,
    };
    let mut spoiled = disk_with(alloc, &change, None)?;
    let mut fresh = ListMark::new(alloc);
    let Some(Err(fault)) = records_below(&rt, alloc, &mut spoiled, &mut fresh, leaf) else {
        return Err(Fail::new("another answer"));
    };
    assert_eq!(rt;
        fault,
        TreeFault::Checksum {
            group: 1,
            block: 13
        }
    );
    Ok(())
}

#[test]
fn walks_three_levels(rt: HostRuntime) -> Result<(), Fail> {
    let alloc = rt.alloc();
    let mut disk = disk_with(alloc, &NOTHING, None)?;
    let mut marks = ListMark::new(alloc);
    let Some(Ok(records)) = walked(&rt, alloc, &mut disk, &mut marks) else {
        return Err(Fail::new("another answer"));
    };
    let mut ends = [0; 8];
    assert_eq!(rt; records.items().len(), 8);
    for (end, run) in ends.iter_mut().zip(records.items()) {
        *end = run.start.wrapping_add(run.count);
    }
    assert_eq!(rt; ends, [22, 25, 31, 35, 41, 45, 54, 64]);
    assert_eq!(rt; (disk.reads(), marks.count()), (7, 7));
    let again = walked(&rt, alloc, &mut disk, &mut marks);
    let Some(Err(fault)) = again else {
        return Err(Fail::new("another answer"));
    };
    assert_eq!(rt;
        fault,
        TreeFault::Marked {
            group: 1,
            block: 10
        }
    );
    Ok(())
}

// A change of the bytes of a block from that byte on.
fn changed(row: usize, at: usize, bytes: [u8; 4], summed: bool) -> Change {
    Change {
        row,
        at,
        bytes,
        summed,
    }
}

// What changes of what a block says of itself make of the tree.
fn of_headers() -> [(Change, TreeFault); 5] {
    [
        (
            changed(3, 52, [1, 2, 3, 4], false),
            TreeFault::Checksum {
                group: 1,
                block: 13,
            },
        ),
        (
            changed(0, 0, *b"AB3C", true),
            TreeFault::Header {
                group: 1,
                block: 10,
            },
        ),
        (
            changed(1, 20, [0, 0, 2, 89], true),
            TreeFault::Header {
                group: 1,
                block: 11,
            },
        ),
        (
            changed(5, 32, [1, 35, 69, 104], true),
            TreeFault::Header {
                group: 1,
                block: 15,
            },
        ),
        (
            changed(6, 48, [0, 0, 0, 0], true),
            TreeFault::Header {
                group: 1,
                block: 16,
            },
        ),
    ]
}

// What changes of levels, counts and places make of it.
fn of_ranges() -> [(Change, TreeFault); 4] {
    [
        (
            changed(2, 4, [0, 2, 0, 2], true),
            TreeFault::Level {
                group: 1,
                block: 12,
            },
        ),
        (
            changed(4, 4, [0, 0, 0, 0], true),
            TreeFault::Range {
                group: 1,
                block: 14,
            },
        ),
        (
            changed(6, 68, [0, 0, 0, 10], true),
            TreeFault::Range {
                group: 1,
                block: 16,
            },
        ),
        (
            changed(0, 2748, [0, 0, 0, 64], true),
            TreeFault::Range {
                group: 1,
                block: 10,
            },
        ),
    ]
}

// What changes of keys, starts and pointers make of it.
fn of_order() -> [(Change, TreeFault); 3] {
    [
        (
            changed(1, 64, [0, 0, 0, 20], true),
            TreeFault::Order {
                group: 1,
                block: 11,
            },
        ),
        (
            changed(4, 56, [0, 0, 0, 25], true),
            TreeFault::Order {
                group: 1,
                block: 14,
            },
        ),
        (
            changed(2, 2748, [0, 0, 0, 13], true),
            TreeFault::Marked {
                group: 1,
                block: 13,
            },
        ),
    ]
}

// Compares the fault that each change makes with the one that is wanted.
fn compare(rt: &impl Abort, alloc: Global, rows: &[(Change, TreeFault)]) -> Result<(), Fail> {
    for (change, want) in rows {
        let mut disk = disk_with(alloc, change, None)?;
        let mut marks = ListMark::new(alloc);
        let Some(Err(fault)) = walked(rt, alloc, &mut disk, &mut marks) else {
            return Err(Fail::new("another answer"));
        };
        assert_eq!(rt; fault, *want);
    }
    Ok(())
}

#[test]
fn names_a_block_that_is_not_its_own(rt: HostRuntime) -> Result<(), Fail> {
    compare(&rt, rt.alloc(), &of_headers())
}

#[test]
fn names_what_lies_outside(rt: HostRuntime) -> Result<(), Fail> {
    compare(&rt, rt.alloc(), &of_ranges())
}

#[test]
fn names_what_does_not_rise(rt: HostRuntime) -> Result<(), Fail> {
    compare(&rt, rt.alloc(), &of_order())
}

#[test]
fn answers_a_failed_read(rt: HostRuntime) -> Result<(), Fail> {
    let alloc = rt.alloc();
    for read in 0..7 {
        let mut disk = disk_with(alloc, &NOTHING, Some(read))?;
        let mut marks = ListMark::new(alloc);
        let Some(Err(fault)) = walked(&rt, alloc, &mut disk, &mut marks) else {
            return Err(Fail::new("another answer"));
        };
        assert_eq!(rt; (fault, disk.reads()), (TreeFault::Device, read + 1));
    }
    Ok(())
}
