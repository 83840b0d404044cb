use crate::list_mark::ListMark;
use crate::trees::{SMALL, zeros};
use disk_base::{Blocks, ByteDisk, List, put};
use disk_fixtures::{IDENTITY, resum};
use std::alloc::{AllocError, Global};
use std::process::Abort;
use std::test::Fail;
use xfs_super::super_of;
use xfs_tree::{Extent, Record, TreeFault, walk_fork};

const SECTORS: u64 = 1024;

// The blocks 20 and 94 of the volume are the leaves of the tree of inode 77, which block 9 holds.
fn left() -> [Extent; 2] {
    [extent(0, 21, 3), extent(3, 104, 2)]
}

fn right() -> [Extent; 1] {
    [extent(9, 30, 1)]
}

fn extent(file: u64, block: u64, count: u32) -> Extent {
    Extent {
        unwritten: file == 3,
        file,
        block,
        count,
    }
}

// A leaf of the tree at that block of the volume.
fn leaf(at: u64, extents: &[Extent]) -> [u8; 4096] {
    let mut out = [0; 4096];
    put(&mut out, 0, b"BMA3");
    put(&mut out, 6, &((extents.len() & 0xFF) as u16).to_be_bytes());
    put(&mut out, 24, &at.wrapping_mul(8).to_be_bytes());
    put(&mut out, 40, &IDENTITY);
    put(&mut out, 63, &[77]);
    for (place, extent) in [72, 88].iter().zip(extents) {
        let mut bytes = [0; 16];
        if extent.fits() {
            extent.put(&mut bytes);
        }
        if *place < 100 {
            put(&mut out, *place, &bytes);
        }
    }
    resum(&mut out, 64);
    out
}

fn disk_with(alloc: Global, left: &[Extent], right: &[Extent]) -> Result<ByteDisk, AllocError> {
    let mut image = zeros(alloc, 389120)?;
    if image.len() == 389120 {
        put(&mut image, 81920, &leaf(20, left));
        put(&mut image, 385024, &leaf(94, right));
    }
    image.truncate(389120);
    Ok(ByteDisk::new(image, SECTORS, None))
}

// The extents of a fork of 48 bytes whose root has that level and these pointers, or why there are none.
fn walked(
    rt: &impl Abort,
    alloc: Global,
    level: u16,
    pointers: [u64; 2],
    left: &[Extent],
    right: &[Extent],
) -> Result<Result<List<Extent>, TreeFault>, Fail> {
    let mut disk = disk_with(alloc, left, right)?;
    let geo = super_of(&SMALL.superblock(), SECTORS)?;
    assert!(rt; geo.dblocks <= disk.sectors() / 8);
    let mut fork = [0; 48];
    put(&mut fork, 0, &level.to_be_bytes());
    put(&mut fork, 2, &[0, 2]);
    put(&mut fork, 12, &9u64.to_be_bytes());
    let [first, second] = pointers;
    put(&mut fork, 20, &first.to_be_bytes());
    put(&mut fork, 28, &second.to_be_bytes());
    let mut marks = ListMark::new(alloc);
    Ok(walk_fork::<ByteDisk, ListMark>(alloc, &mut disk, &geo, 77, &fork, &mut marks))
}

#[test]
fn walks_a_fork(rt: HostRuntime) -> Result<(), Fail> {
    let alloc = rt.alloc();
    let Ok(extents) = walked(&rt, alloc, 1, [20, 94], &left(), &right())? else {
        return Err(Fail::new("another answer"));
    };
    let want = [extent(0, 21, 3), extent(3, 104, 2), extent(9, 30, 1)];
    assert_eq!(rt; extents.items(), want.as_slice());
    Ok(())
}

#[test]
fn names_each_fault_of_a_fork(rt: HostRuntime) -> Result<(), Fail> {
    let alloc = rt.alloc();
    let inside = [20, 94];
    let late = [extent(4, 30, 1)];
    let long = [extent(9, 127, 2)];
    let table = [
        (0, inside, right(), TreeFault::Level { group: 0, block: 9 }),
        (
            1,
            [20, 158],
            right(),
            TreeFault::Range { group: 0, block: 9 },
        ),
        (
            1,
            [20, 20],
            right(),
            TreeFault::Marked {
                group: 0,
                block: 20,
            },
        ),
        (
            1,
            inside,
            late,
            TreeFault::Order {
                group: 1,
                block: 30,
            },
        ),
        (
            1,
            inside,
            long,
            TreeFault::Range {
                group: 1,
                block: 30,
            },
        ),
        (
            2,
            inside,
            right(),
            TreeFault::Level {
                group: 0,
                block: 20,
            },
        ),
    ];
    for (level, pointers, last, want) in table {
        let Err(fault) = walked(&rt, alloc, level, pointers, &left(), &last)? else {
            return Err(Fail::new("another answer"));
        };
        assert_eq!(rt; fault, want);
    }
    Ok(())
}
