use crate::list_mark::ListMark;
use crate::trees::{SMALL, zeros};
use disk_base::{Blocks, ByteDisk, put};
use disk_fixtures::{Header, TreeBlock, resum};
use std::alloc::{AllocError, Global};
use std::process::Abort;
use std::test::Fail;
use xfs_alloc::{Free, free_of};
use xfs_super::{CheckFault, Reason, agf_of, super_of};

const SECTORS: u64 = 1024;

// A leaf of a tree of the first group, with two runs; where the second has no block, with the first alone.
fn leaf(magic: [u8; 4], at: u64, items: [(u32, u32); 2]) -> TreeBlock {
    TreeBlock {
        magic,
        level: 0,
        count: if items[1].1 == 0 { 1 } else { 2 },
        group: 0,
        at,
        items,
        pointers: [0; 2],
    }
}

// A disk whose first group has these runs by start in block 1 and by count in block 2.
fn disk_with(
    alloc: Global,
    starts: [(u32, u32); 2],
    counts: [(u32, u32); 2],
    failing: Option<u64>,
) -> Result<ByteDisk, AllocError> {
    let mut image = zeros(alloc, 12288)?;
    if image.len() == 12288 {
        put(&mut image, 4096, &leaf(*b"AB3B", 1, starts).bytes());
        put(&mut image, 8192, &leaf(*b"AB3C", 2, counts).bytes());
    }
    image.truncate(12288);
    Ok(ByteDisk::new(image, SECTORS, failing))
}

// The AGF of the first group, which says that it has so many free blocks.
fn header_with(freeblks: u32) -> [u8; 4096] {
    let mut out = SMALL.header(Header::Agf, 0);
    put(&mut out, 52, &freeblks.to_be_bytes());
    resum(&mut out[..SMALL.sector()], 216);
    out
}

// The free space of the first group, which says that it has so many free blocks, or why it isn't answered.
fn read(
    rt: &impl Abort,
    alloc: Global,
    disk: &mut ByteDisk,
    freeblks: u32,
    marks: &mut ListMark,
) -> Option<Result<Free, CheckFault>> {
    let Ok(geo) = super_of(&SMALL.superblock(), SECTORS) else {
        return None;
    };
    assert!(rt; geo.dblocks <= disk.sectors() / 8);
    let header = header_with(freeblks);
    match agf_of(&header[..geo.sectsize as usize], &geo, 0) {
        Ok(agf) => Some(free_of::<ByteDisk, ListMark>(alloc, disk, &geo, 0, &agf, marks)),
        Err(_) => None,
    }
}

const STARTS: [(u32, u32); 2] = [(20, 9), (40, 3)];

const COUNTS: [(u32, u32); 2] = [(40, 3), (20, 9)];

#[test]
fn reads_the_runs_of_a_group(rt: HostRuntime) -> Result<(), Fail> {
    let alloc = rt.alloc();
    let mut disk = disk_with(alloc, STARTS, COUNTS, None)?;
    let mut marks = ListMark::new(alloc);
    let Some(Ok(free)) = read(&rt, alloc, &mut disk, 12, &mut marks) else {
        return Err(Fail::new("another answer"));
    };
    assert_eq!(rt; free.runs(), STARTS.as_slice());
    assert_eq!(rt; (free.bno().levels, free.cnt().levels), (1, 1));
    assert_eq!(rt;
        (free.bno().counts, free.cnt().counts),
        ([1, 0, 0, 0, 0, 0, 0, 0, 0], [1, 0, 0, 0, 0, 0, 0, 0, 0])
    );
    assert_eq!(rt; (disk.reads(), marks.count()), (2, 14));
    Ok(())
}

#[test]
fn names_what_differs(rt: HostRuntime) -> Result<(), Fail> {
    let alloc = rt.alloc();
    let count = |stored, found| Reason::FreeCount {
        group: 0,
        stored,
        found,
    };
    let differ = Reason::FreeTreesDiffer { group: 0 };
    let table = [
        (STARTS, [(40, 3), (21, 9)], 12, differ),
        (STARTS, [(40, 3), (0, 0)], 12, differ),
        (STARTS, [(20, 3), (40, 9)], 12, differ),
        (STARTS, COUNTS, 11, count(11, 12)),
        (STARTS, COUNTS, 2, count(2, 12)),
        (
            [(20, 9), (29, 3)],
            COUNTS,
            12,
            Reason::Tree { group: 0, block: 1 },
        ),
        (STARTS, STARTS, 12, Reason::Tree { group: 0, block: 2 }),
        (
            [(20, 9), (40, 25)],
            COUNTS,
            12,
            Reason::Tree { group: 0, block: 1 },
        ),
        (
            [(1, 9), (40, 3)],
            [(40, 3), (1, 9)],
            12,
            Reason::ClaimedTwice { block: 1 },
        ),
    ];
    for (starts, counts, freeblks, reason) in table {
        let mut disk = disk_with(alloc, starts, counts, None)?;
        let mut marks = ListMark::new(alloc);
        let Some(Err(fault)) = read(&rt, alloc, &mut disk, freeblks, &mut marks) else {
            return Err(Fail::new("another answer"));
        };
        assert_eq!(rt; fault, CheckFault::Bad(reason));
    }
    Ok(())
}

#[test]
fn answers_a_failed_read_of_free_space(rt: HostRuntime) -> Result<(), Fail> {
    let alloc = rt.alloc();
    for number in 0..2 {
        let mut disk = disk_with(alloc, STARTS, COUNTS, Some(number))?;
        let mut marks = ListMark::new(alloc);
        let Some(Err(fault)) = read(&rt, alloc, &mut disk, 12, &mut marks) else {
            return Err(Fail::new("another answer"));
        };
        assert_eq!(rt; fault, CheckFault::Device);
    }
    Ok(())
}
