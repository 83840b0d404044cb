//! The chunks of inodes of the whole small volume, and each fault of one.

use crate::list_mark::ListMark;
use crate::volume::{SECTORS, geometry, with_features};
use disk_base::{Blocks, ByteDisk, List};
use disk_fixtures::{AWAY, Built, Header, SIZES, StoredChunk};
use std::alloc::Global;
use std::process::Abort;
use std::test::Fail;
use xfs_inode::{chunks_of, inode_number, is_allocated};
use xfs_super::{CheckFault, Reason, Super, agi_of, super_of};
use xfs_tree::{Mark, SparseChunk};

// The chunks of a group of a volume, or why there are none.
fn chunks_in(
    rt: &impl Abort,
    alloc: Global,
    disk: &mut ByteDisk,
    (geo, group): (&Super, u32),
    marks: &mut ListMark,
) -> Result<Result<List<SparseChunk>, CheckFault>, Fail> {
    assert!(rt; geo.dblocks <= disk.sectors() / 8);
    assert!(rt; group < geo.agcount);
    let header = SIZES.header(Header::Agi, group);
    let agi = agi_of(&header[..geo.sectsize as usize], geo, group)?;
    Ok(chunks_of::<ByteDisk, ListMark>(alloc, disk, geo, group, &agi, marks))
}

// The superblock without the feature of chunks with holes.
fn full_geometry() -> Result<Super, Fail> {
    let superblock = with_features(&SIZES.superblock(), 0x29);
    Ok(super_of(&superblock, SECTORS)?)
}

#[test]
fn reads_full_and_sparse_chunks(rt: HostRuntime) -> Result<(), Fail> {
    let alloc = rt.alloc();
    let full = SparseChunk {
        start: 128,
        holemask: 0,
        count: 64,
        freecount: 53,
        free: 0xFFFF_FFFF_FFFF_F800,
    };
    let sparse = SparseChunk {
        start: 128,
        holemask: 0xFF00,
        count: 32,
        freecount: 31,
        free: 0xFFFF_FFFF_FFFF_FFFE,
    };
    let table = [
        (geometry()?, 0, full, 9),
        (geometry()?, 1, sparse, 5),
        (full_geometry()?, 0, full, 9),
    ];
    for (row, (geo, group, want, claimed)) in table.iter().enumerate() {
        let mut disk = Built::whole(alloc)?.into_disk(None);
        let mut marks = ListMark::new(alloc);
        let chunks = chunks_in(&rt, alloc, &mut disk, (geo, *group), &mut marks)??;
        assert_eq!(rt; chunks.items(), [*want].as_slice(), "row {row}");
        assert_eq!(rt; marks.count(), *claimed, "row {row}");
    }
    Ok(())
}

// Which inodes are in use, and their numbers in the volume.
#[test]
fn numbers_the_inodes_in_use(rt: HostRuntime) -> Result<(), Fail> {
    let alloc = rt.alloc();
    let geo = geometry()?;
    for (group, first, used) in [(0, 128, 11), (1, AWAY, 1)] {
        let mut disk = Built::whole(alloc)?.into_disk(None);
        let mut marks = ListMark::new(alloc);
        let chunks = chunks_in(&rt, alloc, &mut disk, (&geo, group), &mut marks)??;
        for chunk in chunks.items() {
            for i in 0..64 {
                let number = inode_number(&geo, group, chunk, i);
                assert_eq!(rt; number, first + u64::from(i));
                assert_eq!(rt; is_allocated(chunk, i), i < used, "inode {number}");
            }
        }
    }
    Ok(())
}

// A chunk in place of the first group's one, and why it is refused.
fn chunk_refusal(
    rt: &impl Abort,
    alloc: Global,
    chunk: &StoredChunk,
    claimed: Option<u32>,
) -> Result<Option<CheckFault>, Fail> {
    let mut built = Built::whole(alloc)?;
    built.change_block(3, 56, &chunk.bytes(), 52);
    let mut disk = built.into_disk(None);
    let geo = geometry()?;
    let mut marks = ListMark::new(alloc);
    if let Some(block) = claimed {
        marks.claim(0, block)?;
    }
    Ok(chunks_in(rt, alloc, &mut disk, (&geo, 0), &mut marks)?.err())
}

#[test]
fn refuses_each_fault_of_a_chunk(rt: HostRuntime) -> Result<(), Fail> {
    let alloc = rt.alloc();
    let inode = |ino| Some(Reason::Inode { ino });
    let twice = |block| Some(Reason::ClaimedTwice { block });
    let table = [
        (128, 0, None, None),
        // It doesn't begin with a block.
        (132, 0, None, inode(132)),
        // A hole splits a block: a bit of the mask speaks of half of one.
        (128, 0x0001, None, inode(128)),
        (128, 0x8000, None, inode(128)),
        (128, 0x0003, None, None),
        // It ends with the group, or behind it.
        (448, 0, None, None),
        (456, 0, None, Some(Reason::Tree { group: 0, block: 3 })),
        // Its block, or the one of the tree, is claimed by another one, but for a hole.
        (128, 0, Some(16), twice(16)),
        (128, 0, Some(23), twice(23)),
        (128, 0xC000, Some(23), None),
        (128, 0, Some(3), twice(3)),
    ];
    for (row, (start, holemask, claimed, reason)) in table.iter().enumerate() {
        let chunk = StoredChunk {
            start: *start,
            holemask: *holemask,
            count: 64,
            freecount: 53,
            free: 0,
        };
        let fault = chunk_refusal(&rt, alloc, &chunk, *claimed)?;
        assert_eq!(rt; fault, reason.map(CheckFault::Bad), "row {row}");
    }
    Ok(())
}

#[test]
fn tells_of_a_failed_read_of_chunks(rt: HostRuntime) -> Result<(), Fail> {
    let alloc = rt.alloc();
    let geo = geometry()?;
    let mut disk = Built::whole(alloc)?.into_disk(Some(0));
    let mut marks = ListMark::new(alloc);
    let fault = chunks_in(&rt, alloc, &mut disk, (&geo, 0), &mut marks)?.err();
    assert_eq!(rt; fault, Some(CheckFault::Device));
    Ok(())
}
