//! Inodes of the whole small volume, and each fault of an inode and of a fork: one change each, with the checksum
//! made right.

use crate::list_mark::ListMark;
use crate::volume::{geometry, inode_on, with_features};
use disk_base::{Blocks, ByteDisk, put};
use disk_fixtures::{
    AWAY, Built, DEVICE, DIRECTORY, FAR_LINK, FILE, Header, IDENTITY, INODE_512, NEAR_LINK, PIPE,
    ROOT, StoredExtent, TREE, made, resum,
};
use std::alloc::Global;
use std::process::Abort;
use std::test::Fail;
use xfs_inode::{Core, extents_of, inode_in, lies_in_volume};
use xfs_super::{CheckFault, Reason, super_of};

// What xfs_db prints of the inode that it wrote; the times are as they are stored.
const WRITTEN: Core = Core {
    mode: 0o100640,
    version: 3,
    format: 2,
    uid: 1001,
    gid: 1002,
    nlink: 3,
    project: 22136 * 65536 + 4660,
    atime: 1,
    mtime: 2,
    ctime: 3,
    size: 40000,
    nblocks: 5,
    extsize: 16,
    nextents: 3,
    anextents: 1,
    forkoff: 24,
    aformat: 2,
    flags: 16,
    generation: 305419896,
    changecount: 77,
    lsn: 0x1_0000_0020,
    flags2: 24,
    crtime: 4,
    ino: 131,
    uuid: IDENTITY,
};

#[test]
fn reads_what_xfs_db_wrote(rt: HostRuntime) -> Result<(), Fail> {
    let geo = super_of(&made(Header::Superblock, false), 819200)?;
    let mut disk = ByteDisk::new(Vec::new(rt.alloc()), 819200, None);
    assert!(rt; geo.dblocks <= disk.sectors() / 8);
    let mut bytes = [0; 2048];
    put(&mut bytes, 0, &INODE_512);
    assert_eq!(rt; inode_in(&mut disk, &geo, 131, &bytes)?, WRITTEN);
    // The number of the inode is another one.
    let fault = inode_in(&mut disk, &geo, 130, &bytes).err();
    assert_eq!(rt; fault, Some(CheckFault::Bad(Reason::Inode { ino: 130 })));
    assert_eq!(rt; disk.reads(), 0);
    Ok(())
}

// The inode that xfs_db wrote, with other numbers of extents in the narrow fields.
fn narrow_inode() -> [u8; 512] {
    let mut out = [0; 512];
    put(&mut out, 0, &INODE_512);
    put(&mut out, 76, &[0, 0, 0, 2, 0, 1]);
    resum(&mut out, 100);
    out
}

// Without the feature of wide counts those stand in the narrow fields, whatever the flags of the inode.
#[test]
fn counts_extents_in_narrow_fields(rt: HostRuntime) -> Result<(), Fail> {
    let superblock = with_features(&made(Header::Superblock, false), 0x0B);
    let geo = super_of(&superblock, 819200)?;
    let mut disk = ByteDisk::new(Vec::new(rt.alloc()), 819200, None);
    assert!(rt; geo.dblocks <= disk.sectors() / 8);
    let mut bytes = [0; 2048];
    put(&mut bytes, 0, &narrow_inode());
    let core = inode_in(&mut disk, &geo, 131, &bytes)?;
    assert_eq!(rt; (core.nextents, core.anextents), (2, 1));
    Ok(())
}

#[test]
fn knows_each_kind_of_file(rt: HostRuntime) -> Result<(), Fail> {
    let geo = geometry()?;
    let mut disk = Built::whole(rt.alloc())?.into_disk(None);
    let table = [
        (ROOT, [true, false, false, false]),
        (DIRECTORY, [true, false, false, false]),
        (FILE, [false, true, false, false]),
        (AWAY, [false, true, false, false]),
        (NEAR_LINK, [false, false, true, false]),
        (FAR_LINK, [false, false, true, false]),
        (DEVICE, [false, false, false, true]),
        (PIPE, [false, false, false, false]),
    ];
    for (ino, want) in table {
        let mut bytes = [0; 2048];
        let core = inode_on(&rt, &mut disk, &geo, ino, &mut bytes)?;
        assert_eq!(rt; core.ino, ino);
        let kinds = [
            core.is_directory(),
            core.is_regular_file(),
            core.is_link(),
            core.is_device(),
        ];
        assert_eq!(rt; kinds, want, "of inode {ino}");
    }
    // Behind the last group, and behind the last block of one.
    for (ino, inside) in [(0, true), (2047, true), (2048, false), (u64::MAX, false)] {
        assert_eq!(rt; lies_in_volume(&geo, ino), inside, "inode {ino}");
    }
    Ok(())
}

// Why an inode of a volume isn't answered.
fn refusal(rt: &impl Abort, built: Built, ino: u64) -> Result<Option<CheckFault>, Fail> {
    let geo = geometry()?;
    let mut disk = built.into_disk(None);
    let mut bytes = [0; 2048];
    Ok(inode_on(rt, &mut disk, &geo, ino, &mut bytes).err())
}

#[test]
fn refuses_each_fault_of_an_inode(rt: HostRuntime) -> Result<(), Fail> {
    let table: [(u64, usize, &[u8]); 24] = [
        (FILE, 0, b"IM"),
        (FILE, 4, &[2]),
        (FILE, 152, &132u64.to_be_bytes()),
        (FILE, 160, &[2]),
        (FILE, 5, &[0]),
        (FILE, 5, &[1]),
        (FILE, 5, &[4]),
        (FILE, 2, &[0x30]),
        (FILE, 2, &[0x40, 0, 3, 5]),
        (FILE, 82, &[43]),
        (FILE, 82, &[5]),
        (FILE, 24, &22u64.to_be_bytes()),
        (FILE, 76, &[0, 0, 0, 1, 0, 0, 42]),
        (TREE, 178, &[0, 3]),
        (TREE, 24, &[255; 8]),
        (NEAR_LINK, 56, &337u64.to_be_bytes()),
        (NEAR_LINK, 5, &[3]),
        (FAR_LINK, 56, &1025u64.to_be_bytes()),
        (FAR_LINK, 56, &601u64.to_be_bytes()),
        (FAR_LINK, 176, &[0, 0, 0, 0, 0, 0, 2]),
        (FAR_LINK, 189, &[0xFF]),
        (DEVICE, 5, &[2]),
        (DIRECTORY, 5, &[0]),
        (ROOT, 2, &[0x81, 0xED, 3, 2]),
    ];
    for (row, (ino, at, bytes)) in table.iter().enumerate() {
        let mut built = Built::whole(rt.alloc())?;
        built.change_inode(*ino, *at, bytes);
        let want = match row {
            // The count of extents means nothing beside a tree.
            14 => None,
            _ => Some(CheckFault::Bad(Reason::Inode { ino: *ino })),
        };
        assert_eq!(rt; refusal(&rt, built, *ino)?, want, "row {row}");
    }
    Ok(())
}

#[test]
fn refuses_an_inode_with_another_checksum(rt: HostRuntime) -> Result<(), Fail> {
    let mut built = Built::whole(rt.alloc())?;
    built.put(512 * 131 + 8, &[1]);
    let fault = refusal(&rt, built, FILE)?;
    assert_eq!(rt; fault, Some(CheckFault::Bad(Reason::Inode { ino: FILE })));
    Ok(())
}

// The header of the block in which the target of a link stands, field by field.
#[test]
fn refuses_each_fault_of_a_target(rt: HostRuntime) -> Result<(), Fail> {
    for at in [0, 7, 11, 16, 31, 39, 46, 47] {
        let mut built = Built::whole(rt.alloc())?;
        built.change_block(30, at, &[9], 12);
        let fault = refusal(&rt, built, FAR_LINK)?;
        assert_eq!(rt;
            fault,
            Some(CheckFault::Bad(Reason::Inode { ino: FAR_LINK })),
            "at {at}"
        );
    }
    let mut built = Built::whole(rt.alloc())?;
    built.put(4096 * 30 + 4000, &[9]);
    let fault = refusal(&rt, built, FAR_LINK)?;
    assert_eq!(rt;
        fault,
        Some(CheckFault::Bad(Reason::Inode { ino: FAR_LINK }))
    );
    // Behind the header nothing but the checksum is looked at.
    let mut built = Built::whole(rt.alloc())?;
    built.change_block(30, 4000, &[9], 12);
    assert_eq!(rt; refusal(&rt, built, FAR_LINK)?, None);
    Ok(())
}

// Why the data fork of an inode of a volume has no extents, where some blocks were claimed before.
fn fork_refusal(
    rt: &impl Abort,
    alloc: Global,
    built: Built,
    ino: u64,
    failing: Option<u64>,
) -> Result<Option<CheckFault>, Fail> {
    let geo = geometry()?;
    let mut disk = built.into_disk(failing);
    let mut bytes = [0; 2048];
    let core = match inode_on(rt, &mut disk, &geo, ino, &mut bytes) {
        Ok(core) => core,
        Err(fault) => return Ok(Some(fault)),
    };
    assert!(rt; geo.dblocks <= disk.sectors() / 8);
    let mut marks = ListMark::new(alloc);
    let extents = extents_of::<ByteDisk, ListMark>(
        alloc, &mut disk, &geo, &core, &bytes, false, &mut marks,
    );
    Ok(extents.err())
}

fn stored(file: u64, block: u64, count: u32) -> StoredExtent {
    StoredExtent {
        unwritten: false,
        file,
        block,
        count,
    }
}

#[test]
fn refuses_each_fault_of_an_extent(rt: HostRuntime) -> Result<(), Fail> {
    let alloc = rt.alloc();
    let extent = Reason::Extent { ino: FILE };
    let table = [
        // It ends behind its group, or lies behind the last one.
        (0, stored(0, 63, 2), extent),
        (0, stored(0, 256, 1), extent),
        // It has no block.
        (1, stored(5, 26, 0), extent),
        // It begins before the one before it, or within it.
        (1, stored(0, 26, 2), extent),
        (1, stored(1, 26, 2), extent),
        (0, stored(0, 32, 6), extent),
        // The blocks are claimed by another one.
        (2, stored(9, 27, 1), Reason::ClaimedTwice { block: 27 }),
        (2, stored(9, 20, 5), Reason::ClaimedTwice { block: 24 }),
    ];
    for (row, (place, changed, reason)) in table.iter().enumerate() {
        let mut built = Built::whole(alloc)?;
        built.change_inode(FILE, 176 + 16 * (place % 3), &changed.bytes());
        let fault = fork_refusal(&rt, alloc, built, FILE, None)?;
        assert_eq!(rt; fault, Some(CheckFault::Bad(*reason)), "row {row}");
    }
    // Extents that meet, and lie in another group, are as good as any.
    let mut built = Built::whole(alloc)?;
    built.change_inode(FILE, 176, &stored(0, 192 + 59, 5).bytes());
    assert_eq!(rt; fork_refusal(&rt, alloc, built, FILE, None)?, None);
    Ok(())
}

#[test]
fn refuses_each_fault_of_a_tree_of_extents(rt: HostRuntime) -> Result<(), Fail> {
    let alloc = rt.alloc();
    // The inode stands in block 16 of the first group.
    let root = Reason::Tree {
        group: 0,
        block: 16,
    };
    let twice = Reason::ClaimedTwice { block: 70 };
    let table: [(usize, &[u8], Reason); 4] = [
        (177, &[0], root),
        (204, &256u64.to_be_bytes(), root),
        (188, &0u64.to_be_bytes(), root),
        (204, &70u64.to_be_bytes(), twice),
    ];
    for (row, (at, bytes, reason)) in table.iter().enumerate() {
        let mut built = Built::whole(alloc)?;
        built.change_inode(TREE, *at, bytes);
        let fault = fork_refusal(&rt, alloc, built, TREE, None)?;
        assert_eq!(rt; fault, Some(CheckFault::Bad(*reason)), "row {row}");
    }
    Ok(())
}

#[test]
fn refuses_each_fault_of_a_leaf_of_extents(rt: HostRuntime) -> Result<(), Fail> {
    let alloc = rt.alloc();
    // Block 70 is block 6 of the second group: magic, level, count, place, identity, owner, and an extent that ends
    // behind its group.
    let leaf = Reason::Tree { group: 1, block: 6 };
    for (at, byte) in [
        (0, 9),
        (5, 1),
        (7, 0),
        (7, 252),
        (31, 9),
        (40, 9),
        (63, 9),
        (86, 9),
    ] {
        let mut built = Built::whole(alloc)?;
        built.change_block(70, at, &[byte], 64);
        let fault = fork_refusal(&rt, alloc, built, TREE, None)?;
        assert_eq!(rt; fault, Some(CheckFault::Bad(leaf)), "at byte {at}");
    }
    let mut built = Built::whole(alloc)?;
    built.put(4096 * 70 + 4000, &[9]);
    let fault = fork_refusal(&rt, alloc, built, TREE, None)?;
    assert_eq!(rt; fault, Some(CheckFault::Bad(leaf)));
    Ok(())
}

// The reads are those of the inode's block and of what stands below it.
#[test]
fn tells_of_a_failed_read_of_an_inode(rt: HostRuntime) -> Result<(), Fail> {
    let alloc = rt.alloc();
    for (ino, reads) in [(FILE, 1), (FAR_LINK, 2), (TREE, 3)] {
        for failing in 0..4 {
            let built = Built::whole(alloc)?;
            let fault = fork_refusal(&rt, alloc, built, ino, Some(failing))?;
            let want = if failing < reads {
                Some(CheckFault::Device)
            } else {
                None
            };
            assert_eq!(rt; fault, want, "of inode {ino} where read {failing} fails");
        }
    }
    Ok(())
}
