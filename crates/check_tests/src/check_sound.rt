//! That the whole small volume is valid, whatever its free blocks hold; what is answered of it, how it is read, and
//! what comes where a read fails.

use crate::check_change::{Change, changed, fault_with};
use disk_base::ByteDisk;
use disk_fixtures::{Built, FILE, StoredExtent};
use std::alloc::Global;
use std::process::Abort;
use std::test::Fail;
use xfs_check::{Volume, check};
use xfs_super::{CheckFault, Reason};

// The free runs of each group.
const RUNS: [&[(u32, u32)]; 4] = [
    &[(8, 8), (29, 1), (32, 32)],
    &[(5, 1), (7, 9), (20, 6), (29, 35)],
    &[(5, 15), (28, 4), (34, 30)],
    &[(5, 3), (9, 9), (19, 1), (23, 41)],
];

// Compares what is answered of a group.
fn is_as_built(rt: &impl Abort, volume: &Volume, group: u32) {
    assert!(rt; group < 4);
    assert!(rt; group < volume.geo().agcount);
    let k = group as usize;
    let agf = volume.agf(group);
    let sizes = [agf.seqno, agf.length, agf.bno_root, agf.cnt_root];
    assert_eq!(rt; sizes, [group, 64, 1, 2]);
    let counts = [agf.freeblks, agf.longest, agf.flcount];
    let want = [[41, 32, 2], [51, 35, 0], [49, 30, 0], [54, 41, 0]];
    assert_eq!(rt; counts, want[k], "of group {group}");
    let agi = volume.agi(group);
    let inodes = [agi.seqno, agi.root, agi.free_root, agi.count, agi.freecount];
    let known = [[64, 53], [32, 31], [0, 0], [0, 0]];
    assert_eq!(rt;
        inodes,
        [group, 3, 4, known[k][0], known[k][1]],
        "of group {group}"
    );
    assert_eq!(rt; volume.free(group).runs(), RUNS[k], "of group {group}");
}

#[test]
fn answers_what_was_built(rt: HostRuntime) -> Result<(), Fail> {
    let alloc = rt.alloc();
    let mut disk = Built::whole(alloc)?.into_disk(None);
    let volume = check(alloc, &mut disk)?;
    let geo = volume.geo();
    assert_eq!(rt; [geo.dblocks, geo.rootino, geo.logstart], [256, 128, 148]);
    let sizes = [geo.agblocks, geo.agcount, geo.logblocks, geo.inodesize];
    assert_eq!(rt; sizes, [64, 4, 8, 512]);
    for group in 0..4 {
        is_as_built(&rt, &volume, group);
    }
    Ok(())
}

// Puts 0x5A into each byte of the free blocks of a group.
fn overwrite(built: &mut Built, group: u32) {
    for (start, count) in RUNS[group as usize % 4] {
        for block in 0..*count % 64 {
            built.put_block(64 * (group % 4) + start % 64 + block, &[0x5A; 4096]);
        }
    }
}

#[test]
fn accepts_whatever_is_free(rt: HostRuntime) -> Result<(), Fail> {
    let alloc = rt.alloc();
    let mut built = Built::whole(alloc)?;
    for group in 0..4 {
        overwrite(&mut built, group);
    }
    let mut disk = built.into_disk(None);
    let volume = check(alloc, &mut disk)?;
    for group in 0..4 {
        is_as_built(&rt, &volume, group);
    }
    Ok(())
}

// The superblock, three headers and four trees of each group, two chunks, the two leaves of a file, the target of a
// link, the block of a directory, the log's blocks, and the two sectors of its newest record.
const READS: u64 = 1 + 4 * (3 + 4) + 2 + 2 + 1 + 1 + 8 + 2;

// Why the volume with these bytes isn't valid where a read fails, and how many reads came.
fn read_with(
    alloc: Global,
    bytes: &[u8],
    failing: Option<u64>,
) -> Result<(Option<CheckFault>, u64), Fail> {
    let mut copy = bytes.to_vec(alloc)?;
    copy.truncate(1048576);
    let mut disk = ByteDisk::new(copy, 2048, failing);
    let fault = check(alloc, &mut disk).err();
    Ok((fault, disk.reads()))
}

#[test]
fn tells_of_each_failed_read(rt: HostRuntime) -> Result<(), Fail> {
    let alloc = rt.alloc();
    let bytes = Built::whole(alloc)?.into_bytes();
    assert_eq!(rt; read_with(alloc, &bytes, None)?, (None, READS));
    for read in 0..READS {
        let found = read_with(alloc, &bytes, Some(read))?;
        assert_eq!(rt; found, (Some(CheckFault::Device), read + 1));
    }
    Ok(())
}

// A file that counts its three extents in the wide field, on a volume which says that there are such; that the third
// one counts shows where it has a free block.
#[test]
fn serves_wide_counts(rt: HostRuntime) -> Result<(), Fail> {
    let alloc = rt.alloc();
    let served = Change::superblock(212, &[0, 0, 0, 9, 0, 0, 0, 43]);
    let flag = Change::inode(FILE, 120, &[0, 0, 0, 0, 0, 0, 0, 16]);
    let three = Change::inode(FILE, 24, &[0, 0, 0, 0, 0, 0, 0, 3]);
    let mut disk = changed(alloc, &[served, flag, three])?.into_disk(None);
    let volume = check(alloc, &mut disk)?;
    let geo = volume.geo();
    let wide = [geo.inobtcount, geo.bigtime, geo.nrext64];
    assert_eq!(rt; wide, [true, true, true]);
    let free = StoredExtent {
        unwritten: false,
        file: 9,
        block: 29,
        count: 1,
    };
    let third = Change::inode(FILE, 208, &free.bytes());
    let found = fault_with(alloc, &[served, flag, three, third])?;
    let twice = CheckFault::Bad(Reason::ClaimedTwice { block: 29 });
    assert_eq!(rt; found, Some(twice));
    let two = Change::inode(FILE, 24, &[0, 0, 0, 0, 0, 0, 0, 2]);
    assert_eq!(rt; fault_with(alloc, &[served, flag, two, third])?, None);
    Ok(())
}
