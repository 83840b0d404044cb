//! That the whole small volume is valid, but for its log: its headers, trees, inodes and forks are answered, and each
//! of its blocks is claimed once.

use crate::list_mark::ListMark;
use crate::volume::{geometry, inode_on};
use disk_base::{Blocks, ByteDisk};
use disk_fixtures::{Built, Header, USED_RUNS};
use std::alloc::Global;
use std::process::Abort;
use std::test::Fail;
use xfs_alloc::free_of;
use xfs_inode::{chunks_of, extents_of, inode_number, is_allocated};
use xfs_super::{Super, agf_of, agfl_of, agi_of, super_of, used_entry, used_of};
use xfs_tree::{FreeSparseChunk, Mark, SparseChunk, claim_run, walk};

// A header of a group.
fn sector(rt: &impl Abort, disk: &mut ByteDisk, group: u32, k: u64) -> Result<[u8; 512], Fail> {
    let at = u64::from(group) * 512 + k % 4;
    assert!(rt; at < disk.sectors());
    let mut bytes = [0; 512];
    disk.read(at, &mut bytes)?;
    Ok(bytes)
}

// Claims the headers, the list of free blocks, the trees of free space and the free runs of a group, and answers how
// many free blocks there are.
fn claim_space(
    rt: &impl Abort,
    alloc: Global,
    disk: &mut ByteDisk,
    (geo, group): (&Super, u32),
    marks: &mut ListMark,
) -> Result<u64, Fail> {
    let agf_bytes = sector(rt, disk, group, 1)?;
    let agfl_bytes = sector(rt, disk, group, 3)?;
    assert!(rt; geo.sectsize == 512);
    assert!(rt; group < geo.agcount);
    let agf = agf_of(&agf_bytes, geo, group)?;
    agfl_of(&agfl_bytes, geo, group)?;
    used_of(&agfl_bytes, geo, group, &agf)?;
    marks.claim(group, 0)?;
    for i in 0..agf.flcount {
        marks.claim(group, used_entry(&agfl_bytes, &agf, i))?;
    }
    assert!(rt; geo.dblocks <= disk.sectors() / 8);
    let free = free_of::<ByteDisk, ListMark>(alloc, disk, geo, group, &agf, marks)?;
    let mut blocks = u64::from(agf.flcount);
    for run in free.runs() {
        blocks = blocks.saturating_add(u64::from(run.1));
    }
    Ok(blocks)
}

// Claims the blocks of both forks of an inode.
fn claim_forks(
    rt: &impl Abort,
    alloc: Global,
    disk: &mut ByteDisk,
    ino: u64,
    marks: &mut ListMark,
) -> Result<(), Fail> {
    let geo = geometry()?;
    let mut bytes = [0; 2048];
    let core = inode_on(rt, disk, &geo, ino, &mut bytes)?;
    for attribute in [false, true] {
        assert!(rt; geo.dblocks <= disk.sectors() / 8);
        extents_of::<ByteDisk, ListMark>(alloc, disk, &geo, &core, &bytes, attribute, marks)?;
    }
    Ok(())
}

// Claims the trees of the inodes of a group, its chunks, and the forks of its inodes, and answers how many inodes are
// in use.
fn claim_inodes(
    rt: &impl Abort,
    alloc: Global,
    disk: &mut ByteDisk,
    (geo, group): (&Super, u32),
    marks: &mut ListMark,
) -> Result<u64, Fail> {
    let agi_bytes = sector(rt, disk, group, 2)?;
    assert!(rt; geo.sectsize == 512);
    assert!(rt; geo.finobt);
    assert!(rt; group < geo.agcount);
    let agi = agi_of(&agi_bytes, geo, group)?;
    assert!(rt; geo.dblocks <= disk.sectors() / 8);
    walk::<FreeSparseChunk, ByteDisk, ListMark>(
        alloc,
        disk,
        geo,
        group,
        agi.free_root,
        agi.free_level,
        marks,
    )?;
    assert!(rt; geo.dblocks <= disk.sectors() / 8);
    let chunks = chunks_of::<ByteDisk, ListMark>(alloc, disk, geo, group, &agi, marks)?;
    let mut used = 0u64;
    for chunk in chunks.items() {
        for i in 0..64 {
            if is_allocated(chunk, i) {
                claim_forks(rt, alloc, disk, inode_number(geo, group, chunk, i), marks)?;
                used = used.saturating_add(1);
            }
        }
    }
    Ok(used)
}

#[test]
fn uses_each_block_once(rt: HostRuntime) -> Result<(), Fail> {
    let alloc = rt.alloc();
    let mut disk = Built::whole(alloc)?.into_disk(None);
    let geo = geometry()?;
    let mut marks = ListMark::new(alloc);
    let mut sums = (0u64, 0u64);
    for group in 0..4 {
        let free = claim_space(&rt, alloc, &mut disk, (&geo, group), &mut marks)?;
        let used = claim_inodes(&rt, alloc, &mut disk, (&geo, group), &mut marks)?;
        sums = (sums.0.saturating_add(free), sums.1.saturating_add(used));
    }
    assert!(rt; 156 <= geo.dblocks);
    claim_run(&geo, 148, 8, &mut marks)?;
    assert_eq!(rt; marks.count(), 256);
    // The sums in the superblock, and what is said to be in use.
    assert_eq!(rt; sums, (197, 12));
    let mut said = 0u64;
    for run in USED_RUNS {
        said = said.saturating_add(u64::from(run.1));
    }
    assert_eq!(rt; said, 256 - 197 + 2);
    Ok(())
}

// The changes of a header that are offered, with the checksum made right.
#[test]
fn changes_headers(rt: HostRuntime) -> Result<(), Fail> {
    let alloc = rt.alloc();
    let geo = geometry()?;
    let headers = [Header::Superblock, Header::Agf, Header::Agi, Header::Agfl];
    for (k, header) in headers.iter().enumerate() {
        for group in 0..4 {
            let mut built = Built::whole(alloc)?;
            built.change_header(*header, group, 300, &[9]);
            let mut disk = built.into_disk(None);
            let bytes = sector(&rt, &mut disk, group, k as u64)?;
            assert_eq!(rt; bytes[300], 9);
            assert!(rt; geo.sectsize == 512);
            assert!(rt; group < geo.agcount);
            let answered = match header {
                Header::Superblock => true,
                Header::Agf => agf_of(&bytes, &geo, group).is_ok(),
                Header::Agi => agi_of(&bytes, &geo, group).is_err(),
                Header::Agfl => agfl_of(&bytes, &geo, group).is_ok(),
            };
            assert!(rt; answered, "header {k} of group {group}");
        }
    }
    Ok(())
}
