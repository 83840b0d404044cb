//! Disks with volumes that stand alone in their partitions.

use crate::answers::answer;
use crate::written::{put_slots, put_swap};
use disk_base::crc32;
use disk_fixtures::Built;
use gpt_table::{Entry, Gpt, gpt_entries, gpt_header};
use std::alloc::{AllocError, Global};
use std::test::Fail;
use uuid::Uuid;

// What is put from which byte of the superblock on, whether its checksum is made right, and what the partition is then.
const VOLUMES: [(usize, &[u8], bool, &str); 3] = [
    (0, &[], false, "1 xfs 256 needs 2048\n"),
    (108, &[0], false, "1 unread Checksum sector=0 needs 2100\n"),
    // It says that blocks can be shared.
    (215, &[0x0D], true, "1 unread Reflink needs 2100\n"),
];

/// The whole small volume, of 256 blocks, in a partition of 2100 sectors, with some bytes of it changed.
pub(crate) fn volume_disk(
    alloc: Global,
    at: usize,
    bytes: &[u8],
    summed: bool,
) -> Result<Built, AllocError> {
    let mut volume = Built::whole(alloc)?;
    volume.put(at, bytes);
    if summed {
        volume.resum(0, 512, 224);
    }
    let mut disk = Built::new(alloc, 275)?;
    put_slots(&mut disk, 0, &[(0x83, 8, 2100)]);
    disk.put(4096, volume.into_bytes().as_slice());
    Ok(disk)
}

#[test]
fn a_volume_of_xfs_needs_its_blocks(rt: HostRuntime) -> Result<(), Fail> {
    let alloc = rt.alloc();
    for (at, bytes, summed, expected) in VOLUMES {
        let mut disk = volume_disk(alloc, at, bytes, summed)?.into_disk(None);
        assert_eq!(rt; answer(alloc, &mut disk)?.as_str(), expected);
    }
    Ok(())
}

// The last page of a swap area in a partition of 24 sectors, and what that is.
const AREAS: [(u32, &str); 4] = [
    (1, "1 swap 1 needs 16\n"),
    (2, "1 swap 2 needs 24\n"),
    (3, "1 unread Swap needs 24\n"),
    (0xFFFF_FFFF, "1 unread Swap needs 24\n"),
];

#[test]
fn a_swap_area_needs_its_pages(rt: HostRuntime) -> Result<(), Fail> {
    let alloc = rt.alloc();
    for (last_page, expected) in AREAS {
        let mut disk = Built::new(alloc, 4)?;
        put_slots(&mut disk, 0, &[(0x82, 8, 24)]);
        put_swap(&mut disk, 8, last_page);
        let mut disk = disk.into_disk(None);
        assert_eq!(rt; answer(alloc, &mut disk)?.as_str(), expected);
    }
    Ok(())
}

fn entry(first: u64, last: u64) -> Entry {
    Entry {
        kind: Uuid::from_bytes([1; 16]),
        id: Uuid::from_bytes([2; 16]),
        first,
        last,
        flags: 0,
        name: [0; 72],
    }
}

// Puts a GPT of two entries on a disk of 2200 sectors.
fn put_gpt(alloc: Global, disk: &mut Built) -> Result<(), AllocError> {
    let mut gpt = Gpt::new(alloc, Uuid::from_bytes([3; 16]))?;
    gpt.set(1, entry(40, 2139));
    gpt.set(128, entry(2140, 2163));
    let mut array = [0; 16384];
    gpt_entries(&gpt, &mut array);
    let mut header = [0; 512];
    gpt_header(&gpt, 2200, false, crc32(&array), &mut header);
    put_slots(disk, 0, &[(0xEE, 1, 2199)]);
    disk.put(512, &header);
    disk.put(1024, &array);
    Ok(())
}

#[test]
fn entries_of_a_gpt_hold_volumes(rt: HostRuntime) -> Result<(), Fail> {
    let alloc = rt.alloc();
    let mut disk = Built::new(alloc, 275)?;
    put_gpt(alloc, &mut disk)?;
    disk.put(20480, Built::whole(alloc)?.into_bytes().as_slice());
    put_swap(&mut disk, 2140, 1);
    let answer = answer(alloc, &mut disk.into_disk(None))?;
    assert_eq!(rt;
        answer.as_str(),
        "1 xfs 256 needs 2048\n128 swap 1 needs 16\n"
    );
    Ok(())
}
