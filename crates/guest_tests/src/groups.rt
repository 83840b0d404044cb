//! Disks with two physical volumes.

use crate::answers::answer;
use crate::written::{Slot, put_physical, put_slots, put_swap};
use disk_fixtures::Built;
use std::alloc::{AllocError, Global};
use std::test::Fail;

// Two physical volumes of six and five extents of eight sectors, from sector 16 of each on: 16 + 6 * 8 = 64 sectors,
// and 16 + 5 * 8 = 56. `root` has all of the first and two of the second, `swap` the last two of the second.
pub(crate) const TEXT: &str =
    "vg { seqno = 1 extent_size = 8 physical_volumes { pv0 { id = \"aaaaaa-aaaa-aaaa-aaaa-aaaa-aaaa-aaaaaa\" dev_size = 64 pe_start = 16 pe_count = 6 } pv1 { id = \"bbbbbb-bbbb-bbbb-bbbb-bbbb-bbbb-bbbbbb\" dev_size = 50 pe_start = 16 pe_count = 5 } } logical_volumes { root { segment_count = 2 segment1 { start_extent = 0 extent_count = 6 type = \"striped\" stripe_count = 1 stripes = [\"pv0\", 0] } segment2 { start_extent = 6 extent_count = 2 type = \"striped\" stripe_count = 1 stripes = [\"pv1\", 0] } } swap { segment_count = 1 segment1 { start_extent = 0 extent_count = 2 type = \"striped\" stripe_count = 1 stripes = [\"pv1\", 3] } } } }";

// The table of a disk with both in slots, in partitions of 72 sectors.
pub(crate) const PLAIN: [(u16, &[Slot]); 1] = [(0, &[(0x8E, 8, 72), (0x8E, 88, 72)])];

// What that disk is.
const GROUPED: &str =
    "1 group vg member of 1 device 64 needs 64; root 24+48 104+16 unread Other; swap 128+16 swap 1\n2 member of 1 device 56 needs 56\n";

fn put_tables(disk: &mut Built, tables: &[(u16, &[Slot])]) {
    for (sector, slots) in tables {
        put_slots(disk, *sector, slots);
    }
}

/// A disk of 160 sectors with these tables and with both physical volumes, by their first sectors and their texts. A
/// swap area of two pages stands in the volume `swap`.
pub(crate) fn group_disk(
    alloc: Global,
    tables: &[(u16, &[Slot])],
    members: [u16; 2],
    texts: [&str; 2],
) -> Result<Built, AllocError> {
    let mut disk = Built::new(alloc, 20)?;
    put_tables(&mut disk, tables);
    put_physical(&mut disk, members[0], b'a', 1, &[(8, 4096, texts[0])]);
    put_physical(&mut disk, members[1], b'b', 1, &[(8, 4096, texts[1])]);
    put_swap(&mut disk, members[1].saturating_add(40), 1);
    Ok(disk)
}

#[test]
fn members_are_found_wherever_they_stand(rt: HostRuntime) -> Result<(), Fail> {
    let alloc = rt.alloc();
    let rows: [(&[(u16, &[Slot])], [u16; 2], &str); 4] = [
        (&PLAIN, [8, 88], GROUPED),
        // The second one is a logical partition.
        (
            &[
                (0, &[(0x8E, 8, 72), (0x05, 80, 80)]),
                (80, &[(0x8E, 8, 72)]),
            ],
            [8, 88],
            "1 group vg member of 1 device 64 needs 64; root 24+48 104+16 unread Other; swap 128+16 swap 1\n2 extended needs 80\n5 member of 1 device 56 needs 56\n",
        ),
        (
            &[
                (0, &[(0x05, 80, 80), (0x8E, 8, 72)]),
                (80, &[(0x8E, 8, 72)]),
            ],
            [8, 88],
            "1 extended needs 80\n2 group vg member of 2 device 64 needs 64; root 24+48 104+16 unread Other; swap 128+16 swap 1\n5 member of 2 device 56 needs 56\n",
        ),
        // The text names the logical one first.
        (
            &[
                (0, &[(0x8E, 8, 72), (0x05, 80, 80)]),
                (80, &[(0x8E, 8, 72)]),
            ],
            [88, 8],
            "1 group vg member of 1 device 56 needs 56; root 104+48 24+16 unread Other; swap 48+16 swap 1\n2 extended needs 80\n5 member of 1 device 64 needs 64\n",
        ),
    ];
    for (tables, members, expected) in rows {
        let mut disk = group_disk(alloc, tables, members, [TEXT, TEXT])?.into_disk(None);
        assert_eq!(rt; answer(alloc, &mut disk)?.as_str(), expected);
    }
    Ok(())
}

// Two physical volumes of 128 extents, from sector 16 of each on: 16 + 128 * 8 = 1040 sectors. `root` has all of the
// second and then all of the first.
const SPREAD: &str =
    "vg { seqno = 1 extent_size = 8 physical_volumes { pv0 { id = \"aaaaaa-aaaa-aaaa-aaaa-aaaa-aaaa-aaaaaa\" dev_size = 1040 pe_start = 16 pe_count = 128 } pv1 { id = \"bbbbbb-bbbb-bbbb-bbbb-bbbb-bbbb-bbbbbb\" dev_size = 1040 pe_start = 16 pe_count = 128 } } logical_volumes { root { segment_count = 2 segment1 { start_extent = 0 extent_count = 128 type = \"striped\" stripe_count = 1 stripes = [\"pv1\", 0] } segment2 { start_extent = 128 extent_count = 128 type = \"striped\" stripe_count = 1 stripes = [\"pv0\", 0] } } } }";

// What stands behind the first 1024 sectors.
fn second_half(bytes: &[u8]) -> &[u8] {
    bytes.get(524288..).unwrap_or(&[])
}

// A disk of 2088 sectors with both, and with the whole small volume, of 2048 sectors, in `root`. The part of it that
// stands in the second one ends with the disk.
pub(crate) fn spread_disk(alloc: Global) -> Result<Built, AllocError> {
    let volume = Built::whole(alloc)?.into_bytes();
    let mut disk = Built::new(alloc, 261)?;
    put_slots(&mut disk, 0, &[(0x8E, 8, 1040), (0x8E, 1048, 1040)]);
    put_physical(&mut disk, 8, b'a', 1, &[(8, 4096, SPREAD)]);
    put_physical(&mut disk, 1048, b'b', 1, &[(8, 4096, SPREAD)]);
    disk.put(544768, volume.as_slice());
    disk.put(12288, second_half(volume.as_slice()));
    Ok(disk)
}

#[test]
fn a_volume_of_xfs_is_read_across_members(rt: HostRuntime) -> Result<(), Fail> {
    let alloc = rt.alloc();
    let answer = answer(alloc, &mut spread_disk(alloc)?.into_disk(None))?;
    assert_eq!(rt;
        answer.as_str(),
        "1 group vg member of 1 device 1040 needs 1040; root 1064+1024 24+1024 xfs 256\n2 member of 1 device 1040 needs 1040\n"
    );
    Ok(())
}

/// The text with a part of it changed.
pub(crate) fn changed(alloc: Global, from: &str, to: &str) -> Result<String, Fail> {
    let parts = TEXT.split_once(from).ok_or("the text has it")?;
    let mut text = String::from_str(alloc, parts.0)?;
    text.push_str(to)?;
    text.push_str(parts.1)?;
    Ok(text)
}

// What is changed in the text of the first member, in that of the second, and what both partitions are then.
const TEXTS: [([&str; 2], [&str; 2], &str); 4] = [
    // Each names a member that has the other text.
    (
        ["vg {", "vg {"],
        ["no = 1", "no = 2"],
        "1 unread Members needs 72\n2 unread Members needs 72\n",
    ),
    (
        ["\"striped\"", "\"mirror\""],
        ["\"striped\"", "\"mirror\""],
        "1 unread Kind lv=0 needs 72\n2 unread Kind lv=0 needs 72\n",
    ),
    // The second volume begins with the last extent of the first one.
    (
        ["1\", 3", "1\", 1"],
        ["1\", 3", "1\", 1"],
        "1 unread Segments lv=1 needs 72\n2 unread Segments lv=1 needs 72\n",
    ),
    // A physical volume is one sector too long for its partition.
    (
        ["size = 64", "size = 73"],
        ["size = 64", "size = 73"],
        "1 unread Field needs 72\n2 unread Field needs 72\n",
    ),
];

#[test]
fn members_without_a_group_are_not_read(rt: HostRuntime) -> Result<(), Fail> {
    let alloc = rt.alloc();
    for (first, second, expected) in TEXTS {
        let one = changed(alloc, first[0], first[1])?;
        let other = changed(alloc, second[0], second[1])?;
        let texts = [one.as_str(), other.as_str()];
        let mut disk = group_disk(alloc, &PLAIN, [8, 88], texts)?.into_disk(None);
        assert_eq!(rt; answer(alloc, &mut disk)?.as_str(), expected);
    }
    Ok(())
}

// Sector 0 for its kind and for its slots; of each member its label, the head of its area and the whole of it; and of
// each volume its first sector and its first page.
const READS: u64 = 2 + 2 * 3 + 2 * 2;

#[test]
fn each_read_may_fail(rt: HostRuntime) -> Result<(), Fail> {
    let alloc = rt.alloc();
    for read in 0..READS {
        let disk = group_disk(alloc, &PLAIN, [8, 88], [TEXT, TEXT])?;
        let answer = answer(alloc, &mut disk.into_disk(Some(read)))?;
        assert_eq!(rt; answer.as_str(), "Device", "read {read}");
    }
    let disk = group_disk(alloc, &PLAIN, [8, 88], [TEXT, TEXT])?;
    let mut disk = disk.into_disk(None);
    assert_eq!(rt; answer(alloc, &mut disk)?.as_str(), GROUPED);
    assert_eq!(rt; disk.reads(), READS);
    Ok(())
}
