//! Disks with one physical volume, by its metadata areas.

use crate::answers::answer;
use crate::written::{Area, put_physical, put_slots};
use disk_fixtures::Built;
use std::test::Fail;

// A group of one physical volume, which has three sectors and no extent, and that group at another time.
const ONE: &str =
    "vg { seqno = 1 extent_size = 8 physical_volumes { pv0 { id = \"aaaaaa-aaaa-aaaa-aaaa-aaaa-aaaa-aaaaaa\" dev_size = 3 pe_start = 0 pe_count = 0 } } logical_volumes { } }";

const OTHER: &str =
    "vg { seqno = 2 extent_size = 8 physical_volumes { pv0 { id = \"aaaaaa-aaaa-aaaa-aaaa-aaaa-aaaa-aaaaaa\" dev_size = 3 pe_start = 0 pe_count = 0 } } logical_volumes { } }";

// The sector of the label, the areas, and what the partition is, which has 72 sectors.
const ROWS: [(u8, &[Area<'static>], &str); 9] = [
    (
        1,
        &[(8, 4096, ONE)],
        "1 group vg member of 1 device 3 needs 16\n",
    ),
    (
        1,
        &[(8, 4096, ONE), (16, 4096, ONE)],
        "1 group vg member of 1 device 3 needs 24\n",
    ),
    (
        1,
        &[(16, 4096, ONE), (8, 4096, ONE)],
        "1 group vg member of 1 device 3 needs 24\n",
    ),
    // The area ends before the last sector that can hold a label.
    (
        3,
        &[(0, 1024, ONE)],
        "1 group vg member of 1 device 3 needs 4\n",
    ),
    (
        1,
        &[(8, 4096, ONE), (16, 4096, OTHER)],
        "1 unread Members needs 72\n",
    ),
    (1, &[(8, 4096, "")], "1 unread NoGroup needs 72\n"),
    (
        1,
        &[(8, 0x8000_0000_0000_0000, ONE)],
        "1 unread Place needs 72\n",
    ),
    (
        1,
        &[(8, 4096, ONE), (16, 0x8000_0000_0000_0000, ONE)],
        "1 unread Place needs 72\n",
    ),
    (
        1,
        &[(8, 4096, "a{a{a{a{a{a{a{a{a{")],
        "1 unread Depth at=17 needs 72\n",
    ),
];

#[test]
fn a_physical_volume_needs_its_areas(rt: HostRuntime) -> Result<(), Fail> {
    let alloc = rt.alloc();
    for (label, areas, expected) in ROWS {
        let mut disk = Built::new(alloc, 20)?;
        put_slots(&mut disk, 0, &[(0x8E, 8, 72)]);
        put_physical(&mut disk, 8, b'a', label, areas);
        let mut disk = disk.into_disk(None);
        assert_eq!(rt; answer(alloc, &mut disk)?.as_str(), expected);
    }
    Ok(())
}
