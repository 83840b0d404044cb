//! What partitions with a label hold by themselves, by their metadata areas.

use crate::labels::{image_with, put, volume};
use disk_base::crc32_lvm;
use partition_content::{Found, find, one_find};
use std::alloc::Global;
use std::test::Fail;
use volume_content::{ContentFault, Inner};

const TEXT: &str = "vg {\nseqno = 1\n}\n";

/// What is found, as text.
fn shown(alloc: Global, found: &Found) -> Result<String, Fail> {
    match found {
        Found::Physical(physical) => {
            let text = std::str::from_utf8(physical.first.text()).unwrap_or("?");
            let areas = if physical.second.is_some() { 2 } else { 1 };
            Ok(format!(in alloc; "{areas} {text}")?)
        }
        Found::Inner(Inner::Unread(why)) => Ok(format!(in alloc; "{why}")?),
        Found::Inner(_) => Ok(String::from_str(alloc, "a volume")?),
    }
}

/// A change of the volume from byte `at` on, and whether the checksum of the second area's text is made right.
#[derive(Clone, Copy)]
struct Change {
    at: usize,
    bytes: [u8; 16],
    len: usize,
    text: bool,
}

fn at_byte(at: usize, bytes: [u8; 16], len: usize, text: bool) -> Change {
    Change {
        at,
        bytes,
        len,
        text,
    }
}

/// The volume with that change, its checksums made right.
fn changed(by: &Change) -> [u8; 12288] {
    let mut image = image_with(12288, 0, false);
    if by.at <= 12272 && by.len <= 16 {
        put(&mut image, by.at, &by.bytes[..by.len]);
    }
    if by.text {
        let text = crc32_lvm(&image[8704..8724]).to_le_bytes();
        put(&mut image, 8248, &text);
    }
    let label = crc32_lvm(&image[532..1024]).to_le_bytes();
    put(&mut image, 528, &label);
    let first = crc32_lvm(&image[4100..4608]).to_le_bytes();
    put(&mut image, 4096, &first);
    let second = crc32_lvm(&image[8196..8704]).to_le_bytes();
    put(&mut image, 8192, &second);
    image
}

#[test]
fn a_partition_holds_what_its_areas_hold(rt: HostRuntime) -> Result<(), Fail> {
    let alloc = rt.alloc();
    one_find();
    let two = format!(in alloc; "2 {TEXT}")?;
    let one = format!(in alloc; "1 {TEXT}")?;
    let rows: [(Change, &str); 11] = [
        (at_byte(0, [0; 16], 0, false), two.as_str()),
        (at_byte(512, [0; 16], 8, false), "Other"),
        // The list of areas ends behind the first one, before it, and behind a third one.
        (at_byte(632, [0; 16], 16, false), one.as_str()),
        (at_byte(616, [0; 16], 16, false), "Members"),
        (at_byte(648, [1; 16], 16, false), "Members"),
        // The text is ignored, there is none, and it has another checksum.
        (at_byte(4156, [1; 16], 1, false), "Ignored"),
        (at_byte(4136, [0; 16], 16, false), "NoGroup"),
        (at_byte(8252, [1; 16], 1, false), "Ignored"),
        (at_byte(8232, [0; 16], 16, false), "NoGroup"),
        (at_byte(8704, [0x77; 16], 1, false), "Checksum"),
        // It is another one, of the same length.
        (at_byte(8704, [0x77; 16], 1, true), "Members"),
    ];
    for (by, expected) in rows {
        let mut disk = volume(alloc, &changed(&by), None)?;
        let found = match find(alloc, &mut disk) {
            Ok(found) => shown(alloc, &found)?,
            Err(_) => String::from_str(alloc, "no answer")?,
        };
        assert_eq!(rt; found.as_str(), expected, "byte {}", by.at);
    }
    Ok(())
}

// The labels, and of each area its header and the whole of it.
const READS: u64 = 1 + 2 * 2;

#[test]
fn a_read_that_fails_leaves_no_answer(rt: HostRuntime) -> Result<(), Fail> {
    let alloc = rt.alloc();
    let image = image_with(12288, 0, false);
    for read in 0..READS {
        let mut disk = volume(alloc, &image, Some(read))?;
        assert_eq!(rt; find(alloc, &mut disk).err(), Some(ContentFault::Device));
    }
    let mut disk = volume(alloc, &image, Some(READS))?;
    assert!(rt; find(alloc, &mut disk).is_ok());
    Ok(())
}
