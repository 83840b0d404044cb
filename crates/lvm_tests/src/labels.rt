//! A volume with a label and two metadata areas, read as it is and with bytes changed. Its checksums come from zlib.
ghost use Rattle.std.specs.Prelude.{◌≡◌, ◌+◌, ◌^◌, ◌≤◌, length, IfOk};
ghost use Rattle.lvm_label.specs.Ring.{HasArea};

use disk_base::{ByteDisk, crc32_lvm};
use lvm_label::*;
use std::alloc::Global;
use std::test::*;

const ID: [u8; 32] = *b"abcdefghijklmnopqrstuvwxyz012345";

const LABEL: Label = Label {
    sector: 1,
    offset: 32,
    id: ID,
    size: 12288,
    areas: 2,
    start: 4096,
    length: 4096,
    second: Some((8192, 4096)),
};

/// A byte of the label's sector that is changed, what it is changed to, whether the checksum is then made right, and
/// whether the volume still has a label.
const LABELS: [(usize, u8, bool, bool); 11] = [
    (512, 76, true, true),
    (512, 77, true, false),
    (520, 2, true, false),
    (528, 0, false, false),
    (532, 33, false, false),
    (532, 31, true, false),
    (543, 50, true, false),
    (575, 0, true, true),
    (576, 1, true, true),
    (1023, 1, true, true),
    (1023, 1, false, false),
];

/// The same of a byte of the first area's header, with what reading the ring gives.
const RINGS: [(usize, u8, bool, &str); 16] = [
    (4608, 101, false, "vg {\nseqno = 1\n}\n"),
    (4096, 0, false, "Header"),
    (4100, 0, true, "Header"),
    (4116, 2, true, "Header"),
    (4120, 1, true, "Header"),
    (4128, 1, true, "Header"),
    (4156, 1, true, "Ignored"),
    (4156, 2, true, "vg {\nseqno = 1\n}\n"),
    (4159, 1, true, "vg {\nseqno = 1\n}\n"),
    (4137, 1, true, "Place"),
    (4137, 16, true, "Place"),
    (4144, 0, true, "Place"),
    (4145, 14, true, "Place"),
    (4152, 0, true, "Checksum"),
    (4608, 0, false, "Checksum"),
    (8187, 0, false, "Checksum"),
];

/// Where an area begins and how long it is, with what reading its ring gives.
const PLACES: [(u64, u64, &str); 7] = [
    (4097, 4096, "Place"),
    (4096, 4095, "Place"),
    (4096, 512, "Place"),
    (4096, 8704, "Place"),
    (18446744073709551104, 4096, "Place"),
    (0, 67109376, "Place"),
    (4096, 8192, "Header"),
];

pub(crate) fn put(image: &mut [u8; 12288], at: usize, bytes: &[u8])
    requires { at + length bytes.now ≤ 12288 }
{
    image[at..at + bytes.len()].copy_from_slice(bytes);
}

/// The label in sector 1, with one data area and the two metadata areas.
fn put_label(image: &mut [u8; 12288]) {
    put(image, 512, b"LABELONE");
    put(image, 520, &[1]);
    put(image, 528, &[0x64, 0xF3, 0xD7, 0xB7]);
    put(image, 532, &[32]);
    put(image, 536, b"LVM2 001");
    put(image, 544, &ID);
    put(image, 576, &[0, 48]);
    put(image, 584, &[0, 0, 16]);
    put(image, 616, &[0, 16]);
    put(image, 624, &[0, 16]);
    put(image, 632, &[0, 32]);
    put(image, 640, &[0, 16]);
}

/// The first area, whose text begins 6 bytes before its end, and the second, whose text begins behind the header.
fn put_areas(image: &mut [u8; 12288]) {
    put(image, 4096, &[0x15, 0x68, 0xB0, 0xCD]);
    put(image, 4100, b" LVM2 x[5A%r0N*>");
    put(image, 4116, &[1, 0, 0, 0, 0, 16]);
    put(image, 4128, &[0, 16]);
    put(image, 4136, &[0xFA, 0x0F]);
    put(image, 4144, &[20]);
    put(image, 4152, &[0xA8, 0x45, 0x60, 0x88]);
    put(image, 8186, b"vg {\ns");
    put(image, 4608, b"eqno = 1\n}\n");
    put(image, 8192, &[0xD1, 0x76, 0x0A, 0x14]);
    put(image, 8196, b" LVM2 x[5A%r0N*>");
    put(image, 8212, &[1, 0, 0, 0, 0, 32]);
    put(image, 8224, &[0, 16]);
    put(image, 8232, &[0, 2]);
    put(image, 8240, &[20]);
    put(image, 8248, &[0xA8, 0x45, 0x60, 0x88]);
    put(image, 8704, b"vg {\nseqno = 1\n}\n");
}

/// The volume with that byte changed, and the two checksums made right if they are to be.
pub(crate) fn image_with(at: usize, byte: u8, sealed: bool) -> [u8; 12288] {
    let mut image = [0; 12288];
    put_label(&mut image);
    put_areas(&mut image);
    if at < 12288 {
        image[at] = byte;
    }
    if sealed {
        let label = crc32_lvm(&image[532..1024]).to_le_bytes();
        put(&mut image, 528, &label);
        let header = crc32_lvm(&image[4100..4608]).to_le_bytes();
        put(&mut image, 4096, &header);
    }
    image
}

pub(crate) fn volume(
    alloc: Global,
    image: &[u8; 12288],
    failing: Option<u64>,
) -> Result<ByteDisk, Fail>
    ensures { IfOk result (λ disk. disk.sectors ≡ 24) }
{
    let bytes = Vec::from_slice(alloc, image.as_slice())?;
    Ok(ByteDisk::new(bytes, 24, failing))
}

fn answer(alloc: Global, disk: &mut ByteDisk, label: &Label, area: u32) -> Result<String, Fail>
    requires few { disk.old.sectors ≤ 2 ^ 31 }
    requires has { HasArea label.now area }
{
    match read_ring(alloc, disk, label, area) {
        Err(fault) => Ok(format!(in alloc; "{fault}")?),
        Ok(ring) => {
            let text = std::str::from_utf8(ring.text()).unwrap_or("?");
            Ok(String::from_str(alloc, text)?)
        }
    }
}

#[test]
fn finds_a_label_where_each_field_is_right(rt: HostRuntime) -> Result<(), Fail> {
    let alloc = rt.alloc();
    for (at, byte, sealed, expected) in LABELS {
        let mut disk = volume(alloc, &image_with(at, byte, sealed), None)?;
        let found = read_label(&mut disk, &mut [0; 2048])
            .ok()
            .ok_or("the disk is read")?;
        assert_eq!(rt; found.is_some(), expected, "{at} {byte}");
    }
    let mut disk = volume(alloc, &image_with(12288, 0, false), None)?;
    let found = read_label(&mut disk, &mut [0; 2048])
        .ok()
        .ok_or("the disk is read")?;
    assert_eq!(rt; found, Some(LABEL));
    one_label();
    ring_or_fault();
    let mut failing = volume(alloc, &image_with(12288, 0, false), Some(0))?;
    assert!(rt; read_label(&mut failing, &mut [0; 2048]).is_err());
    Ok(())
}

#[test]
fn reads_a_ring_or_tells_its_first_fault(rt: HostRuntime) -> Result<(), Fail> {
    let alloc = rt.alloc();
    for (at, byte, sealed, expected) in RINGS {
        let mut disk = volume(alloc, &image_with(at, byte, sealed), None)?;
        let given = answer(alloc, &mut disk, &LABEL, 0)?;
        assert_eq!(rt; given.as_str(), expected, "{at} {byte}");
    }
    for (start, length, expected) in PLACES {
        let mut disk = volume(alloc, &image_with(12288, 0, false), None)?;
        let label = Label {
            start,
            length,
            ..LABEL
        };
        let given = answer(alloc, &mut disk, &label, 0)?;
        assert_eq!(rt; given.as_str(), expected, "{start} {length}");
    }
    Ok(())
}

#[test]
fn reads_the_second_area_and_names_what_hinders(rt: HostRuntime) -> Result<(), Fail> {
    let alloc = rt.alloc();
    let mut image = image_with(12288, 0, false);
    let mut disk = volume(alloc, &image, None)?;
    let ring = read_ring(alloc, &mut disk, &LABEL, 1)
        .ok()
        .ok_or("there is a ring")?;
    assert_eq!(rt; ring.text(), b"vg {\nseqno = 1\n}\n".as_slice());
    assert_eq!(rt; (ring.offset(), ring.length()), (8192, 4096));
    for number in 0..2 {
        let mut failing = volume(alloc, &image, Some(number))?;
        let given = answer(alloc, &mut failing, &LABEL, 1)?;
        assert_eq!(rt; given.as_str(), "Device", "{number}");
    }
    put(&mut image, 8232, &[0; 16]);
    let header = crc32_lvm(&image[8196..8704]).to_le_bytes();
    put(&mut image, 8192, &header);
    let mut empty = volume(alloc, &image, None)?;
    assert_eq!(rt; answer(alloc, &mut empty, &LABEL, 1)?.as_str(), "Empty");
    put(&mut image, 8252, &[1]);
    let again = crc32_lvm(&image[8196..8704]).to_le_bytes();
    put(&mut image, 8192, &again);
    let mut ignored = volume(alloc, &image, None)?;
    assert_eq!(rt; answer(alloc, &mut ignored, &LABEL, 1)?.as_str(), "Ignored");
    Ok(())
}
