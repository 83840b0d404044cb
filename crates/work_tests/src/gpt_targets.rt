//! What is written for the target of a GUID partition table, by its bytes. The sums and the identifiers that are wanted
//! were computed by Python's zlib and uuid.
ghost use Rattle.std.specs.Prelude.{◌≡◌, IfOk, length};
ghost use Rattle.target_table.specs.Planned.{IsSomePlan};

use crate::mbr_targets::LAYOUT;
use disk_base::{ByteDisk, crc32, little_u32, little_u64};
use gpt_table::{Entry, Gpt, gpt_entries, gpt_header, protective_sector};
use guest_view::{Guest, InspectFault, inspect};
use layout_plan::{NoPlan, Planned, plan};
use std::alloc::{AllocError, Global};
use std::test::Fail;
use target_table::{TableSectors, table_for};
use uuid::Uuid;

/// The sectors of the source.
const SOURCE: u64 = 65536;

/// The sectors of the target.
const TARGET: u64 = 131072;

/// 11223344-5566-7788-99AA-BBCCDDEEFF00.
const DISK: [u8; 16] = [
    0x11, 0x22, 0x33, 0x44, 0x55, 0x66, 0x77, 0x88, 0x99, 0xAA, 0xBB, 0xCC, 0xDD, 0xEE, 0xFF, 0x00,
];

/// EBD0A0A2-B9E5-4433-87C0-68B6B72699C7.
const DATA: [u8; 16] = [
    0xEB, 0xD0, 0xA0, 0xA2, 0xB9, 0xE5, 0x44, 0x33, 0x87, 0xC0, 0x68, 0xB6, 0xB7, 0x26, 0x99, 0xC7,
];

/// 00112233-4455-6677-8899-AABBCCDDEEFF.
const OWN: [u8; 16] = [
    0x00, 0x11, 0x22, 0x33, 0x44, 0x55, 0x66, 0x77, 0x88, 0x99, 0xAA, 0xBB, 0xCC, 0xDD, 0xEE, 0xFF,
];

/// 31D8D6F1-E9FF-5E88-B866-E792EBEC701A, by `uuid5(DISK, "extra")`.
const EXTRA: [u8; 16] = [
    0x31, 0xD8, 0xD6, 0xF1, 0xE9, 0xFF, 0x5E, 0x88, 0xB8, 0x66, 0xE7, 0x92, 0xEB, 0xEC, 0x70, 0x1A,
];

/// The first 48 bytes of entry 2: its kind, its identifier, 22528 and 131038.
const SECOND: [u8; 48] = [
    0xAF, 0x3D, 0xC6, 0x0F, 0x83, 0x84, 0x72, 0x47, 0x8E, 0x79, 0x3D, 0x69, 0xD8, 0x47, 0x7D, 0xE4,
    0xF1, 0xD6, 0xD8, 0x31, 0xFF, 0xE9, 0x88, 0x5E, 0xB8, 0x66, 0xE7, 0x92, 0xEB, 0xEC, 0x70, 0x1A,
    0x00, 0x58, 0x00, 0x00, 0x00, 0x00, 0x00, 0x00, 0xDE, 0xFF, 0x01, 0x00, 0x00, 0x00, 0x00, 0x00,
];

/// Its identifier where entry 1 has that one: 3B099908-20BE-53C3-A787-ABA01995BAF9, by `uuid5(EXTRA, "extra")`.
const NEXT: [u8; 16] = [
    0x08, 0x99, 0x09, 0x3B, 0xBE, 0x20, 0xC3, 0x53, 0xA7, 0x87, 0xAB, 0xA0, 0x19, 0x95, 0xBA, 0xF9,
];

/// `data` in UTF-16.
const NAME: [u8; 8] = [0x64, 0, 0x61, 0, 0x74, 0, 0x61, 0];

fn zeros(alloc: Global) -> Result<Vec<u8>, AllocError>
    ensures { IfOk result (λ image. length image.items ≡ 17408) }
{
    vec![in alloc; 0; 17408]
}

/// Puts bytes into an image where they fit.
fn put(image: &mut [u8], at: usize, bytes: &[u8]) {
    if at <= image.len() && bytes.len() <= image.len() - at {
        image[at..at + bytes.len()].copy_from_slice(bytes);
    }
}

fn array_of(gpt: &Gpt) -> [u8; 16384] {
    let mut array = [0; 16384];
    gpt_entries(gpt, &mut array);
    array
}

/// Puts a table into the first 34 sectors of a disk.
fn put_table(image: &mut [u8], gpt: &Gpt) {
    let mut sector = [0; 512];
    protective_sector(&[0; 446], SOURCE, &mut sector);
    put(image, 0, &sector);
    let array = array_of(gpt);
    gpt_header(gpt, SOURCE, false, crc32(&array), &mut sector);
    put(image, 512, &sector);
    put(image, 1024, &array);
}

/// The guest of a disk whose entry 1, of that identifier, is from 2048 to 22527.
fn guest_with(alloc: Global, id: [u8; 16]) -> Result<Guest, InspectFault> {
    let mut name = [0; 72];
    put(&mut name, 0, &NAME);
    let mut gpt = Gpt::new(alloc, Uuid::from_bytes(DISK))?;
    gpt.set(
        1,
        Entry {
            kind: Uuid::from_bytes(DATA),
            id: Uuid::from_bytes(id),
            first: 2048,
            last: 22527,
            flags: 4,
            name,
        },
    );
    let mut image = zeros(alloc)?;
    put_table(image.as_mut_slice(), &gpt);
    inspect(alloc, &mut ByteDisk::new(image, SOURCE, None))
}

/// The plan of a copy of a guest.
fn plan_of(alloc: Global, guest: &Guest) -> Result<Planned, NoPlan>
    ensures { IfOk result (IsSomePlan guest.now 131072) }
{
    let kind = guest.table().kind();
    let parts = guest.parts_to_plan(alloc)?;
    let planned = plan(alloc, kind, parts.as_slice(), &[], &LAYOUT, TARGET)?;
    Ok(planned)
}

/// The bytes of a write.
fn bytes_of(made: &TableSectors, i: usize) -> &[u8] {
    match made.writes.get(i) {
        Some(write) => write.bytes.bytes(),
        None => &[],
    }
}

/// The numbers of 8 bytes of a header: its place, that of the other one, the usable sectors, and its array's place.
fn longs(header: &[u8]) -> [u64; 5] {
    let mut found = [0; 5];
    for (number, at) in found.iter_mut().zip([24, 32, 40, 48, 72]) {
        if at + 8 <= header.len() {
            *number = little_u64(header, at);
        }
    }
    found
}

/// The numbers of 4 bytes: revision, size, checksum, entries, their size, and the array's checksum.
fn numbers(header: &[u8]) -> [u32; 6] {
    let mut found = [0; 6];
    for (number, at) in found.iter_mut().zip([8, 12, 16, 80, 84, 88]) {
        if at + 4 <= header.len() {
            *number = little_u32(header, at);
        }
    }
    found
}

#[test]
fn both_headers_are_those_of_the_target(rt: HostRuntime) -> Result<(), Fail> {
    let alloc = rt.alloc();
    let guest = guest_with(alloc, OWN)?;
    let planned = plan_of(alloc, &guest)?;
    let made = table_for(alloc, &guest, &planned, &[7; 446], TARGET)?;
    let places = [131039, 131071, 2, 1];
    assert_eq!(rt; made.writes.len(), 4);
    for (write, at) in made.writes.iter().zip(places) {
        assert_eq!(rt; write.at, at);
    }
    let disk = [
        0x44, 0x33, 0x22, 0x11, 0x66, 0x55, 0x88, 0x77, 0x99, 0xAA, 0xBB, 0xCC, 0xDD, 0xEE, 0xFF,
        0x00,
    ];
    let cases = [
        (1, [131071, 1, 34, 131038, 131039], 0x2765_FFCF),
        (3, [1, 131071, 34, 131038, 2], 0xA969_330A),
    ];
    for (i, placed, sum) in cases {
        let header = bytes_of(&made, i);
        assert_eq!(rt; header.len(), 512);
        assert_eq!(rt; header.get(..8), Some(b"EFI PART".as_slice()));
        assert_eq!(rt; header.get(56..72), Some(disk.as_slice()));
        assert_eq!(rt; longs(header), placed);
        assert_eq!(rt; numbers(header), [0x10000, 92, sum, 128, 128, 0x089B_096C]);
    }
    Ok(())
}

#[test]
fn the_entries_are_the_old_one_and_one_beside_it(rt: HostRuntime) -> Result<(), Fail> {
    let alloc = rt.alloc();
    let guest = guest_with(alloc, OWN)?;
    let planned = plan_of(alloc, &guest)?;
    let made = table_for(alloc, &guest, &planned, &[7; 446], TARGET)?;
    let first = [
        0xA2, 0xA0, 0xD0, 0xEB, 0xE5, 0xB9, 0x33, 0x44, 0x87, 0xC0, 0x68, 0xB6, 0xB7, 0x26, 0x99,
        0xC7, 0x33, 0x22, 0x11, 0x00, 0x55, 0x44, 0x77, 0x66, 0x88, 0x99, 0xAA, 0xBB, 0xCC, 0xDD,
        0xEE, 0xFF, 0x00, 0x08, 0x00, 0x00, 0x00, 0x00, 0x00, 0x00, 0xFF, 0x57, 0x00, 0x00, 0x00,
        0x00, 0x00, 0x00, 0x04, 0x00, 0x00, 0x00, 0x00, 0x00, 0x00, 0x00,
    ];
    for i in [0, 2] {
        let array = bytes_of(&made, i);
        assert_eq!(rt; array.len(), 16384);
        assert_eq!(rt; array.get(..56), Some(first.as_slice()));
        assert_eq!(rt; array.get(56..64), Some(NAME.as_slice()));
        assert_eq!(rt; array.get(128..176), Some(SECOND.as_slice()));
        assert!(rt; array.iter().skip(176).all(|byte| *byte == 0));
    }
    Ok(())
}

#[test]
fn sector_0_keeps_its_head_and_names_the_rest(rt: HostRuntime) -> Result<(), Fail> {
    let alloc = rt.alloc();
    let guest = guest_with(alloc, OWN)?;
    let planned = plan_of(alloc, &guest)?;
    let made = table_for(alloc, &guest, &planned, &[7; 446], TARGET)?;
    let slot = [
        0x00, 0x00, 0x02, 0x00, 0xEE, 0xFF, 0xFF, 0xFF, 0x01, 0x00, 0x00, 0x00, 0xFF, 0xFF, 0x01,
        0x00,
    ];
    let mut wanted = [0; 512];
    put(&mut wanted, 0, &[7; 446]);
    put(&mut wanted, 446, &slot);
    put(&mut wanted, 510, &[0x55, 0xAA]);
    assert_eq!(rt; made.first, wanted);
    Ok(())
}

#[test]
fn an_identifier_that_an_entry_has_is_passed_over(rt: HostRuntime) -> Result<(), Fail> {
    let alloc = rt.alloc();
    let guest = guest_with(alloc, EXTRA)?;
    let planned = plan_of(alloc, &guest)?;
    let made = table_for(alloc, &guest, &planned, &[7; 446], TARGET)?;
    assert_eq!(rt; bytes_of(&made, 2).get(16..32), SECOND.get(16..32));
    assert_eq!(rt; bytes_of(&made, 2).get(144..160), Some(NEXT.as_slice()));
    Ok(())
}
