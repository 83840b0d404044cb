ghost use Rattle.std.specs.Prelude.{◌≡◌, IfOk, length};

use disk_base::{ByteDisk, crc32};
use gpt_table::{Entry, Gpt, gpt_entries, gpt_header};
use guest_view::*;
use layout_plan::{Kind, Role};
use std::alloc::{AllocError, Global};
use std::test::*;
use uuid::Uuid;
use volume_content::Why;

// The sectors of the disks here.
const SECTORS: u64 = 400;

// A slot of a table or of a record of its chain, as type, first sector and count.
type Slot = (u8, u32, u32);

// A partition, as number, role, first sector and count.
type Row = (u32, Role, u64, u64);

fn zeros(alloc: Global) -> Result<Vec<u8>, AllocError>
    ensures { IfOk result (λ image. length image.items ≡ 204800) }
{
    vec![in alloc; 0; 204800]
}

// Puts bytes into an image where they fit.
fn put(image: &mut [u8], at: usize, bytes: &[u8]) {
    if at <= image.len() && bytes.len() <= image.len() - at {
        image[at..at + bytes.len()].copy_from_slice(bytes);
    }
}

// Puts slots and the signature into a sector.
fn put_slots(image: &mut [u8], sector: u16, slots: &[Slot]) {
    let start = 512 * usize::from(sector);
    for (i, (kind, first, count)) in slots.iter().take(4).enumerate() {
        put(image, start + 450 + 16 * i, &[*kind]);
        put(image, start + 454 + 16 * i, &first.to_le_bytes());
        put(image, start + 458 + 16 * i, &count.to_le_bytes());
    }
    put(image, start + 510, &[0x55, 0xAA]);
}

// A disk on which these slots stand in these sectors.
fn disk_with(
    alloc: Global,
    written: &[(u16, &[Slot])],
    failing: Option<u64>,
) -> Result<ByteDisk, AllocError> {
    let mut image = zeros(alloc)?;
    for (sector, slots) in written {
        put_slots(image.as_mut_slice(), *sector, slots);
    }
    Ok(ByteDisk::new(image, SECTORS, failing))
}

fn rows_of(alloc: Global, guest: &Guest) -> Result<Vec<Row>, AllocError> {
    let mut rows = Vec::new(alloc);
    for part in guest.parts() {
        rows.push((part.number, part.role, part.start, part.count))?;
    }
    Ok(rows)
}

// Whether a partition is the extended one, or holds what is of no kind that is read.
fn holds_nothing_known(part: &GuestPart) -> bool {
    match (part.role, &part.content) {
        (Role::Extended, Content::Extended) => true,
        (Role::Slot | Role::Logical, Content::Unread(Why::Other)) => true,
        _ => false,
    }
}

const CHAIN: [(u16, &[Slot]); 3] = [
    (0, &[(0x83, 1, 50), (0x05, 64, 300)]),
    (64, &[(0x83, 8, 50), (0x05, 100, 100)]),
    (164, &[(0x82, 8, 50)]),
];

#[test]
fn partitions_stand_by_number(rt: HostRuntime) -> Result<(), Fail> {
    let alloc = rt.alloc();
    let cases: [(&[(u16, &[Slot])], &[Row]); 3] = [
        (&[(0, &[])], &[]),
        (
            &[(0, &[(0, 0, 0), (0x83, 60, 10), (0x07, 10, 50)])],
            &[(2, Role::Slot, 60, 10), (3, Role::Slot, 10, 50)],
        ),
        (
            &CHAIN,
            &[
                (1, Role::Slot, 1, 50),
                (2, Role::Extended, 64, 300),
                (5, Role::Logical, 72, 50),
                (6, Role::Logical, 172, 50),
            ],
        ),
    ];
    for (written, rows) in cases {
        let mut disk = disk_with(alloc, written, None)?;
        let guest = inspect(alloc, &mut disk)?;
        assert_eq!(rt; rows_of(alloc, &guest)?.as_slice(), rows);
        assert_eq!(rt; guest.sectors(), 400);
        assert_eq!(rt; guest.table().kind(), Kind::Mbr);
        for part in guest.parts() {
            assert!(rt; holds_nothing_known(part));
        }
        for part in guest.parts_to_plan(alloc)?.as_slice() {
            assert_eq!(rt; part.content, part.count);
        }
    }
    Ok(())
}

#[test]
fn a_disk_that_is_no_guest_has_its_fault(rt: HostRuntime) -> Result<(), Fail> {
    let alloc = rt.alloc();
    let cases: [(&[(u16, &[Slot])], InspectFault, &str); 9] = [
        (&[], InspectFault::NoSignature, "NoSignature"),
        (
            &[(0, &[(0x83, 10, 391)])],
            InspectFault::Entry { number: 1 },
            "Entry number=1",
        ),
        (
            &[(0, &[(0x83, 10, 100), (0x83, 200, 10), (0x83, 109, 1)])],
            InspectFault::Overlap { a: 1, b: 3 },
            "Overlap a=1 b=3",
        ),
        (
            &[
                (0, &[(0x05, 64, 300)]),
                (64, &[(0x83, 8, 50), (0x05, 0, 100)]),
            ],
            InspectFault::Chain { at: 64 },
            "Chain at=64",
        ),
        (
            &[(0, &[(0x05, 64, 300), (0x83, 363, 10)]), (64, &[])],
            InspectFault::Overlap { a: 1, b: 2 },
            "Overlap a=1 b=2",
        ),
        (
            &[
                (0, &[(0x05, 64, 300)]),
                (64, &[(0x83, 8, 93), (0x05, 100, 100)]),
                (164, &[(0x83, 8, 50)]),
            ],
            InspectFault::Overlap { a: 5, b: 6 },
            "Overlap a=5 b=6",
        ),
        (
            &[
                (0, &[(0x05, 64, 300)]),
                (64, &[(0x83, 108, 50), (0x05, 100, 100)]),
                (164, &[(0x83, 57, 50)]),
            ],
            InspectFault::Overlap { a: 5, b: 6 },
            "Overlap a=5 b=6",
        ),
        (
            &[(0, &[(0x83, 10, 391), (0xEE, 1, 399)])],
            InspectFault::NoHeader,
            "NoHeader",
        ),
        (
            &[(0, &[(0x05, 64, 300), (0x0F, 370, 10)])],
            InspectFault::Entry { number: 2 },
            "Entry number=2",
        ),
    ];
    for (written, fault, text) in cases {
        let mut disk = disk_with(alloc, written, None)?;
        assert_eq!(rt; inspect(alloc, &mut disk).err(), Some(fault));
        assert_eq!(rt; format!(in alloc; "{fault}")?.as_str(), text);
    }
    Ok(())
}

// Sector 0 for its kind and for its slots, two records of the chain, and of the three partitions but the extended one
// their label, their first sector and their first page.
const READS: u64 = 2 + 2 + 3 * 3;

#[test]
fn each_read_may_fail(rt: HostRuntime) -> Result<(), Fail> {
    let alloc = rt.alloc();
    for number in 0..READS {
        let mut disk = disk_with(alloc, &CHAIN, Some(number))?;
        assert_eq!(rt; inspect(alloc, &mut disk).err(), Some(InspectFault::Device));
    }
    let mut disk = disk_with(alloc, &CHAIN, Some(READS))?;
    assert!(rt; inspect(alloc, &mut disk).is_ok());
    Ok(())
}

fn entry(first: u64, last: u64) -> Entry {
    Entry {
        kind: Uuid::from_bytes([1; 16]),
        id: Uuid::from_bytes([2; 16]),
        first,
        last,
        flags: 0,
        name: [0; 72],
    }
}

// A disk with a GPT of two entries.
fn gpt_disk(alloc: Global, one: Entry, other: Entry) -> Result<ByteDisk, AllocError> {
    let mut gpt = Gpt::new(alloc, Uuid::from_bytes([3; 16]))?;
    gpt.set(1, one);
    gpt.set(128, other);
    let mut array = [0; 16384];
    gpt_entries(&gpt, &mut array);
    let mut header = [0; 512];
    gpt_header(&gpt, SECTORS, false, crc32(&array), &mut header);
    let mut image = zeros(alloc)?;
    put_slots(image.as_mut_slice(), 0, &[(0xEE, 1, 399)]);
    put(image.as_mut_slice(), 512, &header);
    put(image.as_mut_slice(), 1024, &array);
    Ok(ByteDisk::new(image, SECTORS, None))
}

#[test]
fn entries_of_a_gpt_are_partitions(rt: HostRuntime) -> Result<(), Fail> {
    let alloc = rt.alloc();
    let mut disk = gpt_disk(alloc, entry(40, 99), entry(100, 366))?;
    let guest = inspect(alloc, &mut disk)?;
    assert_eq!(rt; guest.table().kind(), Kind::Gpt);
    assert_eq!(rt;
        rows_of(alloc, &guest)?.as_slice(),
        [(1, Role::Slot, 40, 60), (128, Role::Slot, 100, 267)].as_slice()
    );
    let mut disk = gpt_disk(alloc, entry(40, 100), entry(100, 366))?;
    assert_eq!(rt;
        inspect(alloc, &mut disk).err(),
        Some(InspectFault::Overlap { a: 1, b: 128 })
    );
    let mut disk = gpt_disk(alloc, entry(40, 99), entry(100, 367))?;
    assert_eq!(rt;
        inspect(alloc, &mut disk).err(),
        Some(InspectFault::Entry { number: 128 })
    );
    Ok(())
}
