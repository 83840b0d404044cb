//! What is written for the target of an MBR, byte by byte.
ghost use Rattle.std.specs.Prelude.{◌≡◌, IfOk, length};
ghost use Rattle.target_table.specs.Planned.{IsSomePlan};

use disk_base::ByteDisk;
use guest_view::{Guest, InspectFault, Table, inspect};
use layout_plan::{Layout, NoPlan, Planned, What, Wish, plan};
use std::alloc::{AllocError, Global};
use std::test::Fail;
use target_table::{TableSectors, table_for};

/// The sectors of source and target.
const SECTORS: u64 = 65536;

/// A layout by 64 KiB that makes a partition of what is left over.
pub(crate) const LAYOUT: Layout = Layout {
    align: 128,
    always: false,
    extra: true,
};

/// An entry that isn't used.
const NONE: [u8; 16] = [0; 16];

/// Entries of a sector, from byte 446 on.
type Entries = [[u8; 16]; 4];

/// The sectors up to the last record.
fn zeros(alloc: Global) -> Result<Vec<u8>, AllocError>
    ensures { IfOk result (λ image. length image.items ≡ 11534848) }
{
    vec![in alloc; 0; 11534848]
}

/// An entry of that type, by its first sector and count.
fn entry(kind: u8, start: u32, count: u32) -> [u8; 16] {
    let [a, b, c, d] = start.to_le_bytes();
    let [e, f, g, h] = count.to_le_bytes();
    [
        0, 0xFE, 0xFF, 0xFF, kind, 0xFE, 0xFF, 0xFF, a, b, c, d, e, f, g, h,
    ]
}

/// A sector with these entries and the signature.
fn sector_with(entries: &Entries) -> [u8; 512] {
    let mut bytes = [0; 512];
    for (i, entry) in entries.iter().enumerate() {
        bytes[446 + 16 * i..462 + 16 * i].copy_from_slice(entry);
    }
    bytes[510] = 0x55;
    bytes[511] = 0xAA;
    bytes
}

/// Puts entries into their sectors.
fn put_entries(image: &mut [u8], written: &[(u16, Entries)]) {
    for (at, entries) in written {
        let start = 512 * usize::from(*at);
        if start + 512 <= image.len() {
            image[start..start + 512].copy_from_slice(&sector_with(entries));
        }
    }
}

/// The guest of a disk with these entries in these sectors.
fn guest_with(alloc: Global, written: &[(u16, Entries)]) -> Result<Guest, InspectFault> {
    let mut image = zeros(alloc)?;
    put_entries(image.as_mut_slice(), written);
    inspect(alloc, &mut ByteDisk::new(image, SECTORS, None))
}

/// The plan of a copy of a guest.
fn plan_of(alloc: Global, guest: &Guest, wishes: &[Wish]) -> Result<Planned, NoPlan>
    ensures { IfOk result (λ planned. IsSomePlan guest.now 65536 planned) }
{
    let kind = guest.table().kind();
    let parts = guest.parts_to_plan(alloc)?;
    let planned = plan(alloc, kind, parts.as_slice(), wishes, &LAYOUT, SECTORS)?;
    Ok(planned)
}

/// The sectors of the target of a guest with an MBR.
fn sectors_of(alloc: Global, guest: &Guest, planned: &Planned) -> Result<TableSectors, AllocError>
    requires { IsSomePlan guest.now 65536 planned.now }
{
    match guest.table() {
        Table::Mbr(mbr) => table_for(alloc, guest, planned, mbr.head(), SECTORS),
        Table::Gpt(_) => Err(AllocError),
    }
}

/// A partition isn't made.
fn delete(part: u32) -> Wish {
    Wish {
        place: 0,
        part,
        what: What::Delete,
    }
}

#[test]
fn a_lone_slot_gets_one_beside_it(rt: HostRuntime) -> Result<(), Fail> {
    let alloc = rt.alloc();
    let guest = guest_with(alloc, &[(0, [entry(0x83, 2048, 20480), NONE, NONE, NONE])])?;
    let planned = plan_of(alloc, &guest, &[])?;
    let made = sectors_of(alloc, &guest, &planned)?;
    let slots = [
        [
            0x00, 0xFE, 0xFF, 0xFF, 0x83, 0xFE, 0xFF, 0xFF, 0x00, 0x08, 0x00, 0x00, 0x00, 0x50,
            0x00, 0x00,
        ],
        [
            0x00, 0xFE, 0xFF, 0xFF, 0x83, 0xFE, 0xFF, 0xFF, 0x00, 0x58, 0x00, 0x00, 0x00, 0xA8,
            0x00, 0x00,
        ],
        NONE,
        NONE,
    ];
    assert_eq!(rt; made.first, sector_with(&slots));
    assert!(rt; made.writes.is_empty());
    Ok(())
}

#[test]
fn a_chain_without_its_second_is_closed_up(rt: HostRuntime) -> Result<(), Fail> {
    let alloc = rt.alloc();
    let own = entry(0x83, 128, 10000);
    let written = [
        (0, [entry(0x05, 2048, 40960), NONE, NONE, NONE]),
        (2048, [own, entry(0x05, 10240, 10128), NONE, NONE]),
        (12288, [own, entry(0x05, 20480, 10128), NONE, NONE]),
        (22528, [own, NONE, NONE, NONE]),
    ];
    let guest = guest_with(alloc, &written)?;
    let planned = plan_of(alloc, &guest, &[delete(6)])?;
    let made = sectors_of(alloc, &guest, &planned)?;
    let slots = [
        entry(0x05, 2048, 20368),
        entry(0x83, 22528, 43008),
        NONE,
        NONE,
    ];
    assert_eq!(rt; made.first, sector_with(&slots));
    let first = [own, entry(0x05, 10240, 10128), NONE, NONE];
    let second = [own, NONE, NONE, NONE];
    let records = [(2048, sector_with(&first)), (12288, sector_with(&second))];
    assert_eq!(rt; made.writes.len(), 2);
    for (write, (at, bytes)) in made.writes.iter().zip(&records) {
        assert_eq!(rt; write.at, *at);
        assert_eq!(rt; write.bytes.bytes(), bytes.as_slice());
    }
    Ok(())
}

#[test]
fn no_chain_is_left_without_logical_partitions(rt: HostRuntime) -> Result<(), Fail> {
    let alloc = rt.alloc();
    let own = entry(0x83, 128, 10000);
    let written = [
        (0, [entry(0x05, 2048, 40960), NONE, NONE, NONE]),
        (2048, [own, entry(0x05, 10240, 10128), NONE, NONE]),
        (12288, [own, entry(0x05, 20480, 10128), NONE, NONE]),
        (22528, [own, NONE, NONE, NONE]),
    ];
    let guest = guest_with(alloc, &written)?;
    let planned = plan_of(alloc, &guest, &[delete(5), delete(6), delete(7)])?;
    let made = sectors_of(alloc, &guest, &planned)?;
    let slots = [entry(0x83, 128, 65408), NONE, NONE, NONE];
    assert_eq!(rt; made.first, sector_with(&slots));
    assert!(rt; made.writes.is_empty());
    Ok(())
}
