//! What stands on the disks here: slots of a table, swap areas, and physical volumes.

use disk_base::crc32_lvm;
use disk_fixtures::Built;

/// A slot of a table or of a record of its chain, as type, first sector and count.
pub(crate) type Slot = (u8, u32, u32);

/// A metadata area of a physical volume, as its first sector there, its bytes, and its text, which stands behind its
/// first sector.
pub(crate) type Area<'a> = (u16, u64, &'a str);

/// Puts slots and the signature into a sector.
pub(crate) fn put_slots(disk: &mut Built, sector: u16, slots: &[Slot]) {
    let start = 512 * usize::from(sector);
    for (i, (kind, first, count)) in slots.iter().take(4).enumerate() {
        disk.put(start + 450 + 16 * i, &[*kind]);
        disk.put(start + 454 + 16 * i, &first.to_le_bytes());
        disk.put(start + 458 + 16 * i, &count.to_le_bytes());
    }
    disk.put(start + 510, &[0x55, 0xAA]);
}

/// Puts the head of a swap area from that sector on.
pub(crate) fn put_swap(disk: &mut Built, sector: u16, last_page: u32) {
    let start = 512 * usize::from(sector);
    disk.put(start + 1024, &[1]);
    disk.put(start + 1028, &last_page.to_le_bytes());
    disk.put(start + 4086, b"SWAPSPACE2");
}

// Puts bytes into others where they fit.
fn put(out: &mut [u8], at: usize, bytes: &[u8]) {
    if at <= out.len() && bytes.len() <= out.len() - at {
        out[at..at + bytes.len()].copy_from_slice(bytes);
    }
}

// The places and lengths of one or two areas.
fn area_places(areas: &[Area]) -> [u8; 32] {
    let mut places = [0; 32];
    for (k, (sector, length, _)) in areas.iter().take(2).enumerate() {
        let start = 512 * u64::from(*sector);
        put(&mut places, 16 * k, &start.to_le_bytes());
        put(&mut places, 16 * k + 8, &length.to_le_bytes());
    }
    places
}

// The label that stands in that sector of a physical volume, with a data area from sector 16 on.
fn label_sector(id: u8, number: u8, areas: &[Area]) -> [u8; 512] {
    let mut sector = [0; 512];
    put(&mut sector, 0, b"LABELONE");
    put(&mut sector, 8, &[number]);
    put(&mut sector, 20, &[32]);
    put(&mut sector, 24, b"LVM2 001");
    put(&mut sector, 32, &[id; 32]);
    put(&mut sector, 72, &[0, 32]);
    put(&mut sector, 104, &area_places(areas));
    let checksum = crc32_lvm(&sector[20..]).to_le_bytes();
    put(&mut sector, 16, &checksum);
    sector
}

// The first sector of an area. It names no text where that is empty.
fn area_sector(area: &Area) -> [u8; 512] {
    let (first, length, text) = *area;
    let start = 512 * u64::from(first);
    let mut sector = [0; 512];
    put(&mut sector, 4, b" LVM2 x[5A%r0N*>");
    put(&mut sector, 20, &[1]);
    put(&mut sector, 24, &start.to_le_bytes());
    put(&mut sector, 32, &length.to_le_bytes());
    if !text.is_empty() {
        put(&mut sector, 40, &[0, 2]);
    }
    put(&mut sector, 48, &(text.len() as u64).to_le_bytes());
    put(&mut sector, 56, &crc32_lvm(text.as_bytes()).to_le_bytes());
    let checksum = crc32_lvm(&sector[4..]).to_le_bytes();
    put(&mut sector, 0, &checksum);
    sector
}

fn put_area(disk: &mut Built, sector: u16, area: &Area) {
    let (first, _, text) = *area;
    let start = 512 * (usize::from(sector) + usize::from(first));
    disk.put(start, &area_sector(area));
    disk.put(start + 512, text.as_bytes());
}

/// Puts a physical volume from that sector on, with that byte as its identifier, and its label in its sector `label`.
pub(crate) fn put_physical(disk: &mut Built, sector: u16, id: u8, label: u8, areas: &[Area]) {
    let start = 512 * (usize::from(sector) + usize::from(label));
    disk.put(start, &label_sector(id, label, areas));
    for area in areas {
        put_area(disk, sector, area);
    }
}
