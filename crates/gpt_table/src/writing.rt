//! Writing the table.
ghost use Rattle.std.specs.Prelude.{◌≡◌, ℕ, ◌+◌, ◌^◌, ◌<◌, ◌≤◌, length, slice_index_or, Some, None, List};
ghost use Rattle.byteorder.specs.Endian.{little_bytes};
ghost use Rattle.uuid.specs.Parts.{swap_fields};
ghost use Rattle.disk_base.specs.Image.{with_bytes};
ghost use Rattle.gpt_table.specs.Entry.{slot_at, entry_of, used, kept_entry, slot_bytes};
ghost use Rattle.gpt_table.specs.Header.{header_place, array_written, start_bytes, rest_bytes, header_bytes, IsHeaderSector};
ghost use Rattle.gpt_table.specs.Gpt.{protective_bytes, array_bytes, IsReadWhereWritten};

use crate::entry::Entry;
use crate::gpt::Gpt;
use crate::header::{ENTRIES, ENTRY, FIRST_USABLE, HEADER, REVISION, SIGNATURE};
use disk_base::{SECTOR, crc32, put};
use uuid::Uuid;

/// How many sectors from the last usable one to the end the backup takes, and that one itself.
const BACKUP_SECTORS: u64 = 34;

/// Writes a number of 4 bytes from place `at` on, lowest byte first.
fn put_number(out: &mut [u8], at: usize, number: u32)
    requires { at + 4 ≤ length out.old }
    ensures { out.new ≡ with_bytes out.old at (little_bytes 4 number) }
{
    put(out, at, &number.to_le_bytes());
}

/// Writes a number of 8 bytes from place `at` on, lowest byte first.
fn put_long_number(out: &mut [u8], at: usize, number: u64)
    requires { at + 8 ≤ length out.old }
    ensures { out.new ≡ with_bytes out.old at (little_bytes 8 number) }
{
    put(out, at, &number.to_le_bytes());
}

/// The bytes of an identifier, the first three of its fields lowest byte first.
fn guid_bytes(guid: Uuid) -> [u8; 16]
    ensures bytes { result ≡ swap_fields guid }
    ensures long { length guid ≡ 16 }
{
    Uuid::from_bytes_le(guid.into_bytes()).into_bytes()
}

/// Writes an identifier from place `at` on.
fn put_guid(out: &mut [u8], at: usize, guid: Uuid)
    requires { at + 16 ≤ length out.old }
    ensures bytes { out.new ≡ with_bytes out.old at (swap_fields guid) }
    ensures long { length guid ≡ 16 }
{
    put(out, at, &guid_bytes(guid));
}

/// The bytes of a used entry.
fn entry_bytes(entry: &Entry) -> [u8; 128]
    ensures bytes { result ≡ slot_bytes (Some entry.now) }
    ensures read_back { entry_of result ≡ entry.now }
{
    let Entry {
        kind,
        id,
        first,
        last,
        flags,
        name,
    } = *entry;
    let mut out = [0; ENTRY as usize];
    put_guid(&mut out, 0, kind);
    put_guid(&mut out, 16, id);
    put_long_number(&mut out, 32, first);
    put_long_number(&mut out, 40, last);
    put_long_number(&mut out, 48, flags);
    put(&mut out, 56, &name);
    out
}

/// The bytes of an entry, all zero where none is used.
fn slot_bytes(slot: &Option<Entry>) -> [u8; 128]
    ensures bytes { result ≡ slot_bytes slot.now }
    ensures read_back { used (entry_of result) ≡ kept_entry slot.now }
    ensures long { length result ≡ 128 }
{
    match slot {
        Some(entry) => entry_bytes(entry),
        None => [0; ENTRY as usize],
    }
}

/// Makes sector 0 of a disk of that many sectors: one slot says that another table rules the disk (UEFI
/// specification, 5.2.3).
pub fn protective_sector(head: &[u8; 446], sectors: u64, out: &mut [u8; 512])
    requires { 68 ≤ sectors }
    ensures { out.new ≡ protective_bytes head.now sectors }
{
    let count = (sectors - 1).min(u64::from(u32::MAX)) as u32;
    put(out, 0, head);
    put(out, 446, &[0x00, 0x00, 0x02, 0x00, 0xEE, 0xFF, 0xFF, 0xFF]);
    put_number(out, 454, 1);
    put_number(out, 458, count);
    put(out, 462, &[0; 48]);
    put(out, 510, &[0x55, 0xAA]);
}

/// Makes the array of a table's entries. An entry whose kind is zero is read as unused. With the array
/// and the headers of [`gpt_header`] at their places, a disk is read as that table, where each entry has
/// a kind and lies in the usable sectors.
pub fn gpt_entries(gpt: &Gpt, out: &mut [u8; 16384])
    ensures bytes { out.new ≡ array_bytes gpt.now.entries }
    ensures read_back { (k : ℕ) → k < 128 → slot_at out.new k ≡ kept_entry (slice_index_or gpt.now.entries k None) }
    ensures table { IsReadWhereWritten gpt.now }
{
    // From here on it is known that the identifier has 16 bytes.
    let _disk = guid_bytes(gpt.disk());
    for (i, slot) in gpt.slots().iter().enumerate() {
        put(out, ENTRY as usize * i, &slot_bytes(slot));
    }
}

/// The sector of a header.
fn header_place(sectors: u64, backup: bool) -> u64
    requires { 68 ≤ sectors }
    ensures { result ≡ header_place sectors backup }
{
    if backup { sectors - 1 } else { 1 }
}

/// The first sector of a header's array.
fn array_place(sectors: u64, backup: bool) -> u64
    requires { 68 ≤ sectors }
    ensures { result ≡ array_written sectors backup }
{
    if backup { sectors - 33 } else { 2 }
}

/// Writes the first 40 bytes of a header.
fn put_start(sectors: u64, backup: bool, checksum: u32, out: &mut [u8; HEADER])
    requires { 68 ≤ sectors }
    ensures { out.new ≡ with_bytes out.old 0 (start_bytes sectors backup checksum) }
{
    put(out, 0, &SIGNATURE);
    put_number(out, 8, REVISION);
    put_number(out, 12, HEADER as u32);
    put_number(out, 16, checksum);
    put_number(out, 20, 0);
    put_long_number(out, 24, header_place(sectors, backup));
    put_long_number(out, 32, header_place(sectors, !backup));
}

/// Writes the 52 bytes of a header behind those.
fn put_rest(disk: Uuid, sectors: u64, backup: bool, array: u32, out: &mut [u8; HEADER])
    requires { 68 ≤ sectors }
    ensures { out.new ≡ with_bytes out.old 40 (rest_bytes disk sectors backup array) }
{
    put_long_number(out, 40, FIRST_USABLE);
    put_long_number(out, 48, sectors - BACKUP_SECTORS);
    put_guid(out, 56, disk);
    put_long_number(out, 72, array_place(sectors, backup));
    put_number(out, 80, ENTRIES);
    put_number(out, 84, ENTRY);
    put_number(out, 88, array);
}

/// The bytes of a header with that checksum.
fn header_bytes(gpt: &Gpt, sectors: u64, backup: bool, array: u32, checksum: u32) -> [u8; HEADER]
    requires { 68 ≤ sectors }
    ensures { result ≡ header_bytes gpt.now.disk sectors backup array checksum }
{
    let mut out = [0; HEADER];
    put_start(sectors, backup, checksum, &mut out);
    put_rest(gpt.disk(), sectors, backup, array, &mut out);
    out
}

/// Makes the sector of a table's primary header, or of its backup, for a disk of that many sectors.
/// `array` is the checksum of the array of [`gpt_entries`].
pub fn gpt_header(gpt: &Gpt, sectors: u64, backup: bool, array: u32, out: &mut [u8; 512])
    requires { 68 ≤ sectors }
    ensures { IsHeaderSector gpt.now.disk sectors backup array out.new }
{
    let checksum = crc32(&header_bytes(gpt, sectors, backup, array, 0));
    put(out, 0, &header_bytes(gpt, sectors, backup, array, checksum));
    put(out, HEADER, &[0; SECTOR - HEADER]);
}
