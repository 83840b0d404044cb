//! The sectors of a GUID partition table.
ghost use Rattle.std.specs.Prelude.{◌≡◌, ◌≤◌, [], All, IfOk, false, length};
ghost use Rattle.std.specs.List.{list_any};
ghost use Rattle.gpt_table.specs.Gpt.{IsReadWhereWritten, array_bytes, protective_bytes};
ghost use Rattle.gpt_table.specs.Header.{IsHeaderSector, array_written, header_place};
ghost use Rattle.guest_view.specs.declared.table.Table.TheVariants as tables;
ghost use Rattle.target_table.specs.Planned.{AreTableSectors, IsSomePlan};
ghost use Rattle.target_table.specs.Entries.{extra_entry, extra_in, fresh_id, has_id, kept_entries, placed_entry, planned_entries, target_entry, without_extra, write_to};
ghost use Rattle.target_table.specs.Slots.{placed_under};
ghost use Rattle.target_table.specs.inside.Entering.{AreCopies, CanBeEntered, IsEnterable, IsEntered, IsHeaderWrite};

use crate::table_sectors::TableSectors;
use crate::target::Target;
use disk_base::{Name, crc32};
use gpt_table::{Entry, Gpt, gpt_entries, gpt_header, protective_sector};
use guest_view::Guest;
use layout_plan::{Placed, Planned};
use std::alloc::{AllocError, Global};
use target_work::SectorWrite;
use uuid::Uuid;

/// The kind of a partition for data of Linux, 0FC63DAF-8483-4772-8E79-3D69D8477DE4.
const LINUX: [u8; 16] = [
    0x0F, 0xC6, 0x3D, 0xAF, 0x84, 0x83, 0x47, 0x72, 0x8E, 0x79, 0x3D, 0x69, 0xD8, 0x47, 0x7D, 0xE4,
];

/// The entries of a table.
const ENTRIES: u32 = 128;

// The partition that is placed under that number.
fn placed_under(planned: &Planned, number: u32) -> Option<Placed>
    ensures { result ≡ placed_under planned.now number }
{
    for one in planned.parts() {
        if one.number == number {
            return Some(*one);
        }
    }
    None
}

// The entry of a placed partition.
fn placed_entry(gpt: &Gpt, placed: &Placed) -> Option<Entry>
    requires { IsEntered placed.now }
    ensures { result ≡ placed_entry gpt.now.entries placed.now }
{
    let entry = gpt.entry(placed.from)?;
    let Placed { start, count, .. } = *placed;
    let last = start + count - 1;
    Some(Entry {
        first: start,
        last,
        ..*entry
    })
}

// The entry of that number, without what is left over.
fn kept_entry(gpt: &Gpt, planned: &Planned, number: u32) -> Option<Entry>
    requires { All IsEntered planned.now.parts }
    ensures { result ≡ target_entry [] gpt.now.entries (without_extra planned.now) number }
{
    match placed_under(planned, number) {
        Some(placed) => placed_entry(gpt, &placed),
        None => None,
    }
}

// The identifier that is based on another one.
#[tactic(auto, unfolding(crate::specs::Entries::extra_in))]
fn extra_in(namespace: &Uuid) -> Uuid
    ensures { result ≡ extra_in namespace.now }
{
    Uuid::new_v5(namespace, b"extra")
}

// The entry of what is left over, with that identifier.
fn extra_entry(extra: &Placed, id: Uuid) -> Entry
    requires { IsEnterable extra.now }
    ensures { result ≡ extra_entry id extra.now }
{
    let Placed { start, count, .. } = *extra;
    Entry {
        kind: Uuid::from_bytes(LINUX),
        id,
        first: start,
        last: start + count - 1,
        flags: 0,
        name: [0; 72],
    }
}

// Whether an entry of the table has that identifier.
fn has_id(gpt: &Gpt, id: &Uuid) -> bool
    requires { length gpt.now.entries ≡ 128 }
    ensures { result ≡ list_any (has_id id.now) gpt.now.entries }
{
    for index in 0..ENTRIES {
        if let Some(entry) = gpt.entry(index + 1)
            && entry.id == *id
        {
            return true;
        }
    }
    false
}

// The first identifier that no entry has, of that one and those that are based on it.
fn fresh_id(gpt: &Gpt) -> Uuid
    requires { length gpt.now.entries ≡ 128 }
    ensures { result ≡ fresh_id 128 gpt.now.entries (extra_in gpt.now.disk) }
{
    let mut id = extra_in(&gpt.disk());
    for _ in 0..ENTRIES {
        if !has_id(gpt, &id) {
            return id;
        }
        id = extra_in(&id);
    }
    id
}

// The table of what is placed, without what is left over.
fn kept_table(alloc: Global, gpt: &Gpt, planned: &Planned) -> Result<Gpt, AllocError>
    requires { All IsEntered planned.now.parts }
    ensures { IfOk result (λ made. made
        ≡ record { disk = gpt.now.disk; entries = kept_entries gpt.now.entries planned.now; from_backup = false }) }
{
    let mut made = Gpt::new(alloc, gpt.disk())?;
    for index in 0..ENTRIES {
        if let Some(entry) = kept_entry(gpt, planned, index + 1) {
            made.set(index + 1, entry);
        }
    }
    Ok(made)
}

// The table of the target.
fn planned_table(alloc: Global, gpt: &Gpt, planned: &Planned) -> Result<Gpt, AllocError>
    requires { CanBeEntered planned.now }
    ensures { IfOk result (λ made. made
        ≡ record { disk = gpt.now.disk; entries = planned_entries gpt.now.disk gpt.now.entries planned.now; from_backup = false }) }
{
    let mut made = kept_table(alloc, gpt, planned)?;
    let Some(extra) = planned.extra() else {
        return Ok(made);
    };
    let id = fresh_id(&made);
    made.set(extra.number, extra_entry(&extra, id));
    Ok(made)
}

// The array of a table's entries.
fn array_of(gpt: &Gpt) -> [u8; 16384]
    ensures bytes { result ≡ array_bytes gpt.now.entries }
    ensures long { length result ≡ 16384 }
    ensures table { IsReadWhereWritten gpt.now }
{
    let mut array = [0; 16384];
    gpt_entries(gpt, &mut array);
    array
}

// The sector of a header.
fn header_of(gpt: &Gpt, sectors: u64, backup: bool, sum: u32) -> [u8; 512]
    requires { 68 ≤ sectors }
    ensures header { IsHeaderSector gpt.now.disk sectors backup sum result }
    ensures long { length result ≡ 512 }
{
    let mut header = [0; 512];
    gpt_header(gpt, sectors, backup, sum, &mut header);
    header
}

// Sector 0 of a disk of that many sectors.
fn protective_of(head: &[u8; 446], sectors: u64) -> [u8; 512]
    requires { 68 ≤ sectors }
    ensures bytes { result ≡ protective_bytes head.now sectors }
    ensures long { length head.now ≡ 446 }
{
    let mut first = [0; 512];
    protective_sector(head, sectors, &mut first);
    first
}

// The first sector of an array, and the sector of its header.
fn places(sectors: u64, backup: bool) -> (u64, u64)
    requires { 68 ≤ sectors }
    ensures array { result.0 ≡ array_written sectors backup }
    ensures header { result.1 ≡ header_place sectors backup }
{
    if backup {
        (sectors - 33, sectors - 1)
    } else {
        (2, 1)
    }
}

// Bytes that are written from a sector on.
fn write_to(alloc: Global, at: u64, bytes: &[u8]) -> Result<SectorWrite, AllocError>
    ensures { IfOk result (λ write. write ≡ write_to at bytes.now) }
{
    let bytes = Name::of(alloc, bytes)?;
    Ok(SectorWrite { at, bytes })
}

// The write of a header whose array has that checksum.
fn header_write(
    alloc: Global,
    gpt: &Gpt,
    sectors: u64,
    backup: bool,
    sum: u32,
) -> Result<SectorWrite, AllocError>
    requires { 68 ≤ sectors }
    ensures { IfOk result (IsHeaderWrite gpt.now.disk sectors backup sum) }
{
    let at = places(sectors, backup).1;
    let header = header_of(gpt, sectors, backup, sum);
    let write = write_to(alloc, at, &header)?;
    Ok(write)
}

// What is written of a table: the backup's array and header, and then the primary ones.
fn writes_of(alloc: Global, gpt: &Gpt, sectors: u64) -> Result<Vec<SectorWrite>, AllocError>
    requires { 68 ≤ sectors }
    ensures copies { IfOk result (λ writes. AreCopies gpt.now sectors writes.items) }
    ensures table { IsReadWhereWritten gpt.now }
{
    let array = array_of(gpt);
    let sum = crc32(&array);
    let backup_array = write_to(alloc, places(sectors, true).0, &array)?;
    let backup = header_write(alloc, gpt, sectors, true, sum)?;
    let primary_array = write_to(alloc, places(sectors, false).0, &array)?;
    let primary = header_write(alloc, gpt, sectors, false, sum)?;
    Ok(vec![in alloc; backup_array, backup, primary_array, primary]?)
}

/// Makes the sectors of the target's table from the guest's GUID partition table.
pub(crate) fn sectors_of_gpt(
    alloc: Global,
    guest: &Guest,
    gpt: &Gpt,
    target: &Target<'_>,
) -> Result<TableSectors, AllocError>
    requires table { guest.now.table ≡ tables.Gpt gpt.now }
    requires plan { IsSomePlan guest.now target.now.sectors target.now.planned.now }
    ensures { IfOk result (λ made. AreTableSectors guest.now.table target.now.planned.now target.now.head.now
        target.now.sectors made.first made.writes.items) }
{
    // What is known of a guest's table and parts is asked for, though they are seen in `gpt`.
    let _table = guest.table();
    let _parts = guest.parts();
    let table = planned_table(alloc, gpt, target.planned)?;
    let writes = writes_of(alloc, &table, target.sectors)?;
    let first = protective_of(target.head, target.sectors);
    Ok(TableSectors { first, writes })
}
