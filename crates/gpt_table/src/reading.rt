//! Reading the table.
ghost use Rattle.std.specs.Prelude.{◌≡◌, ◌+◌, ◌*◌, ◌^◌, ◌<◌, ◌≤◌, length, replicate, IsTrue, Ok, OnOk, IfOk, IfErr, IsErrOf};
ghost use Rattle.disk_base.specs.Faults.{Rose};
ghost use Rattle.disk_base.specs.Image.{bytes_at};
ghost use Rattle.gpt_table.specs.Entry.{is_bad};
ghost use Rattle.gpt_table.specs.Gpt.{IsGptTable, HasGptFault, AreInside, AreEntries, OneGptTable};
ghost use Rattle.gpt_table.specs.inside.Reading.{IsHindered, IsHeaderFound, IsBounded, IsListFault, IsChosen, IsChoiceBounded, IsChoiceFault};

use crate::entry::{Entry, slot_in};
use crate::fault::GptFault;
use crate::gpt::Gpt;
use crate::header::{ARRAY_SECTORS, ENTRIES, ENTRY, Header, Judged, header_in};
use disk_base::{Blocks, SECTOR, crc32};
use std::alloc::{AllocError, Global};

/// What a sector that may hold a header was found to hold.
#[derive(Drop)]
enum Found {
    Absent,
    Misshapen { count: u32, size: u32 },
    Valid(Header, Vec<u8>),
}

/// The header in use, its array, and whether it is the backup.
#[derive(Drop)]
struct Chosen {
    header: Header,
    array: Vec<u8>,
    backup: bool,
}

/// That many bytes, all zero.
fn zeros(alloc: Global, count: usize) -> Result<Vec<u8>, AllocError>
    ensures { IfOk result (λ bytes. bytes.items ≡ replicate count 0) }
{
    vec![in alloc; 0; count]
}

/// The array of entries that begins in sector `at`.
fn read_array<B: Blocks>(alloc: Global, disk: &mut B, at: u64) -> Result<Vec<u8>, GptFault>
    requires inside { at + 32 ≤ B.size disk.old }
    requires addressed { B.size disk.old ≤ 2 ^ 31 }
    ensures read { B.only_read disk.old disk.new }
    ensures long { IfOk result (λ array. length array.items ≡ 16384) }
    ensures array { IsTrue B.tells → IfOk result (λ array. array.items ≡ bytes_at (B.image disk.old) (512 * at) 16384) }
    ensures hindered { IfErr result (λ fault. IsHindered fault) }
    ensures device { IsErrOf result GptFault.Device → Rose (B.faults disk.old) (B.faults disk.new) }
{
    let mut array = zeros(alloc, SECTOR * ARRAY_SECTORS as usize)?;
    disk.read(at, &mut array)?;
    Ok(array)
}

/// What sector `at` holds.
fn look<B: Blocks>(alloc: Global, disk: &mut B, at: u64) -> Result<Found, GptFault>
    requires { B.size disk.old ≤ 2 ^ 31 }
    ensures read { B.only_read disk.old disk.new }
    ensures found { IsTrue B.tells → IfOk result (λ found. IsHeaderFound (B.size disk.old) at (B.image disk.old) found) }
    ensures bounded { IfOk result (λ found. IsBounded (B.size disk.old) found) }
    ensures outside { B.size disk.old ≤ at → result ≡ Ok Found.Absent }
    ensures unread { B.size disk.old ≤ at → disk.new ≡ disk.old }
    ensures hindered { IfErr result (λ fault. IsHindered fault) }
    ensures device { IsErrOf result GptFault.Device → Rose (B.faults disk.old) (B.faults disk.new) }
{
    let sectors = disk.sectors();
    if at >= sectors {
        return Ok(Found::Absent);
    }
    let mut bytes = [0; SECTOR];
    disk.read(at, &mut bytes)?;
    let header = header_in(&bytes);
    match header.judge(sectors, at) {
        Judged::Absent => return Ok(Found::Absent),
        Judged::Misshapen { count, size } => return Ok(Found::Misshapen { count, size }),
        Judged::Placed => {}
    }
    let array = read_array(alloc, disk, header.array)?;
    if crc32(&array) != header.array_checksum {
        return Ok(Found::Absent);
    }
    Ok(Found::Valid(header, array))
}

/// The header in use and its array.
fn choose<B: Blocks>(alloc: Global, disk: &mut B) -> Result<Chosen, GptFault>
    requires { B.size disk.old ≤ 2 ^ 31 }
    ensures read { B.only_read disk.old disk.new }
    ensures chosen { IsTrue B.tells → IfOk result (λ chosen. IsChosen (B.size disk.old) (B.image disk.old) chosen) }
    ensures fault { IsTrue B.tells → IfErr result (λ fault. IsChoiceFault (B.size disk.old) (B.image disk.old) fault) }
    ensures bounded { IfOk result (λ chosen. IsChoiceBounded (B.size disk.old) chosen) }
    ensures empty { B.size disk.old ≡ 0 → IsErrOf result GptFault.NoHeader }
    ensures unread { B.size disk.old ≡ 0 → disk.new ≡ disk.old }
    ensures device { IsErrOf result GptFault.Device → Rose (B.faults disk.old) (B.faults disk.new) }
{
    let last = disk.sectors().saturating_sub(1);
    match look(alloc, disk, 1)? {
        Found::Absent => {}
        Found::Misshapen { count, size } => return Err(GptFault::Shape { count, size }),
        Found::Valid(header, array) => {
            return Ok(Chosen {
                header,
                array,
                backup: false,
            });
        }
    }
    match look(alloc, disk, last)? {
        Found::Absent => Err(GptFault::NoHeader),
        Found::Misshapen { count, size } => Err(GptFault::Shape { count, size }),
        Found::Valid(header, array) => Ok(Chosen {
            header,
            array,
            backup: true,
        }),
    }
}

/// Whether an entry is used, and ends before it starts or lies outside the usable sectors.
fn is_bad(header: &Header, slot: &Option<Entry>) -> bool
    ensures { result ≡ is_bad header.now.first header.now.last slot.now }
{
    match slot {
        Some(entry) => entry.is_bad(header.first, header.last),
        None => false,
    }
}

/// The entries of an array, of which none may be bad.
fn list(alloc: Global, header: &Header, array: &[u8]) -> Result<Vec<Option<Entry>>, GptFault>
    requires { length array.now ≡ 16384 }
    ensures listed { IfOk result (λ entries. AreEntries header.now array.now entries.items) }
    ensures fault { IfErr result (λ fault. IsListFault header.now array.now fault) }
{
    let mut entries = Vec::with_capacity(alloc, ENTRIES as usize)?;
    for number in 0..ENTRIES {
        let start = (number * ENTRY) as usize;
        let slot = slot_in(&array[start..start + ENTRY as usize]);
        if is_bad(header, &slot) {
            return Err(GptFault::Entry { number: number + 1 });
        }
        entries.push(slot)?;
    }
    Ok(entries)
}

/// The table of a disk, in sectors of 512 bytes. After `Device` and `Memory` nothing is known of the
/// table.
pub fn read_gpt<B: Blocks>(alloc: Global, disk: &mut B) -> Result<Gpt, GptFault>
    requires { B.size disk.old ≤ 2 ^ 31 }
    ensures read { B.only_read disk.old disk.new }
    ensures table { IsTrue B.tells → IfOk result (λ table. IsGptTable (B.size disk.old) (B.image disk.old) table) }
    ensures fault { IsTrue B.tells → IfErr result (λ fault. HasGptFault (B.size disk.old) (B.image disk.old) fault) }
    ensures some { OnOk result (34 < B.size disk.old) }
    ensures inside { IfOk result (λ table. AreInside (B.size disk.old) table.entries) }
    ensures empty { B.size disk.old ≡ 0 → IsErrOf result GptFault.NoHeader }
    ensures unread { B.size disk.old ≡ 0 → disk.new ≡ disk.old }
    ensures device { IsErrOf result GptFault.Device → Rose (B.faults disk.old) (B.faults disk.new) }
{
    let Chosen {
        header,
        array,
        backup,
    } = choose(alloc, disk)?;
    let entries = list(alloc, &header, &array)?;
    Ok(Gpt::of(header.disk, entries, backup))
}

/// The law that a disk has at most one table, and no reason against it where it has one. A call does nothing.
pub fn one_table()
    ensures { OneGptTable }
{}
