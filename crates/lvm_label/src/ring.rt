//! The text in the ring of a metadata area.
ghost use Rattle.std.specs.Prelude.{◌≡◌, ℕ, ◌+◌, ◌*◌, ◌%◌, ◌^◌, ◌<◌, ◌≤◌, length, replicate, take, drop, ◌++◌, Some, IsTrue, ◌↔◌, OnOk, IfOk, IfErr, IsErrOf, MatchResult, MatchOption};
ghost use Rattle.disk_base.specs.Checksum.{crc32_lvm_of};
ghost use Rattle.disk_base.specs.Faults.{Rose};
ghost use Rattle.disk_base.specs.Image.{bytes_at};
ghost use Rattle.disk_base.specs.Fields.{little_at};
ghost use Rattle.lvm_label.specs.Ring.{place_of_area, HasArea, IsAreaPlaced, IsAreaHeader, IsTextIgnored, NamesNoText, IsTextPlaced, NamesText, IsHeaderFault, around_area, before_zero, IsRing, HasRingFault, IsPlacedBy, IsRingBy, HasRingFaultBy};
ghost use Rattle.lvm_label.specs.inside.Reading.{IsRingOf, IsRingTextFault, IsRingHindered};

use crate::fault::RingFault;
use crate::label::Label;
use disk_base::{Blocks, SECTOR, crc32_lvm, little_u32, little_u64};
use std::alloc::{AllocError, Global};
use std::marker::Model;

/// What a header has from byte 4 on.
const MAGIC: [u8; 16] = [
    0x20, 0x4C, 0x56, 0x4D, 0x32, 0x20, 0x78, 0x5B, 0x35, 0x41, 0x25, 0x72, 0x30, 0x4E, 0x2A, 0x3E,
];

/// Whether an area lies in whole sectors of a volume of that many, and is neither too short nor too long.
fn is_placed(sectors: u64, start: u64, length: u64) -> bool
    requires { sectors ≤ 2 ^ 31 }
    ensures { IsTrue result ↔ IsAreaPlaced sectors start length }
{
    start % 512 == 0
        && length % 512 == 0
        && length >= 1024
        && length <= 67108864
        && start <= 512 * sectors
        && length <= 512 * sectors - start
}

/// Whether a header's checksum is right.
fn has_right_checksum(header: &[u8; SECTOR]) -> bool
    ensures { IsTrue result ↔ (little_at 4 header.now 0 ≡ crc32_lvm_of (bytes_at header.now 4 508)) }
{
    little_u32(header, 0) == crc32_lvm(&header[4..])
}

/// Whether a sector is the header of an area of that place.
fn is_header(start: u64, length: u64, header: &[u8; SECTOR]) -> bool
    ensures { IsTrue result ↔ IsAreaHeader start length header.now }
{
    &header[4..20] == MAGIC.as_slice()
        && little_u32(header, 20) == 1
        && little_u64(header, 24) == start
        && little_u64(header, 32) == length
        && has_right_checksum(header)
}

/// Whether a header's place of a text is to be ignored.
fn is_ignored(header: &[u8; SECTOR]) -> bool
    ensures { IsTrue result ↔ IsTextIgnored header.now }
{
    little_u32(header, 60) % 2 == 1
}

/// Whether a header names no text.
fn is_empty(header: &[u8; SECTOR]) -> bool
    ensures { IsTrue result ↔ NamesNoText header.now }
{
    little_u64(header, 40) == 0 && little_u64(header, 48) == 0
}

/// Whether the text lies in an area of that length, behind the header.
fn is_text_placed(length: u64, header: &[u8; SECTOR]) -> bool
    requires { 512 ≤ length }
    ensures { IsTrue result ↔ IsTextPlaced length header.now }
{
    let offset = little_u64(header, 40);
    let size = little_u64(header, 48);
    512 <= offset && offset < length && 0 < size && size <= length - 512
}

/// Whether a header names a text, and if not, why.
fn judge(start: u64, length: u64, header: &[u8; SECTOR]) -> Result<(), RingFault>
    requires { 512 ≤ length }
    ensures names { OnOk result (NamesText start length header.now) }
    ensures fault { IfErr result (IsHeaderFault start length header.now) }
{
    if !is_header(start, length, header) {
        return Err(RingFault::Header);
    }
    if is_ignored(header) {
        return Err(RingFault::Ignored);
    }
    if is_empty(header) {
        return Err(RingFault::Empty);
    }
    if !is_text_placed(length, header) {
        return Err(RingFault::Place);
    }
    Ok(())
}

/// `size` bytes of an area from place `offset` on; after its last byte they go on at byte 512.
fn around(alloc: Global, area: &[u8], offset: usize, size: usize) -> Result<Vec<u8>, AllocError>
    requires inside { offset ≤ length area.now }
    requires fits { size + 512 ≤ length area.now }
    ensures { IfOk result (λ bytes. bytes.items ≡ around_area area.now offset size) }
{
    let mut stored = Vec::new(alloc);
    let behind = area.len() - offset;
    if size <= behind {
        stored.extend_from_slice(&area[offset..offset + size])?;
        return Ok(stored);
    }
    stored.extend_from_slice(&area[offset..])?;
    stored.extend_from_slice(&area[512..512 + (size - behind)])?;
    Ok(stored)
}

/// How many bytes stand before the first zero, or in all.
#[tactic(auto, using(crate::proofs::Rings::zero_here, crate::proofs::Rings::zero_more, crate::proofs::Rings::zero_none))]
fn length_before_zero(bytes: &[u8]) -> usize
    ensures { before_zero bytes.now ≡ take result bytes.now }
{
    for (i, byte) in bytes.iter().enumerate() {
        if *byte == 0 {
            return i;
        }
    }
    bytes.len()
}

/// A metadata area as it was read: its header, its place in the volume, and its text.
#[derive(Debug, Drop)]
pub struct Ring {
    header: [u8; SECTOR],
    start: u64,
    length: u64,
    text: Vec<u8>,
}

impl Model for Ring {
    ghost use Rattle.lvm_label.specs.Ring.{RingArea};

    ghost Value = { RingArea };

    ghost view = { λ r. record { header = r.header; start = r.start; length = r.length; text = r.text.items } };
}

impl Ring {
    /// The text, up to the first zero.
    pub fn text(&self) -> &[u8]
        ensures { result.now ≡ self.now.text }
    {
        self.text.as_slice()
    }

    /// Where the area begins in the volume, in bytes.
    pub fn offset(&self) -> u64
        ensures { result ≡ self.now.start }
    {
        self.start
    }

    /// How many bytes the area has.
    pub fn length(&self) -> u64
        ensures { result ≡ self.now.length }
    {
        self.length
    }
}

/// The ring that a header, which names a text, and the bytes of its area make.
fn ring_in(
    alloc: Global,
    start: u64,
    size: u64,
    header: &[u8; SECTOR],
    area: &[u8],
) -> Result<Ring, RingFault>
    requires named { NamesText start size header.now }
    requires whole { length area.now ≡ size }
    ensures ring { IfOk result (IsRingOf start size header.now area.now) }
    ensures fault { IfErr result (IsRingTextFault header.now area.now) }
{
    let mut text = around(
        alloc,
        area,
        little_u64(header, 40) as usize,
        little_u64(header, 48) as usize,
    )?;
    if crc32_lvm(&text) != little_u32(header, 56) {
        return Err(RingFault::Checksum);
    }
    let count = length_before_zero(&text);
    text.truncate(count);
    Ok(Ring {
        header: *header,
        start,
        length: size,
        text,
    })
}

/// That many bytes, all zero.
fn zeros(alloc: Global, count: usize) -> Result<Vec<u8>, AllocError>
    ensures { IfOk result (λ bytes. bytes.items ≡ replicate count 0) }
{
    vec![in alloc; 0; count]
}

/// The bytes of an area.
fn read_area<B: Blocks>(
    alloc: Global,
    disk: &mut B,
    start: u64,
    size: u64,
) -> Result<Vec<u8>, RingFault>
    requires { IsAreaPlaced (B.size disk.old) start size }
    ensures read { B.only_read disk.old disk.new }
    ensures long { IfOk result (λ area. length area.items ≡ size) }
    ensures area { IsTrue B.tells → IfOk result (λ area. area.items ≡ bytes_at (B.image disk.old) start size) }
    ensures hindered { IfErr result IsRingHindered }
    ensures device { IsErrOf result RingFault.Device → Rose (B.faults disk.old) (B.faults disk.new) }
{
    let mut area = zeros(alloc, size as usize)?;
    disk.read(start / 512, &mut area)?;
    Ok(area)
}

/// The ring of the area of `size` bytes from byte `start` on.
fn read_ring_at<B: Blocks>(
    alloc: Global,
    disk: &mut B,
    start: u64,
    size: u64,
) -> Result<Ring, RingFault>
    requires { B.size disk.old ≤ 2 ^ 31 }
    ensures read { B.only_read disk.old disk.new }
    ensures placed { OnOk result (IsAreaPlaced (B.size disk.old) start size) }
    ensures ring { IsTrue B.tells → IfOk result (IsRing (B.size disk.old) (B.image disk.old) start size) }
    ensures fault { IsTrue B.tells → IfErr result (HasRingFault (B.size disk.old) (B.image disk.old) start size) }
    ensures device { IsErrOf result RingFault.Device → Rose (B.faults disk.old) (B.faults disk.new) }
{
    if !is_placed(disk.sectors(), start, size) {
        return Err(RingFault::Place);
    }
    let mut header = [0; SECTOR];
    disk.read(start / 512, &mut header)?;
    judge(start, size, &header)?;
    let area = read_area(alloc, disk, start, size)?;
    let ring = ring_in(alloc, start, size, &header, &area)?;
    Ok(ring)
}

/// Where the area of that number begins, and its length.
fn place_in(label: &Label, area: u32) -> (u64, u64)
    ensures { result ≡ place_of_area label.now area }
{
    if area == 0 {
        return (label.start, label.length);
    }
    match label.second {
        None => (0, 0),
        Some(place) => place,
    }
}

/// The ring of the metadata area of that number, 0 or 1, of a volume with that label (LVM2 label format,
/// `mda_header` and `raw_locn`). After `Device` and `Memory` nothing is known of the area. It takes memory for the
/// whole area and for its text.
pub fn read_ring<B: Blocks>(
    alloc: Global,
    disk: &mut B,
    label: &Label,
    area: u32,
) -> Result<Ring, RingFault>
    // The volume has at most 2^31 sectors.
    requires addressed { B.size disk.old ≤ 2 ^ 31 }
    // The label has this area.
    requires has { HasArea label.now area }
    // The disk was only read.
    ensures read { B.only_read disk.old disk.new }
    // An area of which a ring is answered lies in the volume, in whole sectors.
    ensures placed { OnOk result (IsPlacedBy (B.size disk.old) label.now area) }
    // What is answered is the ring of the area.
    ensures ring { IsTrue B.tells → IfOk result (IsRingBy (B.size disk.old) (B.image disk.old) label.now area) }
    // A fault is the first that the area has.
    ensures fault { IsTrue B.tells → IfErr result (HasRingFaultBy (B.size disk.old) (B.image disk.old) label.now area) }
    // `Device` is answered only where the disk's count of faults rose.
    ensures device { IsErrOf result RingFault.Device → Rose (B.faults disk.old) (B.faults disk.new) }
{
    let place = place_in(label, area);
    read_ring_at(alloc, disk, place.0, place.1)
}
