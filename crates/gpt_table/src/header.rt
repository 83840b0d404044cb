//! The headers of a table.
ghost use Rattle.std.specs.Prelude.{◌≡◌, ◌+◌, ◌≤◌, length, IsTrue, ◌↔◌};
ghost use Rattle.disk_base.specs.Checksum.{IsCrc32};
ghost use Rattle.gpt_table.specs.Header.{summed, header_of, IsSound, HasShape, LieOnDisk};
ghost use Rattle.gpt_table.specs.inside.Reading.{IsJudged};

use crate::entry::guid_in;
use disk_base::{SECTOR, crc32, little_u32, little_u64, put};
use uuid::Uuid;

/// What the first 8 bytes of a header are.
pub(crate) const SIGNATURE: [u8; 8] = *b"EFI PART";

/// The revision of the format.
pub(crate) const REVISION: u32 = 0x10000;

/// How many bytes a header has.
pub(crate) const HEADER: usize = 92;

/// How many entries an array has.
pub(crate) const ENTRIES: u32 = 128;

/// How many bytes an entry has.
pub(crate) const ENTRY: u32 = 128;

/// The first sector that a header may call usable.
pub(crate) const FIRST_USABLE: u64 = 34;

/// How many sectors an array takes.
pub(crate) const ARRAY_SECTORS: u64 = 32;

/// The fields of a header (UEFI specification, 5.3.2). `size` is its own length in bytes; `place` is the
/// sector where it stands; `first` and `last` are the first and the last usable sector; `array` is the first
/// sector of its array of `count` entries of `entry_size` bytes; `covered` is what `checksum` is taken of.
#[derive(Clone, Copy, Debug, PartialEq, Eq)]
pub(crate) struct Header {
    pub(crate) signature: [u8; 8],
    pub(crate) revision: u32,
    pub(crate) size: u32,
    pub(crate) checksum: u32,
    pub(crate) place: u64,
    pub(crate) first: u64,
    pub(crate) last: u64,
    pub(crate) disk: Uuid,
    pub(crate) array: u64,
    pub(crate) count: u32,
    pub(crate) entry_size: u32,
    pub(crate) array_checksum: u32,
    pub(crate) covered: [u8; HEADER],
}

/// What a header was found to be, before its array is read.
#[derive(Clone, Copy, Debug, PartialEq, Eq)]
pub(crate) enum Judged {
    Absent,
    Misshapen { count: u32, size: u32 },
    Placed,
}

/// What a header's checksum is taken of.
fn summed_bytes(sector: &[u8; SECTOR]) -> [u8; HEADER]
    ensures { result ≡ summed sector.now }
{
    let mut header = [0; HEADER];
    put(&mut header, 0, &sector[..16]);
    put(&mut header, 20, &sector[20..HEADER]);
    header
}

/// The fields of the header that a sector spells.
#[tactic(auto, unfolding(crate::specs::Header::header_of))]
pub(crate) fn header_in(sector: &[u8; SECTOR]) -> Header
    ensures { result ≡ header_of sector.now }
{
    let mut signature = [0; 8];
    signature.copy_from_slice(&sector[..8]);
    Header {
        signature,
        revision: little_u32(sector, 8),
        size: little_u32(sector, 12),
        checksum: little_u32(sector, 16),
        place: little_u64(sector, 24),
        first: little_u64(sector, 40),
        last: little_u64(sector, 48),
        disk: guid_in(sector, 56),
        array: little_u64(sector, 72),
        count: little_u32(sector, 80),
        entry_size: little_u32(sector, 84),
        array_checksum: little_u32(sector, 88),
        covered: summed_bytes(sector),
    }
}

impl Header {
    /// Whether its checksum is right.
    fn has_right_checksum(&self) -> bool
        ensures { IsTrue result ↔ IsCrc32 self.now.covered self.now.checksum }
    {
        crc32(&self.covered) == self.checksum
    }

    /// Whether it is a sound header of that place.
    fn is_sound(&self, at: u64) -> bool
        ensures { IsTrue result ↔ IsSound at self.now }
    {
        self.signature.as_slice() == SIGNATURE.as_slice()
            && self.revision == REVISION
            && self.size == HEADER as u32
            && self.place == at
            && self.has_right_checksum()
    }

    /// Whether it asks for 128 entries of 128 bytes.
    fn has_shape(&self) -> bool
        ensures { IsTrue result ↔ HasShape self.now }
    {
        self.count == ENTRIES && self.entry_size == ENTRY
    }

    /// Whether its array lies on a disk of that many sectors, and its usable sectors do so behind the
    /// tables.
    fn is_placed(&self, sectors: u64) -> bool
        ensures { IsTrue result ↔ LieOnDisk sectors self.now }
    {
        sectors >= ARRAY_SECTORS
            && self.array <= sectors - ARRAY_SECTORS
            && self.first >= FIRST_USABLE
            && self.first <= self.last
            && self.last < sectors
    }

    /// What it is in sector `at` of a disk of that many sectors.
    pub(crate) fn judge(&self, sectors: u64, at: u64) -> Judged
        ensures { IsJudged sectors at self.now result }
    {
        if !self.is_sound(at) {
            return Judged::Absent;
        }
        if !self.has_shape() {
            return Judged::Misshapen {
                count: self.count,
                size: self.entry_size,
            };
        }
        if !self.is_placed(sectors) {
            return Judged::Absent;
        }
        Judged::Placed
    }
}
