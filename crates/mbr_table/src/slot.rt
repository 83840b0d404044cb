//! The slots of a table.
ghost use Rattle.std.specs.Prelude.{◌≡◌, ◌≤◌, length};
ghost use Rattle.mbr_table.specs.Slot.{slot_of, is_used, is_extended, holds_extended, slot_end, is_bad_slot};

use byteorder::{ByteOrder, LittleEndian};

/// One of the four slots (UEFI specification, 5.2.1). `kind` is the type byte, `start` the first sector
/// and `count` how many sectors it has.
#[derive(Clone, Copy, Debug, PartialEq, Eq)]
pub struct Slot {
    pub status: u8,
    pub kind: u8,
    pub start: u32,
    pub count: u32,
}

/// A logical partition: the sector of its extended boot record, and its slot there with `start` counted
/// from the start of the disk.
#[derive(Clone, Copy, Debug, PartialEq, Eq)]
pub struct Logical {
    pub ebr: u32,
    pub slot: Slot,
}

impl Slot {
    /// Whether it has a type and sectors.
    pub fn is_used(&self) -> bool
        ensures { result ≡ is_used self.now }
    {
        self.kind != 0 && self.count != 0
    }

    /// Whether its type is that of an extended partition.
    pub fn is_extended(&self) -> bool
        ensures { result ≡ is_extended self.now }
    {
        matches!(self.kind, 0x05 | 0x0F | 0x85)
    }

    /// The first sector behind it.
    pub fn end(&self) -> u64
        ensures { result ≡ slot_end self.now }
    {
        let start = self.start;
        let count = self.count;
        u64::from(start) + u64::from(count)
    }

    /// Whether it is used and extended.
    pub(crate) fn holds_extended(&self) -> bool
        ensures { result ≡ holds_extended self.now }
    {
        self.is_used() && self.is_extended()
    }

    /// Whether it may not stand in the table of a disk of that many sectors; `extended` says whether a
    /// slot before it holds an extended partition.
    pub(crate) fn is_bad(&self, sectors: u64, extended: bool) -> bool
        ensures { result ≡ is_bad_slot sectors extended self.now }
    {
        self.is_used()
            && (self.start == 0 || self.end() > sectors || (self.is_extended() && extended))
    }
}

/// The slot that an entry spells.
pub(crate) fn slot_in(entry: &[u8]) -> Slot
    requires { 16 ≤ length entry.now }
    ensures { result ≡ slot_of entry.now }
{
    Slot {
        status: entry[0],
        kind: entry[4],
        start: LittleEndian::read_u32(&entry[8..]),
        count: LittleEndian::read_u32(&entry[12..]),
    }
}
