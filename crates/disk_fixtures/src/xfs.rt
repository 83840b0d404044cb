//! The headers of an XFS volume.
ghost use Rattle.std.specs.Prelude.{◌≡◌, ◌+◌, ◌≤◌, length};
ghost use Rattle.byteorder.specs.Endian.{little_bytes};
ghost use Rattle.disk_base.specs.Checksum.{crc32c_without_of};
ghost use Rattle.disk_base.specs.Image.{with_bytes};
ghost use Rattle.disk_fixtures.specs.Sums.{IsSummed, sum_place};

use crate::mkfs::{
    AGF_512, AGF_4096, AGFL_512, AGFL_4096, AGI_512, AGI_4096, SUPERBLOCK_512, SUPERBLOCK_4096,
};
use disk_base::{crc32c_without, put};

/// A header of a group.
#[derive(Clone, Copy, Debug, PartialEq, Eq)]
pub enum Header {
    Superblock,
    Agf,
    Agi,
    Agfl,
}

/// The sizes of a volume.
#[derive(Clone, Copy, Debug, PartialEq, Eq)]
pub struct Volume {
    /// Whether a sector of the file system has 4096 bytes, and not 512.
    pub large: bool,
    pub dblocks: u64,
    pub agblocks: u32,
    pub agcount: u32,
    pub agblklog: u8,
    pub logstart: u64,
    pub logblocks: u32,
}

/// A header of the first group of a volume that mkfs.xfs made, in the first bytes of 4096.
pub fn made(header: Header, large: bool) -> [u8; 4096] {
    match (header, large) {
        (Header::Superblock, false) => filled(&SUPERBLOCK_512, 0),
        (Header::Superblock, true) => filled(&SUPERBLOCK_4096, 0),
        (Header::Agf, false) => filled(&AGF_512, 0),
        (Header::Agf, true) => filled(&AGF_4096, 0),
        (Header::Agi, false) => filled(&AGI_512, 0),
        (Header::Agi, true) => filled(&AGI_4096, 0),
        (Header::Agfl, false) => filled(&AGFL_512, 255),
        (Header::Agfl, true) => filled(&AGFL_4096, 255),
    }
}

// The bytes, and behind them the other one.
fn filled(bytes: &[u8], other: u8) -> [u8; 4096]
    requires { length bytes.now ≤ 4096 }
{
    let mut out = [other; 4096];
    put(&mut out, 0, bytes);
    out
}

/// Puts the right checksum of the bytes at byte `at`, lowest byte first.
pub fn resum(bytes: &mut [u8], at: usize)
    requires { at + 4 ≤ length bytes.old }
    ensures written { bytes.new ≡ with_bytes bytes.old at (little_bytes 4 (crc32c_without_of bytes.old at)) }
    ensures summed { IsSummed at bytes.new }
{
    let sum = crc32c_without(bytes, at);
    put(bytes, at, &sum.to_le_bytes());
}

// Where a header holds its checksum.
fn sum_place(header: Header) -> usize
    ensures place { result ≡ sum_place header }
    ensures early { result ≤ 312 }
{
    match header {
        Header::Superblock => 224,
        Header::Agf => 216,
        Header::Agi => 312,
        Header::Agfl => 32,
    }
}

impl Volume {
    ghost use Rattle.std.specs.Prelude.{◌≡◌, ◌-◌, ◌*◌, ◌≤◌, min};
    ghost use Rattle.disk_fixtures.specs.Sums.{sector_len, sum_place, HasSummedSector};

    /// How many bytes a sector of the file system has.
    pub fn sector(&self) -> usize
        ensures size { result ≡ sector_len self.now.large }
        ensures bounds { (512 ≤ result) × (result ≤ 4096) }
    {
        if self.large { 4096 } else { 512 }
    }

    /// How many blocks a group has.
    pub fn group_len(&self, group: u32) -> u32
        ensures { result ≡ min self.now.agblocks (self.now.dblocks - group * self.now.agblocks) }
    {
        let before = u64::from(group) * u64::from(self.agblocks);
        u64::from(self.agblocks).min(self.dblocks.saturating_sub(before)) as u32
    }

    /// The superblock of the volume, in the first bytes of 4096.
    pub fn superblock(&self) -> [u8; 4096]
        ensures { HasSummedSector self.now.large 224 result }
    {
        let mut out = made(Header::Superblock, self.large);
        put(&mut out, 8, &self.dblocks.to_be_bytes());
        put(&mut out, 48, &self.logstart.to_be_bytes());
        put(&mut out, 84, &self.agblocks.to_be_bytes());
        put(&mut out, 88, &self.agcount.to_be_bytes());
        put(&mut out, 96, &self.logblocks.to_be_bytes());
        put(&mut out, 124, &[self.agblklog]);
        resum(&mut out[..self.sector()], 224);
        out
    }

    // A header of a group that isn't its superblock.
    fn of_group(&self, header: Header, group: u32) -> [u8; 4096]
        ensures { HasSummedSector self.now.large (sum_place header) result }
    {
        let mut out = made(header, self.large);
        if header == Header::Agfl {
            put(&mut out, 4, &group.to_be_bytes());
        } else {
            put(&mut out, 8, &group.to_be_bytes());
            put(&mut out, 12, &self.group_len(group).to_be_bytes());
        }
        resum(&mut out[..self.sector()], sum_place(header));
        out
    }

    /// The superblock, or the AGF, AGI or AGFL of a group, in the first bytes of 4096.
    pub fn header(&self, header: Header, group: u32) -> [u8; 4096]
        ensures { HasSummedSector self.now.large (sum_place header) result }
    {
        match header {
            Header::Superblock => self.superblock(),
            _ => self.of_group(header, group),
        }
    }
}
