//! A record that may be that of an unmount.
ghost use Rattle.std.specs.Prelude.{◌≡◌, ◌<◌, ◌≤◌};
ghost use Rattle.xfs_log.specs.Log.{header_sectors, data_sectors};

use crate::place::read_sector;
use disk_base::{Blocks, Failed, SECTOR, big_u32};
use xfs_super::Super;

/// Bytes that one sector of a header answers for.
const PIECE: u32 = 32768;

/// A record of the log that may be that of an unmount, by the numbers of its header. All but the cycle are counted in
/// sectors of 512 bytes.
#[derive(Clone, Copy)]
pub(crate) struct Unmount {
    place: u64,
    cycle: u32,
    /// How many its header has, and how many the record has.
    header: u64,
    sectors: u64,
    /// How many the log has.
    room: u64,
    ghost inside: { place < room },
    ghost fits: { sectors ≤ room },
    ghost small: { room ≤ 34359738368 },
}

/// How many sectors the header of a record has.
fn header_sectors(bytes: &[u8; SECTOR]) -> u64
    ensures count { result ≡ header_sectors bytes.now }
    ensures small { result < 4294967296 }
{
    let size = big_u32(bytes, 320);
    if big_u32(bytes, 8) == 2 && size > PIECE {
        return size.div_ceil(PIECE) as u64;
    }
    1
}

/// How many sectors follow the header of a record.
fn data_sectors(bytes: &[u8; SECTOR]) -> u64
    ensures count { result ≡ data_sectors bytes.now }
    ensures small { result < 4294967296 }
{
    big_u32(bytes, 12).div_ceil(512) as u64
}

impl Unmount {
    ghost use Rattle.std.specs.Prelude.{◌≡◌, ◌+◌, ◌*◌, ◌%◌, ◌<◌, ◌≤◌, ◌↔◌, false, cond, nat_lt, slice_index, IsTrue, IfOk, MatchOption};
    ghost use Rattle.disk_base.specs.Faults.{HasCause};
    ghost use Rattle.xfs_log.specs.inside.Finding.{sector_of_log};
    ghost use Rattle.xfs_log.specs.inside.Judging.{fits_unmount, IsUnmountIn, has_due, HaveDue};
    ghost use Rattle.xfs_super.specs.Super.{geometry_of};

    /// The record whose header begins at a place of a log of `room` sectors, if its numbers may be those of an
    /// unmount.
    pub(crate) fn of(bytes: &[u8; SECTOR], place: u64, room: u64) -> Option<Unmount>
        requires inside { place < room }
        requires small { room ≤ 34359738368 }
        ensures { MatchOption result (fits_unmount bytes.now room ≡ false) (IsUnmountIn bytes.now place room) }
    {
        let header = header_sectors(bytes);
        let data = data_sectors(bytes);
        if header + data > room || data == 0 || big_u32(bytes, 40) != 1 {
            return None;
        }
        Some(Unmount {
            place,
            cycle: big_u32(bytes, 4),
            header,
            sectors: header + data,
            room,
        })
    }

    /// The cycle with which its sector `j` has to begin: behind the log's last sector, that of the next round.
    fn due_cycle(&self, j: u64) -> u64
        requires { j < self.now.sectors }
        ensures { result ≡ cond (nat_lt (self.now.place + j) self.now.room) self.now.cycle (self.now.cycle + 1) }
    {
        if self.place + j < self.room {
            return self.cycle as u64;
        }
        self.cycle as u64 + 1
    }

    /// Whether its sector `j` begins with that cycle and, behind the header, has the flag of an unmount.
    fn has_due(&self, j: u64, bytes: &[u8; SECTOR]) -> bool
        requires { j < self.now.sectors }
        ensures { result ≡ has_due self.now j bytes.now }
    {
        big_u32(bytes, 0) as u64 == self.due_cycle(j)
            && (j != self.header || bytes[9] >> 5 & 1 == 1)
    }

    /// Whether all its sectors behind the first one do. They are read up to one that doesn't.
    pub(crate) fn is_whole<B: Blocks>(&self, disk: &mut B, geo: &Super) -> Result<bool, Failed>
        requires volume { 8 * geo.now.dblocks ≤ B.size disk.old }
        requires room { self.now.room ≡ 8 * geo.now.logblocks }
        ensures whole { IsTrue B.tells → IfOk result (λ whole. IsTrue whole
            ↔ HaveDue (sector_of_log (geometry_of geo.now) (B.image disk.old)) self.now self.now.sectors) }
        ensures read { B.only_read disk.old disk.new }
        ensures cause { HasCause (B.faults disk.old) (B.faults disk.new) result }
    {
        let mut bytes = [0; SECTOR];
        for j in 1..self.sectors {
            read_sector(disk, geo, (self.place + j) % self.room, &mut bytes)?;
            if !self.has_due(j, &bytes) {
                return Ok(false);
            }
        }
        Ok(true)
    }
}
