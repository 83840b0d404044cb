//! The header of a group that speaks of its inodes.
ghost use Rattle.std.specs.Prelude.{◌≡◌, ◌+◌, ◌*◌, ◌<◌, ◌≤◌, length, map, true, OnOk, IfOk, IfErr};
ghost use Rattle.xfs_super.specs.Headers.{agi_in, IsAgi, IsSoundAgi, SpeaksAgainstAgi};
ghost use Rattle.xfs_super.specs.Super.{geometry_of};
ghost use Rattle.std.specs.List.{range_with_len};
ghost use Rattle.disk_base.specs.Fields.{big_at};

use crate::bytes::array;
use crate::geometry::Super;
use crate::header::{VERSION, header_sector, is_height, judge};
use crate::reason::Reason;
use disk_base::{big_u32, big_u64};

const MAGIC: u32 = 0x5841_4749;

/// The fields of an AGI. A root is a block of the group, and a level a height: 1 where the root is a leaf.
#[derive(Clone, Copy, Debug, PartialEq, Eq)]
pub struct Agi {
    /// The group, and how many blocks it has.
    pub seqno: u32,
    pub length: u32,
    /// How many inodes it has, the tree of its chunks of inodes, and how many are free.
    pub count: u32,
    pub root: u32,
    pub level: u32,
    pub freecount: u32,
    pub newino: u32,
    pub dirino: u32,
    pub unlinked: [u32; 64],
    pub uuid: [u8; 16],
    pub lsn: u64,
    /// The tree of the chunks that have free inodes, where there is one.
    pub free_root: u32,
    pub free_level: u32,
    /// How many blocks these two trees have, where that is counted.
    pub iblocks: u32,
    pub fblocks: u32,
}

impl Agi {
    ghost use Rattle.std.specs.Prelude.{◌≡◌, ◌<◌, ◌≤◌, length};
    ghost use Rattle.xfs_super.specs.Headers.{agi_in, fits_agi, is_agi};
    ghost use Rattle.xfs_super.specs.Super.{geometry_of};

    #[tactic(auto, unfolding(crate::specs::Headers::agi_in))]
    fn read(bytes: &[u8]) -> Agi
        requires { 512 ≤ length bytes.now }
        ensures { result ≡ agi_in bytes.now }
    {
        Agi {
            seqno: big_u32(bytes, 8),
            length: big_u32(bytes, 12),
            count: big_u32(bytes, 16),
            root: big_u32(bytes, 20),
            level: big_u32(bytes, 24),
            freecount: big_u32(bytes, 28),
            newino: big_u32(bytes, 32),
            dirino: big_u32(bytes, 36),
            unlinked: unlinked_in(bytes),
            uuid: array(bytes, 296),
            lsn: big_u64(bytes, 320),
            free_root: big_u32(bytes, 328),
            free_level: big_u32(bytes, 332),
            iblocks: big_u32(bytes, 336),
            fblocks: big_u32(bytes, 340),
        }
    }

    /// Whether the bytes, whose fields these are, pass all tests but the checksum.
    fn passes(&self, bytes: &[u8], geo: &Super, group: u32) -> bool
        requires fields { self.now ≡ agi_in bytes.now }
        requires sector { 512 ≤ length bytes.now }
        requires group { group < geo.now.agcount }
        ensures { result ≡ is_agi (geometry_of geo.now) group bytes.now }
    {
        big_u32(bytes, 0) == MAGIC && big_u32(bytes, 4) == VERSION && self.fits(geo, group)
    }

    fn fits(&self, geo: &Super, group: u32) -> bool
        requires { group < geo.now.agcount }
        ensures { result ≡ fits_agi (geometry_of geo.now) group self.now }
    {
        let len = geo.group_len(group);
        self.seqno == group
            && self.length == len
            && self.uuid == geo.meta
            && self.root < len
            && is_height(self.level)
            && (!geo.finobt || self.free_root < len && is_height(self.free_level))
    }
}

/// The inodes that were unlinked while they were in use, in 64 lists: the first of each.
fn unlinked_in(bytes: &[u8]) -> [u32; 64]
    requires { 512 ≤ length bytes.now }
    ensures { result ≡ map (λ i. big_at 4 bytes.now (40 + 4 * i)) (range_with_len 0 64) }
{
    let mut out = [0; 64];
    for i in 0..64 {
        out[i] = big_u32(bytes, 40 + 4 * i);
    }
    out
}

/// The AGI of a group, which is the third sector of the file system in it.
///
/// # Errors
///
/// A reason that speaks against it, where one does: of several, any.
pub fn agi_of(bytes: &[u8], geo: &Super, group: u32) -> Result<Agi, Reason>
    requires sector { length bytes.now ≡ geo.now.sectsize }
    requires group { group < geo.now.agcount }
    ensures fields { IfOk result (λ agi. agi ≡ agi_in bytes.now) }
    ensures header { OnOk result (IsAgi (geometry_of geo.now) group bytes.now) }
    ensures sound { IfOk result (IsSoundAgi (geometry_of geo.now) group) }
    ensures reason { IfErr result (SpeaksAgainstAgi (geometry_of geo.now) group bytes.now) }
{
    let agi = Agi::read(bytes);
    let passes = agi.passes(bytes, geo, group);
    judge(bytes, header_sector(geo, group, 2), 312, passes)?;
    Ok(agi)
}
