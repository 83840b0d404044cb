//! The header of a group that speaks of its free space.
ghost use Rattle.std.specs.Prelude.{◌≡◌, ◌+◌, ◌<◌, ◌≤◌, length, true, OnOk, IfOk, IfErr};
ghost use Rattle.xfs_super.specs.Headers.{agf_in, IsAgf, IsSoundAgf, SpeaksAgainstAgf};
ghost use Rattle.xfs_super.specs.Super.{geometry_of};

use crate::bytes::array;
use crate::geometry::Super;
use crate::header::{VERSION, header_sector, is_height, judge};
use crate::reason::Reason;
use disk_base::{big_u32, big_u64};

const MAGIC: u32 = 0x5841_4746;

/// The fields of an AGF. A root is a block of the group, and a level a height: 1 where the root is a leaf.
#[derive(Clone, Copy, Debug, PartialEq, Eq)]
pub struct Agf {
    /// The group, and how many blocks it has.
    pub seqno: u32,
    pub length: u32,
    /// The trees of free space, by start and by count.
    pub bno_root: u32,
    pub cnt_root: u32,
    pub bno_level: u32,
    pub cnt_level: u32,
    /// The list of free blocks that are kept for these trees: the first and the last entry in use, and how
    /// many are.
    pub flfirst: u32,
    pub fllast: u32,
    pub flcount: u32,
    /// How many blocks are free, how many of them the longest run has, and how many blocks the trees have
    /// besides their roots.
    pub freeblks: u32,
    pub longest: u32,
    pub btreeblks: u32,
    pub uuid: [u8; 16],
    pub lsn: u64,
}

impl Agf {
    ghost use Rattle.std.specs.Prelude.{◌≡◌, ◌<◌, ◌≤◌, length};
    ghost use Rattle.xfs_super.specs.Headers.{agf_in, fits_agf, is_agf, has_free_list, list_capacity};
    ghost use Rattle.xfs_super.specs.Super.{geometry_of};

    #[tactic(auto, unfolding(crate::specs::Headers::agf_in))]
    fn read(bytes: &[u8]) -> Agf
        requires { 512 ≤ length bytes.now }
        ensures { result ≡ agf_in bytes.now }
    {
        Agf {
            seqno: big_u32(bytes, 8),
            length: big_u32(bytes, 12),
            bno_root: big_u32(bytes, 16),
            cnt_root: big_u32(bytes, 20),
            bno_level: big_u32(bytes, 28),
            cnt_level: big_u32(bytes, 32),
            flfirst: big_u32(bytes, 40),
            fllast: big_u32(bytes, 44),
            flcount: big_u32(bytes, 48),
            freeblks: big_u32(bytes, 52),
            longest: big_u32(bytes, 56),
            btreeblks: big_u32(bytes, 60),
            uuid: array(bytes, 64),
            lsn: big_u64(bytes, 208),
        }
    }

    fn has_free_list(&self, capacity: u32) -> bool
        ensures { result ≡ has_free_list capacity self.now }
    {
        self.flcount == 0
            || self.flcount <= capacity && self.flfirst < capacity && self.fllast < capacity
    }

    /// Whether the bytes, whose fields these are, pass all tests but the checksum.
    fn passes(&self, bytes: &[u8], geo: &Super, group: u32) -> bool
        requires fields { self.now ≡ agf_in bytes.now }
        requires sector { 512 ≤ length bytes.now }
        requires group { group < geo.now.agcount }
        ensures { result ≡ is_agf (geometry_of geo.now) group bytes.now }
    {
        big_u32(bytes, 0) == MAGIC && big_u32(bytes, 4) == VERSION && self.fits(geo, group)
    }

    fn fits(&self, geo: &Super, group: u32) -> bool
        requires { group < geo.now.agcount }
        ensures { result ≡ fits_agf (geometry_of geo.now) group self.now }
    {
        let len = geo.group_len(group);
        self.seqno == group
            && self.length == len
            && self.uuid == geo.meta
            && self.bno_root < len
            && self.cnt_root < len
            && is_height(self.bno_level)
            && is_height(self.cnt_level)
            && self.has_free_list((geo.sectsize - 36) / 4)
    }
}

/// The AGF of a group, which is the second sector of the file system in it.
///
/// # Errors
///
/// A reason that speaks against it, where one does: of several, any.
pub fn agf_of(bytes: &[u8], geo: &Super, group: u32) -> Result<Agf, Reason>
    requires sector { length bytes.now ≡ geo.now.sectsize }
    requires group { group < geo.now.agcount }
    ensures fields { IfOk result (λ agf. agf ≡ agf_in bytes.now) }
    ensures header { OnOk result (IsAgf (geometry_of geo.now) group bytes.now) }
    ensures sound { IfOk result (IsSoundAgf (geometry_of geo.now) group) }
    ensures reason { IfErr result (SpeaksAgainstAgf (geometry_of geo.now) group bytes.now) }
{
    let agf = Agf::read(bytes);
    let passes = agf.passes(bytes, geo, group);
    judge(bytes, header_sector(geo, group, 1), 216, passes)?;
    Ok(agf)
}
