//! The superblock.
ghost use Rattle.std.specs.Prelude.{◌≡◌, ◌+◌, ◌*◌, ◌^◌, ◌<◌, ◌≤◌, length, ℕ, true, false, OnOk, IfOk, IfErr, Ok, Err};
ghost use Rattle.xfs_super.specs.Geometry.{is_least_log, are_groups, is_log_place, AreGroups, AreSizes, IsLogPlace};
ghost use Rattle.xfs_super.specs.Superblock.{superblock_in, geometry_from, geometry_in, has_magic, has_sizes, has_sector_size, has_inode_sizes, has_features, fits_volume, is_laid_out, has_checksum, SpeaksAgainst, IsSuperblock, IsDeclined, IsAccepted, has_superblock_checksum, has_places};
ghost use Rattle.xfs_super.specs.inside.Layout.{HasLayout};
ghost use Rattle.xfs_super.specs.Super.{geometry_of};

use crate::bytes::{array, has_checksum, has_flag};
use crate::geometry::{Super, blocks_in_group};
use crate::reason::Reason;
use disk_base::{big_u16, big_u32, big_u64};

/// The fields of a superblock, as they stand in its bytes.
#[derive(Clone, Copy)]
pub(crate) struct Superblock {
    magic: u32,
    blocksize: u32,
    dblocks: u64,
    rblocks: u64,
    uuid: [u8; 16],
    logstart: u64,
    rootino: u64,
    agblocks: u32,
    agcount: u32,
    logblocks: u32,
    versionnum: u16,
    sectsize: u16,
    inodesize: u16,
    inopblock: u16,
    label: [u8; 12],
    blocklog: u8,
    sectlog: u8,
    inodelog: u8,
    inopblog: u8,
    agblklog: u8,
    inprogress: u8,
    dirblklog: u8,
    ro_compat: u32,
    incompat: u32,
    log_incompat: u32,
    meta_uuid: [u8; 16],
}

/// The fields that a superblock spells.
#[tactic(auto, unfolding(crate::specs::Superblock::superblock_in))]
fn superblock_in(bytes: &[u8]) -> Superblock
    requires { length bytes.now ≡ 4096 }
    ensures { result ≡ superblock_in bytes.now }
{
    Superblock {
        magic: big_u32(bytes, 0),
        blocksize: big_u32(bytes, 4),
        dblocks: big_u64(bytes, 8),
        rblocks: big_u64(bytes, 16),
        uuid: array(bytes, 32),
        logstart: big_u64(bytes, 48),
        rootino: big_u64(bytes, 56),
        agblocks: big_u32(bytes, 84),
        agcount: big_u32(bytes, 88),
        logblocks: big_u32(bytes, 96),
        versionnum: big_u16(bytes, 100),
        sectsize: big_u16(bytes, 102),
        inodesize: big_u16(bytes, 104),
        inopblock: big_u16(bytes, 106),
        label: array(bytes, 108),
        blocklog: bytes[120],
        sectlog: bytes[121],
        inodelog: bytes[122],
        inopblog: bytes[123],
        agblklog: bytes[124],
        inprogress: bytes[126],
        dirblklog: bytes[192],
        ro_compat: big_u32(bytes, 212),
        incompat: big_u32(bytes, 216),
        log_incompat: big_u32(bytes, 220),
        meta_uuid: array(bytes, 248),
    }
}

/// Whether `2^log` is the least power of 2 that is at least the number.
fn is_least_log(log: u8, number: u32) -> bool
    requires { number ≤ 2 ^ 28 }
    ensures { result ≡ is_least_log log number }
{
    if log > 28 {
        return false;
    }
    number <= 1 << log && (log == 0 || 1 << (log - 1) < number)
}

impl Superblock {
    fn has_sector_size(&self) -> bool
        ensures { result ≡ has_sector_size self.now }
    {
        self.sectsize == 512 && self.sectlog == 9 || self.sectsize == 4096 && self.sectlog == 12
    }

    fn has_inode_sizes(&self) -> bool
        ensures { result ≡ has_inode_sizes self.now }
    {
        self.inodesize == 512 && self.inodelog == 9 && self.inopblock == 8 && self.inopblog == 3
            || self.inodesize == 1024
                && self.inodelog == 10
                && self.inopblock == 4
                && self.inopblog == 2
            || self.inodesize == 2048
                && self.inodelog == 11
                && self.inopblock == 2
                && self.inopblog == 1
    }

    fn has_sizes(&self) -> bool
        ensures { result ≡ has_sizes self.now }
    {
        self.blocksize == 4096
            && self.blocklog == 12
            && self.has_sector_size()
            && self.has_inode_sizes()
            && self.dirblklog == 0
    }

    fn has_features(&self) -> bool
        ensures { result ≡ has_features self.now }
    {
        self.versionnum % 16 == 5
            && has_flag(self.incompat, 0)
            && self.ro_compat < 16
            && self.incompat < 64
            && self.log_incompat == 0
    }

    /// Whether the groups are those that the blocks ask for.
    fn has_groups(&self) -> bool
        ensures { result ≡ are_groups self.now.dblocks self.now.agblocks self.now.agcount self.now.agblklog }
    {
        let agblocks = self.agblocks;
        if agblocks < 64 || agblocks > 1 << 28 || !is_least_log(self.agblklog, agblocks) {
            return false;
        }
        let count = self.dblocks.div_ceil(u64::from(agblocks));
        u64::from(self.agcount) == count
            && self.agcount > 0
            && blocks_in_group(self.dblocks, agblocks, self.agcount - 1) >= 64
    }

    /// Whether the log lies in one group.
    fn has_log(&self) -> bool
        requires { AreGroups self.now.dblocks self.now.agblocks self.now.agcount self.now.agblklog }
        ensures { result ≡ is_log_place (geometry_from self.now) }
    {
        let group = self.logstart >> self.agblklog;
        if self.logblocks == 0 || group >= u64::from(self.agcount) {
            return false;
        }
        let block = self.logstart % (1 << self.agblklog);
        let len = blocks_in_group(self.dblocks, self.agblocks, group as u32);
        block + u64::from(self.logblocks) <= u64::from(len)
    }

    /// Whether groups and log lie where they may.
    #[tactic(auto, using(crate::proofs::Laid::groups_from_test))]
    fn has_places(&self) -> bool
        ensures { result ≡ has_places self.now }
    {
        self.has_groups() && self.has_log()
    }

    /// Whether they are the fields of a superblock, of which these are the bytes, with sizes that are served
    /// and that the volume has room for, and with its checksum.
    fn judge_start(&self, bytes: &[u8; 4096], sectors: u64) -> Result<(), Reason>
        requires { self.now ≡ superblock_in bytes.now }
        ensures magic { OnOk result (has_magic self.now ≡ true) }
        ensures sizes { OnOk result (has_sizes self.now ≡ true) }
        ensures inside { OnOk result (fits_volume sectors self.now ≡ true) }
        ensures checksum { OnOk result (has_superblock_checksum bytes.now ≡ true) }
        ensures reason { IfErr result (SpeaksAgainst sectors bytes.now) }
    {
        if self.magic != 0x5846_5342 {
            return Err(Reason::Header { sector: 0 });
        }
        if !self.has_sizes() || sectors < 8 || self.dblocks > sectors / 8 {
            return Err(Reason::Geometry);
        }
        if !has_checksum(&bytes[..usize::from(self.sectsize)], 224) {
            return Err(Reason::Checksum { sector: 0 });
        }
        Ok(())
    }

    /// Whether the volume has nothing that isn't served.
    fn judge_features(&self) -> Result<(), Reason>
        ensures served { OnOk result (IsAccepted self.now) }
        ensures reason { IfErr result (IsDeclined self.now) }
    {
        if !self.has_features() {
            return Err(Reason::Feature);
        }
        if has_flag(self.ro_compat, 2) {
            return Err(Reason::Reflink);
        }
        if has_flag(self.ro_compat, 1) {
            return Err(Reason::ReverseMap);
        }
        if self.rblocks != 0 {
            return Err(Reason::RealTime);
        }
        if self.logstart == 0 {
            return Err(Reason::ExternalLog);
        }
        if has_flag(self.incompat, 4) {
            return Err(Reason::NeedsRepair);
        }
        if self.inprogress != 0 {
            return Err(Reason::InProgress);
        }
        Ok(())
    }

    /// What it says of its volume.
    fn to_super(&self) -> Super
        requires { HasLayout self.now }
        ensures { geometry_of result ≡ geometry_from self.now }
    {
        let meta = if has_flag(self.incompat, 2) {
            self.meta_uuid
        } else {
            self.uuid
        };
        Super {
            dblocks: self.dblocks,
            uuid: self.uuid,
            meta,
            label: self.label,
            logstart: self.logstart,
            logblocks: self.logblocks,
            rootino: self.rootino,
            agblocks: self.agblocks,
            agcount: self.agcount,
            agblklog: self.agblklog,
            sectsize: u32::from(self.sectsize),
            inodesize: u32::from(self.inodesize),
            inopblog: self.inopblog,
            finobt: has_flag(self.ro_compat, 0),
            sparse: has_flag(self.incompat, 1),
            bigtime: has_flag(self.incompat, 3),
            inobtcount: has_flag(self.ro_compat, 3),
            nrext64: has_flag(self.incompat, 5),
        }
    }
}

/// What the superblock says of its volume, of which these are the first bytes, and which has that many
/// sectors of 512 bytes.
///
/// # Errors
///
/// A reason that speaks against the superblock, where one does: of several, any.
pub fn super_of(bytes: &[u8; 4096], sectors: u64) -> Result<Super, Reason>
    ensures sound { OnOk result (IsSuperblock sectors bytes.now) }
    ensures fields { IfOk result (λ geo. geometry_of geo ≡ geometry_in bytes.now) }
    ensures inside { IfOk result (λ geo. 8 * geo.dblocks ≤ sectors) }
    ensures reason { IfErr result (SpeaksAgainst sectors bytes.now) }
{
    let fields = superblock_in(bytes);
    fields.judge_start(bytes, sectors)?;
    fields.judge_features()?;
    if !fields.has_places() {
        return Err(Reason::Geometry);
    }
    Ok(fields.to_super())
}
