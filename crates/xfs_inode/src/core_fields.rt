//! The core of an inode.
ghost use Rattle.std.specs.Prelude.{◌≡◌, ◌≤◌, length};
ghost use Rattle.disk_base.specs.Image.{bytes_at};
ghost use Rattle.xfs_inode.specs.Core.{core_of, data_count, attribute_count, has_large_counts, is_directory, is_regular_file, is_link, is_device, is_special_file, has_directory_format, has_kind_and_format};
ghost use Rattle.xfs_super.specs.Super.{geometry_of};

use disk_base::{big_u16, big_u32, big_u64};
use xfs_super::Super;

/// The fields of an inode's core (XFS Algorithms & Data Structures, 'Inode Core'), but for magic and checksum. A
/// time is its eight bytes as they are stored.
#[derive(Clone, Copy, Debug, PartialEq, Eq)]
pub struct Core {
    /// Kind of file, in the four upper bits, and permissions.
    pub mode: u16,
    pub version: u8,
    /// Where the file's bytes stand: 0 is a device's number, 1 in the inode, 2 in extents that the inode lists, 3
    /// in extents of a tree.
    pub format: u8,
    pub uid: u32,
    pub gid: u32,
    pub nlink: u32,
    /// Both halves, joined.
    pub project: u32,
    pub atime: u64,
    pub mtime: u64,
    pub ctime: u64,
    /// In bytes.
    pub size: u64,
    pub nblocks: u64,
    pub extsize: u32,
    /// How many extents the data fork has, and the attribute fork.
    pub nextents: u64,
    pub anextents: u32,
    /// Where the attribute fork begins behind the core, in units of 8 bytes; 0 where there is none.
    pub forkoff: u8,
    /// The format of the attribute fork.
    pub aformat: u8,
    pub flags: u16,
    pub generation: u32,
    pub changecount: u64,
    pub lsn: u64,
    pub flags2: u64,
    pub crtime: u64,
    pub ino: u64,
    /// The identity of the volume's metadata.
    pub uuid: [u8; 16],
}

/// Whether an inode counts its extents in wider fields.
fn has_large_counts(geo: &Super, bytes: &[u8]) -> bool
    requires { 176 ≤ length bytes.now }
    ensures { result ≡ has_large_counts (geometry_of geo.now) bytes.now }
{
    geo.nrext64 && big_u64(bytes, 120) / 16 % 2 == 1
}

/// How many extents the data fork has.
fn data_count(geo: &Super, bytes: &[u8]) -> u64
    requires { 176 ≤ length bytes.now }
    ensures { result ≡ data_count (geometry_of geo.now) bytes.now }
{
    if has_large_counts(geo, bytes) {
        big_u64(bytes, 24)
    } else {
        u64::from(big_u32(bytes, 76))
    }
}

/// How many extents the attribute fork has.
fn attribute_count(geo: &Super, bytes: &[u8]) -> u32
    requires { 176 ≤ length bytes.now }
    ensures { result ≡ attribute_count (geometry_of geo.now) bytes.now }
{
    if has_large_counts(geo, bytes) {
        big_u32(bytes, 76)
    } else {
        u32::from(big_u16(bytes, 80))
    }
}

/// The identity in an inode.
fn uuid_in(bytes: &[u8]) -> [u8; 16]
    requires { 176 ≤ length bytes.now }
    ensures { result ≡ bytes_at bytes.now 160 16 }
{
    let mut uuid = [0; 16];
    uuid.copy_from_slice(&bytes[160..176]);
    uuid
}

/// The core in an inode's bytes.
#[tactic(auto, unfolding(crate::specs::Core::core_of))]
pub(crate) fn core_in(geo: &Super, bytes: &[u8]) -> Core
    requires { 176 ≤ length bytes.now }
    ensures { result ≡ core_of (geometry_of geo.now) bytes.now }
{
    Core {
        mode: big_u16(bytes, 2),
        version: bytes[4],
        format: bytes[5],
        uid: big_u32(bytes, 8),
        gid: big_u32(bytes, 12),
        nlink: big_u32(bytes, 16),
        project: u32::from(big_u16(bytes, 22)) * 65536 + u32::from(big_u16(bytes, 20)),
        atime: big_u64(bytes, 32),
        mtime: big_u64(bytes, 40),
        ctime: big_u64(bytes, 48),
        size: big_u64(bytes, 56),
        nblocks: big_u64(bytes, 64),
        extsize: big_u32(bytes, 72),
        nextents: data_count(geo, bytes),
        anextents: attribute_count(geo, bytes),
        forkoff: bytes[82],
        aformat: bytes[83],
        flags: big_u16(bytes, 90),
        generation: big_u32(bytes, 92),
        changecount: big_u64(bytes, 104),
        lsn: big_u64(bytes, 112),
        flags2: big_u64(bytes, 120),
        crtime: big_u64(bytes, 144),
        ino: big_u64(bytes, 152),
        uuid: uuid_in(bytes),
    }
}

impl Core {
    ghost use Rattle.std.specs.Prelude.{◌≡◌};
    ghost use Rattle.xfs_inode.specs.Core.{is_directory, is_regular_file, is_link, is_device, is_special_file, has_kind_and_format};
    ghost use Rattle.xfs_inode.specs.Inode.{is_root_sound, needs_target_block};
    ghost use Rattle.xfs_inode.specs.Seen.{fits_core};
    ghost use Rattle.xfs_super.specs.Super.{geometry_of};

    /// Whether it is a directory.
    pub fn is_directory(&self) -> bool
        ensures { result ≡ is_directory self.now }
    {
        self.mode / 4096 == 4
    }

    /// Whether it is a regular file.
    pub fn is_regular_file(&self) -> bool
        ensures { result ≡ is_regular_file self.now }
    {
        self.mode / 4096 == 8
    }

    /// Whether it is a symbolic link.
    pub fn is_link(&self) -> bool
        ensures { result ≡ is_link self.now }
    {
        self.mode / 4096 == 10
    }

    /// Whether it is a device.
    pub fn is_device(&self) -> bool
        ensures { result ≡ is_device self.now }
    {
        self.mode / 4096 == 2 || self.mode / 4096 == 6
    }

    fn is_special_file(&self) -> bool
        ensures { result ≡ is_special_file self.now }
    {
        self.mode / 4096 == 1 || self.is_device() || self.mode / 4096 == 12
    }

    /// Whether its kind of file has its format.
    pub(crate) fn has_kind_and_format(&self) -> bool
        ensures { result ≡ has_kind_and_format self.now }
    {
        let format = self.format;
        let listed = format == 2 || format == 3;
        self.is_directory() && (format == 1 || listed)
            || self.is_regular_file() && listed
            || self.is_link() && (format == 1 || format == 2)
            || self.is_special_file() && format == 0
    }

    /// Whether it spells that inode of the volume, with a kind of file and its format, and no link that is too
    /// long.
    pub(crate) fn fits(&self, geo: &Super, ino: u64) -> bool
        ensures { result ≡ fits_core (geometry_of geo.now) ino self.now }
    {
        self.version == 3
            && self.ino == ino
            && self.uuid == geo.meta
            && self.has_kind_and_format()
            && (!self.is_link() || self.size <= 1024)
    }

    /// Whether it is a directory, if it is the root inode.
    pub(crate) fn is_root_sound(&self, geo: &Super, ino: u64) -> bool
        ensures { result ≡ is_root_sound (geometry_of geo.now) ino self.now }
    {
        ino != geo.rootino || self.is_directory()
    }

    /// Whether it is a link whose target stands in a block of its own.
    pub(crate) fn needs_target_block(&self) -> bool
        ensures { result ≡ needs_target_block self.now }
    {
        self.is_link() && self.format == 2 && self.size > 0
    }
}
