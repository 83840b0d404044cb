//! Changes of the whole small volume, and why it isn't valid then.

use disk_base::put;
use disk_fixtures::{Built, Header};
use std::alloc::{AllocError, Global};
use std::process::Abort;
use std::test::Fail;
use xfs_check::check;
use xfs_super::{CheckFault, Reason};

/// What bytes of the volume belong to, from whose start on they are counted.
#[derive(Clone, Copy)]
enum Place {
    Header(Header, u32),
    Inode(u64),
    /// A block, and the byte of it from which on it holds its checksum.
    Block(u32, usize),
    /// The volume, which has no checksum.
    Volume,
}

/// Up to 16 bytes that are put into the volume. The checksum of what they belong to is made right.
#[derive(Clone, Copy)]
pub(crate) struct Change {
    place: Place,
    at: usize,
    bytes: [u8; 16],
    len: usize,
}

impl Change {
    fn of(place: Place, at: usize, bytes: &[u8]) -> Change {
        let len = bytes.len().min(16);
        let mut kept = [0; 16];
        put(&mut kept, 0, &bytes[..len]);
        Change {
            place,
            at,
            bytes: kept,
            len,
        }
    }

    /// From byte `at` of a header of a group on.
    pub(crate) fn header(header: Header, group: u32, at: usize, bytes: &[u8]) -> Change {
        Change::of(Place::Header(header, group), at, bytes)
    }

    /// From byte `at` of the first superblock on.
    pub(crate) fn superblock(at: usize, bytes: &[u8]) -> Change {
        Change::header(Header::Superblock, 0, at, bytes)
    }

    /// From byte `at` of an inode on.
    pub(crate) fn inode(ino: u64, at: usize, bytes: &[u8]) -> Change {
        Change::of(Place::Inode(ino), at, bytes)
    }

    /// From byte `at` of a block on, which holds its checksum from byte `sum` on.
    pub(crate) fn block(block: u32, sum: usize, at: usize, bytes: &[u8]) -> Change {
        Change::of(Place::Block(block, sum), at, bytes)
    }

    /// From byte `at` of a block of a tree of a group on.
    pub(crate) fn tree(block: u32, at: usize, bytes: &[u8]) -> Change {
        Change::block(block, 52, at, bytes)
    }

    /// From byte `at` of the volume on; no checksum is made right.
    pub(crate) fn raw(at: usize, bytes: &[u8]) -> Change {
        Change::of(Place::Volume, at, bytes)
    }

    fn apply(&self, built: &mut Built) {
        let bytes = &self.bytes[..self.len.min(16)];
        match self.place {
            Place::Header(header, group) => built.change_header(header, group, self.at, bytes),
            Place::Inode(ino) => built.change_inode(ino, self.at, bytes),
            Place::Block(block, sum) => built.change_block(block, self.at, bytes, sum),
            Place::Volume => built.put(self.at, bytes),
        }
    }
}

/// The volume with those changes.
pub(crate) fn changed(alloc: Global, changes: &[Change]) -> Result<Built, AllocError> {
    let mut built = Built::whole(alloc)?;
    for change in changes {
        change.apply(&mut built);
    }
    Ok(built)
}

/// Why the volume with those changes isn't valid, if it isn't.
pub(crate) fn fault_with(
    alloc: Global,
    changes: &[Change],
) -> Result<Option<CheckFault>, AllocError> {
    let mut disk = changed(alloc, changes)?.into_disk(None);
    Ok(check(alloc, &mut disk).err())
}

/// Compares the reason that the change of each row gives with the one that is wanted.
pub(crate) fn compare(
    rt: &impl Abort,
    alloc: Global,
    rows: &[(Change, Reason)],
) -> Result<(), Fail> {
    for (row, (change, want)) in rows.iter().enumerate() {
        let fault = fault_with(alloc, &[*change])?;
        assert_eq!(rt; fault, Some(CheckFault::Bad(*want)), "row {row}");
    }
    Ok(())
}
