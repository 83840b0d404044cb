//! What is read of a directory.
use thiserror::Error;

/// An entry of a directory: its name, the number of its inode, and the kind of file as it is stored.
#[derive(Clone, Copy, Debug, PartialEq, Eq)]
pub struct DirEntry<'a> {
    pub name: &'a [u8],
    pub ino: u64,
    pub ftype: u8,
}

/// The byte at which an item should begin that isn't one. It counts from the start of the block or the short form, and
/// is 0 where that is none at all.
#[derive(Clone, Copy, Debug, PartialEq, Eq, Error)]
#[error("Entry at={at}")]
pub struct EntryFault {
    pub at: u32,
}
