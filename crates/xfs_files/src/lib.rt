//! The directories of an XFS volume, and its files by their paths.
//!
//! It is for whoever checks such a volume: [`judge_directory`] reads the blocks of a directory that have entries, and
//! answers Ok only where they, or its short form, spell a list of entries, and a reason only where one doesn't.
//! `specs/Directory.antt` says what that means, after the XFS Algorithms & Data Structures guide, and which entries
//! they are; `specs/File.antt` says which file stands at a path, and all that a user sees of it.
//!
//! It stands on xfs_dir, for entries, on xfs_inode, on xfs_super and on disk_base.
#![tactic(auto)]

mod directory;
mod entry_block;
mod laws;
mod place;
mod short;

pub use directory::judge_directory;
pub use laws::no_directory_reason;
