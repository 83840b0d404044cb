//! The entries of a directory of an XFS volume, as its data blocks and its short form spell them.
//!
//! It is for whoever reads a directory: [`block_entries`] gives the entries of one data block of 4096 bytes, and
//! [`short_entries`] those of the form that stands in the inode. Both are iterators that lend the names out of the
//! bytes, and no memory is taken.
//!
//! It promises, exactly: entries are given where the bytes are a list of items, and all of them, in their order; else
//! the place of the first item that isn't one. `specs/Item.antt`, `specs/Block.antt` and `specs/Short.antt` have the
//! grammar, after the XFS Algorithms & Data Structures guide, as lists of items whose bytes are joined; bytes spell at
//! most one such list ([`blocks_are_exact`], [`short_forms_are_exact`]).
//!
//! It looks at neither the header of a block, but for its magic, nor at the leaf entries behind the items. It stands on
//! disk_base, for numbers in bytes.
#![tactic(auto)]

mod block;
mod entry;
mod item;
mod laws;
mod part;
mod short;

pub use block::{BlockEntries, block_entries};
pub use entry::{DirEntry, EntryFault};
pub use laws::{blocks_are_exact, short_forms_are_exact};
pub use short::{ShortEntries, short_entries};
