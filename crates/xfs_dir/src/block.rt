//! The entries of a data block.
ghost use Rattle.std.specs.Prelude.{◌≡◌, ◌≤◌, true, false, Some, None, if◌then◌else◌, MatchOption, IfOk, IfErr};
ghost use Rattle.xfs_dir.specs.Block.{entries_left, block_entries, block_items, BlockSpells, IsBlockEntryFault, is_entry_block, items_end};

use crate::entry::{DirEntry, EntryFault};
use crate::item::{entry_in, item_in};
use crate::part::{behind, part};
use disk_base::big_u32;

/// Bytes of a block.
const BLOCK: usize = 4096;

/// Bytes of a block's header.
const HEADER: usize = 64;

/// `XDB3`, which a block with leaf entries and a tail begins with, and `XDD3`, which one without them does.
const WITH_TAIL: u32 = 0x5844_4233;

const WITHOUT_TAIL: u32 = 0x5844_4433;

/// The most leaf entries that leave room for a block's header.
const MOST_LEAF_ENTRIES: u32 = 503;

/// The entries of a data block that are left, in their order.
#[derive(Clone, Copy, Debug)]
pub struct BlockEntries<'a> {
    rest: &'a [u8],
    at: usize,
}

impl<'a> Iterator for BlockEntries<'a> {
    ghost use Rattle.std.specs.Iterator.{YieldsFirstBy, item_count};
    ghost use Rattle.xfs_dir.specs.Block.{seen_entry, entries_left};

    type Item = DirEntry<'a>;

    ghost next_gives = { YieldsFirstBy seen_entry entries_left };

    ghost remaining = { item_count entries_left };

    fn next(&mut self) -> Option<DirEntry<'a>> {
        while let Some(len) = item_in(self.rest, self.at) {
            let item = self.rest;
            let at = self.at;
            self.rest = behind(item, len);
            self.at = at + len;
            if let Some(entry) = entry_in(item, at) {
                return Some(entry);
            }
        }
        None
    }
}

/// Where the items of a block end, if it is a data block.
fn items_end(bytes: &[u8; BLOCK]) -> Option<usize>
    ensures end { result ≡ (if is_entry_block bytes.now then Some (items_end bytes.now) else None) }
    ensures block { MatchOption result
        (is_entry_block bytes.now ≡ false)
        (λ end. (is_entry_block bytes.now ≡ true) × (end ≡ items_end bytes.now) × (64 ≤ end) × (end ≤ 4096)) }
{
    match big_u32(bytes, 0) {
        WITH_TAIL => {
            let count = big_u32(bytes, 4088);
            if MOST_LEAF_ENTRIES < count {
                return None;
            }
            Some(4088 - 8 * count as usize)
        }
        WITHOUT_TAIL => Some(BLOCK),
        _ => None,
    }
}

/// The entries of a directory's data block (XFS Algorithms & Data Structures, 'Block Directories').
///
/// # Errors
///
/// The byte at which the first item should begin that isn't one; 0 where the block's magic is neither `XDB3` nor
/// `XDD3`, or where leaf entries leave no room for its header.
pub fn block_entries(bytes: &[u8; BLOCK]) -> Result<BlockEntries<'_>, EntryFault>
    ensures spelled { IfOk result (λ entries. BlockSpells bytes.now (block_items bytes.now)) }
    ensures entries { IfOk result (λ entries. entries_left entries ≡ block_entries bytes.now) }
    ensures fault { IfErr result (λ fault. IsBlockEntryFault bytes.now fault.at) }
{
    let Some(end) = items_end(bytes) else {
        return Err(EntryFault { at: 0 });
    };
    let items = part(bytes, HEADER, end);
    let mut rest = items;
    let mut at = HEADER;
    while let Some(len) = item_in(rest, at) {
        rest = behind(rest, len);
        at += len;
    }
    if !rest.is_empty() {
        return Err(EntryFault { at: at as u32 });
    }
    Ok(BlockEntries {
        rest: items,
        at: HEADER,
    })
}
