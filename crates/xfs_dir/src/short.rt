//! The entries of a short form.
ghost use Rattle.std.specs.Prelude.{◌≡◌, ◌+◌, ◌≤◌, ◌<◌, length, true, false, slice_index, MatchOption, IfOk, IfErr};
ghost use Rattle.disk_base.specs.Fields.{big_at};
ghost use Rattle.xfs_dir.specs.Block.{seen_entry};
ghost use Rattle.xfs_dir.specs.Short.{inumber_width, short_entry, ShortSpells, IsShortEntryFault};
ghost use Rattle.xfs_dir.specs.ShortScan.{begins_with_short, first_short_item, short_items, short_entries, short_entries_left};
ghost use Rattle.xfs_dir.specs.inside.Fronts.{IsShortItemLen};

use crate::entry::{DirEntry, EntryFault};
use crate::part::{behind, part};
use disk_base::{big_u32, big_u64};

/// The entries of a short form that are left, in their order.
#[derive(Clone, Copy, Debug)]
pub struct ShortEntries<'a> {
    rest: &'a [u8],
    wide: bool,
    count: usize,
}

/// How many bytes an inode's number has.
fn inumber_width(wide: bool) -> usize
    ensures width { result ≡ inumber_width wide }
    ensures least { 4 ≤ result }
    ensures most { result ≤ 8 }
{
    if wide { 8 } else { 4 }
}

/// How long the name at the front is.
fn short_name_len(rest: &[u8]) -> usize
    ensures len { result ≡ slice_index rest.now 0 }
    ensures bound { result < 256 }
{
    match rest.first() {
        Some(len) => usize::from(*len),
        None => 0,
    }
}

/// Whether an entry stands at the front of `rest`.
#[tactic(auto, unfolding(crate::specs::ShortScan::begins_with_short))]
fn begins_with_short(rest: &[u8], wide: bool) -> bool
    ensures { result ≡ begins_with_short wide rest.now }
{
    let name = short_name_len(rest);
    0 < name && name + 4 + inumber_width(wide) <= rest.len()
}

/// How long the entry at the front of `rest` is, if there is one.
fn short_in(rest: &[u8], wide: bool) -> Option<usize>
    ensures { MatchOption result (begins_with_short wide rest.now ≡ false) (IsShortItemLen wide rest.now) }
{
    if !begins_with_short(rest, wide) {
        return None;
    }
    Some(short_name_len(rest) + 4 + inumber_width(wide))
}

/// The inode's number at a place of a short form.
fn inumber_in(rest: &[u8], at: usize, wide: bool) -> u64
    requires { at + inumber_width wide ≤ length rest.now }
    ensures { result ≡ big_at (inumber_width wide) rest.now at }
{
    if wide {
        big_u64(rest, at)
    } else {
        u64::from(big_u32(rest, at))
    }
}

/// The entry at the front of `rest`.
fn short_entry(rest: &[u8], wide: bool) -> DirEntry<'_>
    requires { begins_with_short wide rest.now ≡ true }
    ensures { seen_entry result ≡ short_entry wide (first_short_item wide rest.now) }
{
    let len = short_name_len(rest);
    DirEntry {
        name: part(rest, 3, len + 3),
        ino: inumber_in(rest, len + 4, wide),
        ftype: rest[len + 3],
    }
}

impl<'a> Iterator for ShortEntries<'a> {
    ghost use Rattle.std.specs.Iterator.{YieldsFirstBy, item_count};
    ghost use Rattle.xfs_dir.specs.Block.{seen_entry};
    ghost use Rattle.xfs_dir.specs.ShortScan.{short_entries_left};

    type Item = DirEntry<'a>;

    ghost next_gives = { YieldsFirstBy seen_entry short_entries_left };

    ghost remaining = { item_count short_entries_left };

    fn next(&mut self) -> Option<DirEntry<'a>> {
        if self.count == 0 {
            return None;
        }
        let item = self.rest;
        let Some(len) = short_in(item, self.wide) else {
            return None;
        };
        self.rest = behind(item, len);
        self.count -= 1;
        Some(short_entry(item, self.wide))
    }
}

/// The entries of a directory's short form, which stands in its inode (XFS Algorithms & Data Structures, 'Short Form
/// Directories').
///
/// # Errors
///
/// The byte at which the first entry should begin that isn't one, or that of the first byte behind the last entry; 0
/// where the form ends within its head.
pub fn short_entries(bytes: &[u8]) -> Result<ShortEntries<'_>, EntryFault>
    ensures spelled { IfOk result (λ entries. ShortSpells bytes.now (short_items bytes.now)) }
    ensures entries { IfOk result (λ entries. short_entries_left entries ≡ short_entries bytes.now) }
    ensures fault { IfErr result (λ fault. IsShortEntryFault bytes.now fault.at) }
{
    if bytes.len() < 2 {
        return Err(EntryFault { at: 0 });
    }
    let wide = bytes[1] != 0;
    let head = 2 + inumber_width(wide);
    if bytes.len() < head {
        return Err(EntryFault { at: 0 });
    }
    let count = usize::from(bytes[0]);
    let items = behind(bytes, head);
    let mut rest = items;
    let mut at = head;
    for _k in 0..count {
        let Some(len) = short_in(rest, wide) else {
            return Err(EntryFault { at: at as u32 });
        };
        rest = behind(rest, len);
        at += len;
    }
    if !rest.is_empty() {
        return Err(EntryFault { at: at as u32 });
    }
    Ok(ShortEntries {
        rest: items,
        wide,
        count,
    })
}
