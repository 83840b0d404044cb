//! The item at the front of the bytes of a block.
ghost use Rattle.std.specs.Prelude.{◌≡◌, ◌≤◌, ◌<◌, ◌∷◌, [], length, true, false, MatchOption};
ghost use Rattle.xfs_dir.specs.Block.{seen_entry};
ghost use Rattle.xfs_dir.specs.Item.{item_entries};
ghost use Rattle.xfs_dir.specs.Scan.{is_unused_item, item_name_len, is_unused_or_named, begins_with_item, dir_item_len, first_dir_item};
ghost use Rattle.xfs_dir.specs.inside.Fronts.{IsItemLen};

use crate::entry::DirEntry;
use crate::part::part;
use disk_base::{big_u16, big_u64};

/// Whether it is marked as unused.
fn is_unused_item(rest: &[u8]) -> bool
    requires { 2 ≤ length rest.now }
    ensures { result ≡ is_unused_item rest.now }
{
    big_u16(rest, 0) == 0xFFFF
}

/// How long the name in it is.
fn item_name_len(rest: &[u8]) -> usize
    ensures long { result ≡ item_name_len rest.now }
    ensures bound { result < 256 }
{
    match rest.get(8) {
        Some(len) => usize::from(*len),
        None => 0,
    }
}

/// How long it is.
fn dir_item_len(rest: &[u8]) -> usize
    requires { 4 ≤ length rest.now }
    ensures long { result ≡ dir_item_len rest.now }
    ensures short { result < 65536 }
{
    if is_unused_item(rest) {
        return usize::from(big_u16(rest, 2));
    }
    (item_name_len(rest) + 19) / 8 * 8
}

/// Whether it is unused or has a name.
fn is_unused_or_named(rest: &[u8]) -> bool
    requires { 2 ≤ length rest.now }
    ensures { result ≡ is_unused_or_named rest.now }
{
    is_unused_item(rest) || 0 < item_name_len(rest)
}

/// Whether an item stands at the front of `rest`, which begins at byte `at` of its block.
#[tactic(auto, unfolding(crate::specs::Scan::begins_with_item))]
fn begins_with_item(rest: &[u8], at: usize) -> bool
    ensures front { result ≡ begins_with_item at rest.now }
    ensures near { result ≡ true → at < 65536 }
{
    if rest.len() < 8 {
        return false;
    }
    let len = dir_item_len(rest);
    8 <= len
        && len <= rest.len()
        && len % 8 == 0
        && is_unused_or_named(rest)
        && usize::from(big_u16(rest, len - 2)) == at
}

/// How long the item at the front of `rest` is, which begins at byte `at` of its block, if there is one.
pub(crate) fn item_in(rest: &[u8], at: usize) -> Option<usize>
    ensures { MatchOption result (begins_with_item at rest.now ≡ false) (IsItemLen at rest.now) }
{
    if !begins_with_item(rest, at) {
        return None;
    }
    Some(dir_item_len(rest))
}

/// The entry that the item at the front is, if it is used.
pub(crate) fn entry_in(rest: &[u8], at: usize) -> Option<DirEntry<'_>>
    requires { begins_with_item at rest.now ≡ true }
    ensures { MatchOption result
        (item_entries (first_dir_item rest.now) ≡ [])
        (λ entry. item_entries (first_dir_item rest.now) ≡ seen_entry entry ∷ []) }
{
    if is_unused_item(rest) {
        return None;
    }
    let len = item_name_len(rest);
    Some(DirEntry {
        name: part(rest, 9, len + 9),
        ino: big_u64(rest, 0),
        ftype: rest[len + 9],
    })
}
