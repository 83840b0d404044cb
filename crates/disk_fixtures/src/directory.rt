//! What stands in directories.
ghost use Rattle.disk_fixtures.specs.Sums.{IsSummed};

use crate::built::put_some;
use crate::tree::IDENTITY;
use crate::xfs::resum;
use disk_base::put;

/// An entry of a directory.
#[derive(Clone, Copy, Debug)]
pub struct StoredEntry<'a> {
    pub name: &'a [u8],
    pub ino: u64,
    /// The kind of file: 1 is a regular file, 2 a directory, 3 a device of characters, 5 a pipe, 7 a link.
    pub ftype: u8,
}

/// What the names in a directory, and those of attributes, are sorted by.
pub(crate) fn name_hash(name: &[u8]) -> u32 {
    let mut hash = 0u32;
    for byte in name {
        hash = hash.rotate_left(7) ^ u32::from(*byte);
    }
    hash
}

impl StoredEntry<'_> {
    // How many bytes it has in a block.
    fn len(&self) -> usize {
        (self.name.len() % 256 + 19) / 8 * 8
    }

    // Puts the entry at its place of a short form, where its place in a block would be that one, and answers where
    // the next one begins.
    fn put_short(&self, out: &mut [u8], at: usize, place: usize) -> usize {
        let behind = at.saturating_add(3).saturating_add(self.name.len());
        put_some(out, at, &[(self.name.len() % 256) as u8]);
        put_some(
            out,
            at.saturating_add(1),
            &((place % 65536) as u16).to_be_bytes(),
        );
        put_some(out, at.saturating_add(3), self.name);
        put_some(out, behind, &[self.ftype]);
        put_some(
            out,
            behind.saturating_add(1),
            &((self.ino % 2048) as u32).to_be_bytes(),
        );
        behind.saturating_add(5)
    }

    // Puts the entry at its place of a block.
    fn put_item(&self, out: &mut [u8], at: usize) {
        put_some(out, at, &self.ino.to_be_bytes());
        put_some(out, at.saturating_add(8), &[(self.name.len() % 256) as u8]);
        put_some(out, at.saturating_add(9), self.name);
        let behind = at.saturating_add(9).saturating_add(self.name.len());
        put_some(out, behind, &[self.ftype]);
        let tag = at.saturating_add(self.len()).saturating_sub(2);
        put_some(out, tag, &((at % 65536) as u16).to_be_bytes());
    }
}

/// A directory whose entries stand in its inode, and how many bytes it has.
pub fn short_form(parent: u32, entries: &[StoredEntry<'_>]) -> ([u8; 336], usize) {
    let mut out = [0; 336];
    put(&mut out, 0, &[(entries.len() % 256) as u8, 0]);
    put(&mut out, 2, &parent.to_be_bytes());
    let mut at = 6;
    let mut place = 96usize;
    for entry in entries {
        at = entry.put_short(&mut out, at, place);
        place = place.saturating_add(entry.len());
    }
    (out, at)
}

// Puts the entries behind the header of a block, and their hashes at its end, and answers where the last one ends.
fn put_items(out: &mut [u8; 4096], entries: &[StoredEntry<'_>]) -> usize {
    let mut at = 64usize;
    let mut leaf = 4088usize.saturating_sub(8 * (entries.len() % 256));
    for entry in entries {
        entry.put_item(out, at);
        put_some(out, leaf, &name_hash(entry.name).to_be_bytes());
        put_some(
            out,
            leaf.saturating_add(4),
            &((at / 8 % 512) as u32).to_be_bytes(),
        );
        at = at.saturating_add(entry.len());
        leaf = leaf.saturating_add(8);
    }
    at
}

/// The single block of a directory, which stands at that block of the volume, with its checksum. The entries, of
/// which there are few, stand in the order of their hashes.
pub fn entry_block(ino: u64, at: u64, entries: &[StoredEntry<'_>]) -> [u8; 4096]
    ensures { IsSummed 4 result }
{
    let mut out = [0; 4096];
    put(&mut out, 0, b"XDB3");
    put(&mut out, 8, &at.wrapping_mul(8).to_be_bytes());
    put(&mut out, 24, &IDENTITY);
    put(&mut out, 40, &ino.to_be_bytes());
    let begin = put_items(&mut out, entries);
    let end = 4088usize.saturating_sub(8 * (entries.len() % 256));
    let free = ((end.saturating_sub(begin) % 4096) as u16).to_be_bytes();
    let place = ((begin % 4096) as u16).to_be_bytes();
    put(&mut out, 48, &place);
    put(&mut out, 50, &free);
    put_some(&mut out, begin, &[255, 255]);
    put_some(&mut out, begin.saturating_add(2), &free);
    put_some(&mut out, end.saturating_sub(2), &place);
    put(&mut out, 4091, &[(entries.len() % 256) as u8]);
    resum(&mut out, 4);
    out
}
