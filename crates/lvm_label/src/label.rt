//! The label of a physical volume.
ghost use Rattle.std.specs.Prelude.{◌≡◌, ℕ, ◌+◌, ◌*◌, ◌<◌, ◌≤◌, length, IsTrue, ◌↔◌, OnOk, IfOk, MatchOption};
ghost use Rattle.disk_base.specs.Checksum.{crc32_lvm_of};
ghost use Rattle.disk_base.specs.Faults.{HasCause};
ghost use Rattle.disk_base.specs.Image.{bytes_at, sector};
ghost use Rattle.disk_base.specs.Fields.{little_at};
ghost use Rattle.lvm_label.specs.inside.Reading.{HasNoAreas};
ghost use Rattle.lvm_label.specs.Label.{IsLabelHead, is_zero_pair, ArePairs, HasAreas, IsLabel, IsNoLabel, FindsLabel, label_of, pair_at};

use disk_base::{Blocks, Failed, SECTOR, crc32_lvm, little_u32, little_u64};

/// What a label begins with.
const SIGNATURE: [u8; 8] = *b"LABELONE";

/// The kind of label that names a physical volume of LVM2.
const KIND: [u8; 8] = *b"LVM2 001";

/// The label of a physical volume, with what the header that it names says of the volume (LVM2 label format,
/// `label_header` and `pv_header`).
#[derive(Clone, Copy, Debug, PartialEq, Eq)]
pub struct Label {
    /// The sector of the volume that holds it, 0 to 3.
    pub sector: u32,
    /// The byte of that sector at which the header of the physical volume begins.
    pub offset: u32,
    /// The identifier of the physical volume.
    pub id: [u8; 32],
    /// The size of the device, in bytes.
    pub size: u64,
    /// How many metadata areas there are.
    pub areas: u32,
    /// The first byte of the volume that is in the first metadata area; 0 where there is none.
    pub start: u64,
    /// How many bytes the first metadata area has; 0 where there is none.
    pub length: u64,
    /// The first byte and the length of the second metadata area, if there is one.
    pub second: Option<(u64, u64)>,
}

/// How many data areas and metadata areas a header has.
#[derive(Clone, Copy, Debug, PartialEq, Eq)]
struct Areas {
    others: u32,
    areas: u32,
}

/// Whether a label's checksum is right.
fn has_right_checksum(bytes: &[u8; SECTOR]) -> bool
    ensures { IsTrue result ↔ (little_at 4 bytes.now 16 ≡ crc32_lvm_of (bytes_at bytes.now 20 492)) }
{
    little_u32(bytes, 16) == crc32_lvm(&bytes[20..])
}

/// Whether a sector begins as the label of that sector does.
fn is_head(number: u32, bytes: &[u8; SECTOR]) -> bool
    ensures { IsTrue result ↔ IsLabelHead number bytes.now }
{
    &bytes[..8] == SIGNATURE.as_slice()
        && little_u64(bytes, 8) == u64::from(number)
        && &bytes[24..32] == KIND.as_slice()
        && has_right_checksum(bytes)
}

/// Whether the two numbers from place `at` on are zero.
fn is_zero_pair(bytes: &[u8; SECTOR], at: usize) -> bool
    requires { at + 16 ≤ 512 }
    ensures { result ≡ is_zero_pair bytes.now at }
{
    little_u64(bytes, at) == 0 && little_u64(bytes, at + 8) == 0
}

/// How many pairs stand from place `at` on, before the first zero pair, if that ends inside the sector.
fn count_pairs(bytes: &[u8; SECTOR], at: usize) -> Option<u32>
    requires { at ≤ 512 }
    ensures { MatchOption result ((count : ℕ) → ArePairs bytes.now at count → ⊥) (λ count. ArePairs bytes.now at count) }
{
    for count in 0..33 {
        let place = at + 16 * count as usize;
        if SECTOR < place + 16 {
            return None;
        }
        if is_zero_pair(bytes, place) {
            return Some(count);
        }
    }
    None
}

/// How many areas the header in a sector has.
fn areas_in(bytes: &[u8; SECTOR]) -> Option<Areas>
    ensures { MatchOption result (HasNoAreas bytes.now) (λ counts. HasAreas bytes.now counts.others counts.areas) }
{
    let offset = little_u32(bytes, 20);
    if offset < 32 || 472 < offset {
        return None;
    }
    let others = match count_pairs(bytes, offset as usize + 40) {
        None => return None,
        Some(others) => others,
    };
    match count_pairs(bytes, offset as usize + 56 + 16 * others as usize) {
        None => None,
        Some(areas) => Some(Areas { others, areas }),
    }
}

/// The two numbers from place `at` on.
fn pair_in(bytes: &[u8; SECTOR], at: usize) -> (u64, u64)
    requires { at + 16 ≤ 512 }
    ensures { result ≡ pair_at bytes.now at }
{
    (little_u64(bytes, at), little_u64(bytes, at + 8))
}

/// The label of that sector with these areas.
fn label_with(number: u32, bytes: &[u8; SECTOR], counts: &Areas) -> Label
    requires { HasAreas bytes.now counts.now.others counts.now.areas }
    ensures { result ≡ label_of number bytes.now counts.now.others counts.now.areas }
{
    let offset = little_u32(bytes, 20);
    let place = offset as usize + 56 + 16 * counts.others as usize;
    let mut id = [0; 32];
    id.copy_from_slice(&bytes[offset as usize..offset as usize + 32]);
    let first = pair_in(bytes, place);
    let second = if counts.areas < 2 {
        None
    } else {
        Some(pair_in(bytes, place + 16))
    };
    Label {
        sector: number,
        offset,
        id,
        size: little_u64(bytes, offset as usize + 32),
        areas: counts.areas,
        start: first.0,
        length: first.1,
        second,
    }
}

/// The label that sector `number` holds.
fn label_in_sector(number: u32, bytes: &[u8; SECTOR]) -> Option<Label>
    ensures { MatchOption result (IsNoLabel number bytes.now) (λ label. IsLabel number bytes.now label) }
{
    if !is_head(number, bytes) {
        return None;
    }
    match areas_in(bytes) {
        None => None,
        Some(counts) => Some(label_with(number, bytes, &counts)),
    }
}

/// Sector `number` of four.
fn sector_in(bytes: &[u8; 2048], number: u32) -> [u8; SECTOR]
    requires { number < 4 }
    ensures { result ≡ sector bytes.now number }
{
    let start = 512 * number as usize;
    let mut one = [0; SECTOR];
    one.copy_from_slice(&bytes[start..start + SECTOR]);
    one
}

/// The first label in four sectors.
fn label_in(bytes: &[u8; 2048]) -> Option<Label>
    ensures { FindsLabel bytes.now result }
{
    for number in 0..4 {
        let found = label_in_sector(number, &sector_in(bytes, number));
        if let Some(label) = found {
            return Some(label);
        }
    }
    None
}

/// The first label that the first four sectors of a volume hold, if they hold one. They stand in `out` afterwards;
/// after `Failed` the contents of `out` are open.
pub fn read_label<B: Blocks>(disk: &mut B, out: &mut [u8; 2048]) -> Result<Option<Label>, Failed>
    requires { 4 ≤ B.size disk.old }
    // The disk was only read.
    ensures read { B.only_read disk.old disk.new }
    // Its first four sectors stand in `out`.
    ensures bytes { IsTrue B.tells → OnOk result (out.new ≡ bytes_at (B.image disk.old) 0 2048) }
    // What they hold is answered.
    ensures label { IfOk result (FindsLabel out.new) }
    // Its count of faults didn't fall, and rose where it failed.
    ensures cause { HasCause (B.faults disk.old) (B.faults disk.new) result }
{
    disk.read(0, out)?;
    Ok(label_in(out))
}
