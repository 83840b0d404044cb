//! What the values of the options spell.
ghost use Rattle.std.specs.List.{list_all};
ghost use Rattle.std.specs.Prelude.{◌≡◌, ℕ, ◌+◌, ◌≤◌, ◌<◌, ◌==◌, ◌*◌, ◌^◌, IfSome, IfOk, IsTrue, MatchOption, is_some, length, position};
ghost use Rattle.words.specs.Numbers.{is_digit, spelled_number, digits_of, whole_number_of};
ghost use Rattle.words.specs.Spelling.{without_dev, begins_with_disk, part_of, is_name_byte, is_name, parted_at, lv_of, volume_of, is_same_volume, alignment_of, align_first_of, unknown_of};

use crate::job::{Unknown, VolumeName};
use disk_base::Name;
use std::alloc::{AllocError, Global};

/// The greatest alignment, in sectors.
const MOST_ALIGNMENT: u64 = 1_048_576;

fn is_digit_byte(byte: u8) -> bool
    ensures { result ≡ is_digit byte }
{
    byte >= b'0' && byte <= b'9'
}

fn all_digits(bytes: &[u8]) -> bool
    ensures { result ≡ list_all is_digit bytes.now }
{
    bytes.iter().all(|byte| is_digit_byte(*byte))
}

/// The number that at most 15 bytes spell in base ten, each taken as a digit.
#[tactic(auto, using(crate::proofs::Powers::next_power, crate::proofs::Powers::power_fits, std::proofs::lemmas::List::Sums::fold_more))]
fn number(digits: &[u8]) -> u64
    requires { length digits.now ≤ 15 }
    ensures value { result ≡ spelled_number digits.now }
    ensures small { result + 23 ≤ 23 * 10 ^ length digits.now }
{
    let mut number: u64 = 0;
    for byte in digits {
        number = 10 * number + u64::from(byte.saturating_sub(b'0'));
    }
    number
}

/// What one to `most` digits spell.
#[tactic(auto, using(crate::proofs::Powers::power_under), unfolding(crate::specs::Numbers::digits_of))]
pub fn digits(bytes: &[u8], most: usize) -> Option<u64>
    requires { most ≤ 15 }
    ensures value { result ≡ digits_of most bytes.now }
    ensures small { IfSome result (λ number. number + 23 ≤ 23 * 10 ^ most) }
{
    if bytes.is_empty() || bytes.len() > most || !all_digits(bytes) {
        return None;
    }
    Some(number(bytes))
}

/// The same without a leading zero.
#[tactic(auto, unfolding(crate::specs::Numbers::whole_number_of))]
pub fn whole_number(bytes: &[u8], most: usize) -> Option<u64>
    requires { most ≤ 15 }
    ensures value { result ≡ whole_number_of most bytes.now }
    ensures small { IfSome result (λ number. number + 23 ≤ 23 * 10 ^ most) }
{
    if !bytes.is_empty() && bytes[0] == b'0' {
        return None;
    }
    digits(bytes, most)
}

/// What stands behind a leading `/dev/`, or all of it.
pub fn after_dev(bytes: &[u8]) -> &[u8]
    ensures { result.now ≡ without_dev bytes.now }
{
    if bytes.starts_with(b"/dev/") {
        &bytes[5..]
    } else {
        bytes
    }
}

fn starts_with_disk(name: &[u8]) -> bool
    ensures value { result ≡ begins_with_disk name.now }
    ensures room { IsTrue result → 3 ≤ length name.now }
{
    name.starts_with(b"sda") || name.starts_with(b"vda") || name.starts_with(b"hda")
}

/// The number of the partition that `bytes` name.
#[tactic(auto, unfolding(crate::specs::Spelling::part_of))]
pub fn part(bytes: &[u8]) -> Option<u32>
    ensures { result ≡ part_of bytes.now }
{
    let name = after_dev(bytes);
    if !starts_with_disk(name) {
        return None;
    }
    match whole_number(&name[3..], 4) {
        Some(number) => Some(number as u32),
        None => None,
    }
}

fn is_name_character(byte: u8) -> bool
    ensures { result ≡ is_name_byte byte }
{
    is_digit_byte(byte)
        || byte >= b'A' && byte <= b'Z'
        || byte >= b'a' && byte <= b'z'
        || byte == b'_'
        || byte == b'.'
        || byte == b'+'
        || byte == b'-'
}

fn all_name_characters(bytes: &[u8]) -> bool
    ensures { result ≡ list_all is_name_byte bytes.now }
{
    bytes.iter().all(|byte| is_name_character(*byte))
}

/// Whether `bytes` are the name of a group or of a logical volume.
pub fn is_group_name(bytes: &[u8]) -> bool
    ensures { result ≡ is_name bytes.now }
{
    !bytes.is_empty() && all_name_characters(bytes)
}

fn place_of(byte: u8, bytes: &[u8]) -> Option<usize>
    ensures value { result ≡ position (λ b. b == byte) bytes.now }
    ensures within { IfSome result (λ at. at < length bytes.now) }
{
    bytes.iter().position(|b| *b == byte)
}

/// The bytes before the first `byte` and those behind it.
pub fn parted(byte: u8, bytes: &[u8]) -> Option<(&[u8], &[u8])>
    ensures { MatchOption result (parted_at byte bytes.now ≡ None) (λ parts. parted_at byte bytes.now ≡ Some (parts.0.now, parts.1.now)) }
{
    match place_of(byte, bytes) {
        None => None,
        Some(at) => Some((&bytes[..at], &bytes[at + 1..])),
    }
}

/// The names of a logical volume's group and of itself.
#[tactic(auto, unfolding(crate::specs::Spelling::lv_of))]
pub fn lv(bytes: &[u8]) -> Option<(&[u8], &[u8])>
    ensures { MatchOption result (lv_of bytes.now ≡ None) (λ names. lv_of bytes.now ≡ Some (names.0.now, names.1.now)) }
{
    match parted(b'/', after_dev(bytes)) {
        Some((group, volume)) if is_group_name(group) && is_group_name(volume) => {
            Some((group, volume))
        }
        _ => None,
    }
}

/// The volume that `bytes` name.
#[tactic(auto, unfolding(crate::specs::Spelling::volume_of))]
pub fn volume(alloc: Global, bytes: &[u8]) -> Result<Option<VolumeName>, AllocError>
    ensures { IfOk result (λ volume. volume ≡ volume_of bytes.now) }
{
    if let Some(number) = part(bytes) {
        return Ok(Some(VolumeName::Part(number)));
    }
    if let Some((group, volume)) = lv(bytes) {
        let group = Name::of(alloc, group)?;
        let volume = Name::of(alloc, volume)?;
        return Ok(Some(VolumeName::Lv(group, volume)));
    }
    if !is_group_name(bytes) {
        return Ok(None);
    }
    let group = Name::of(alloc, bytes)?;
    Ok(Some(VolumeName::Group(group)))
}

/// Whether `bytes` name a volume.
#[tactic(auto, unfolding(crate::specs::Spelling::volume_of))]
pub fn is_volume(bytes: &[u8]) -> bool
    ensures { result ≡ is_some (volume_of bytes.now) }
{
    part(bytes).is_some() || lv(bytes).is_some() || is_group_name(bytes)
}

/// Whether two names are those of one volume.
pub fn same_volume(one: &VolumeName, other: &VolumeName) -> bool
    ensures { result ≡ is_same_volume one.now other.now }
{
    match (one, other) {
        (VolumeName::Part(a), VolumeName::Part(b)) => *a == *b,
        (VolumeName::Lv(a, b), VolumeName::Lv(c, d)) => {
            a.bytes() == c.bytes() && b.bytes() == d.bytes()
        }
        (VolumeName::Group(a), VolumeName::Group(b)) => a.bytes() == b.bytes(),
        _ => false,
    }
}

/// The alignment that `bytes` spell, in sectors.
#[tactic(auto, unfolding(crate::specs::Spelling::alignment_of))]
pub fn alignment(bytes: &[u8]) -> Option<u32>
    ensures { result ≡ alignment_of bytes.now }
{
    match whole_number(bytes, 7) {
        Some(number) if number <= MOST_ALIGNMENT => Some(number as u32),
        _ => None,
    }
}

/// Whether the first partition is aligned too.
#[tactic(auto, unfolding(crate::specs::Spelling::align_first_of))]
pub fn align_first(bytes: &[u8]) -> Option<bool>
    ensures { result ≡ align_first_of bytes.now }
{
    if bytes == b"always".as_slice() {
        Some(true)
    } else if bytes == b"never".as_slice() || bytes == b"auto".as_slice() {
        Some(false)
    } else {
        None
    }
}

/// What is done about a content that can't grow.
#[tactic(auto, unfolding(crate::specs::Spelling::unknown_of))]
pub fn read_unknown(bytes: &[u8]) -> Option<Unknown>
    ensures { result ≡ unknown_of bytes.now }
{
    if bytes == b"ignore".as_slice() {
        Some(Unknown::Ignore)
    } else if bytes == b"warn".as_slice() {
        Some(Unknown::Warn)
    } else if bytes == b"error".as_slice() {
        Some(Unknown::Error)
    } else {
        None
    }
}
