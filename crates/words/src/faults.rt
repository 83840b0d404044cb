//! What is wrong with an item, by itself and by the items before it.
ghost use Rattle.std.specs.List.{list_any};
ghost use Rattle.std.specs.Prelude.{◌≡◌, [], ◌==◌, if◌then◌else◌, IfOk, codes, length};
ghost use Rattle.std.specs.Str.{bytes_eq};
ghost use Rattle.words.specs.Usage.{are_one, fault_of, first_fault, is_excluded, is_named, is_once, most_operands, names_volumes, operand_of, operands, option_fault, sized_fault, is_among, value_fault, volume_fault, volume_in};

use crate::items::Item;
use crate::job::VolumeName;
use crate::options::{Choice, Kind, Known, is_same_option};
use crate::size::read_size;
use crate::spelling::{
    align_first, alignment, is_volume, lv, part, parted, read_unknown, same_volume, volume,
};
use crate::usage::Usage;
use std::alloc::{AllocError, Global};

fn is_option(option: Choice, item: &Item) -> bool
    ensures { result ≡ is_named option item.now }
{
    match item {
        Item::Plain(other, _) | Item::Spoiled(other, _) => is_same_option(option, *other),
        Item::Valued(known, _, _, _) => is_same_option(option, known.option),
        Item::Bare(known, _) => is_same_option(option, known.option),
        _ => false,
    }
}

/// Whether an option is among the items.
pub fn is_among(option: Choice, items: &[Item]) -> bool
    ensures { result ≡ is_among option items.now }
{
    items.iter().any(|item| is_option(option, item))
}

fn count_operands(items: &[Item]) -> usize
    ensures { result ≡ length (operands items.now) }
{
    let mut count = 0;
    for item in items {
        if let Item::Operand(_, _) = item {
            count += 1;
        }
    }
    count
}

#[tactic(auto, unfolding(crate::specs::Usage::is_excluded))]
fn is_shut_out(option: Choice, earlier: &[Item]) -> bool
    ensures { result ≡ is_excluded option earlier.now }
{
    match option {
        Choice::Expand => is_among(Choice::Shrink, earlier),
        Choice::Shrink => is_among(Choice::Expand, earlier),
        Choice::InPlace => {
            is_among(Choice::ZeroVolume, earlier)
                || is_among(Choice::Convert, earlier)
                || count_operands(earlier) > 1
        }
        Choice::ZeroVolume | Choice::Convert => is_among(Choice::InPlace, earlier),
        _ => false,
    }
}

fn comes_once(kind: Kind) -> bool
    ensures { result ≡ is_once kind }
{
    matches!(kind, Kind::Once)
}

#[tactic(auto, unfolding(crate::specs::Usage::option_fault))]
fn find_option_fault(earlier: &[Item], known: Known, place: u64) -> Option<Usage>
    ensures { result ≡ option_fault earlier.now known place }
{
    if comes_once(known.kind) && is_among(known.option, earlier) {
        return Some(Usage::Twice { place });
    }
    if is_shut_out(known.option, earlier) {
        return Some(Usage::Excluded { place });
    }
    None
}

#[tactic(auto, unfolding(crate::specs::Usage::sized_fault))]
fn find_sized_fault(place: u64, value: &[u8]) -> Option<Usage>
    ensures { result ≡ sized_fault place value.now }
{
    match parted(b'=', value) {
        None => Some(Usage::Value { place }),
        Some((name, size)) => {
            if part(name).is_none() {
                Some(Usage::Value { place })
            } else if read_size(size).is_none() {
                Some(Usage::Size { place })
            } else {
                None
            }
        }
    }
}

fn is_raw(value: &[u8]) -> bool
    ensures { result ≡ bytes_eq value.now (codes "raw") }
{
    value == b"raw".as_slice()
}

fn value_unless(place: u64, is_right: bool) -> Option<Usage>
    ensures { result ≡ (if is_right then None else Some (Usage.Value place)) }
{
    if is_right {
        None
    } else {
        Some(Usage::Value { place })
    }
}

#[tactic(auto, unfolding(crate::specs::Usage::value_fault))]
fn find_value_fault(option: Choice, place: u64, value: &[u8]) -> Option<Usage>
    ensures { result ≡ value_fault option place value.now }
{
    match option {
        Choice::Expand | Choice::Shrink | Choice::Delete | Choice::Ignore => {
            value_unless(place, part(value).is_some())
        }
        Choice::Resize | Choice::ResizeForce => find_sized_fault(place, value),
        Choice::LvExpand => value_unless(place, lv(value).is_some()),
        Choice::Alignment => value_unless(place, alignment(value).is_some()),
        Choice::AlignFirst => value_unless(place, align_first(value).is_some()),
        Choice::UnknownFilesystems => value_unless(place, read_unknown(value).is_some()),
        Choice::IgnoreVolume | Choice::ZeroVolume => value_unless(place, is_volume(value)),
        Choice::Format | Choice::OutputFormat | Choice::Convert => {
            value_unless(place, is_raw(value))
        }
        _ => None,
    }
}

fn is_volume_option(option: Choice) -> bool
    ensures { result ≡ names_volumes option }
{
    is_same_option(option, Choice::IgnoreVolume) || is_same_option(option, Choice::ZeroVolume)
}

fn volume_named(alloc: Global, item: &Item) -> Result<Option<VolumeName>, AllocError>
    ensures { IfOk result (λ volume. volume ≡ volume_in item.now) }
{
    match item {
        Item::Valued(known, _, value, _) => {
            if is_volume_option(known.option) {
                volume(alloc, value.bytes())
            } else {
                Ok(None)
            }
        }
        _ => Ok(None),
    }
}

fn are_one_volume(one: &Option<VolumeName>, other: &Option<VolumeName>) -> bool
    ensures { result ≡ are_one one.now other.now }
{
    match (one, other) {
        (Some(one), Some(other)) => same_volume(one, other),
        _ => false,
    }
}

fn is_named_before(
    alloc: Global,
    volume: &Option<VolumeName>,
    earlier: &[Item],
) -> Result<bool, AllocError>
    ensures { IfOk result (λ found. found ≡ list_any (λ other. are_one volume.now (volume_in other)) earlier.now) }
{
    for other in earlier {
        let named = volume_named(alloc, other)?;
        if are_one_volume(volume, &named) {
            return Ok(true);
        }
    }
    Ok(false)
}

#[tactic(auto, unfolding(crate::specs::Usage::volume_fault))]
fn find_volume_fault(
    alloc: Global,
    earlier: &[Item],
    item: &Item,
    place: u64,
) -> Result<Option<Usage>, AllocError>
    ensures { IfOk result (λ fault. fault ≡ volume_fault earlier.now item.now place) }
{
    let volume = volume_named(alloc, item)?;
    if is_named_before(alloc, &volume, earlier)? {
        return Ok(Some(Usage::Twice { place }));
    }
    Ok(None)
}

fn operand_limit(earlier: &[Item]) -> usize
    ensures { result ≡ most_operands earlier.now }
{
    if is_among(Choice::InPlace, earlier) {
        1
    } else {
        2
    }
}

#[tactic(auto, unfolding(crate::specs::Usage::fault_of))]
fn find_fault(alloc: Global, earlier: &[Item], item: &Item) -> Result<Option<Usage>, AllocError>
    ensures { IfOk result (λ fault. fault ≡ fault_of earlier.now item.now) }
{
    match item {
        Item::Plain(option, place) => {
            if is_shut_out(*option, earlier) {
                return Ok(Some(Usage::Excluded { place: *place }));
            }
            Ok(None)
        }
        Item::Spoiled(option, place) => {
            if is_shut_out(*option, earlier) {
                return Ok(Some(Usage::Excluded { place: *place }));
            }
            Ok(Some(Usage::Value { place: *place }))
        }
        Item::Valued(known, place, value, value_place) => {
            if let Some(fault) = find_option_fault(earlier, *known, *place) {
                return Ok(Some(fault));
            }
            if let Some(fault) = find_value_fault(known.option, *value_place, value.bytes()) {
                return Ok(Some(fault));
            }
            find_volume_fault(alloc, earlier, item, *value_place)
        }
        Item::Bare(known, place) => {
            if let Some(fault) = find_option_fault(earlier, *known, *place) {
                return Ok(Some(fault));
            }
            Ok(Some(Usage::Value { place: *place }))
        }
        Item::Stray(place) => Ok(Some(Usage::Unknown { place: *place })),
        Item::Ends => Ok(None),
        Item::Operand(place, _) => {
            if count_operands(earlier) < operand_limit(earlier) {
                return Ok(None);
            }
            Ok(Some(Usage::Extra { place: *place }))
        }
    }
}

/// The first fault of the items.
pub fn judge(alloc: Global, items: &[Item]) -> Result<Option<Usage>, AllocError>
    ensures { IfOk result (λ fault. fault ≡ first_fault [] items.now) }
{
    for at in 0..items.len() {
        let fault = find_fault(alloc, &items[..at], &items[at])?;
        if fault.is_some() {
            return Ok(fault);
        }
    }
    Ok(None)
}
