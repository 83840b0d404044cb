//! What items without a fault wish for.
ghost use Rattle.std.specs.List.{cons_option, filter_map};
ghost use Rattle.std.specs.Option.{option_copied};
ghost use Rattle.std.specs.Prelude.{◌≡◌, [], ◌++◌, IfOk, OnOk, slice_get};
ghost use Rattle.words.specs.JobOf.{lv_wish_of, sized, sized_wish, value_if, value_of, volume_wish_of, wish_for, wish_in, item_wish};
ghost use Rattle.words.specs.Usage.{operands};

use crate::items::Item;
use crate::job::{LvWish, VolumeWish};
use crate::options::{Choice, is_same_option};
use crate::size::read_size;
use crate::spelling::{lv, part, parted, volume};
use disk_base::{List, Name};
use layout_plan::{Size, What, Wish};
use std::alloc::{AllocError, Global};

fn make_wish(what: What, place: u64, part: Option<u32>) -> Option<Wish>
    ensures { result ≡ wish_for what place part }
{
    match part {
        None => None,
        Some(part) => Some(Wish { place, part, what }),
    }
}

fn sized_what(forced: bool, size: Size) -> What
    ensures { result ≡ sized forced size }
{
    if forced {
        What::Force(size)
    } else {
        What::Resize(size)
    }
}

#[tactic(auto, unfolding(crate::specs::JobOf::sized_wish))]
fn make_sized_wish(forced: bool, place: u64, value: &[u8]) -> Option<Wish>
    ensures { result ≡ sized_wish forced place value.now }
{
    match parted(b'=', value) {
        None => None,
        Some((name, size)) => match read_size(size) {
            None => None,
            Some(size) => make_wish(sized_what(forced, size), place, part(name)),
        },
    }
}

#[tactic(auto, unfolding(crate::specs::JobOf::wish_in))]
fn spelled_wish(option: Choice, place: u64, value: &[u8]) -> Option<Wish>
    ensures { result ≡ wish_in option place value.now }
{
    match option {
        Choice::Expand => make_wish(What::Expand, place, part(value)),
        Choice::Shrink => make_wish(What::Shrink, place, part(value)),
        Choice::Delete => make_wish(What::Delete, place, part(value)),
        Choice::Ignore => make_wish(What::Ignore, place, part(value)),
        Choice::Resize => make_sized_wish(false, place, value),
        Choice::ResizeForce => make_sized_wish(true, place, value),
        _ => None,
    }
}

fn find_wish(item: &Item) -> Option<Wish>
    ensures { result ≡ item_wish item.now }
{
    match item {
        Item::Valued(known, _, value, place) => {
            spelled_wish(known.option, *place, value.bytes())
        }
        _ => None,
    }
}

/// Adds an item, if there is one, at the end of a list.
fn add<T: Drop>(list: &mut List<T>, item: Option<T>) -> Result<(), AllocError>
    ensures { OnOk result (list.new ≡ list.old ++ cons_option item []) }
{
    match item {
        None => Ok(()),
        Some(item) => match list.push(item) {
            Ok(()) => Ok(()),
            Err(_) => Err(AllocError),
        },
    }
}

/// The wishes for partitions, in the order of the words.
pub fn read_wishes(alloc: Global, items: &[Item]) -> Result<List<Wish>, AllocError>
    ensures { IfOk result (λ wishes. wishes ≡ filter_map item_wish items.now) }
{
    let mut wishes = List::new(alloc);
    for item in items {
        let wish = find_wish(item);
        add(&mut wishes, wish)?;
    }
    Ok(wishes)
}

fn find_lv_wish(alloc: Global, item: &Item) -> Result<Option<LvWish>, AllocError>
    ensures { IfOk result (λ wish. wish ≡ lv_wish_of item.now) }
{
    match item {
        Item::Valued(known, _, value, place) => {
            if !is_same_option(Choice::LvExpand, known.option) {
                return Ok(None);
            }
            match lv(value.bytes()) {
                None => Ok(None),
                Some((group, lv)) => {
                    let group = Name::of(alloc, group)?;
                    let lv = Name::of(alloc, lv)?;
                    Ok(Some(LvWish {
                        place: *place,
                        group,
                        lv,
                    }))
                }
            }
        }
        _ => Ok(None),
    }
}

/// The logical volumes to expand, in the order of the words.
pub fn read_lv_wishes(alloc: Global, items: &[Item]) -> Result<List<LvWish>, AllocError>
    ensures { IfOk result (λ wishes. wishes ≡ filter_map lv_wish_of items.now) }
{
    let mut wishes = List::new(alloc);
    for item in items {
        let wish = find_lv_wish(alloc, item)?;
        add(&mut wishes, wish)?;
    }
    Ok(wishes)
}

fn find_volume_wish(
    alloc: Global,
    option: Choice,
    item: &Item,
) -> Result<Option<VolumeWish>, AllocError>
    ensures { IfOk result (λ wish. wish ≡ volume_wish_of option item.now) }
{
    match item {
        Item::Valued(known, _, value, place) => {
            if !is_same_option(option, known.option) {
                return Ok(None);
            }
            match volume(alloc, value.bytes())? {
                None => Ok(None),
                Some(volume) => Ok(Some(VolumeWish {
                    place: *place,
                    volume,
                })),
            }
        }
        _ => Ok(None),
    }
}

/// The volumes that an option names, in the order of the words.
pub fn read_volume_wishes(
    alloc: Global,
    option: Choice,
    items: &[Item],
) -> Result<List<VolumeWish>, AllocError>
    ensures { IfOk result (λ wishes. wishes ≡ filter_map (volume_wish_of option) items.now) }
{
    let mut wishes = List::new(alloc);
    for item in items {
        let wish = find_volume_wish(alloc, option, item)?;
        add(&mut wishes, wish)?;
    }
    Ok(wishes)
}

fn has_value(option: Choice, item: &Item) -> Option<&[u8]>
    ensures { option_copied result ≡ value_if option item.now }
{
    match item {
        Item::Valued(known, _, value, _) => {
            if is_same_option(option, known.option) {
                Some(value.bytes())
            } else {
                None
            }
        }
        _ => None,
    }
}

/// The value of an option that comes once.
pub fn find_value(option: Choice, items: &[Item]) -> Option<&[u8]>
    ensures { option_copied result ≡ value_of option items.now }
{
    for item in items {
        if let Some(value) = has_value(option, item) {
            return Some(value);
        }
    }
    None
}

/// The operand with this number, counted from 0.
pub fn find_operand(items: &[Item], number: usize) -> Option<&[u8]>
    ensures { option_copied result ≡ slice_get (operands items.now) number }
{
    let mut left = number;
    for item in items {
        if let Item::Operand(_, text) = item {
            if left == 0 {
                return Some(text.bytes());
            }
            left -= 1;
        }
    }
    None
}
