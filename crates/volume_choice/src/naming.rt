//! What the names of a job stand for in a guest.
ghost use Rattle.std.specs.Prelude.{◌≡◌, IfOk};
ghost use Rattle.lvm_group.specs.Volumes.{names_of};
ghost use Rattle.volume_choice.specs.Chosen.{chosen_by, chosen_in, chosen_of, group_named_in, index_from, logical_in, logical_in_group, missing_places, part_numbered, place_if_missing};
ghost use Rattle.volume_choice.specs.inside.Least.{least_of, lesser};

use crate::chosen::Chosen;
use group_content::GroupContent;
use guest_view::{Content, GuestPart};
use layout_plan::Role;
use lvm_group::Group;
use std::alloc::{AllocError, Global};
use words::{VolumeName, VolumeWish};

// The partition of that number, which isn't extended.
fn part_numbered(number: u32, part: &GuestPart) -> Option<Chosen>
    ensures { result ≡ part_numbered number part.now }
{
    if part.number == number && !matches!(part.role, Role::Extended) {
        Some(Chosen::Part(number))
    } else {
        None
    }
}

// The place of the first logical volume of that name.
#[tactic(auto, using(crate::proofs::Names::index_end))]
fn place_of(group: &Group, name: &[u8]) -> Option<u32>
    ensures { result ≡ index_from 0 name.now (names_of group.now.spelt.logicals) }
{
    for lv in 0..group.count() {
        if group.lv_name(lv) == name {
            return Some(lv);
        }
    }
    None
}

// The first logical volume of that name, if the group has this one.
fn logical_in_group(
    group: &[u8],
    name: &[u8],
    holder: u32,
    content: &GroupContent,
) -> Option<Chosen>
    ensures { result ≡ logical_in_group group.now name.now holder content.now }
{
    if content.group.name() != group {
        return None;
    }
    match place_of(&content.group, name) {
        None => None,
        Some(lv) => Some(Chosen::Logical(holder, lv)),
    }
}

fn logical_in(group: &[u8], name: &[u8], holder: u32, content: &Content) -> Option<Chosen>
    ensures { result ≡ logical_in group.now name.now holder content.now }
{
    match content {
        Content::Group(_, _, content) => logical_in_group(group, name, holder, content),
        _ => None,
    }
}

// The group, if it has that name.
fn group_named_in(group: &[u8], holder: u32, content: &Content) -> Option<Chosen>
    ensures { result ≡ group_named_in group.now holder content.now }
{
    match content {
        Content::Group(_, _, content) if content.group.name() == group => {
            Some(Chosen::Group(holder))
        }
        _ => None,
    }
}

// What a name stands for in a partition.
fn chosen_in(name: &VolumeName, part: &GuestPart) -> Option<Chosen>
    ensures { result ≡ chosen_in name.now part.now }
{
    match name {
        VolumeName::Part(number) => part_numbered(*number, part),
        VolumeName::Lv(group, lv) => {
            logical_in(group.bytes(), lv.bytes(), part.number, &part.content)
        }
        VolumeName::Group(group) => group_named_in(group.bytes(), part.number, &part.content),
    }
}

// What a name stands for: the first by partition of those that bear it.
fn chosen_by(parts: &[GuestPart], name: &VolumeName) -> Option<Chosen>
    ensures { result ≡ chosen_by parts.now name.now }
{
    for part in parts {
        let found = chosen_in(name, part);
        if found.is_some() {
            return found;
        }
    }
    None
}

/// What is named, in the order of the words.
pub(crate) fn chosen_of(
    alloc: Global,
    parts: &[GuestPart],
    wishes: &[VolumeWish],
) -> Result<Vec<Chosen>, AllocError>
    ensures { IfOk result (λ all. all.items ≡ chosen_of parts.now wishes.now) }
{
    let mut all = Vec::new(alloc);
    for wish in wishes {
        if let Some(found) = chosen_by(parts, &wish.volume) {
            all.push(found)?;
        }
    }
    Ok(all)
}

// The place of a word whose volume isn't there.
fn place_if_missing(parts: &[GuestPart], wish: &VolumeWish) -> Option<u64>
    ensures { result ≡ place_if_missing (chosen_by parts.now wish.now.volume) wish.now.place }
{
    match chosen_by(parts, &wish.volume) {
        None => Some(wish.place),
        Some(_) => None,
    }
}

/// The lesser of two places, where both are there.
pub(crate) fn lesser(one: Option<u64>, other: Option<u64>) -> Option<u64>
    ensures { result ≡ lesser one other }
{
    match (one, other) {
        (None, other) => other,
        (Some(one), None) => Some(one),
        (Some(one), Some(other)) => Some(one.min(other)),
    }
}

/// The least place of a word whose volume isn't there.
#[tactic(auto, using(crate::proofs::Least::least_step))]
pub(crate) fn least_missing(parts: &[GuestPart], wishes: &[VolumeWish]) -> Option<u64>
    ensures { result ≡ least_of (missing_places parts.now wishes.now) }
{
    let mut least = None;
    for wish in wishes {
        least = lesser(least, place_if_missing(parts, wish));
    }
    least
}
