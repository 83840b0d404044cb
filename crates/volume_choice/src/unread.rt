//! The first volume that must be read and can't.
ghost use Rattle.std.specs.Prelude.{◌≡◌, ◌<◌, ◌^◌, [], if◌then◌else◌, IfOk, length, slice_get};
ghost use Rattle.volume_choice.specs.Chosen.{is_spared_part};
ghost use Rattle.volume_choice.specs.Unread.{is_spared_logical, may_stay, unread_content, unread_for, unread_in, unread_in_group, unread_inner, unread_logicals, unread_volumes};

use crate::chosen::Choices;
use crate::fault::UnreadVolume;
use group_content::GroupVolume;
use guest_view::{Content, GuestPart};
use std::alloc::AllocError;
use volume_content::{Inner, Why};

// Whether a volume that isn't read for that cause may stay as it is.
fn may_stay(why: Why) -> bool
    ensures { result ≡ may_stay why }
{
    matches!(why, Why::Other | Why::NoGroup)
}

fn unread_for(part: u32, lv: Option<u32>, why: Why) -> Option<UnreadVolume>
    ensures { result ≡ slice_get (unread_for part lv why) 0 }
{
    if may_stay(why) {
        None
    } else {
        Some(UnreadVolume { part, lv, why })
    }
}

fn unread_content(number: u32, content: &Content) -> Option<UnreadVolume>
    ensures { result ≡ slice_get (unread_content number content.now) 0 }
{
    match content {
        Content::Unread(why) => unread_for(number, None, *why),
        _ => None,
    }
}

fn unread_inner(holder: u32, lv: u32, inner: &Inner) -> Option<UnreadVolume>
    ensures { result ≡ slice_get (unread_inner holder lv inner.now) 0 }
{
    match inner {
        Inner::Unread(why) => unread_for(holder, Some(lv), *why),
        _ => None,
    }
}

// Whether a logical volume needn't be read.
fn is_spared_logical(
    choices: &Choices,
    parts: &[GuestPart],
    holder: u32,
    lv: u32,
    volume: &GroupVolume,
) -> bool
    ensures { result ≡ is_spared_logical choices.now parts.now holder lv volume.now }
{
    choices.is_ignored_logical(holder, lv)
        || choices.is_zeroed_logical(holder, lv)
        || choices.lies_in_spared(parts, &volume.runs)
}

// A logical volume that must be read and can't.
fn unread_logical(
    choices: &Choices,
    parts: &[GuestPart],
    holder: u32,
    lv: u32,
    volume: &GroupVolume,
) -> Option<UnreadVolume>
    ensures { result ≡ slice_get (if is_spared_logical choices.now parts.now holder lv volume.now then []
        else unread_inner holder lv volume.now.inner) 0 }
{
    if is_spared_logical(choices, parts, holder, lv, volume) {
        None
    } else {
        unread_inner(holder, lv, &volume.inner)
    }
}

// The first logical volume of a group that must be read and can't.
fn first_logical(
    choices: &Choices,
    parts: &[GuestPart],
    holder: u32,
    volumes: &[GroupVolume],
) -> Option<UnreadVolume>
    requires { length volumes.now < 2 ^ 32 }
    ensures { result ≡ slice_get (unread_logicals choices.now parts.now holder 0 volumes.now) 0 }
{
    let mut lv = 0;
    for volume in volumes {
        if let Some(unread) = unread_logical(choices, parts, holder, lv, volume) {
            return Some(unread);
        }
        lv += 1;
    }
    None
}

// The first logical volume that must be read and can't of the group that a partition holds. A group has fewer than 2^32
// of them; a list with more, in which a place has no number, is taken for one that memory can't hold.
fn first_in_group(
    choices: &Choices,
    parts: &[GuestPart],
    holder: u32,
    content: &Content,
) -> Result<Option<UnreadVolume>, AllocError>
    ensures { IfOk result (λ unread. unread ≡ slice_get (unread_in_group choices.now parts.now holder content.now) 0) }
{
    match content {
        Content::Group(_, _, group) => {
            if group.volumes.len() > u32::MAX as usize {
                return Err(AllocError);
            }
            Ok(first_logical(choices, parts, holder, &group.volumes))
        }
        _ => Ok(None),
    }
}

// A partition that must be read and can't.
fn unread_part(choices: &Choices, part: &GuestPart) -> Option<UnreadVolume>
    ensures { result ≡ slice_get (if is_spared_part choices.now part.now then []
        else unread_content part.now.number part.now.content) 0 }
{
    if choices.is_spared_part(part) {
        None
    } else {
        unread_content(part.number, &part.content)
    }
}

// The first volume of a partition that must be read and can't.
#[tactic(auto, using(crate::proofs::Firsts::first_here, crate::proofs::Firsts::first_behind))]
fn first_in(
    choices: &Choices,
    parts: &[GuestPart],
    part: &GuestPart,
) -> Result<Option<UnreadVolume>, AllocError>
    ensures { IfOk result (λ unread. unread ≡ slice_get (unread_in choices.now parts.now part.now) 0) }
{
    match unread_part(choices, part) {
        Some(unread) => Ok(Some(unread)),
        None => first_in_group(choices, parts, part.number, &part.content),
    }
}

/// The first volume, by partition and then by its group's order, that must be read and can't.
pub(crate) fn first_unread(
    choices: &Choices,
    parts: &[GuestPart],
) -> Result<Option<UnreadVolume>, AllocError>
    ensures { IfOk result (λ unread. unread ≡ slice_get (unread_volumes choices.now parts.now) 0) }
{
    for part in parts {
        if let Some(unread) = first_in(choices, parts, part)? {
            return Ok(Some(unread));
        }
    }
    Ok(None)
}
