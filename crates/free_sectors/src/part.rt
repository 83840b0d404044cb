//! What partitions give up and keep.
ghost use Rattle.std.specs.Prelude.{IsTrue, OnOk};
ghost use Rattle.disk_base.specs.Run.{IsIn, run_of};
ghost use Rattle.free_sectors.specs.Free.{ContentGives, ContentKeeps, PartGives, PartKeeps, SomePart};
ghost use Rattle.free_sectors.specs.inside.Adding.{Gathers};

use crate::group::{put_free, put_free_if};
use crate::logical::{give_logicals, keep_logicals};
use crate::putting::Gathered;
use crate::volume::{put_swap, put_xfs};
use disk_base::Run;
use guest_view::{Content, GuestPart};
use std::alloc::{AllocError, Global};
use volume_choice::Choices;

// All of a partition, if it is chosen.
fn put_part_if(
    out: &mut Gathered,
    alloc: Global,
    part: &GuestPart,
    is_chosen: bool,
) -> Result<(), AllocError>
    ensures { OnOk result (Gathers out.old out.new
        (λ x. IsTrue is_chosen × IsIn (run_of part.now.start part.now.count) x)) }
{
    if !is_chosen {
        return Ok(());
    }
    out.put(alloc, part.start, part.count)?;
    Ok(())
}

// What the content of a partition gives up.
fn give_content(
    out: &mut Gathered,
    alloc: Global,
    choices: &Choices,
    parts: &[GuestPart],
    part: &GuestPart,
) -> Result<(), AllocError>
    ensures { OnOk result (Gathers out.old out.new
        (ContentGives choices.now parts.now (run_of part.now.start part.now.count) part.now.number part.now.content)) }
{
    let run = Run {
        start: part.start,
        count: part.count,
    };
    match &part.content {
        Content::Xfs(volume) => put_xfs(out, alloc, &[run], volume),
        Content::Swap(swap) => put_swap(out, alloc, &[run], swap),
        Content::Group(_, _, content) => {
            put_free(out, alloc, parts, content)?;
            give_logicals(out, alloc, choices, part.number, &content.volumes)?;
            Ok(())
        }
        Content::Extended | Content::Member(_, _) | Content::Unread(_) => Ok(()),
    }
}

// What it keeps.
fn keep_content(
    out: &mut Gathered,
    alloc: Global,
    choices: &Choices,
    parts: &[GuestPart],
    part: &GuestPart,
) -> Result<(), AllocError>
    ensures { OnOk result (Gathers out.old out.new (ContentKeeps choices.now parts.now part.now.number part.now.content)) }
{
    let Content::Group(_, _, content) = &part.content else {
        return Ok(());
    };
    let is_ignored = choices.is_ignored_group(part.number);
    put_free_if(out, alloc, parts, content, is_ignored)?;
    keep_logicals(out, alloc, choices, part.number, &content.volumes)?;
    Ok(())
}

// What a partition gives up.
fn give_part(
    out: &mut Gathered,
    alloc: Global,
    choices: &Choices,
    parts: &[GuestPart],
    part: &GuestPart,
) -> Result<(), AllocError>
    ensures { OnOk result (Gathers out.old out.new (PartGives choices.now parts.now part.now)) }
{
    put_part_if(out, alloc, part, choices.is_zeroed_part(part))?;
    give_content(out, alloc, choices, parts, part)?;
    Ok(())
}

// What it keeps.
fn keep_part(
    out: &mut Gathered,
    alloc: Global,
    choices: &Choices,
    parts: &[GuestPart],
    part: &GuestPart,
) -> Result<(), AllocError>
    ensures { OnOk result (Gathers out.old out.new (PartKeeps choices.now parts.now part.now)) }
{
    put_part_if(out, alloc, part, choices.is_ignored_part(part))?;
    keep_content(out, alloc, choices, parts, part)?;
    Ok(())
}

/// What the partitions of a guest give up.
pub(crate) fn give_parts(
    out: &mut Gathered,
    alloc: Global,
    choices: &Choices,
    parts: &[GuestPart],
) -> Result<(), AllocError>
    ensures { OnOk result (Gathers out.old out.new
        (λ x. SomePart (λ part. PartGives choices.now parts.now part x) parts.now)) }
{
    for part in parts {
        give_part(out, alloc, choices, parts, part)?;
    }
    Ok(())
}

/// What they keep.
pub(crate) fn keep_parts(
    out: &mut Gathered,
    alloc: Global,
    choices: &Choices,
    parts: &[GuestPart],
) -> Result<(), AllocError>
    ensures { OnOk result (Gathers out.old out.new
        (λ x. SomePart (λ part. PartKeeps choices.now parts.now part x) parts.now)) }
{
    for part in parts {
        keep_part(out, alloc, choices, parts, part)?;
    }
    Ok(())
}
