//! What is printed of a job.
ghost use Rattle.std.specs.Prelude.{◌≡◌, IfOk, string_bytes};
ghost use Rattle.resize_core.specs.Summary.{extra_line, fate_line, fate_text, last_line, lines_of, part_line, source_part_text, stuck_line, stuck_lines, target_text};
ghost use Rattle.resize_core.specs.Growth.{stuck_parts};
ghost use Rattle.std.specs.List.{flat_map};

use crate::copied::placed_from;
use guest_view::{Guest, GuestPart};
use layout_plan::{Fate, Placed, Planned};
use run_end::VolumeFault;
use std::alloc::{AllocError, Global};
use words::{ResizeJob, Unknown};

fn fate_word(fate: Fate) -> &'static str
    ensures { result.now ≡ fate_text fate }
{
    match fate {
        Fate::Kept => "kept",
        Fate::Resized => "resized",
        Fate::Ignored => "ignored",
        Fate::Extended => "extended",
    }
}

// A partition of the source, what becomes of it, and its sectors there.
fn text_of_part(alloc: Global, part: &GuestPart, fate: &str) -> Result<String, AllocError>
    ensures { IfOk result (λ text. string_bytes text ≡ source_part_text part.now fate.now) }
{
    let number = part.number;
    let start = part.start;
    let count = part.count;
    let text = format!(in alloc; "/dev/sda{number}: {fate} {start}+{count}")?;
    Ok(text)
}

// Where it comes to stand on the target.
fn text_of_target(alloc: Global, placed: &Placed) -> Result<String, AllocError>
    ensures { IfOk result (λ text. string_bytes text ≡ target_text placed.now) }
{
    let Placed {
        number,
        start,
        count,
        ..
    } = *placed;
    let text = format!(in alloc; " -> /dev/sda{number} {start}+{count}\n")?;
    Ok(text)
}

// The line of a partition that isn't made.
fn line_of_deleted(alloc: Global, part: &GuestPart) -> Result<String, AllocError>
    ensures { IfOk result (λ text. string_bytes text ≡ fate_line part.now None) }
{
    let mut text = text_of_part(alloc, part, "deleted")?;
    text.push_str("\n")?;
    Ok(text)
}

// The line of a partition that is placed.
fn line_of_placed(alloc: Global, part: &GuestPart, placed: &Placed) -> Result<String, AllocError>
    ensures { IfOk result (λ text. string_bytes text ≡ fate_line part.now (Some placed.now)) }
{
    let mut text = text_of_part(alloc, part, fate_word(placed.fate))?;
    text.push_str(text_of_target(alloc, placed)?.as_str())?;
    Ok(text)
}

// The line of a partition of the source.
fn line_of(alloc: Global, planned: &Planned, part: &GuestPart) -> Result<String, AllocError>
    ensures { IfOk result (λ text. string_bytes text ≡ part_line planned.now part.now) }
{
    match placed_from(planned, part.number) {
        None => line_of_deleted(alloc, part),
        Some(placed) => line_of_placed(alloc, part, &placed),
    }
}

// The line of the partition that takes what is left over, if there is one.
fn line_of_extra(alloc: Global, extra: Option<Placed>) -> Result<String, AllocError>
    ensures { IfOk result (λ text. string_bytes text ≡ extra_line extra) }
{
    match extra {
        None => Ok(String::new(alloc)),
        Some(
            Placed {
                number,
                start,
                count,
                ..
            },
        ) => format!(in alloc; "extra: /dev/sda{number} {start}+{count}\n"),
    }
}

// The line of a partition whose content has to grow and can't.
fn line_of_stuck(alloc: Global, fault: &VolumeFault) -> Result<String, AllocError>
    ensures { IfOk result (λ text. string_bytes text ≡ stuck_line fault.now) }
{
    let VolumeFault { part, why } = *fault;
    format!(in alloc; "/dev/sda{part}: not expanded: {why}\n")
}

// The lines of the partitions of the source.
fn lines_of_parts(
    alloc: Global,
    planned: &Planned,
    parts: &[GuestPart],
) -> Result<String, AllocError>
    ensures { IfOk result (λ text. string_bytes text ≡ flat_map (part_line planned.now) parts.now) }
{
    let mut text = String::new(alloc);
    for part in parts {
        text.push_str(line_of(alloc, planned, part)?.as_str())?;
    }
    Ok(text)
}

// The lines of contents that have to grow and can't.
fn lines_of_all_stuck(alloc: Global, stuck: &[VolumeFault]) -> Result<String, AllocError>
    ensures { IfOk result (λ text. string_bytes text ≡ flat_map stuck_line stuck.now) }
{
    let mut text = String::new(alloc);
    for fault in stuck {
        text.push_str(line_of_stuck(alloc, fault)?.as_str())?;
    }
    Ok(text)
}

// The same, where they are asked for.
fn lines_of_stuck(
    alloc: Global,
    unknown: Unknown,
    stuck: &[VolumeFault],
) -> Result<String, AllocError>
    ensures { IfOk result (λ text. string_bytes text ≡ stuck_lines unknown stuck.now) }
{
    match unknown {
        Unknown::Warn => lines_of_all_stuck(alloc, stuck),
        Unknown::Ignore | Unknown::Error => Ok(String::new(alloc)),
    }
}

/// The summary of a job: a line for each partition of the source, by number, one for what is left over, and one for
/// each content that has to grow and can't.
pub fn summary(
    alloc: Global,
    job: &ResizeJob,
    guest: &Guest,
    planned: &Planned,
    stuck: &[VolumeFault],
) -> Result<String, AllocError>
    requires { stuck.now ≡ stuck_parts job.now.grow planned.now guest.now.parts }
    ensures { IfOk result (λ text. string_bytes text ≡ lines_of job.now guest.now planned.now) }
{
    let mut text = lines_of_parts(alloc, planned, guest.parts())?;
    text.push_str(line_of_extra(alloc, planned.extra())?.as_str())?;
    text.push_str(lines_of_stuck(alloc, job.unknown, stuck)?.as_str())?;
    Ok(text)
}

/// The last line of a job.
pub(crate) fn last_line(alloc: Global, dry: bool) -> Result<String, AllocError>
    ensures { IfOk result (λ text. string_bytes text ≡ last_line dry) }
{
    let mut text = String::new(alloc);
    text.push_str(if dry { "dry run\n" } else { "done\n" })?;
    Ok(text)
}
