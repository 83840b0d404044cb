//! The job that a list of words asks for.
ghost use Rattle.std.specs.Option.{option_copied};
ghost use Rattle.std.specs.Prelude.{◌≡◌, IfOk, MatchResult, false, map, option_and_then, slice_get, string_bytes};
ghost use Rattle.words.specs.Plannable.{MayBePlanned};
ghost use Rattle.words.specs.JobOf.{IsToldOf, answer_to, both_of, both_operands, copy_answer, in_place_answer, job_from, job_of, layout_of, resize_answer, resize_job_of, setting, sparsify_job_of, value_of};
ghost use Rattle.words.specs.Items.{items_of};
ghost use Rattle.words.specs.Options.{tool_of};
ghost use Rattle.words.specs.Spelling.{align_first_of, alignment_of, unknown_of};
ghost use Rattle.words.specs.Usage.{first_fault};

use crate::faults::{is_among, judge};
use crate::items::{Item, divide, word_at};
use crate::job::{Job, ResizeJob, SparsifyJob, Unknown};
use crate::options::{Choice, Tool, named_tool};
use crate::spelling::{align_first, alignment, read_unknown};
use crate::usage::Usage;
use crate::wishes::{find_operand, find_value, read_lv_wishes, read_volume_wishes, read_wishes};
use disk_base::Name;
use layout_plan::Layout;
use std::alloc::{AllocError, Global};

/// The alignment where none is asked for, in sectors.
const ALIGNMENT: u32 = 128;

fn read_alignment(items: &[Item]) -> u32
    ensures { result ≡ setting 128 alignment_of (value_of Choice.Alignment items.now) }
{
    match find_value(Choice::Alignment, items) {
        None => ALIGNMENT,
        Some(value) => alignment(value).unwrap_or(ALIGNMENT),
    }
}

fn reads_always(items: &[Item]) -> bool
    ensures { result ≡ setting false align_first_of (value_of Choice.AlignFirst items.now) }
{
    match find_value(Choice::AlignFirst, items) {
        None => false,
        Some(value) => align_first(value).unwrap_or(false),
    }
}

fn unknown_or_warn(items: &[Item]) -> Unknown
    ensures { result ≡ setting Unknown.Warn unknown_of (value_of Choice.UnknownFilesystems items.now) }
{
    match find_value(Choice::UnknownFilesystems, items) {
        None => Unknown::Warn,
        Some(value) => read_unknown(value).unwrap_or(Unknown::Warn),
    }
}

#[tactic(auto, unfolding(crate::specs::JobOf::layout_of))]
fn read_layout(items: &[Item]) -> Layout
    ensures { result ≡ layout_of items.now }
{
    Layout {
        align: read_alignment(items),
        always: reads_always(items),
        extra: !is_among(Choice::NoExtraPartition, items),
    }
}

#[tactic(auto, unfolding(crate::specs::JobOf::resize_job_of))]
fn resize_job(
    alloc: Global,
    items: &[Item],
    source: &[u8],
    target: &[u8],
) -> Result<ResizeJob, AllocError>
    ensures { IfOk result (λ job. job ≡ resize_job_of items.now source.now target.now) }
{
    let source = Name::of(alloc, source)?;
    let target = Name::of(alloc, target)?;
    let wishes = read_wishes(alloc, items)?;
    let lvs = read_lv_wishes(alloc, items)?;
    Ok(ResizeJob {
        source,
        target,
        wishes,
        layout: read_layout(items),
        lvs,
        boot: !is_among(Choice::NoCopyBootLoader, items),
        grow: !is_among(Choice::NoExpandContent, items),
        unknown: unknown_or_warn(items),
        sparse: !is_among(Choice::NoSparse, items),
        dry: is_among(Choice::DryRun, items),
        quiet: is_among(Choice::Quiet, items),
    })
}

fn target_name(alloc: Global, target: Option<&[u8]>) -> Result<Option<Name>, AllocError>
    ensures { IfOk result (λ name. name ≡ option_copied target.entry) }
{
    match target {
        None => Ok(None),
        Some(target) => {
            let name = Name::of(alloc, target)?;
            Ok(Some(name))
        }
    }
}

#[tactic(auto, unfolding(crate::specs::JobOf::sparsify_job_of))]
fn sparsify_job(
    alloc: Global,
    items: &[Item],
    source: &[u8],
    target: Option<&[u8]>,
) -> Result<SparsifyJob, AllocError>
    ensures { IfOk result (λ job. job ≡ sparsify_job_of items.now source.now (option_copied target.entry)) }
{
    let source = Name::of(alloc, source)?;
    let target = target_name(alloc, target)?;
    let ignore = read_volume_wishes(alloc, Choice::IgnoreVolume, items)?;
    let zero = read_volume_wishes(alloc, Choice::ZeroVolume, items)?;
    let quiet = is_among(Choice::Quiet, items);
    Ok(SparsifyJob {
        source,
        target,
        ignore,
        zero,
        quiet,
    })
}

fn both(items: &[Item]) -> Result<(&[u8], &[u8]), Usage>
    ensures { MatchResult result (λ names. both_operands items.now ≡ Ok (names.0.now, names.1.now)) (λ fault. both_operands items.now ≡ Err fault) }
{
    let Some(source) = find_operand(items, 0) else {
        return Err(Usage::Missing);
    };
    let Some(target) = find_operand(items, 1) else {
        return Err(Usage::Missing);
    };
    if source == target {
        return Err(Usage::Same);
    }
    Ok((source, target))
}

#[tactic(auto, using(crate::proofs::Telling::told), unfolding(crate::specs::JobOf::resize_answer))]
fn finish_resize(alloc: Global, items: &[Item]) -> Result<Job, Usage>
    ensures answer { MatchResult result (λ job. resize_answer items.now ≡ Ok job) (λ fault. IsToldOf (resize_answer items.now) fault) }
    ensures plannable { IfOk result MayBePlanned }
{
    match both(items) {
        Err(fault) => Err(fault),
        Ok((source, target)) => match resize_job(alloc, items, source, target) {
            Ok(job) => Ok(Job::Resize(job)),
            Err(_) => Err(Usage::Memory),
        },
    }
}

#[tactic(auto, using(crate::proofs::Telling::told), unfolding(crate::specs::JobOf::copy_answer))]
fn finish_copy(alloc: Global, items: &[Item]) -> Result<Job, Usage>
    ensures answer { MatchResult result (λ job. copy_answer items.now ≡ Ok job) (λ fault. IsToldOf (copy_answer items.now) fault) }
    ensures plannable { IfOk result MayBePlanned }
{
    match both(items) {
        Err(fault) => Err(fault),
        Ok((source, target)) => match sparsify_job(alloc, items, source, Some(target)) {
            Ok(job) => Ok(Job::Sparsify(job)),
            Err(_) => Err(Usage::Memory),
        },
    }
}

#[tactic(auto, unfolding(crate::specs::JobOf::in_place_answer))]
fn finish_in_place(alloc: Global, items: &[Item]) -> Result<Job, Usage>
    ensures answer { MatchResult result (λ job. in_place_answer items.now ≡ Ok job) (λ fault. IsToldOf (in_place_answer items.now) fault) }
    ensures plannable { IfOk result MayBePlanned }
{
    match find_operand(items, 0) {
        None => Err(Usage::Missing),
        Some(disk) => match sparsify_job(alloc, items, disk, None) {
            Ok(job) => Ok(Job::Sparsify(job)),
            Err(_) => Err(Usage::Memory),
        },
    }
}

#[tactic(auto, unfolding(crate::specs::JobOf::answer_to))]
fn finish(alloc: Global, tool: Tool, items: &[Item]) -> Result<Job, Usage>
    ensures answer { MatchResult result (λ job. answer_to tool items.now ≡ Ok job) (λ fault. IsToldOf (answer_to tool items.now) fault) }
    ensures plannable { IfOk result MayBePlanned }
{
    match tool {
        Tool::VirtResize => finish_resize(alloc, items),
        Tool::VirtSparsify => {
            if is_among(Choice::InPlace, items) {
                finish_in_place(alloc, items)
            } else {
                finish_copy(alloc, items)
            }
        }
    }
}

#[tactic(auto, using(crate::proofs::Telling::told), unfolding(crate::specs::JobOf::job_from))]
fn judge_and_finish(alloc: Global, tool: Tool, items: &[Item]) -> Result<Job, Usage>
    ensures answer { MatchResult result (λ job. job_from tool items.now ≡ Ok job) (λ fault. IsToldOf (job_from tool items.now) fault) }
    ensures plannable { IfOk result MayBePlanned }
{
    match judge(alloc, items) {
        Err(_) => Err(Usage::Memory),
        Ok(Some(fault)) => Err(fault),
        Ok(None) => finish(alloc, tool, items),
    }
}

fn first_tool(words: &[String]) -> Option<Tool>
    ensures { result ≡ option_and_then tool_of (slice_get (map string_bytes words.now) 0) }
{
    match word_at(words, 0) {
        None => None,
        Some(word) => named_tool(word),
    }
}

/// The job that the words ask for. The first word is the tool's, `virt-resize` or `virt-sparsify`.
///
/// # Errors
///
/// The first thing that is wrong with the words, from left to right; or [`Usage::Memory`].
#[tactic(auto, unfolding(crate::specs::JobOf::job_of))]
pub fn read_words(alloc: Global, words: &[String]) -> Result<Job, Usage>
    ensures answer { MatchResult result (λ job. job_of (map string_bytes words.now) ≡ Ok job) (λ fault. IsToldOf (job_of (map string_bytes words.now)) fault) }
    ensures plannable { IfOk result MayBePlanned }
{
    match first_tool(words) {
        None => Err(Usage::Tool),
        Some(tool) => match divide(alloc, tool, words) {
            Err(_) => Err(Usage::Memory),
            Ok(items) => judge_and_finish(alloc, tool, items.as_slice()),
        },
    }
}
