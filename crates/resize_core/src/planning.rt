//! Deciding what a job does, by what the source is and the target's size.
ghost use Rattle.std.specs.Prelude.{◌≡◌, ℕ, ◌≤◌, ◌^◌, map, IfOk, IfErr, MatchOption};
ghost use Rattle.guest_view.specs.Guests.{kind_of};
ghost use Rattle.guest_view.specs.Contents.{planned_part};
ghost use Rattle.layout_plan.specs.Source.{IsSource};
ghost use Rattle.layout_plan.specs.Tables.{HasRoom};
ghost use Rattle.resize_core.specs.Contents.{head_for, transfers_of};
ghost use Rattle.resize_core.specs.Growth.{stuck_parts};
ghost use Rattle.resize_core.specs.inside.Deciding.{AreTransfers, IsMade, IsPlannedFor, IsReadyFor, IsRefusedFor, IsStuckOf, IsUnplanned};
ghost use Rattle.target_table.specs.Planned.{IsGuestPlan, IsSomePlan, parts_to_plan};
ghost use Rattle.words.specs.Plannable.{IsPlannable};

use crate::copied::{add_boot_area, boot_end, contents};
use crate::growth::{has_growth, stuck_parts};
use crate::ready::Ready;
use crate::source::SourceDisk;
use guest_view::Guest;
use layout_plan::{NoPlan, Planned, plan};
use run_copy::Transfer;
use run_end::{Refusal, SourceFault, VolumeFault};
use std::alloc::{AllocError, Global};
use target_table::table_for;
use target_work::Writing;
use words::{ResizeJob, Unknown};

/// The bytes of boot code at the start of sector 0.
const BOOT_CODE: usize = 440;

// The plan of a job.
fn plan_for(alloc: Global, guest: &Guest, job: &ResizeJob, sectors: u64) -> Result<Planned, Refusal>
    requires { IsPlannable job.now }
    ensures plan { IfOk result (λ planned. IsPlannedFor job.now guest.now sectors planned) }
    ensures none { IfErr result (IsUnplanned job.now guest.now sectors) }
{
    let kind = guest.table().kind();
    let parts = match guest.parts_to_plan(alloc) {
        Ok(parts) => parts,
        Err(_) => return Err(Refusal::Memory),
    };
    match plan(
        alloc,
        kind,
        parts.as_slice(),
        job.wishes.items(),
        &job.layout,
        sectors,
    ) {
        Ok(planned) => Ok(planned),
        Err(NoPlan::Memory) => Err(Refusal::Memory),
        Err(fault) => Err(Refusal::Plan(fault)),
    }
}

// The first content that has to grow and can't, where that is an error.
fn first_error(unknown: Unknown, stuck: &[VolumeFault]) -> Option<VolumeFault>
    ensures { IsStuckOf unknown stuck.now result }
{
    match unknown {
        Unknown::Ignore | Unknown::Warn => None,
        Unknown::Error => stuck.first().copied(),
    }
}

// The target's head.
fn head_for(boot: bool, head: &[u8; 446]) -> [u8; 446]
    ensures { result ≡ head_for boot head.now }
{
    if boot {
        return *head;
    }
    let mut rest = *head;
    rest[..BOOT_CODE].copy_from_slice(&[0; BOOT_CODE]);
    rest
}

// All that is copied.
fn transfers(
    alloc: Global,
    guest: &Guest,
    job: &ResizeJob,
    planned: &Planned,
    sectors: u64,
) -> Result<Vec<Transfer>, AllocError>
    requires { IsPlannedFor job.now guest.now sectors planned.now }
    ensures items { IfOk result (λ transfers. transfers.items ≡ transfers_of job.now guest.now planned.now) }
    ensures apart { IfOk result (λ transfers. AreTransfers guest.now planned.now sectors transfers.items) }
    ensures few { guest.now.sectors ≤ 2 ^ 31 }
{
    let kind = guest.table().kind();
    let parts = guest.parts();
    let mut transfers = contents(alloc, parts, planned, job.sparse)?;
    let end = boot_end(kind, parts, planned);
    add_boot_area(&mut transfers, job.boot, kind, end)?;
    Ok(transfers)
}

// What is to be written for a plan.
fn writing_for(
    alloc: Global,
    found: &SourceDisk,
    job: &ResizeJob,
    planned: &Planned,
    sectors: u64,
) -> Result<Writing, AllocError>
    requires { IsPlannedFor job.now found.now.guest sectors planned.now }
    ensures { IfOk result (λ writing. IsMade job.now found.now.guest planned.now found.now.head sectors writing) }
{
    let guest = &found.guest;
    let head = head_for(job.boot, &found.head);
    let transfers = transfers(alloc, guest, job, planned, sectors)?;
    let table = table_for(alloc, guest, planned, &head, sectors)?;
    Ok(Writing::new(
        table.first,
        transfers,
        table.writes,
        guest.sectors(),
        sectors,
    ))
}

// All that is ready for a plan.
fn ready_for(
    alloc: Global,
    found: &SourceDisk,
    job: &ResizeJob,
    planned: Planned,
    sectors: u64,
) -> Result<Ready, Refusal>
    requires { IsPlannedFor job.now found.now.guest sectors planned }
    ensures ready { IfOk result (λ ready. IsReadyFor job.now found.now.guest found.now.head sectors ready) }
    ensures refused { IfErr result (IsRefusedFor job.now found.now.guest sectors) }
{
    let Ok(stuck) = stuck_parts(alloc, found.guest.parts(), &planned, job.grow) else {
        return Err(Refusal::Memory);
    };
    if let Some(fault) = first_error(job.unknown, stuck.as_slice()) {
        return Err(Refusal::Source(SourceFault::Volume(fault)));
    }
    if has_growth(found.guest.parts(), &planned, job.grow) {
        return Err(Refusal::NotYet);
    }
    match writing_for(alloc, found, job, &planned, sectors) {
        Ok(writing) => Ok(Ready {
            planned,
            stuck,
            writing,
        }),
        Err(_) => Err(Refusal::Memory),
    }
}

/// Decides what a job does with a source on a target of `sectors` sectors, and makes all that is to be written. It
/// refuses, in this order, where there is no plan, where a content has to grow and can't and that is an error, and where
/// one has to grow, which isn't served yet.
pub fn prepare(
    alloc: Global,
    found: &SourceDisk,
    job: &ResizeJob,
    sectors: u64,
) -> Result<Ready, Refusal>
    requires { IsPlannable job.now }
    ensures ready { IfOk result (λ ready. IsReadyFor job.now found.now.guest found.now.head sectors ready) }
    ensures refused { IfErr result (IsRefusedFor job.now found.now.guest sectors) }
{
    match plan_for(alloc, &found.guest, job, sectors) {
        Ok(planned) => ready_for(alloc, found, job, planned, sectors),
        Err(refusal) => Err(refusal),
    }
}
