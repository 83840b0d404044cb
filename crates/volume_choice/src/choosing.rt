//! What a job names of a guest.
ghost use Rattle.std.specs.Prelude.{◌≡◌, [], IfErr, IfOk, MatchOption};
ghost use Rattle.volume_choice.specs.Chosen.{AreChoices};
ghost use Rattle.volume_choice.specs.Unread.{AreSoundChoices, HasChoiceFault, IsLeast, all_missing};

use crate::chosen::Choices;
use crate::fault::ChoiceFault;
use crate::naming::{chosen_of, least_missing, lesser};
use crate::unread::first_unread;
use guest_view::{Guest, GuestPart};
use std::alloc::{AllocError, Global};
use words::SparsifyJob;

// What a job names of a guest, as far as it is there.
fn named(alloc: Global, parts: &[GuestPart], job: &SparsifyJob) -> Result<Choices, AllocError>
    ensures { IfOk result (AreChoices parts.now job.now) }
{
    let ignored = chosen_of(alloc, parts, job.ignore.items())?;
    let zeroed = chosen_of(alloc, parts, job.zero.items())?;
    Ok(Choices { ignored, zeroed })
}

// The least place of a word whose volume isn't there.
fn missing(parts: &[GuestPart], job: &SparsifyJob) -> Option<u64>
    ensures { MatchOption result (all_missing parts.now job.now ≡ []) (IsLeast (all_missing parts.now job.now)) }
{
    let ignored = least_missing(parts, job.ignore.items());
    let zeroed = least_missing(parts, job.zero.items());
    lesser(ignored, zeroed)
}

// Why a job that names this can't be done.
fn fault(choices: &Choices, parts: &[GuestPart], job: &SparsifyJob) -> Option<ChoiceFault>
    requires { AreChoices parts.now job.now choices.now }
    ensures { MatchOption result (AreSoundChoices parts.now job.now choices.now) (HasChoiceFault parts.now job.now) }
{
    match first_unread(choices, parts) {
        Err(AllocError) => Some(ChoiceFault::Memory),
        Ok(Some(unread)) => Some(ChoiceFault::Volume(unread)),
        Ok(None) => match missing(parts, job) {
            Some(place) => Some(ChoiceFault::NoSuchVolume { place }),
            None => None,
        },
    }
}

/// What a job names of a guest, all of it there, where all that must be read is read.
///
/// # Errors
///
/// `Volume` with the first volume, by partition and then by its group's order, that must be read and can't: one that is
/// neither ignored nor zeroed, nor in such a partition, and isn't read for another cause than `Other` and `NoGroup`.
/// Else `NoSuchVolume` with the least place of a word whose volume isn't there. `Memory` where memory is refused.
pub fn choices(alloc: Global, guest: &Guest, job: &SparsifyJob) -> Result<Choices, ChoiceFault>
    ensures choices { IfOk result (AreSoundChoices guest.now.parts job.now) }
    ensures fault { IfErr result (HasChoiceFault guest.now.parts job.now) }
{
    let parts = guest.parts();
    match named(alloc, parts, job) {
        Err(AllocError) => Err(ChoiceFault::Memory),
        Ok(choices) => match fault(&choices, parts, job) {
            Some(fault) => Err(fault),
            None => Ok(choices),
        },
    }
}
