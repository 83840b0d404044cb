//! The free sectors of a guest.
ghost use Rattle.std.specs.Prelude.{ℕ, ◌↔◌, ◌<◌, ◌≤◌, All, IfOk};
ghost use Rattle.free_sectors.specs.Free.{IsFreeSector, PartGives, PartKeeps, SomePart};
ghost use Rattle.run_set.specs.Runs.{Holds, past_of};

use crate::part::{give_parts, keep_parts};
use crate::putting::Gathered;
use guest_view::Guest;
use run_set::Runs;
use std::alloc::{AllocError, Global};
use volume_choice::Choices;

// What the partitions of a guest give up.
fn given(alloc: Global, guest: &Guest, choices: &Choices) -> Result<Runs, AllocError>
    ensures { IfOk result (λ given. (x : ℕ) → Holds given x
        ↔ ((x < guest.now.sectors) × SomePart (λ part. PartGives choices.now guest.now.parts part x) guest.now.parts)) }
{
    let mut out = Gathered::new(alloc, guest.sectors());
    give_parts(&mut out, alloc, choices, guest.parts())?;
    Ok(out.set)
}

// What they keep.
fn kept(alloc: Global, guest: &Guest, choices: &Choices) -> Result<Runs, AllocError>
    ensures { IfOk result (λ kept. (x : ℕ) → Holds kept x
        ↔ ((x < guest.now.sectors) × SomePart (λ part. PartKeeps choices.now guest.now.parts part x) guest.now.parts)) }
{
    let mut out = Gathered::new(alloc, guest.sectors());
    keep_parts(&mut out, alloc, choices, guest.parts())?;
    Ok(out.set)
}

/// The free sectors of a guest's disk, for a job with these choices.
pub fn free_runs(alloc: Global, guest: &Guest, choices: &Choices) -> Result<Runs, AllocError>
    ensures free { IfOk result (λ runs. (x : ℕ) → Holds runs x ↔ IsFreeSector guest.now choices.now x) }
    ensures inside { IfOk result (λ runs. All (λ run. past_of run ≤ guest.now.sectors) runs) }
{
    let kept = kept(alloc, guest, choices)?;
    let free = given(alloc, guest, choices)?.minus(alloc, &kept)?;
    // To ask how many runs a set has tells that none of them is empty.
    let _ = free.count();
    Ok(free)
}
