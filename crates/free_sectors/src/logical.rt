//! What logical volumes give up and keep.
ghost use Rattle.std.specs.Prelude.{◌≡◌, ◌⊎◌, IsTrue, IfOk, OnOk};
ghost use Rattle.disk_view.specs.Join.{IsInOne};
ghost use Rattle.free_sectors.specs.Free.{IsUnusedIn, LogicalGives, LogicalKeeps, SomeLogical};
ghost use Rattle.free_sectors.specs.inside.Adding.{Gathers};

use crate::putting::Gathered;
use crate::volume::{put_all, put_unused};
use disk_base::Run;
use group_content::GroupVolume;
use std::alloc::{AllocError, Global};
use volume_choice::Choices;

// The index of a logical volume in 32 bits: no memory holds a group that has more.
fn short_index(index: usize) -> Result<u32, AllocError>
    ensures { IfOk result (λ short. short ≡ index) }
{
    if index > 4294967295 {
        return Err(AllocError);
    }
    Ok(index as u32)
}

// All of a volume that stands in these runs, if it is chosen.
fn put_all_if(
    out: &mut Gathered,
    alloc: Global,
    runs: &[Run],
    is_chosen: bool,
) -> Result<(), AllocError>
    ensures { OnOk result (Gathers out.old out.new (λ x. IsTrue is_chosen × IsInOne runs.now x)) }
{
    if !is_chosen {
        return Ok(());
    }
    put_all(out, alloc, runs)?;
    Ok(())
}

// What a logical volume gives up.
fn give_logical(
    out: &mut Gathered,
    alloc: Global,
    volume: &GroupVolume,
    is_zeroed: bool,
) -> Result<(), AllocError>
    ensures { OnOk result (Gathers out.old out.new (λ x. (IsTrue is_zeroed × IsInOne volume.now.runs.items x)
        ⊎ IsUnusedIn volume.now.runs.items volume.now.inner x)) }
{
    put_all_if(out, alloc, &volume.runs, is_zeroed)?;
    put_unused(out, alloc, &volume.runs, &volume.inner)?;
    Ok(())
}

/// What the logical volumes of a group give up, which the partition of that number holds.
pub(crate) fn give_logicals(
    out: &mut Gathered,
    alloc: Global,
    choices: &Choices,
    holder: u32,
    volumes: &[GroupVolume],
) -> Result<(), AllocError>
    ensures { OnOk result (Gathers out.old out.new
        (λ x. SomeLogical (λ lv volume. LogicalGives choices.now holder lv volume x) volumes.now)) }
{
    for (index, volume) in volumes.iter().enumerate() {
        let lv = short_index(index)?;
        give_logical(out, alloc, volume, choices.is_zeroed_logical(holder, lv))?;
    }
    Ok(())
}

/// What they keep.
pub(crate) fn keep_logicals(
    out: &mut Gathered,
    alloc: Global,
    choices: &Choices,
    holder: u32,
    volumes: &[GroupVolume],
) -> Result<(), AllocError>
    ensures { OnOk result (Gathers out.old out.new
        (λ x. SomeLogical (λ lv volume. LogicalKeeps choices.now holder lv volume x) volumes.now)) }
{
    for (index, volume) in volumes.iter().enumerate() {
        let lv = short_index(index)?;
        let is_ignored = choices.is_ignored_logical(holder, lv);
        put_all_if(out, alloc, &volume.runs, is_ignored)?;
    }
    Ok(())
}
