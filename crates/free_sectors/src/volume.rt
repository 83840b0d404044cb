//! What volumes don't use.
ghost use Rattle.std.specs.Prelude.{◌<◌, ◌*◌, OnOk};
ghost use Rattle.disk_view.specs.Join.{IsInOne};
ghost use Rattle.free_sectors.specs.Free.{IsUnusedIn};
ghost use Rattle.free_sectors.specs.inside.Adding.{Gathers, IsFreeInGroup};
ghost use Rattle.volume_content.specs.declared.content.Inner.TheVariants as inner;

use crate::putting::Gathered;
use disk_base::Run;
use std::alloc::{AllocError, Global};
use swap_area::Swap;
use volume_content::Inner;
use xfs_check::Volume;

/// All of a volume that stands in these runs.
pub(crate) fn put_all(out: &mut Gathered, alloc: Global, runs: &[Run]) -> Result<(), AllocError>
    ensures { OnOk result (Gathers out.old out.new (IsInOne runs.now)) }
{
    for run in runs {
        out.put(alloc, run.start, run.count)?;
    }
    Ok(())
}

// The free blocks of that group of an XFS volume.
fn put_group(
    out: &mut Gathered,
    alloc: Global,
    runs: &[Run],
    volume: &Volume,
    number: u32,
) -> Result<(), AllocError>
    requires { number < volume.now.geometry.agcount }
    ensures { OnOk result (Gathers out.old out.new (IsFreeInGroup runs.now volume.now number)) }
{
    let geo = volume.geo();
    for run in volume.free(number).runs() {
        let first = geo.sector_of(number, run.0);
        out.put_inside(alloc, runs, first, 8 * run.1 as u64)?;
    }
    Ok(())
}

/// What an XFS volume doesn't use: its free blocks.
pub(crate) fn put_xfs(
    out: &mut Gathered,
    alloc: Global,
    runs: &[Run],
    volume: &Volume,
) -> Result<(), AllocError>
    ensures { OnOk result (Gathers out.old out.new (IsUnusedIn runs.now (inner.Xfs volume.now))) }
{
    for number in 0..volume.geo().agcount {
        put_group(out, alloc, runs, volume, number)?;
    }
    Ok(())
}

/// What a swap area doesn't use: each page but the first.
pub(crate) fn put_swap(
    out: &mut Gathered,
    alloc: Global,
    runs: &[Run],
    swap: &Swap,
) -> Result<(), AllocError>
    ensures { OnOk result (Gathers out.old out.new (IsUnusedIn runs.now (inner.Swap swap.now))) }
{
    out.put_inside(alloc, runs, 8, 8 * swap.last_page as u64)?;
    Ok(())
}

/// What a volume doesn't use, by its content.
pub(crate) fn put_unused(
    out: &mut Gathered,
    alloc: Global,
    runs: &[Run],
    content: &Inner,
) -> Result<(), AllocError>
    ensures { OnOk result (Gathers out.old out.new (IsUnusedIn runs.now content.now)) }
{
    match content {
        Inner::Xfs(volume) => put_xfs(out, alloc, runs, volume),
        Inner::Swap(swap) => put_swap(out, alloc, runs, swap),
        Inner::Unread(_) => Ok(()),
    }
}
