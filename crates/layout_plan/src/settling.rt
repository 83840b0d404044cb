//! The wishes, where the part that takes or gives up gets so many sectors.
ghost use Rattle.std.specs.Prelude.{◌≡◌, ◌^◌, ◌≤◌, IfOk};
ghost use Rattle.layout_plan.specs.Wishes.{settle, settled};

use crate::wish::{Size, What, Wish};
use disk_base::SECTOR;
use std::alloc::{AllocError, Global};

/// A wish, where the part that takes or gives up gets so many sectors.
fn settle(sectors: u64, wish: &Wish) -> Wish
    requires { sectors ≤ 2 ^ 33 }
    ensures { result ≡ settle sectors wish.now }
{
    let Wish { place, part, what } = *wish;
    let what = match what {
        What::Expand | What::Shrink => What::Force(Size::Bytes(SECTOR as u64 * sectors)),
        other => other,
    };
    Wish { place, part, what }
}

/// The wishes, where the part that takes or gives up gets so many sectors.
pub fn settled(alloc: Global, sectors: u64, wishes: &[Wish]) -> Result<Vec<Wish>, AllocError>
    requires { sectors ≤ 2 ^ 33 }
    ensures { IfOk result (λ all. all.items ≡ settled sectors wishes.now) }
{
    let mut all = Vec::new(alloc);
    for wish in wishes {
        all.push(settle(sectors, wish))?;
    }
    Ok(all)
}
