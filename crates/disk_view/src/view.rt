//! The view of a disk through some runs of its sectors.
ghost use Rattle.std.specs.Prelude.{◌≡◌, ℕ, ◌+◌, ◌^◌, ◌-◌, ◌≤◌, min, All, AllPairs};
ghost use Rattle.disk_base.specs.Run.{IsWithin, AreApart};
ghost use Rattle.disk_view.specs.Join.{joined_runs, total};

use crate::reading::read_runs;
use disk_base::{Blocks, Failed, Run};

/// The join of runs of a disk: its sector 0 is the first one of the first run.
///
/// It borrows the disk, which was only read when the view ends. A read of the view fails where one of the disk does.
#[derive(Drop)]
pub struct View<'a, B: Blocks> {
    disk: &'a mut B,
    runs: &'a [Run],
    count: u64,
    ghost inside: { All (IsWithin (B.size disk.now)) runs.now },
    ghost few: { B.size disk.now ≤ 2 ^ 64 - 1 },
    ghost counted: { count ≡ total runs.now },
}

// How many sectors the runs have, or the greatest number where they have more than that.
fn sectors_in(runs: &[Run]) -> u64
    ensures { result ≡ min (total runs.now) (2 ^ 64 - 1) }
{
    let mut sum: u64 = 0;
    for run in runs {
        sum = sum.saturating_add(run.count);
    }
    sum
}

impl<'a, B: Blocks> View<'a, B> {
    /// The view of a disk through these runs, which may be empty and stand in any order.
    pub fn new(disk: &'a mut B, runs: &'a [Run]) -> View<'a, B>
        requires inside { All (IsWithin (B.size disk.old)) runs.now }
        requires apart { AllPairs AreApart runs.now }
        ensures same_disk { result.disk.ghost_name ≡ disk.entry.ghost_name }
        ensures untouched { result.disk.now ≡ disk.old }
        ensures runs { result.runs.now ≡ runs.now }
    {
        // Runs that lie apart have no more sectors than the disk.
        let count = disk.sectors().min(sectors_in(runs));
        View { disk, runs, count }
    }
}

impl<'a, B: Blocks> Blocks for View<'a, B> {
    ghost use Rattle.disk_view.specs.inside.Lengths.{same_total, same_join, whole_join};
    ghost use Rattle.std.proofs.Common.{refl, ◌∙◌};

    ghost tells = { B.tells };

    ghost image = { λ v. joined_runs (B.image v.disk.now) v.runs.now };

    ghost size = { λ v. total v.runs.now };

    ghost faults = { λ v. B.faults v.disk.now };

    ghost only_read = { λ a b.
        B.only_read a.disk.now b.disk.now × (b.runs.now ≡ a.runs.now) × (b.count ≡ a.count)
        × (b.disk.ghost_name ≡ a.disk.ghost_name) };

    fn sectors(&self) -> u64 {
        self.count
    }

    fn read(&mut self, at: u64, out: &mut [u8]) -> Result<(), Failed> {
        read_runs(self.disk, self.runs, at, out)?;
        Ok(())
    }

    ghost read_nothing = { λ v. (B.read_nothing v.disk.now, refl, refl, refl) };

    ghost read_on = { λ a b c r s.
        (B.read_on a.disk.now b.disk.now c.disk.now r.0 s.0, s.1 ∙ r.1, s.2 ∙ r.2, s.3 ∙ r.3) };

    ghost same_size = { λ a b r. same_total _ _ r.1 };

    ghost same_image = { λ a b r t. same_join _ _ _ _ (B.same_image a.disk.now b.disk.now r.0 t) r.1 };

    ghost whole = { λ v t.
        whole_join (B.image v.disk.now) (B.size v.disk.now) v.runs.now (B.whole v.disk.now t) v.inside };

    ghost no_fewer = { λ a b r. B.no_fewer a.disk.now b.disk.now r.0 };

    ghost last_count = { λ v. B.last_count v.disk.now };
}
