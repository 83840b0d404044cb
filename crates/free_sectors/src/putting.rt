//! Numbers put into sets that may have some of them already.
ghost use Rattle.std.specs.Prelude.{ℕ, ◌≡◌, ◌+◌, ◌^◌, ◌<◌, ◌≤◌, ◌↔◌, ◌⊎◌, [], OnOk, IfOk};
ghost use Rattle.run_set.specs.Runs.{Holds, IsFree, IsInRange};

use disk_base::Run;
use run_set::{RunFault, Runs};
use std::alloc::{AllocError, Global};

// Gathers `n` numbers of which the set has none, so that only memory may be wanting.
fn add_new(set: &mut Runs, from: u64, n: u64) -> Result<(), AllocError>
    requires some { 1 ≤ n }
    requires end { from + n ≤ 2 ^ 63 }
    requires free { IsFree set.old from n }
    ensures { OnOk result ((x : ℕ) → Holds set.new x ↔ (Holds set.old x ⊎ IsInRange from n x)) }
{
    match set.add(from, n) {
        Ok(()) => Ok(()),
        Err(RunFault::Overlap { .. }) => {
            prove!(false);
            Err(AllocError)
        }
        Err(RunFault::Memory) => Err(AllocError),
    }
}

// Gathers what another set has, which has nothing in common with this one.
fn add_all(set: &mut Runs, other: &Runs) -> Result<(), AllocError>
    requires { (x : ℕ) → Holds set.old x → Holds other.now x → ⊥ }
    ensures { OnOk result ((x : ℕ) → Holds set.new x ↔ (Holds set.old x ⊎ Holds other.now x)) }
{
    for index in 0..other.count() {
        let (start, n) = other.get(index);
        add_new(set, start, n)?;
    }
    Ok(())
}

// The set of the `n` numbers from `from` on.
fn set_of(alloc: Global, from: u64, n: u64) -> Result<Runs, AllocError>
    requires some { 1 ≤ n }
    requires end { from + n ≤ 2 ^ 63 }
    ensures { IfOk result (λ set. (x : ℕ) → Holds set x ↔ IsInRange from n x) }
{
    let mut set = Runs::new(alloc);
    add_new(&mut set, from, n)?;
    Ok(set)
}

// Gathers those of the numbers that the set doesn't have.
fn put_rest(set: &mut Runs, alloc: Global, from: u64, n: u64) -> Result<(), AllocError>
    requires some { 1 ≤ n }
    requires end { from + n ≤ 2 ^ 63 }
    ensures { OnOk result ((x : ℕ) → Holds set.new x ↔ (Holds set.old x ⊎ IsInRange from n x)) }
{
    let rest = set_of(alloc, from, n)?.minus(alloc, set)?;
    add_all(set, &rest)?;
    Ok(())
}

// Gathers the `n` numbers from `from` on, whether or not the set has some of them.
fn put(set: &mut Runs, alloc: Global, from: u64, n: u64) -> Result<(), AllocError>
    requires some { 1 ≤ n }
    requires end { from + n ≤ 2 ^ 63 }
    ensures { OnOk result ((x : ℕ) → Holds set.new x ↔ (Holds set.old x ⊎ IsInRange from n x)) }
{
    match set.add(from, n) {
        Ok(()) => Ok(()),
        Err(RunFault::Overlap { .. }) => put_rest(set, alloc, from, n),
        Err(RunFault::Memory) => Err(AllocError),
    }
}

/// Sectors of a disk, as they are gathered.
#[derive(Drop)]
pub(crate) struct Gathered {
    /// How many sectors the disk has.
    pub(crate) sectors: u64,
    pub(crate) set: Runs,
    ghost few: { sectors ≤ 2 ^ 31 },
}

impl Gathered {
    ghost use Rattle.std.specs.Prelude.{◌≡◌, ◌^◌, ◌≤◌, [], OnOk};
    ghost use Rattle.disk_base.specs.Run.{IsIn, run_of};
    ghost use Rattle.free_sectors.specs.inside.Adding.{Gathers, StandsInJoin};

    /// None yet, of a disk of that many sectors.
    pub(crate) fn new(alloc: Global, sectors: u64) -> Gathered
        requires { sectors ≤ 2 ^ 31 }
        ensures disk { result.sectors ≡ sectors }
        ensures none { result.set ≡ [] }
    {
        Gathered {
            sectors,
            set: Runs::new(alloc),
        }
    }

    /// Gathers the `n` sectors from `from` on, as far as the disk has them.
    pub(crate) fn put(&mut self, alloc: Global, from: u64, n: u64) -> Result<(), AllocError>
        ensures { OnOk result (Gathers self.old self.new (IsIn (run_of from n))) }
    {
        let count = n.min(self.sectors.saturating_sub(from));
        if count == 0 {
            return Ok(());
        }
        put(&mut self.set, alloc, from, count)
    }

    /// Gathers the `n` sectors from `first` on of the join of some runs, as far as the join and the disk have them.
    pub(crate) fn put_inside(
        &mut self,
        alloc: Global,
        runs: &[Run],
        first: u64,
        n: u64,
    ) -> Result<(), AllocError>
        ensures { OnOk result (Gathers self.old self.new (StandsInJoin runs.now first n)) }
    {
        let mut skip = first;
        let mut left = n;
        for run in runs {
            let from = skip.min(run.count);
            let count = left.min(run.count - from);
            self.put(alloc, run.start.saturating_add(from), count)?;
            skip -= from;
            left -= count;
        }
        Ok(())
    }
}
