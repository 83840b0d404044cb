// How the numbers of an `add` go in among runs that rise.
ghost use Rattle.std.specs.Prelude.{◌≡◌, ◌+◌, ◌^◌, ◌<◌, ◌≤◌, ◌++◌, ◌∷◌, All, OnOk, OnErr, IfOk, IfErr, length, take, drop, vec_len};
ghost use Rattle.run_set.specs.Runs.{AreRuns, IsLeastCommon, past_of};
ghost use Rattle.run_set.specs.inside.Joins.{Joins};

use crate::fault::RunFault;
use crate::run::Run;

/// A run that takes in new numbers, and how many runs it stands in place of.
#[derive(Clone, Copy)]
pub(crate) struct Joined {
    pub(crate) run: Run,
    pub(crate) replaced: usize,
}

// Joins the numbers with the run that ends just below them, where one does, and with the one that starts just past them.
// Where they meet a run, the answer is the least number that both have.
pub(crate) fn join(rest: &[Run], start: u64, n: u64) -> Result<Joined, u64>
    requires some { 1 ≤ n }
    requires end { start + n ≤ 2 ^ 63 }
    requires set { AreRuns rest.now }
    requires place { All (λ run. start ≤ past_of run) rest.now }
    ensures joins { IfOk result (λ join. Joins rest.now start n join.run join.replaced) }
    ensures few { IfOk result (λ join. join.replaced ≤ 2) }
    ensures common { IfErr result (IsLeastCommon rest.now start n) }
{
    if rest.is_empty() || rest[0].end() != start {
        return join_later(rest, start, n);
    }
    let before = rest[0];
    let join = join_later(&rest[1..], start, n)?;
    let run = Run {
        start: before.start,
        count: before.count + join.run.count,
    };
    Ok(Joined {
        run,
        replaced: join.replaced + 1,
    })
}

// The same where no run ends just below the numbers.
fn join_later(later: &[Run], start: u64, n: u64) -> Result<Joined, u64>
    requires some { 1 ≤ n }
    requires end { start + n ≤ 2 ^ 63 }
    requires set { AreRuns later.now }
    requires place { All (λ run. start < past_of run) later.now }
    ensures joins { IfOk result (λ join. Joins later.now start n join.run join.replaced) }
    ensures few { IfOk result (λ join. join.replaced ≤ 1) }
    ensures starts { IfOk result (λ join. join.run.start ≡ start) }
    ensures common { IfErr result (IsLeastCommon later.now start n) }
{
    let mut run = Run { start, count: n };
    let mut replaced = 0;
    if let [after, ..] = later {
        if after.start < start + n {
            return Err(start.max(after.start));
        }
        if after.start == start + n {
            run.count += after.count;
            replaced = 1;
        }
    }
    Ok(Joined { run, replaced })
}

// Puts the run in place of a few others, or between two where they are none.
pub(crate) fn replace(runs: &mut Vec<Run>, at: usize, join: Joined) -> Result<(), RunFault>
    requires within { at + join.replaced ≤ vec_len runs.old }
    requires few { join.replaced ≤ 2 }
    ensures ok { OnOk result (runs.new.items ≡ take at runs.old.items ++ join.run ∷ drop (at + join.replaced) runs.old.items) }
    ensures err { OnErr result (runs.new.items ≡ runs.old.items) }
    ensures memory { IfErr result (λ fault. fault ≡ RunFault.Memory) }
{
    if join.replaced == 0 {
        runs.insert(at, join.run).map_err(|_| RunFault::Memory)?;
        return Ok(());
    }
    if join.replaced == 2 {
        runs.remove(at + 1);
    }
    runs[at] = join.run;
    Ok(())
}
