// What of a run lies outside other runs.
ghost use Rattle.std.specs.Prelude.{◌≡◌, ℕ, ◌+◌, ◌^◌, ◌<◌, ◌≤◌, ◌↔◌, ◌⊎◌, All, OnOk, OnErr, IfOk, IfErr, length, take, drop, vec_len};
ghost use Rattle.run_set.specs.Runs.{AreRuns, Holds, IsRun, past_of};
ghost use Rattle.run_set.specs.inside.Joins.{LiesBelow};
ghost use Rattle.run_set.specs.inside.Cuts.{KeepsOf};

use crate::run::Run;
use std::alloc::AllocError;

// Appends the numbers from `from` up to below `to`, where there are any.
fn push_between(out: &mut Vec<Run>, from: u64, to: u64) -> Result<(), AllocError>
    requires end { to ≤ 2 ^ 63 }
    requires below { LiesBelow from out.old.items }
    ensures added { OnOk result ((x : ℕ) → Holds out.new.items x ↔ (Holds out.old.items x ⊎ ((from ≤ x) × (x < to)))) }
    ensures below { OnOk result ((bound : ℕ) → from ≤ bound → to < bound → LiesBelow bound out.new.items) }
{
    if from < to {
        out.push(Run {
            start: from,
            count: to - from,
        })?;
    }
    Ok(())
}

// Appends what of the run lies outside the holes, of which the first few lie below it.
// The answer is how many of the holes end by the run's end.
pub(crate) fn cut(
    out: &mut Vec<Run>,
    run: Run,
    holes: &[Run],
    first: usize,
) -> Result<usize, AllocError>
    requires run { IsRun run }
    requires below { LiesBelow run.start out.old.items }
    requires holes { AreRuns holes.now }
    requires first { first ≤ length holes.now }
    requires past { All (λ hole. past_of hole ≤ run.start) (take first holes.now) }
    ensures first { IfOk result (λ past. past ≤ length holes.now) }
    ensures past { IfOk result (λ past. All (λ hole. past_of hole ≤ past_of run) (take past holes.now)) }
    ensures below { OnOk result (LiesBelow (past_of run + 1) out.new.items) }
    ensures kept { OnOk result (KeepsOf run holes.now out.old.items out.new.items) }
{
    let end = run.end();
    let mut from = run.start;
    let mut at = first;
    while at < holes.len() && holes[at].end() <= end {
        push_between(out, from, holes[at].start)?;
        from = from.max(holes[at].end());
        at += 1;
    }
    let to = if at < holes.len() {
        end.min(holes[at].start)
    } else {
        end
    };
    push_between(out, from, to)?;
    Ok(at)
}
