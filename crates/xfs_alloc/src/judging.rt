//! Whether the two trees of a group hold the same runs, and as many blocks as the AGF says.
ghost use Rattle.std.specs.Prelude.{◌≡◌, ℕ, ◌+◌, ◌≤◌, Bool, true, false, map, IsTrue, ◌↔◌, IfOk, IfErr, IsErrOf, OnOk};
ghost use Rattle.std.specs.List.{All};
ghost use Rattle.xfs_alloc.specs.Free.{free_blocks, AreSameRuns};
ghost use Rattle.xfs_alloc.specs.inside.Telling.{IsRunsFault};
ghost use Rattle.xfs_tree.specs.Records.{by_start, by_count};
ghost use Rattle.xfs_tree.specs.Tree.{AreInOrder};

use std::alloc::{AllocError, Global};
use xfs_super::{Agf, CheckFault, Reason};
use xfs_tree::{ByCount, ByStart};

/// The blocks of the runs before one, which begins at that block, and its own.
fn add(total: u64, start: u32, count: u32) -> u64
    requires { total ≤ start }
    ensures { result ≡ total + count }
{
    total + (count as u64)
}

/// How many blocks runs have.
fn count_blocks(runs: &[ByStart]) -> u64
    requires { AreInOrder by_start runs.now }
    ensures { result ≡ free_blocks runs.now }
{
    let mut total = 0;
    for run in runs {
        total = add(total, run.start, run.count);
    }
    total
}

/// Count and start of each run of the tree by start.
fn pairs_by_start(alloc: Global, runs: &[ByStart]) -> Result<Vec<(u32, u32)>, AllocError>
    ensures { IfOk result (λ pairs. pairs.items ≡ map (λ r. (r.count, r.start)) runs.now) }
{
    let mut pairs = Vec::new(alloc);
    for run in runs {
        pairs.push((run.count, run.start))?;
    }
    Ok(pairs)
}

/// Count and start of each run of the tree by count.
fn pairs_by_count(alloc: Global, runs: &[ByCount]) -> Result<Vec<(u32, u32)>, AllocError>
    ensures { IfOk result (λ pairs. pairs.items ≡ map (λ r. (r.count, r.start)) runs.now) }
{
    let mut pairs = Vec::new(alloc);
    for run in runs {
        pairs.push((run.count, run.start))?;
    }
    Ok(pairs)
}

/// Whether two lists are equal.
fn are_equal(xs: &[(u32, u32)], ys: &[(u32, u32)]) -> bool
    ensures { IsTrue result ↔ (xs.now ≡ ys.now) }
{
    if xs.len() != ys.len() {
        return false;
    }
    for i in 0..xs.len() {
        if xs[i] != ys[i] {
            return false;
        }
    }
    true
}

/// Whether both trees hold the same runs.
fn hold_same(alloc: Global, starts: &[ByStart], counts: &[ByCount]) -> Result<bool, AllocError>
    requires order { AreInOrder by_count counts.now }
    requires fits_starts { All (λ r. IsTrue (by_start.fits r)) starts.now }
    requires fits_counts { All (λ r. IsTrue (by_count.fits r)) counts.now }
    ensures yes { IfOk result (λ same. IsTrue same → AreSameRuns starts.now counts.now) }
    ensures no { IfOk result (λ same. same ≡ false → AreSameRuns starts.now counts.now → ⊥) }
{
    let mut pairs = pairs_by_start(alloc, starts)?;
    pairs.sort_unstable();
    let others = pairs_by_count(alloc, counts)?;
    Ok(are_equal(&pairs, &others))
}

/// Judges the runs of the two trees of a group.
pub(crate) fn judge(
    alloc: Global,
    group: u32,
    agf: &Agf,
    starts: &[ByStart],
    counts: &[ByCount],
) -> Result<(), CheckFault>
    requires starts { AreInOrder by_start starts.now }
    requires counts { AreInOrder by_count counts.now }
    requires fits_starts { All (λ r. IsTrue (by_start.fits r)) starts.now }
    requires fits_counts { All (λ r. IsTrue (by_count.fits r)) counts.now }
    ensures same { OnOk result (AreSameRuns starts.now counts.now) }
    ensures counted { OnOk result (agf.now.freeblks ≡ free_blocks starts.now) }
    ensures fault { IfErr result (IsRunsFault group agf.now.freeblks starts.now counts.now) }
{
    let same = hold_same(alloc, starts, counts)?;
    if !same {
        return Err(CheckFault::Bad(Reason::FreeTreesDiffer { group }));
    }
    let stored = agf.freeblks;
    let found = count_blocks(starts);
    if stored as u64 != found {
        return Err(CheckFault::Bad(Reason::FreeCount {
            group,
            stored,
            found,
        }));
    }
    Ok(())
}
