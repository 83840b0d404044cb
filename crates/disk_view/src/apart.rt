//! Runs that share no sector.
ghost use Rattle.std.specs.Prelude.{◌≤◌, ◌↔◌, IsTrue, All, AllPairs};
ghost use Rattle.disk_base.specs.Run.{end_of, AreApart};

use disk_base::Run;

// A run may end behind the last number of a sector, so its end isn't computed.
fn ends_before(one: &Run, other: &Run) -> bool
    ensures { IsTrue result ↔ (end_of one.now ≤ other.now.start) }
{
    one.start <= other.start && one.count <= other.start - one.start
}

fn is_apart(one: &Run, others: &[Run]) -> bool
    ensures { IsTrue result ↔ All (AreApart one.now) others.now }
{
    others
        .iter()
        .all(|other| ends_before(one, other) || ends_before(other, one))
}

/// Whether no two of the runs share a sector.
pub fn are_apart(runs: &[Run]) -> bool
    ensures { IsTrue result ↔ AllPairs AreApart runs.now }
{
    for (i, run) in runs.iter().enumerate() {
        if !is_apart(run, &runs[i + 1..]) {
            return false;
        }
    }
    true
}
