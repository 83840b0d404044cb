// One run, and the search for the place of a number among runs that rise.
ghost use Rattle.std.specs.Prelude.{◌≡◌, ◌+◌, ◌^◌, ◌<◌, ◌≤◌, ◌↔◌, IsTrue, All, length, take, drop};
ghost use Rattle.run_set.specs.Runs.{IsInRange, AreRuns, IsRun, past_of};

/// The numbers from a first one on: `count` of them.
#[derive(Clone, Copy)]
pub struct Run {
    pub(crate) start: u64,
    pub(crate) count: u64,
}

impl Run {
    pub(crate) fn end(self) -> u64
        requires { IsRun self }
        ensures { result ≡ past_of self }
    {
        self.start + self.count
    }

    // Whether the run ends strictly below the number; any two numbers make a run here.
    fn ends_below(&self, number: u64) -> bool
        ensures { IsTrue result ↔ (past_of self.now < number) }
    {
        self.start < number && self.count < number - self.start
    }

    pub(crate) fn has(self, number: u64) -> bool
        ensures { IsTrue result ↔ IsInRange self.start self.count number }
    {
        self.start <= number && number - self.start < self.count
    }
}

// The index of the first run that ends at the number or past it.
// The last run is looked at first, so that a number at the end of the runs is placed at once.
pub(crate) fn place(runs: &[Run], number: u64) -> usize
    requires { AreRuns runs.now }
    ensures bound { result ≤ length runs.now }
    ensures below { All (λ run. past_of run < number) (take result runs.now) }
    ensures rest { All (λ run. number ≤ past_of run) (drop result runs.now) }
{
    if let Some(last) = runs.last() {
        if last.ends_below(number) {
            return runs.len();
        }
        if last.start <= number {
            return runs.len() - 1;
        }
    }
    runs.partition_point(|run| run.ends_below(number))
}
