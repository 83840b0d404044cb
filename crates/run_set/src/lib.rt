// Sets of numbers: as runs, sorted, disjoint, and joined where they touch; or with a bit for each
// number below a bound. And the test whether bytes are all zero.
//
// It is for whoever claims numbers piece by piece, as blocks of a file system, and wants to know
// at once where two claims meet, and for answers that are sets of numbers, as the free sectors of
// a disk.
//
// It promises, exactly: which numbers a set has after each call, whether a number is new to it or
// the least number at which an `add` meets what is there, that a refused `add` changes nothing, and
// that the runs rise, lie apart and don't touch. Want of memory is the one fault that no promise
// speaks of, and only making a set of bits, adding runs and taking them away ask for memory.
//
// It stands on the standard library, and on thiserror for the texts of its faults.
#![tactic(auto)]

mod bits;
mod cut;
mod fault;
mod join;
mod run;
mod zero;

ghost use Rattle.std.specs.Prelude.{◌≡◌, ◌+◌, ◌^◌, ◌<◌, ◌≤◌, ◌↔◌, ◌⊎◌, ℕ, [], All, AllPairs, IsTrue, OnOk, OnErr, IfOk, IfErr, length, sum_by};
ghost use Rattle.std.specs.List.{HoldsAt};
ghost use Rattle.run_set.specs.Runs.{IsInRange, IsRun, EndsBelow, Holds, HasFault, IsFree, AreRuns};

pub use bits::Bits;
use cut::cut;
pub use fault::RunFault;
use join::{join, replace};
pub use run::Run;
use run::place;
use std::alloc::{AllocError, Global};
use std::marker::Model;
pub use zero::all_zero;

/// A set of numbers below 2⁶³.
#[derive(Drop)]
pub struct Runs {
    runs: Vec<Run>,
}

impl Model for Runs {
    ghost use Rattle.std.specs.Prelude.{List};
    ghost use Rattle.run_set.specs.declared.run.Run.{Run};

    ghost Value = { List Run };

    ghost use Rattle.run_set.specs.Runs.{AreRuns};

    ghost view = { λ s. s.runs.items };

    ghost invariant = { λ s. AreRuns s.runs.items };
}

impl Runs {
    /// The empty set. It takes no memory.
    pub fn new(alloc: Global) -> Runs
        ensures { result ≡ [] }
    {
        Runs {
            runs: Vec::new(alloc),
        }
    }

    /// Adds the `n` numbers from `start` on.
    ///
    /// # Errors
    ///
    /// `Overlap` where the set has some of them, with the least such number, and `Memory` where it has none and memory runs out.
    /// After either the set is as it was.
    pub fn add(&mut self, start: u64, n: u64) -> Result<(), RunFault>
        requires some { 1 ≤ n }
        requires end { start + n ≤ 2 ^ 63 }

        ensures added { OnOk result ((x : ℕ) → Holds self.new x ↔ (Holds self.old x ⊎ IsInRange start n x)) }
        ensures free { OnOk result (IsFree self.old start n) }

        ensures fault { IfErr result (HasFault self.old start n) }
        ensures unchanged { OnErr result (self.new ≡ self.old) }
    {
        let at = place(&self.runs, start);
        let joined = match join(&self.runs[at..], start, n) {
            Ok(joined) => joined,
            Err(start) => return Err(RunFault::Overlap { start }),
        };
        replace(&mut self.runs, at, joined)?;
        Ok(())
    }

    /// Whether the set has the number.
    pub fn holds(&self, number: u64) -> bool
        ensures { IsTrue result ↔ Holds self.now number }
    {
        let at = place(&self.runs, number);
        at < self.runs.len() && self.runs[at].has(number)
    }

    /// How many runs the set has.
    pub fn count(&self) -> usize
        ensures count { result ≡ length self.now }
        ensures runs { All IsRun self.now }
        ensures rising { AllPairs EndsBelow self.now }
        ensures set { AreRuns self.now }
    {
        self.runs.len()
    }

    /// The run at an index, in rising order: its first number, and how many numbers it has.
    pub fn get(&self, index: usize) -> (u64, u64)
        requires { index < length self.now }
        ensures run { HoldsAt (λ run. run ≡ record { start = result.0; count = result.1 }) self.now index }
        ensures some { 1 ≤ result.1 }
        ensures end { result.0 + result.1 ≤ 2 ^ 63 }
    {
        let run = self.runs[index];
        (run.start, run.count)
    }

    /// How many numbers the set has.
    pub fn total(&self) -> u64
        ensures { result ≡ sum_by (λ run. run.count) self.now }
    {
        total_of(&self.runs)
    }

    /// The numbers that this set has and the other doesn't.
    pub fn minus(&self, alloc: Global, other: &Runs) -> Result<Runs, AllocError>
        ensures { IfOk result (λ rest. (x : ℕ) → Holds rest x ↔ (Holds self.now x × (Holds other.now x → ⊥))) }
    {
        let mut runs = Vec::new(alloc);
        let mut past = 0;
        for run in &self.runs {
            past = cut(&mut runs, *run, &other.runs, past)?;
        }
        Ok(Runs { runs })
    }
}

fn total_of(runs: &[Run]) -> u64
    requires { sum_by (λ run. run.count) runs.now < 2 ^ 64 }
    ensures { result ≡ sum_by (λ run. run.count) runs.now }
{
    runs.iter().map(|run| run.count).sum()
}
