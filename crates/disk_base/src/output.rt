//! Sinks, which take text.
ghost use Rattle.std.specs.Prelude.{◌≡◌, ℕ, ◌-◌, ◌^◌, ◌≤◌, ◌++◌, List, Bool, take, IsTrue, OnOk, OnErr};
ghost use Rattle.disk_base.specs.Faults.{HasCause};

use crate::device::Failed;

/// Where text goes.
///
/// `text` is what it has taken so far, known where `tells_text` says so; `sink_faults` is a count that
/// never falls.
pub trait Sink {
    ghost tells_text: { Bool };

    ghost text: { Self → List ℕ };

    ghost sink_faults: { Self → ℕ };

    /// Appends all of `bytes`. After `Failed` a prefix of them is appended.
    fn write(&mut self, bytes: &[u8]) -> Result<(), Failed>
        ensures written { IsTrue tells_text → OnOk result (text self.new ≡ text self.old ++ bytes.now) }
        ensures half { IsTrue tells_text → OnErr result ((n : ℕ) × (text self.new ≡ text self.old ++ take n bytes.now)) }
        ensures cause { HasCause (sink_faults self.old) (sink_faults self.new) result };

    ghost last_count: { (s : Self) → sink_faults s ≤ 2 ^ 64 - 1 };
}
