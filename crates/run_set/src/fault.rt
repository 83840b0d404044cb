// Why numbers don't go into a set.
use thiserror::Error;

/// Why numbers don't go into a set.
#[derive(Clone, Copy, Debug, Drop, PartialEq, Eq, Error)]
pub enum RunFault {
    /// The set has some of the numbers already; `start` is the least of them.
    #[error("Overlap start={start}")]
    Overlap { start: u64 },
    /// Memory ran out.
    #[error("Memory")]
    Memory,
}
