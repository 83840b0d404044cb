//! Standard streams as sinks.
ghost use Rattle.std.specs.Prelude.{◌≡◌, ◌-◌, ◌^◌, ◌≤◌, false, []};

use disk_base::{Failed, Sink};
use std::io::Write;

/// A writer as a sink that tells no text and counts its faults.
#[derive(Drop)]
pub struct StdSink<W: Write + Drop> {
    writer: W,
    faults: u64,
    ghost counted: { faults ≤ 2 ^ 64 - 1 },
}

impl<W: Write + Drop> StdSink<W> {
    /// A sink over the writer, without a fault so far.
    pub fn new(writer: W) -> StdSink<W>
        ensures { result.faults ≡ 0 }
    {
        StdSink { writer, faults: 0 }
    }
}

impl<W: Write + Drop> Sink for StdSink<W> {
    ghost tells_text = { false };

    ghost text = { λ _. [] };

    ghost sink_faults = { λ s. s.faults };

    fn write(&mut self, bytes: &[u8]) -> Result<(), Failed> {
        if self.writer.write_all(bytes).is_ok() && self.writer.flush().is_ok() {
            return Ok(());
        }
        self.faults = self.faults.saturating_add(1);
        Err(Failed)
    }

    ghost last_count = { λ s. s.counted };
}
