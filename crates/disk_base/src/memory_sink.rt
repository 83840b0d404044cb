//! A sink in memory, which tells its text and fails exactly where it is told to.
ghost use Rattle.std.specs.Prelude.{◌≡◌, ℕ, ◌-◌, ◌^◌, ◌≤◌, ◌++◌, take, true, IsTrue, OnOk, OnErr, IfOk, is_err, length, vec_len, vec_capacity};
ghost use Rattle.disk_base.specs.Faults.{HasCause};

use crate::device::Failed;
use crate::output::Sink;
use std::alloc::{AllocError, Global};

/// Text in memory. Its calls are numbered from 0, and fail exactly where the number is listed or the text
/// would pass its room; then nothing is appended.
#[derive(Debug, Drop)]
pub struct MemSink {
    text: Vec<u8>,
    faults: u64,
    calls: u64,
    room: usize,
    failing: Vec<u64>,
    ghost reserved: { room ≤ vec_capacity text },
    ghost fits: { vec_len text ≤ room },
    ghost counted: { faults ≤ 2 ^ 64 - 1 },
}

impl MemSink {
    ghost use Rattle.disk_base.specs.MemoryText.{sink_state, empty_sink};

    /// An empty sink that takes up to `room` bytes. It takes all memory that its later calls need.
    pub fn new(alloc: Global, room: usize, failing: Vec<u64>) -> Result<MemSink, AllocError>
        ensures { IfOk result (λ s. sink_state s ≡ empty_sink room failing.items) }
    {
        let mut text = Vec::new(alloc);
        text.reserve_exact(room)?;
        Ok(MemSink {
            text,
            faults: 0,
            calls: 0,
            room,
            failing,
        })
    }

    /// What was written.
    pub fn text(&self) -> &[u8]
        ensures { result.now ≡ (sink_state self.now).text }
    {
        self.text.as_slice()
    }

    /// How often a call failed.
    pub fn faults(&self) -> u64
        ensures { result ≡ (sink_state self.now).faults }
    {
        self.faults
    }
}

impl Sink for MemSink {
    ghost use Rattle.disk_base.specs.MemoryText.{sink_state, sink_refuses, sink_took, sink_failed};

    ghost tells_text = { true };

    ghost text = { λ s. s.text.items };

    ghost sink_faults = { λ s. s.faults };

    fn write(&mut self, bytes: &[u8]) -> Result<(), Failed>
        ensures written { OnOk result ((sink_state self.new).text ≡ (sink_state self.old).text ++ bytes.now) }
        ensures half { OnErr result ((n : ℕ) × ((sink_state self.new).text ≡ (sink_state self.old).text ++ take n bytes.now)) }
        ensures cause { HasCause (sink_state self.old).faults (sink_state self.new).faults result }

        // Exactly when it fails, and what it is afterwards.
        ensures fails { is_err result ≡ sink_refuses (sink_state self.old) (length bytes.now) }
        ensures took { OnOk result (sink_state self.new ≡ sink_took (sink_state self.old) bytes.now) }
        ensures failed { OnErr result (sink_state self.new ≡ sink_failed (sink_state self.old)) }
    {
        let number = self.calls;
        self.calls = number.saturating_add(1);
        if self.failing.contains(&number) || self.room - self.text.len() < bytes.len() {
            self.faults = self.faults.saturating_add(1);
            return Err(Failed);
        }
        self.text.extend_from_slice(bytes).unwrap();
        Ok(())
    }

    ghost last_count = { λ s. s.counted };
}
