//! A few bytes that are read as a disk of any length, for tests of readers.
ghost use Rattle.std.specs.Prelude.{◌≡◌, ℕ, ◌+◌, ◌-◌, ◌*◌, ◌%◌, ◌^◌, ◌<◌, ◌≤◌, ◌++◌, true, length, replicate, OnOk, OnErr, Some};
ghost use Rattle.disk_base.specs.Faults.{HasCause};
ghost use Rattle.disk_base.specs.Image.{bytes_at};
ghost use Rattle.disk_base.specs.inside.Cuts.{IsCutFrom};

use crate::device::{Blocks, Failed, SECTOR};

/// A disk of `sectors` sectors that begins with some bytes and has zeros behind them. It counts its reads
/// from 0, and the read of the number that it is told fails.
#[derive(Debug, Drop)]
pub struct ByteDisk {
    bytes: Vec<u8>,
    sectors: u64,
    failing: Option<u64>,
    reads: u64,
    faults: u64,
    ghost inside: { length bytes.items ≤ 512 * sectors },
    ghost small: { sectors < 2 ^ 54 },
    ghost counted: { faults ≤ 2 ^ 64 - 1 },
}

impl ByteDisk {
    /// A disk of `sectors` sectors that begins with `bytes`; `failing` is the number of the read that fails.
    pub fn new(bytes: Vec<u8>, sectors: u64, failing: Option<u64>) -> ByteDisk
        requires inside { length bytes.items ≤ 512 * sectors }
        requires small { sectors < 2 ^ 54 }
        ensures bytes { result.bytes.items ≡ bytes.items }
        ensures sectors { result.sectors ≡ sectors }
    {
        ByteDisk {
            bytes,
            sectors,
            failing,
            reads: 0,
            faults: 0,
        }
    }

    /// How many reads came.
    pub fn reads(&self) -> u64
        ensures { result ≡ self.now.reads }
    {
        self.reads
    }
}

// Fills `out` with the bytes from byte `start` on, and with zeros behind the last one.
fn fill_from(bytes: &[u8], start: usize, out: &mut [u8])
    ensures { IsCutFrom bytes.now start out.old out.new }
{
    out.fill(0);
    if start < bytes.len() {
        let n = out.len().min(bytes.len() - start);
        out[..n].copy_from_slice(&bytes[start..start + n]);
    }
}

impl Blocks for ByteDisk {
    ghost use Rattle.disk_base.specs.Bytes.{held_bytes, BytesOnlyRead, bytes_read_nothing, bytes_read_on, bytes_same_image, bytes_whole};

    ghost tells = { true };

    ghost image = { held_bytes };

    ghost size = { λ d. d.sectors };

    ghost faults = { λ d. d.faults };

    ghost only_read = { BytesOnlyRead };

    fn sectors(&self) -> u64 {
        self.sectors
    }

    fn read(&mut self, at: u64, out: &mut [u8]) -> Result<(), Failed>
        requires whole { length out.old % 512 ≡ 0 }
        requires inside { 512 * at + length out.old ≤ 512 * self.old.sectors }
        ensures bytes { OnOk result (out.new ≡ bytes_at (held_bytes self.old) (512 * at) (length out.old)) }
        ensures read { BytesOnlyRead self.old self.new }
        ensures cause { HasCause self.old.faults self.new.faults result }
        ensures fails { OnErr result (self.old.failing ≡ Some self.old.reads) }
    {
        let number = self.reads;
        self.reads = number.saturating_add(1);
        if self.failing == Some(number) {
            self.faults = self.faults.saturating_add(1);
            return Err(Failed);
        }
        fill_from(&self.bytes, SECTOR * at as usize, out);
        Ok(())
    }

    ghost read_nothing = { bytes_read_nothing };

    ghost read_on = { bytes_read_on };

    ghost same_size = { λ a b r. r.sectors };

    ghost same_image = { λ a b r _. bytes_same_image a b r };

    ghost whole = { λ d _. bytes_whole d };

    ghost no_fewer = { λ a b r. r.faults };

    ghost last_count = { λ d. d.counted };
}
