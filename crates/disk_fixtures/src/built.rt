//! Blocks in memory, which are changed byte by byte.
ghost use Rattle.std.specs.Prelude.{◌≡◌, ◌*◌, length, IfOk};

use crate::xfs::resum;
use disk_base::{ByteDisk, put};
use std::alloc::{AllocError, Global};

/// Puts bytes from byte `at` of a buffer on, as far as there is room for them.
pub(crate) fn put_some(out: &mut [u8], at: usize, bytes: &[u8]) {
    if at >= out.len() {
        return;
    }
    let n = bytes.len().min(out.len() - at);
    put(out, at, &bytes[..n]);
}

/// Blocks of 4096 bytes in memory.
#[derive(Drop)]
pub struct Built {
    bytes: Vec<u8>,
    blocks: u32,
    ghost whole: { length bytes.items ≡ 4096 * blocks },
}

impl Built {
    /// That many blocks, which hold zeros.
    pub fn new(alloc: Global, blocks: u32) -> Result<Built, AllocError>
        ensures { IfOk result (λ built. built.blocks ≡ blocks) }
    {
        let bytes = vec![in alloc; 0u8; 4096 * blocks as usize]?;
        Ok(Built { bytes, blocks })
    }

    /// Puts bytes from byte `at` on, as far as there is room for them.
    pub fn put(&mut self, at: usize, bytes: &[u8]) {
        put_some(&mut self.bytes, at, bytes);
    }

    /// Puts bytes where a block begins.
    pub fn put_block(&mut self, block: u32, bytes: &[u8]) {
        self.put(4096 * block as usize, bytes);
    }

    /// Makes the checksum right which the `len` bytes from byte `from` on hold at the `at`th of them, if they are
    /// there.
    pub fn resum(&mut self, from: usize, len: usize, at: usize) {
        if from <= self.bytes.len() && len <= self.bytes.len() - from && 4 <= len && at <= len - 4 {
            resum(&mut self.bytes[from..from + len], at);
        }
    }

    /// Makes the checksum right which a block holds at byte `at`.
    pub fn resum_block(&mut self, block: u32, at: usize) {
        self.resum(4096 * block as usize, 4096, at);
    }

    /// The bytes.
    pub fn into_bytes(self) -> Vec<u8> {
        self.bytes
    }

    /// A disk that holds the blocks; `failing` is the number of the read that fails.
    pub fn into_disk(self, failing: Option<u64>) -> ByteDisk {
        ByteDisk::new(self.bytes, 8 * u64::from(self.blocks), failing)
    }
}
