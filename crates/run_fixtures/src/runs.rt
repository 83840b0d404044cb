//! Runs over disks in memory.
ghost use Rattle.std.specs.Prelude.{◌≡◌, ◌*◌, ◌≤◌, length, ◌%◌};

use disk_base::{MemDisk, MemLimits, MemSink};
use std::alloc::{AllocError, Global};
use virt_run::run;

/// What a run left: its status, its two texts, and what the target holds.
#[derive(Debug, Drop)]
pub struct Seen {
    pub status: u8,
    pub out: Vec<u8>,
    pub err: Vec<u8>,
    pub target: Vec<u8>,
}

/// The call, by its number, at which each device fails.
#[derive(Clone, Copy, Debug)]
pub struct Failing {
    pub source: Option<u64>,
    pub target: Option<u64>,
    pub out: Option<u64>,
    pub err: Option<u64>,
}

/// No call fails.
pub const NONE: Failing = Failing {
    source: None,
    target: None,
    out: None,
    err: None,
};

fn listed(alloc: Global, number: Option<u64>) -> Result<Vec<u64>, AllocError> {
    match number {
        Some(number) => [number].to_vec(alloc),
        None => Ok(Vec::new(alloc)),
    }
}

fn words_of(alloc: Global, words: &[&str]) -> Result<Vec<String>, AllocError> {
    let mut list = Vec::new(alloc);
    for word in words {
        list.push(String::from_str(alloc, word)?)?;
    }
    Ok(list)
}

fn limits() -> MemLimits
    ensures { result.room ≡ 131072 }
{
    MemLimits {
        room: 131072,
        calls: 1000,
        bytes: 70_000_000,
        discards: true,
    }
}

/// What a run of these words leaves, from a disk `a` to a disk `b` that hold this, with such calls that fail.
pub fn after_run(
    alloc: Global,
    words: &[&str],
    source: Vec<u8>,
    target: Vec<u8>,
    failing: Failing,
) -> Result<Seen, AllocError>
    requires source { (length source.items % 512 ≡ 0) × (length source.items ≤ 512 * 131072) }
    requires target { (length target.items % 512 ≡ 0) × (length target.items ≤ 512 * 131072) }
{
    let words = words_of(alloc, words)?;
    let mut source = MemDisk::new(alloc, "a", source, limits(), listed(alloc, failing.source)?)?;
    let mut target = MemDisk::new(alloc, "b", target, limits(), listed(alloc, failing.target)?)?;
    let mut out = MemSink::new(alloc, 1000, listed(alloc, failing.out)?)?;
    let mut err = MemSink::new(alloc, 1000, listed(alloc, failing.err)?)?;
    let status = run(
        alloc,
        words.as_slice(),
        &mut source,
        &mut target,
        &mut out,
        &mut err,
    );
    Ok(Seen {
        status,
        out: out.text().to_vec(alloc)?,
        err: err.text().to_vec(alloc)?,
        target: target.image().to_vec(alloc)?,
    })
}

/// What a run over a disk of bytes 5A leaves: its status, its lines, and a byte of sector 0, which tells what
/// that was (5A), zeros (0) or a new table (55).
#[derive(Drop)]
pub struct Left {
    pub status: u8,
    pub out: Vec<u8>,
    pub err: Vec<u8>,
    pub table: Option<u8>,
}

/// What is told of a source that failed.
pub const SOURCE: &[u8] = b"virt-resize: source device\n";

/// What is told of a target that failed.
pub const TARGET: &[u8] = b"virt-resize: target device\n";
