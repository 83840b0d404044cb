//! Small works between disks in memory.
ghost use Rattle.std.specs.Prelude.{◌≡◌, ◌*◌, ◌≤◌, ◌∷◌, [], false, length, IfOk};

use disk_base::{Blocks, DeviceFault, Disk, MemDisk, MemLimits, Mode, Name};
use std::alloc::{AllocError, Global};
use std::test::Fail;
use target_work::*;

const NAME: &str = "a.img";

const LIMITS: MemLimits = MemLimits {
    room: 10,
    calls: 16,
    bytes: 8192,
    discards: true,
};

/// The first byte of each sector of the source, all of whose bytes are equal.
const SOURCE: [u8; 4] = [1, 2, 3, 4];

/// The same of the target once the work is done; a sector that isn't written holds 5A.
const DONE: [u8; 10] = [0x77, 2, 0xE1, 0x5A, 3, 4, 0x5A, 0xE2, 0xE2, 0x5A];

fn filled(alloc: Global, n: usize, fill: u8) -> Result<Vec<u8>, AllocError>
    ensures { IfOk result (λ bytes. length bytes.items ≡ n) }
{
    vec![in alloc; fill; n]
}

/// Sectors 2 and 3 of the source go to sectors 4 and 5, and sector 1 to its own place.
fn transfers(alloc: Global) -> Result<Vec<Transfer>, AllocError>
    ensures { IfOk result (λ made. made.items
        ≡ record { from = 2; to = 4; count = 2; sparse = false } ∷ record { from = 1; to = 1; count = 1; sparse = false } ∷ []) }
{
    let contents = Transfer {
        from: 2,
        to: 4,
        count: 2,
        sparse: false,
    };
    let boot = Transfer {
        from: 1,
        to: 1,
        count: 1,
        sparse: false,
    };
    Ok(vec![in alloc; contents, boot]?)
}

/// Sectors that are written, all of whose bytes are equal.
fn sectors_of(alloc: Global, at: u64, count: usize, fill: u8) -> Result<SectorWrite, AllocError>
    requires { count ≤ 2 }
    ensures at { IfOk result (λ made. made.at ≡ at) }
    ensures long { IfOk result (λ made. length made.bytes ≡ 512 * count) }
{
    let bytes = filled(alloc, 512 * count, fill)?;
    Ok(SectorWrite {
        at,
        bytes: Name::from_vec(bytes),
    })
}

/// The work on a source of 4 sectors and a target of 10: sector 2 is written, and sectors 7 and 8.
fn work(alloc: Global) -> Result<Writing, AllocError>
    ensures source { IfOk result (λ made. made.source_sectors ≡ 4) }
    ensures target { IfOk result (λ made. made.target_sectors ≡ 10) }
{
    let transfers = transfers(alloc)?;
    let one = sectors_of(alloc, 2, 1, 0xE1)?;
    let two = sectors_of(alloc, 7, 2, 0xE2)?;
    let writes = vec![in alloc; one, two]?;
    Ok(Writing::new([0x77; 512], transfers, writes, 4, 10))
}

/// A disk whose sectors hold these bytes.
fn disk(alloc: Global, firsts: &[u8], failing: &[u64]) -> Result<MemDisk, AllocError>
    requires small { length firsts.now ≤ 10 }
{
    let mut image = filled(alloc, 512 * firsts.len(), 0)?;
    for (i, byte) in image.iter_mut().enumerate() {
        *byte = firsts.get(i / 512).copied().unwrap_or(0);
    }
    MemDisk::new(alloc, NAME, image, LIMITS, failing.to_vec(alloc)?)
}

/// Does the work between two disks.
fn done<S: Blocks, T: Disk>(
    alloc: Global,
    source: &mut S,
    target: &mut T,
) -> Result<Result<(), DeviceFault>, AllocError> {
    let attached = target.attach(NAME.as_bytes(), Mode::Change);
    if attached.is_err() || target.sectors() != 10 || source.sectors() != 4 {
        return Ok(Err(DeviceFault::Target));
    }
    let writing = work(alloc)?;
    let mut buffer = filled(alloc, run_copy::BUFFER, 0)?;
    Ok(carry_out(&writing, source, target, buffer.as_mut_slice()))
}

/// The first byte that isn't as it is to be, by the bytes of the sectors.
fn first_wrong(image: &[u8], firsts: &[u8]) -> Option<usize> {
    for (i, byte) in image.iter().enumerate() {
        if firsts.get(i / 512) != Some(byte) {
            return Some(i);
        }
    }
    None
}

#[test]
fn writes_what_the_work_says_and_nothing_else(rt: HostRuntime) -> Result<(), Fail> {
    let alloc = rt.alloc();
    let mut source = disk(alloc, &SOURCE, &[])?;
    let mut target = disk(alloc, &[0x5A; 10], &[])?;
    assert_eq!(rt; done(alloc, &mut source, &mut target)?, Ok(()));
    assert_eq!(rt; target.image().len(), 5120);
    assert_eq!(rt; first_wrong(target.image(), &DONE), None);
    assert_eq!(rt; target.calls(), 10);
    Ok(())
}

#[test]
fn says_which_disk_failed(rt: HostRuntime) -> Result<(), Fail> {
    let alloc = rt.alloc();
    for number in 0..2 {
        let mut source = disk(alloc, &SOURCE, &[number])?;
        let mut target = disk(alloc, &[0x5A; 10], &[])?;
        let answer = done(alloc, &mut source, &mut target)?;
        assert_eq!(rt; answer, Err(DeviceFault::Source), "read {number}");
        assert_eq!(rt; target.image().get(..512), Some([0; 512].as_slice()));
    }
    for number in 0..10 {
        let mut source = disk(alloc, &SOURCE, &[])?;
        let mut target = disk(alloc, &[0x5A; 10], &[number])?;
        let answer = done(alloc, &mut source, &mut target)?;
        assert_eq!(rt; answer, Err(DeviceFault::Target), "call {number}");
    }
    let mut source = disk(alloc, &SOURCE, &[2])?;
    let mut target = disk(alloc, &[0x5A; 10], &[10])?;
    assert_eq!(rt; done(alloc, &mut source, &mut target)?, Ok(()));
    Ok(())
}

/// What a disk that held bytes 5A may hold while the work goes on.
#[derive(Clone, Copy, Debug, PartialEq, Eq)]
enum Kind {
    AsItWas,
    NoTable,
    Done,
    Other,
}

fn are_all(bytes: &[u8], byte: u8) -> bool {
    bytes.iter().all(|one| *one == byte)
}

fn kind_of(image: &[u8]) -> Kind {
    if are_all(image, 0x5A) {
        Kind::AsItWas
    } else if first_wrong(image, &DONE).is_none() {
        Kind::Done
    } else if are_all(image.get(..512).unwrap_or(image), 0) {
        Kind::NoTable
    } else {
        Kind::Other
    }
}

// What a stop inside that call leaves, where the first `keep` sectors of what wasn't lasting came through.
fn kind_at(alloc: Global, disk: &MemDisk, call: u64, keep: u64) -> Result<Kind, AllocError> {
    if !disk.has_stops(call) {
        return Ok(Kind::Other);
    }
    let image = disk.stopped(alloc, call, keep, 0)?;
    Ok(kind_of(image.as_slice()))
}

// The calls: attach, zeros and flush, two transfers, two writes and flush, the new sector 0 and flush.
#[test]
fn a_stop_leaves_the_target_as_it_was_without_a_table_or_done(rt: HostRuntime) -> Result<(), Fail> {
    let alloc = rt.alloc();
    let mut source = disk(alloc, &SOURCE, &[])?;
    let mut target = disk(alloc, &[0x5A; 10], &[])?;
    assert_eq!(rt; done(alloc, &mut source, &mut target)?, Ok(()));
    let (was, none, done) = (Kind::AsItWas, Kind::NoTable, Kind::Done);
    let cases = [
        (0, [was, was, was]),
        (1, [was, none, none]),
        (2, [was, none, none]),
        (3, [none, none, none]),
        (4, [none, none, none]),
        (5, [none, none, none]),
        (6, [none, none, none]),
        (7, [none, none, none]),
        (8, [none, done, done]),
        (9, [none, done, done]),
    ];
    for (call, kinds) in cases {
        let left = [
            kind_at(alloc, &target, call, 0)?,
            kind_at(alloc, &target, call, 1)?,
            kind_at(alloc, &target, call, 1000)?,
        ];
        assert_eq!(rt; left, kinds, "call {call}");
    }
    Ok(())
}
