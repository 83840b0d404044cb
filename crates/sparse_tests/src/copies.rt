//! Copies of disks of four sectors without their free ones.
ghost use Rattle.std.specs.Prelude.{◌≡◌, IfOk, IsTrue, length};
ghost use Rattle.sparse_copy.specs.Sparse.{EndWithin};

use disk_base::{Blocks, DeviceFault, Disk, MemDisk, MemLimits, Mode};
use run_copy::BUFFER;
use run_set::Runs;
use sparse_copy::copy_out;
use std::alloc::{AllocError, Global};
use std::test::Fail;

const NAME: &str = "a.img";

const LIMITS: MemLimits = MemLimits {
    room: 4,
    calls: 8,
    bytes: 4096,
    discards: true,
};

fn filled(alloc: Global, n: usize) -> Result<Vec<u8>, AllocError>
    ensures { IfOk result (λ bytes. length bytes.items ≡ n) }
{
    vec![in alloc; 0; n]
}

// A disk of four sectors, each of which holds that byte throughout.
fn disk(alloc: Global, sectors: [u8; 4], failing: &[u64]) -> Result<MemDisk, AllocError> {
    let mut image = filled(alloc, 2048)?;
    for (i, byte) in image.iter_mut().enumerate() {
        *byte = sectors[i / 512 % 4];
    }
    MemDisk::new(alloc, NAME, image, LIMITS, failing.to_vec(alloc)?)
}

// Whether each run ends at that sector or before it.
fn end_within(runs: &Runs, sectors: u64) -> bool
    ensures { IsTrue result → EndWithin sectors runs.now }
{
    for index in 0..runs.count() {
        let (start, count) = runs.get(index);
        if start + count > sectors {
            return false;
        }
    }
    true
}

// The set of those of the sectors that a disk of four has.
fn set_of(alloc: Global, sectors: &[u64]) -> Runs {
    let mut runs = Runs::new(alloc);
    for sector in sectors {
        if *sector < 4 {
            let _ = runs.add(*sector, 1);
        }
    }
    runs
}

// Copies a disk of four sectors without the free ones to a new one.
fn copied<S: Blocks, T: Disk>(
    alloc: Global,
    source: &mut S,
    target: &mut T,
    free: &Runs,
) -> Result<Result<(), DeviceFault>, AllocError> {
    if source.sectors() != 4 || !end_within(free, 4) {
        return Ok(Err(DeviceFault::Source));
    }
    let mut buffer = filled(alloc, BUFFER)?;
    match target.attach(NAME.as_bytes(), Mode::Create(4)) {
        Ok(()) => Ok(copy_out(source, target, free, buffer.as_mut_slice())),
        Err(_) => Ok(Err(DeviceFault::Target)),
    }
}

// The first byte of each sector.
fn firsts(image: &[u8]) -> [u8; 4] {
    let mut firsts = [0; 4];
    for (i, first) in firsts.iter_mut().enumerate() {
        *first = image.get(512 * i).copied().unwrap_or(0xFF);
    }
    firsts
}

// Each row: the source, its free sectors, the target.
#[test]
fn free_sectors_are_left_out(rt: HostRuntime) -> Result<(), Fail> {
    let alloc = rt.alloc();
    let cases: [([u8; 4], &[u64], [u8; 4]); 5] = [
        ([7, 5, 3, 9], &[], [7, 5, 3, 9]),
        ([7, 5, 3, 9], &[1], [7, 0, 3, 9]),
        ([7, 5, 3, 9], &[0, 3], [0, 5, 3, 0]),
        ([7, 5, 3, 9], &[0, 1, 2, 3], [0, 0, 0, 0]),
        ([0, 5, 0, 0], &[1], [0, 0, 0, 0]),
    ];
    for (row, (sectors, free, wanted)) in cases.iter().enumerate() {
        let mut source = disk(alloc, *sectors, &[])?;
        let mut target = disk(alloc, [0x5A; 4], &[])?;
        let answer = copied(alloc, &mut source, &mut target, &set_of(alloc, free))?;
        assert_eq!(rt; answer, Ok(()), "row {row}");
        assert_eq!(rt; firsts(target.image()), *wanted, "row {row}");
    }
    Ok(())
}

// The calls of the target are the attach, a write for each piece that isn't all zero, and the flush.
#[test]
fn the_disk_that_failed_is_named(rt: HostRuntime) -> Result<(), Fail> {
    let alloc = rt.alloc();
    let cases: [(&[u64], &[u64], Result<(), DeviceFault>); 6] = [
        (&[0], &[], Err(DeviceFault::Source)),
        (&[1], &[], Err(DeviceFault::Source)),
        (&[2], &[], Ok(())),
        (&[], &[1], Err(DeviceFault::Target)),
        (&[], &[2], Err(DeviceFault::Target)),
        (&[], &[3], Ok(())),
    ];
    for (row, (reads, writes, wanted)) in cases.iter().enumerate() {
        let mut source = disk(alloc, [7, 5, 0, 0], reads)?;
        let mut target = disk(alloc, [0x5A; 4], writes)?;
        let answer = copied(alloc, &mut source, &mut target, &set_of(alloc, &[1]))?;
        assert_eq!(rt; answer, *wanted, "row {row}");
    }
    Ok(())
}
