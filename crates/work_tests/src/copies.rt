//! Copies of two sectors between disks of four.
ghost use Rattle.std.specs.Prelude.{◌≡◌, ◌*◌, length, IfOk};

use disk_base::{Blocks, DeviceFault, Disk, MemDisk, MemLimits, Mode};
use run_copy::*;
use std::alloc::{AllocError, Global};
use std::test::Fail;

const NAME: &str = "a.img";

const LIMITS: MemLimits = MemLimits {
    room: 4,
    calls: 8,
    bytes: 4096,
    discards: true,
};

fn filled(alloc: Global, n: usize) -> Result<Vec<u8>, AllocError>
    ensures { IfOk result (λ bytes. length bytes.items ≡ n) }
{
    vec![in alloc; 0; n]
}

// A disk of four sectors, each of which holds that byte throughout.
fn disk(alloc: Global, sectors: [u8; 4], failing: &[u64]) -> Result<MemDisk, AllocError> {
    let mut image = filled(alloc, 2048)?;
    for (i, byte) in image.iter_mut().enumerate() {
        *byte = sectors[i / 512 % 4];
    }
    MemDisk::new(alloc, NAME, image, LIMITS, failing.to_vec(alloc)?)
}

// Copies two sectors to the last two of the target.
fn copied<S: Blocks, T: Disk>(
    alloc: Global,
    source: &mut S,
    target: &mut T,
    from: u64,
    sparse: bool,
) -> Result<Result<(), DeviceFault>, AllocError> {
    let attached = target.attach(NAME.as_bytes(), Mode::Change);
    if attached.is_err() || target.sectors() != 4 || source.sectors() != 4 || from > 2 {
        return Ok(Err(DeviceFault::Target));
    }
    let transfer = Transfer {
        from,
        to: 2,
        count: 2,
        sparse,
    };
    let mut buffer = filled(alloc, BUFFER)?;
    Ok(copy_run(source, target, &transfer, buffer.as_mut_slice()))
}

// The first byte of each sector.
fn firsts(image: &[u8]) -> [u8; 4] {
    let mut firsts = [0; 4];
    for (i, first) in firsts.iter_mut().enumerate() {
        *first = image.get(512 * i).copied().unwrap_or(0xFF);
    }
    firsts
}

#[test]
fn zeros_are_left_out_of_a_sparse_copy_alone(rt: HostRuntime) -> Result<(), Fail> {
    let alloc = rt.alloc();
    let cases = [
        (0, false, [0x5A, 0x5A, 7, 0]),
        (1, false, [0x5A, 0x5A, 0, 0]),
        (2, false, [0x5A, 0x5A, 0, 9]),
        (0, true, [0x5A, 0x5A, 7, 0]),
        (1, true, [0x5A, 0x5A, 0x5A, 0x5A]),
        (2, true, [0x5A, 0x5A, 0, 9]),
    ];
    for (from, sparse, wanted) in cases {
        let mut source = disk(alloc, [7, 0, 0, 9], &[])?;
        let mut target = disk(alloc, [0x5A; 4], &[])?;
        let answer = copied(alloc, &mut source, &mut target, from, sparse)?;
        assert_eq!(rt; answer, Ok(()), "from {from}");
        assert_eq!(rt; firsts(target.image()), wanted, "from {from}, {sparse}");
    }
    Ok(())
}

#[test]
fn says_which_disk_failed(rt: HostRuntime) -> Result<(), Fail> {
    let alloc = rt.alloc();
    let cases: [(&[u64], &[u64], DeviceFault); 2] = [
        (&[0], &[], DeviceFault::Source),
        (&[], &[1], DeviceFault::Target),
    ];
    for (reads, writes, fault) in cases {
        let mut source = disk(alloc, [7, 0, 0, 9], reads)?;
        let mut target = disk(alloc, [0x5A; 4], writes)?;
        let answer = copied(alloc, &mut source, &mut target, 0, false)?;
        assert_eq!(rt; answer, Err(fault));
        assert_eq!(rt; firsts(target.image()), [0x5A; 4]);
    }
    Ok(())
}
