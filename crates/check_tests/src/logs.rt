ghost use Rattle.std.specs.Prelude.{◌≡◌, ◌*◌, ◌≤◌, length, IfOk, vec_len};

use disk_base::{ByteDisk, put};
use std::alloc::{AllocError, Global};
use std::process::Abort;
use std::test::Fail;
use xfs_log::judge_log;
use xfs_super::{CheckFault, Reason, Super};

const DIRTY: Option<CheckFault> = Some(CheckFault::Bad(Reason::DirtyLog));

/// What is put into a sector of the log.
#[derive(Clone, Copy, Debug)]
pub(crate) enum Sector {
    /// The header of a record, which was given `size` bytes of room.
    Header {
        cycle: u32,
        version: u32,
        length: u32,
        operations: u32,
        size: u32,
    },
    /// Another sector, with the flags of an operation.
    Data {
        cycle: u32,
        flags: u8,
    },
}

/// The header of a record of one operation, and of so many bytes.
pub(crate) fn header(cycle: u32, length: u32) -> Sector {
    Sector::Header {
        cycle,
        version: 2,
        length,
        operations: 1,
        size: 32768,
    }
}

/// The sector of an unmount.
pub(crate) fn unmount(cycle: u32) -> Sector {
    Sector::Data { cycle, flags: 0x20 }
}

impl Sector {
    pub(crate) fn bytes(self) -> [u8; 512] {
        let mut out = [0; 512];
        match self {
            Sector::Header {
                cycle,
                version,
                length,
                operations,
                size,
            } => {
                put(&mut out, 0, &[0xFE, 0xED, 0xBA, 0xBE]);
                put(&mut out, 4, &cycle.to_be_bytes());
                put(&mut out, 8, &version.to_be_bytes());
                put(&mut out, 12, &length.to_be_bytes());
                put(&mut out, 40, &operations.to_be_bytes());
                put(&mut out, 320, &size.to_be_bytes());
            }
            Sector::Data { cycle, flags } => {
                put(&mut out, 0, &cycle.to_be_bytes());
                out[9] = flags;
            }
        }
        out
    }
}

/// A volume of 520 blocks in one group, whose log begins with block 8.
fn volume(logblocks: u32) -> Super
    requires some { 1 ≤ logblocks }
    requires inside { logblocks ≤ 512 }
    ensures { result.dblocks ≡ 520 }
{
    Super {
        dblocks: 520,
        uuid: [1; 16],
        meta: [1; 16],
        label: [0; 12],
        logstart: 8,
        logblocks,
        rootino: 128,
        agblocks: 520,
        agcount: 1,
        agblklog: 10,
        sectsize: 512,
        inodesize: 512,
        inopblog: 3,
        finobt: true,
        sparse: true,
        bigtime: true,
        inobtcount: true,
        nrext64: true,
    }
}

fn zeros(alloc: Global, len: usize) -> Result<Vec<u8>, AllocError>
    ensures { IfOk result (λ v. length v.items ≡ len) }
{
    let zeros = vec![in alloc; 0u8; len]?;
    Ok(zeros)
}

/// Puts sectors into the bytes of such a volume, by their places in its log.
fn put_sectors(bytes: &mut Vec<u8>, sectors: &[(usize, Sector)])
    ensures { vec_len bytes.new ≡ vec_len bytes.old }
{
    for (place, sector) in sectors {
        if *place < 4096 {
            let at = 512 * (64 + *place);
            if at + 512 <= bytes.len() {
                put(bytes, at, &sector.bytes());
            }
        }
    }
}

/// What is said of a log of so many blocks with those sectors and zeros else, where a read fails; and how many
/// reads came.
fn judged(
    alloc: Global,
    logblocks: u32,
    sectors: &[(usize, Sector)],
    failing: Option<u64>,
) -> Result<(Option<CheckFault>, u64), AllocError>
    requires some { 1 ≤ logblocks }
    requires inside { logblocks ≤ 512 }
{
    let mut bytes = zeros(alloc, 4096 * (8 + logblocks as usize))?;
    put_sectors(&mut bytes, sectors);
    let mut disk = ByteDisk::new(bytes, 4160, failing);
    let fault = judge_log(&mut disk, &volume(logblocks)).err();
    Ok((fault, disk.reads()))
}

#[test]
fn unmount_goes_round(rt: HostRuntime) -> Result<(), Fail> {
    let clean = [(4095, header(6, 512)), (0, unmount(7))];
    assert_eq!(rt; judged(rt.alloc(), 512, &clean, None)?, (None, 514));
    let further = [
        (4095, header(6, 512)),
        (0, unmount(7)),
        (1, header(7, 512)),
        (2, Sector::Data { cycle: 7, flags: 1 }),
    ];
    assert_eq!(rt; judged(rt.alloc(), 512, &further, None)?, (DIRTY, 514));
    let same_cycle = [(4095, header(6, 512)), (0, unmount(6))];
    assert_eq!(rt; judged(rt.alloc(), 512, &same_cycle, None)?, (DIRTY, 514));
    Ok(())
}

/// Holds what is said of a log of 16 sectors against what is wanted.
fn is_judged(
    rt: &impl Abort,
    alloc: Global,
    sectors: &[(usize, Sector)],
    want: Option<CheckFault>,
) -> Result<(), AllocError> {
    let (fault, _) = judged(alloc, 2, sectors, None)?;
    assert_eq!(rt; fault, want, "of {sectors:?}");
    Ok(())
}

#[test]
fn newest_record_decides(rt: HostRuntime) -> Result<(), Fail> {
    let alloc = rt.alloc();
    is_judged(&rt, alloc, &[], Some(CheckFault::Bad(Reason::LogShape)))?;
    let data = Sector::Data { cycle: 3, flags: 1 };
    // At one cycle the later place is the newer one.
    let before = [
        (0, header(3, 512)),
        (1, data),
        (8, header(3, 512)),
        (9, unmount(3)),
    ];
    is_judged(&rt, alloc, &before, None)?;
    let behind = [
        (0, header(3, 512)),
        (1, unmount(3)),
        (8, header(3, 512)),
        (9, data),
    ];
    is_judged(&rt, alloc, &behind, DIRTY)?;
    // A greater cycle is newer at any place.
    let lower = [
        (0, header(3, 512)),
        (1, unmount(3)),
        (8, header(2, 512)),
        (9, data),
    ];
    is_judged(&rt, alloc, &lower, None)?;
    let great = [
        (0, header(3, 512)),
        (1, data),
        (8, header(2, 512)),
        (9, unmount(2)),
    ];
    is_judged(&rt, alloc, &great, DIRTY)?;
    Ok(())
}

#[test]
fn unmount_is_looked_at(rt: HostRuntime) -> Result<(), Fail> {
    let alloc = rt.alloc();
    is_judged(&rt, alloc, &[(0, header(1, 512)), (1, unmount(1))], None)?;
    is_judged(&rt, alloc, &[(0, header(1, 0)), (1, unmount(1))], DIRTY)?;
    is_judged(&rt, alloc, &[(0, header(1, 512)), (1, unmount(2))], DIRTY)?;
    let other = Sector::Data {
        cycle: 1,
        flags: 0xDF,
    };
    is_judged(&rt, alloc, &[(0, header(1, 512)), (1, other)], DIRTY)?;
    let two = Sector::Header {
        cycle: 1,
        version: 2,
        length: 512,
        operations: 2,
        size: 32768,
    };
    is_judged(&rt, alloc, &[(0, two), (1, unmount(1))], DIRTY)?;
    Ok(())
}

#[test]
fn each_sector_is_looked_at(rt: HostRuntime) -> Result<(), Fail> {
    let alloc = rt.alloc();
    let three = [
        (13, header(1, 1025)),
        (14, unmount(1)),
        (15, unmount(1)),
        (0, unmount(2)),
    ];
    is_judged(&rt, alloc, &three, None)?;
    is_judged(&rt, alloc, &three[..3], DIRTY)?;
    // A record has no more sectors than the log.
    let mut all = [(0, unmount(1)); 16];
    for place in 0..16 {
        all[place] = (place, unmount(1));
    }
    all[0] = (0, header(1, 512 * 15));
    is_judged(&rt, alloc, &all, None)?;
    all[0] = (0, header(1, 512 * 15 + 1));
    is_judged(&rt, alloc, &all, DIRTY)?;
    Ok(())
}

/// A header that was given so many bytes of room.
fn roomy(version: u32, size: u32) -> Sector {
    Sector::Header {
        cycle: 1,
        version,
        length: 512,
        operations: 1,
        size,
    }
}

#[test]
fn header_may_have_further_sectors(rt: HostRuntime) -> Result<(), Fail> {
    let alloc = rt.alloc();
    let further = Sector::Data { cycle: 1, flags: 0 };
    is_judged(
        &rt,
        alloc,
        &[(0, roomy(2, 32769)), (1, further), (2, unmount(1))],
        None,
    )?;
    is_judged(
        &rt,
        alloc,
        &[(0, roomy(2, 32769)), (1, unmount(1)), (2, further)],
        DIRTY,
    )?;
    is_judged(&rt, alloc, &[(0, roomy(2, 32769)), (2, unmount(1))], DIRTY)?;
    is_judged(&rt, alloc, &[(0, roomy(2, 32768)), (1, unmount(1))], None)?;
    is_judged(&rt, alloc, &[(0, roomy(1, 65536)), (1, unmount(1))], None)?;
    Ok(())
}

#[test]
fn each_read_may_fail(rt: HostRuntime) -> Result<(), Fail> {
    let clean = [(15, header(6, 512)), (0, unmount(7))];
    for number in 0..4 {
        let found = judged(rt.alloc(), 2, &clean, Some(number))?;
        assert_eq!(rt; found, (Some(CheckFault::Device), number + 1));
    }
    assert_eq!(rt; judged(rt.alloc(), 2, &clean, Some(4))?, (None, 4));
    let none = judged(rt.alloc(), 2, &[], None)?;
    assert_eq!(rt; none, (Some(CheckFault::Bad(Reason::LogShape)), 2));
    Ok(())
}
