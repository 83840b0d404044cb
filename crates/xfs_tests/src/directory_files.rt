//! Tests over a volume of two groups of 65 blocks, whose blocks 11 and 66 a directory has.
ghost use Rattle.std.specs.Prelude.{◌≡◌, ◌<◌, IfOk};

use disk_base::{ByteDisk, crc32c_without, put};
use std::alloc::{AllocError, Global};
use std::process::Abort;
use std::test::*;
use xfs_files::judge_directory;
use xfs_inode::Core;
use xfs_super::{CheckFault, Reason, Super};
use xfs_tree::Extent;

const IDENTITY: [u8; 16] = [
    1, 35, 69, 103, 137, 171, 205, 239, 1, 35, 69, 103, 137, 171, 205, 239,
];

const VOLUME: Super = Super {
    dblocks: 130,
    uuid: [7; 16],
    meta: IDENTITY,
    label: [0; 12],
    logstart: 40,
    logblocks: 4,
    rootino: 128,
    agblocks: 65,
    agcount: 2,
    agblklog: 7,
    sectsize: 512,
    inodesize: 512,
    inopblog: 3,
    finobt: true,
    sparse: true,
    bigtime: true,
    inobtcount: true,
    nrext64: false,
};

const SECTORS: u64 = 1040;

// The modes of a directory and of a link.
const DIRECTORY: u16 = 0x41ED;

const LINK: u16 = 0xA1FF;

// The core of inode 128, of that kind and format.
fn core(mode: u16, format: u8, size: u64) -> Core {
    Core {
        mode,
        version: 3,
        format,
        uid: 0,
        gid: 0,
        nlink: 2,
        project: 0,
        atime: 0,
        mtime: 0,
        ctime: 0,
        size,
        nblocks: 2,
        extsize: 0,
        nextents: 2,
        anextents: 0,
        forkoff: 0,
        aformat: 2,
        flags: 0,
        generation: 0,
        changecount: 8,
        lsn: 0,
        flags2: 8,
        crtime: 0,
        ino: 128,
        uuid: IDENTITY,
    }
}

// The same block with its checksum made right.
fn summed(bytes: &[u8; 4096]) -> [u8; 4096] {
    let mut out = *bytes;
    let sum = crc32c_without(bytes, 4);
    put(&mut out, 4, &sum.to_le_bytes());
    out
}

// The block 11 that mkfs.xfs made of a root directory with two files of long names.
fn made() -> [u8; 4096] {
    let mut out = [0; 4096];
    put(&mut out, 0, b"XDB3");
    put(&mut out, 4, &[0x9B, 0xC3, 0x0B, 0x26]);
    put(&mut out, 15, &[0x58]);
    put(&mut out, 24, &IDENTITY);
    put(&mut out, 47, &[0x80, 0x02, 0x10, 0x0D, 0xC8]);
    put(&mut out, 71, &[0x80, 1, b'.', 2, 0, 0, 0, 0, 0x40]);
    put(&mut out, 87, &[0x80, 2, b'.', b'.', 2, 0, 0, 0, 0x50]);
    put(&mut out, 103, &[0x83, 200]);
    put(&mut out, 105, &[b'a'; 200]);
    put(&mut out, 305, &[1, 0, 0, 0, 0, 0, 0x60]);
    put(&mut out, 319, &[0x84, 200]);
    put(&mut out, 321, &[b'b'; 200]);
    put(&mut out, 521, &[1, 0, 0, 0, 0, 0x01, 0x38]);
    put(&mut out, 528, &[0xFF, 0xFF, 0x0D, 0xC8]);
    put(&mut out, 4054, &[0x02, 0x10]);
    put(&mut out, 4056, &[0, 0, 0, 0x2E, 0, 0, 0, 0x08]);
    put(&mut out, 4064, &[0, 0, 0x17, 0x2E, 0, 0, 0, 0x0A]);
    put(&mut out, 4072, &[0x1C, 0xFB, 0xF7, 0xEF, 0, 0, 0, 0x0C]);
    put(&mut out, 4080, &[0x2C, 0x9D, 0x3A, 0x74, 0, 0, 0, 0x27]);
    put(&mut out, 4088, &[0, 0, 0, 4, 0, 0, 0, 0]);
    out
}

// A block without entries, which stands at that sector.
fn empty(sector: u16) -> [u8; 4096] {
    let mut out = [0; 4096];
    put(&mut out, 0, b"XDD3");
    put(&mut out, 14, &sector.to_be_bytes());
    put(&mut out, 24, &IDENTITY);
    put(&mut out, 47, &[0x80]);
    put(&mut out, 64, &[0xFF, 0xFF, 0x0F, 0xC0]);
    put(&mut out, 4094, &[0, 0x40]);
    summed(&out)
}

// A disk that has these blocks, and of which a read fails.
fn disk_with(
    alloc: Global,
    first: &[u8; 4096],
    second: &[u8; 4096],
    failing: Option<u64>,
) -> Result<ByteDisk, AllocError>
    ensures { IfOk result (λ disk. disk.sectors ≡ 1040) }
{
    let mut image = vec![in alloc; 0u8; 274432]?;
    put(&mut image, 45056, first);
    put(&mut image, 270336, second);
    Ok(ByteDisk::new(image, SECTORS, failing))
}

// What is judged of a directory that has these blocks as block 0 and as block `file`, and how many were read.
fn judged(
    alloc: Global,
    first: &[u8; 4096],
    second: &[u8; 4096],
    file: u64,
    failing: Option<u64>,
) -> Result<(Result<(), CheckFault>, u64), AllocError>
    requires { 0 < file }
{
    let mut disk = disk_with(alloc, first, second, failing)?;
    let extents = [
        Extent {
            unwritten: false,
            file: 0,
            block: 11,
            count: 1,
        },
        Extent {
            unwritten: false,
            file,
            block: 129,
            count: 1,
        },
    ];
    let core = core(DIRECTORY, 2, 8192);
    let answer = judge_directory::<ByteDisk>(&mut disk, &VOLUME, &core, &[0; 2048], &extents);
    Ok((answer, disk.reads()))
}

fn names(block: u64) -> Result<(), CheckFault> {
    Err(CheckFault::Bad(Reason::Directory { ino: 128, block }))
}

#[test]
fn passes_what_mkfs_made(rt: HostRuntime) -> Result<(), Fail> {
    let zeros = [0; 4096];
    // Behind 32 GiB there is an index, which isn't read.
    assert_eq!(rt;
        judged(rt.alloc(), &made(), &zeros, 0x80_0000, None)?,
        (Ok(()), 1)
    );
    assert_eq!(rt;
        judged(rt.alloc(), &made(), &zeros, 0x7F_FFFF, None)?,
        (names(0x7F_FFFF), 2)
    );
    Ok(())
}

#[test]
fn names_a_block_with_a_fault(rt: HostRuntime) -> Result<(), Fail> {
    let alloc = rt.alloc();
    let first = empty(88);
    assert_eq!(rt; judged(alloc, &first, &empty(528), 3, None)?, (Ok(()), 2));
    let table = [
        // Magic, and the checksum of what is unused.
        (0, b'Y', true),
        (100, 1, false),
        // Place, volume and inode.
        (15, 0x11, true),
        (24, 2, true),
        (47, 0x81, true),
        // The item is longer than the block.
        (67, 0xC8, true),
    ];
    for (at, byte, right) in table {
        let mut second = empty(528);
        if at < 4096 {
            put(&mut second, at, &[byte]);
        }
        if right {
            second = summed(&second);
        }
        assert_eq!(rt;
            judged(alloc, &first, &second, 3, None)?,
            (names(3), 2),
            "at {at}"
        );
    }
    // The same block elsewhere.
    assert_eq!(rt;
        judged(alloc, &empty(11), &empty(528), 3, None)?,
        (names(0), 1)
    );
    Ok(())
}

#[test]
fn answers_a_failed_read(rt: HostRuntime) -> Result<(), Fail> {
    for number in 0..2 {
        let answer = judged(rt.alloc(), &empty(88), &empty(528), 3, Some(number))?;
        assert_eq!(rt; answer, (Err(CheckFault::Device), number + 1));
    }
    Ok(())
}

#[test]
fn judges_a_short_form(rt: HostRuntime) -> Result<(), Fail> {
    let mut bytes = [0; 2048];
    put(
        &mut bytes,
        176,
        &[1, 0, 0, 0, 0, 0x80, 1, 0, 0x60, 0x61, 1, 0, 0, 0, 0x83],
    );
    let table = [
        (DIRECTORY, 15, Ok(())),
        (DIRECTORY, 14, names(0)),
        (DIRECTORY, 16, names(0)),
        (DIRECTORY, u64::MAX, names(0)),
        (LINK, 14, Ok(())),
    ];
    for (mode, size, want) in table {
        let mut disk = disk_with(rt.alloc(), &[0; 4096], &[0; 4096], None)?;
        let core = core(mode, 1, size);
        let answer = judge_directory::<ByteDisk>(&mut disk, &VOLUME, &core, &bytes, &[]);
        assert_eq!(rt; (answer, disk.reads()), (want, 0));
    }
    Ok(())
}
