use disk_base::put;
use disk_fixtures::{Header, Volume, made, resum};
use std::process::Abort;
use std::test::Fail;
use xfs_super::{Reason, Super, super_of};

// The volume of 102400 blocks has so many sectors of 512 bytes.
const SECTORS: u64 = 819200;

// The superblock that mkfs.xfs made, with some bytes replaced, and its checksum made right.
fn changed(large: bool, at: usize, bytes: &[u8]) -> [u8; 4096] {
    let mut out = made(Header::Superblock, large);
    if at < 4000 && bytes.len() < 64 {
        put(&mut out, at, bytes);
    }
    let sector = if large { 4096 } else { 512 };
    resum(&mut out[..sector], 224);
    out
}

fn is_refused(rt: &impl Abort, bytes: &[u8; 4096], sectors: u64, want: Reason, row: usize) {
    match super_of(bytes, sectors) {
        Ok(_) => assert!(rt; false, "row {row} is answered"),
        Err(reason) => assert_eq!(rt; reason, want, "in row {row}"),
    }
}

// What mkfs.xfs and xfs_db print of these volumes.
fn is_as_made(rt: &impl Abort, geo: &Super, sectsize: u32, logstart: u64) {
    let sizes = [geo.dblocks, geo.rootino, geo.logstart];
    assert_eq!(rt; sizes, [102400, 128, logstart]);
    let counts = [
        geo.logblocks,
        geo.agblocks,
        geo.agcount,
        geo.sectsize,
        geo.inodesize,
    ];
    assert_eq!(rt; counts, [16384, 34134, 3, sectsize, 512]);
    assert_eq!(rt; [geo.agblklog, geo.inopblog], [16, 3]);
    let identity = [
        0x01, 0x23, 0x45, 0x67, 0x89, 0xAB, 0xCD, 0xEF, 0x01, 0x23, 0x45, 0x67, 0x89, 0xAB, 0xCD,
        0xEF,
    ];
    assert_eq!(rt; geo.uuid, identity);
    assert_eq!(rt; geo.meta, identity);
    assert_eq!(rt; geo.label, *b"boot\0\0\0\0\0\0\0\0");
    let features = [
        geo.finobt,
        geo.sparse,
        geo.bigtime,
        geo.inobtcount,
        geo.nrext64,
    ];
    assert_eq!(rt; features, [true, true, true, true, true]);
}

#[test]
fn reads_what_mkfs_made(rt: HostRuntime) -> Result<(), Fail> {
    let small = super_of(&made(Header::Superblock, false), SECTORS)?;
    is_as_made(&rt, &small, 512, 65541);
    let large = super_of(&made(Header::Superblock, true), SECTORS)?;
    is_as_made(&rt, &large, 4096, 65544);
    Ok(())
}

// The identity of the metadata is another one where the superblock says so.
#[test]
fn takes_the_identity_that_is_named(rt: HostRuntime) -> Result<(), Fail> {
    let mut fields = [0; 48];
    fields[3] = 0x2F;
    fields[32..].copy_from_slice(&[7; 16]);
    let geo = super_of(&changed(false, 216, &fields), SECTORS)?;
    assert_eq!(rt; geo.meta, [7; 16]);
    let first = geo.uuid[0];
    assert_eq!(rt; first, 1);
    Ok(())
}

// Each size that contradicts the others.
#[test]
fn refuses_sizes_that_contradict(rt: HostRuntime) {
    let table: [(usize, &[u8]); 26] = [
        (4, &[0, 0, 0x20, 0]),
        (120, &[13]),
        (102, &[0x04, 0]),
        (102, &[0x10, 0]),
        (121, &[12]),
        (104, &[0x04, 0]),
        (104, &[0x10, 0]),
        (122, &[10]),
        (106, &[0, 4]),
        (123, &[2]),
        (192, &[1]),
        (84, &[0, 0, 0, 63]),
        (84, &[0x10, 0, 0, 1]),
        (84, &[0, 0, 0x85, 0x55]),
        (124, &[15]),
        (124, &[17]),
        (124, &[255]),
        (88, &[0, 0, 0, 0]),
        (88, &[0, 0, 0, 2]),
        (88, &[0xFF, 0xFF, 0xFF, 0xFF]),
        (8, &[0, 0, 0, 0, 0, 1, 0x90, 1]),
        (8, &[0xFF, 0xFF, 0xFF, 0xFF, 0xFF, 0xFF, 0xFF, 0xFF]),
        (96, &[0, 0, 0, 0]),
        (96, &[0, 0, 0x85, 0x52]),
        (48, &[0, 0, 0, 0, 0, 3, 0, 5]),
        (48, &[0xFF, 0xFF, 0xFF, 0xFF, 0xFF, 0xFF, 0xFF, 0xFF]),
    ];
    for (row, (at, bytes)) in table.iter().enumerate() {
        is_refused(
            &rt,
            &changed(false, *at, bytes),
            SECTORS,
            Reason::Geometry,
            row,
        );
    }
    let whole = made(Header::Superblock, false);
    for (row, sectors) in [0, 7, 8, SECTORS - 1].iter().enumerate() {
        is_refused(&rt, &whole, *sectors, Reason::Geometry, row);
    }
}

// Each feature that isn't served, and the marks of a file system that can't be.
#[test]
fn refuses_what_is_not_served(rt: HostRuntime) {
    let table: [(usize, &[u8], Reason); 14] = [
        (100, &[0xB4, 0xA4], Reason::Feature),
        (216, &[0, 0, 0, 0x2A], Reason::Feature),
        (212, &[0, 0, 0, 0x19], Reason::Feature),
        (212, &[0x80, 0, 0, 0x09], Reason::Feature),
        (216, &[0, 0, 0, 0x6B], Reason::Feature),
        (220, &[0, 0, 0, 1], Reason::Feature),
        (212, &[0, 0, 0, 0x0D], Reason::Reflink),
        (212, &[0, 0, 0, 0x0B], Reason::ReverseMap),
        (16, &[0, 0, 0, 0, 0, 0, 0, 1], Reason::RealTime),
        (48, &[0, 0, 0, 0, 0, 0, 0, 0], Reason::ExternalLog),
        (216, &[0, 0, 0, 0x3B], Reason::NeedsRepair),
        (126, &[1], Reason::InProgress),
        (0, b"XFSC", Reason::Header { sector: 0 }),
        (0, &[0, 0, 0, 0], Reason::Header { sector: 0 }),
    ];
    for (row, (at, bytes, want)) in table.iter().enumerate() {
        is_refused(&rt, &changed(false, *at, bytes), SECTORS, *want, row);
        is_refused(&rt, &changed(true, *at, bytes), SECTORS, *want, row);
    }
}

// Each bit of the features that are served may be set or not.
#[test]
fn serves_features_alone(rt: HostRuntime) -> Result<(), Fail> {
    for (ro_compat, incompat) in [(0, 1), (1, 1), (8, 1), (0, 3), (0, 9), (0, 33), (9, 43)] {
        let bytes = changed(false, 212, &[0, 0, 0, ro_compat, 0, 0, 0, incompat]);
        let geo = super_of(&bytes, SECTORS)?;
        let found = [
            geo.finobt,
            geo.inobtcount,
            geo.sparse,
            geo.bigtime,
            geo.nrext64,
        ];
        let want = [
            ro_compat % 2 == 1,
            ro_compat >= 8,
            incompat == 3 || incompat == 43,
            incompat == 9 || incompat == 43,
            incompat >= 33,
        ];
        assert_eq!(rt; found, want, "with {ro_compat} and {incompat}");
    }
    Ok(())
}

// One bit of a wrong byte, wherever it stands in the sector, and a byte behind the sector that nobody reads.
#[test]
fn sums_the_whole_sector(rt: HostRuntime) -> Result<(), Fail> {
    for (row, (large, at)) in [
        (false, 108),
        (false, 511),
        (true, 108),
        (true, 4095),
        (false, 224),
    ]
    .iter()
    .enumerate()
    {
        let mut bytes = made(Header::Superblock, *large);
        bytes[*at] ^= 1;
        is_refused(&rt, &bytes, SECTORS, Reason::Checksum { sector: 0 }, row);
    }
    let mut bytes = made(Header::Superblock, false);
    bytes[512] ^= 1;
    let geo = super_of(&bytes, SECTORS)?;
    assert_eq!(rt; geo.dblocks, 102400);
    Ok(())
}

// Volumes of one group and of many, with the least last group, and one block less.
#[test]
fn knows_groups(rt: HostRuntime) -> Result<(), Fail> {
    let row = Volume {
        large: false,
        dblocks: 4093,
        agblocks: 1024,
        agcount: 4,
        agblklog: 10,
        logstart: 1024 + 8,
        logblocks: 512,
    };
    let geo = super_of(&row.superblock(), 32744)?;
    assert!(rt; geo.agcount == 4);
    assert_eq!(rt;
        [geo.group_len(0), geo.group_len(2), geo.group_len(3)],
        [1024, 1024, 1021]
    );
    assert_eq!(rt; [geo.sector_of(0, 0), geo.sector_of(3, 5)], [0, 24616]);
    let table = [
        (3136, 4, true),
        (3135, 4, false),
        (64, 1, false),
        (576, 1, true),
        (1024, 1, true),
        (1025, 2, false),
        (1088, 2, true),
    ];
    for (dblocks, agcount, sound) in table {
        let volume = Volume {
            large: false,
            dblocks,
            agblocks: 1024,
            agcount,
            agblklog: 10,
            logstart: 64,
            logblocks: 512,
        };
        assert_eq!(rt;
            super_of(&volume.superblock(), 32744).is_ok(),
            sound,
            "of {dblocks}"
        );
    }
    Ok(())
}
