use disk_base::put;
use disk_fixtures::{Header, Volume, made, resum};
use std::process::Abort;
use std::test::Fail;
use xfs_super::{
    Agf, Reason, Super, agf_of, agfl_entry, agfl_of, agi_of, super_of, used_entry, used_of,
};

const SECTORS: u64 = 819200;

// The volume that mkfs.xfs made.
const VOLUME: Volume = Volume {
    large: false,
    dblocks: 102400,
    agblocks: 34134,
    agcount: 3,
    agblklog: 16,
    logstart: 65541,
    logblocks: 16384,
};

// The same with sectors of 4096 bytes.
const LARGE: Volume = Volume {
    large: true,
    dblocks: 102400,
    agblocks: 34134,
    agcount: 3,
    agblklog: 16,
    logstart: 65544,
    logblocks: 16384,
};

// A header of a group, with some bytes replaced, and its checksum made right.
fn changed(volume: &Volume, header: Header, group: u32, at: usize, bytes: &[u8]) -> [u8; 4096] {
    let mut out = volume.header(header, group);
    if at < 4000 && bytes.len() < 32 {
        put(&mut out, at, bytes);
    }
    let sum = match header {
        Header::Superblock => 224,
        Header::Agf => 216,
        Header::Agi => 312,
        Header::Agfl => 32,
    };
    resum(&mut out[..volume.sector()], sum);
    out
}

// Where the headers of the second group begin.
fn second_sector(header: Header, large: bool) -> u64 {
    match (header, large) {
        (Header::Superblock, _) => 273072,
        (Header::Agf, false) => 273073,
        (Header::Agi, false) => 273074,
        (Header::Agfl, false) => 273075,
        (Header::Agf, true) => 273080,
        (Header::Agi, true) => 273088,
        (Header::Agfl, true) => 273096,
    }
}

// Why a header of a group isn't answered.
fn refusal(
    rt: &impl Abort,
    geo: &Super,
    header: Header,
    group: u32,
    bytes: &[u8; 4096],
) -> Option<Reason> {
    assert!(rt; group < geo.agcount);
    let sector = &bytes[..geo.sectsize as usize];
    match header {
        Header::Superblock => None,
        Header::Agf => agf_of(sector, geo, group).err(),
        Header::Agi => agi_of(sector, geo, group).err(),
        Header::Agfl => agfl_of(sector, geo, group).err(),
    }
}

// What xfs_db prints of the first group that mkfs.xfs made.
#[test]
fn reads_what_mkfs_made(rt: HostRuntime) -> Result<(), Fail> {
    for (volume, first) in [(VOLUME, 1), (LARGE, 4)] {
        let geo = super_of(&made(Header::Superblock, volume.large), SECTORS)?;
        let bytes = made(Header::Agf, volume.large);
        let agf = agf_of(&bytes[..geo.sectsize as usize], &geo, 0)?;
        let trees = [agf.bno_root, agf.cnt_root, agf.bno_level, agf.cnt_level];
        assert_eq!(rt; trees, [first, first + 1, 1, 1]);
        let list = [agf.flfirst, agf.fllast, agf.flcount, agf.btreeblks];
        assert_eq!(rt; list, [1, 4, 4, 0]);
        let free = if volume.large { 34114 } else { 34117 };
        assert_eq!(rt;
            [agf.seqno, agf.length, agf.freeblks, agf.longest],
            [0, 34134, free, 34110]
        );
        let bytes = made(Header::Agi, volume.large);
        let agi = agi_of(&bytes[..geo.sectsize as usize], &geo, 0)?;
        let trees = [agi.root, agi.level, agi.free_root, agi.free_level];
        assert_eq!(rt; trees, [first + 2, 1, first + 3, 1]);
        let counts = [
            agi.count,
            agi.freecount,
            agi.newino,
            agi.dirino,
            agi.iblocks,
            agi.fblocks,
        ];
        assert_eq!(rt; counts, [64, 61, 128, 0xFFFF_FFFF, 1, 1]);
        assert_eq!(rt; agi.unlinked, [0xFFFF_FFFF; 64]);
        let bytes = made(Header::Agfl, volume.large);
        agfl_of(&bytes[..geo.sectsize as usize], &geo, 0)?;
    }
    Ok(())
}

// Each header of each group stands where it stands, and no header of another group or kind passes there.
#[test]
fn knows_the_headers_of_each_group(rt: HostRuntime) -> Result<(), Fail> {
    let kinds = [(Header::Agf, 1), (Header::Agi, 2), (Header::Agfl, 3)];
    for (volume, width) in [(VOLUME, 1), (LARGE, 8)] {
        let geo = super_of(&volume.superblock(), SECTORS)?;
        for (header, k) in kinds {
            for (group, first) in [(0, 0), (1, 273072), (2, 546144)] {
                let sector = first + k * width;
                let sound = volume.header(header, group);
                assert_eq!(rt;
                    refusal(&rt, &geo, header, group, &sound),
                    None,
                    "at {sector}"
                );
                let other = volume.header(header, group + 1);
                let want = Some(Reason::Header { sector });
                assert_eq!(rt;
                    refusal(&rt, &geo, header, group, &other),
                    want,
                    "at {sector}"
                );
            }
        }
    }
    Ok(())
}

// Each field of a header that contradicts the superblock, and a wrong byte without its checksum.
#[test]
fn refuses_fields_that_contradict(rt: HostRuntime) -> Result<(), Fail> {
    let table: [(Header, usize, &[u8]); 27] = [
        (Header::Agf, 0, b"XAGI"),
        (Header::Agf, 4, &[0, 0, 0, 2]),
        (Header::Agf, 8, &[0, 0, 0, 0]),
        (Header::Agf, 12, &[0, 0, 0x85, 0x55]),
        (Header::Agf, 16, &[0, 0, 0x85, 0x56]),
        (Header::Agf, 20, &[0xFF, 0xFF, 0xFF, 0xFF]),
        (Header::Agf, 28, &[0, 0, 0, 0]),
        (Header::Agf, 28, &[0, 0, 0, 9]),
        (Header::Agf, 32, &[0, 0, 0, 0]),
        (Header::Agf, 32, &[0, 0, 0, 9]),
        (Header::Agf, 40, &[0, 0, 3, 0xF7]),
        (Header::Agf, 44, &[0, 0, 3, 0xF7]),
        (Header::Agf, 48, &[0, 0, 3, 0xF8]),
        (Header::Agf, 64, &[0]),
        (Header::Agi, 0, b"XAGF"),
        (Header::Agi, 4, &[0, 0, 0, 0]),
        (Header::Agi, 8, &[0, 0, 0, 2]),
        (Header::Agi, 12, &[0, 0, 0x85, 0x57]),
        (Header::Agi, 20, &[0, 0, 0x85, 0x56]),
        (Header::Agi, 24, &[0, 0, 0, 0]),
        (Header::Agi, 24, &[0, 0, 0, 9]),
        (Header::Agi, 296, &[0]),
        (Header::Agi, 328, &[0, 0, 0x85, 0x56]),
        (Header::Agi, 332, &[0, 0, 0, 9]),
        (Header::Agfl, 0, b"XAFM"),
        (Header::Agfl, 4, &[0, 0, 0, 0]),
        (Header::Agfl, 8, &[0]),
    ];
    for volume in [VOLUME, LARGE] {
        let geo = super_of(&volume.superblock(), SECTORS)?;
        for (row, (header, at, bytes)) in table.iter().enumerate() {
            let sector = second_sector(*header, volume.large);
            let wrong = changed(&volume, *header, 1, *at, bytes);
            let want = Some(Reason::Header { sector });
            assert_eq!(rt;
                refusal(&rt, &geo, *header, 1, &wrong),
                want,
                "in row {row}"
            );
            let mut torn = volume.header(*header, 1);
            torn[100] ^= 16;
            let want = Some(Reason::Checksum { sector });
            assert_eq!(rt; refusal(&rt, &geo, *header, 1, &torn), want, "in row {row}");
        }
    }
    Ok(())
}

// The bounds of a list of 119 entries; where none is in use, where it begins says nothing.
#[test]
fn bounds_the_list(rt: HostRuntime) -> Result<(), Fail> {
    let geo = super_of(&VOLUME.superblock(), SECTORS)?;
    let table = [
        (118, 118, 119, true),
        (119, 118, 119, false),
        (118, 119, 119, false),
        (0, 118, 119, true),
        (0, 118, 120, false),
        (119, 255, 0, true),
        (119, 0, 1, false),
    ];
    for (first, last, count, sound) in table {
        let fields = [0, 0, 0, first, 0, 0, 0, last, 0, 0, 0, count];
        let bytes = changed(&VOLUME, Header::Agf, 0, 40, &fields);
        let refused = refusal(&rt, &geo, Header::Agf, 0, &bytes).is_some();
        assert_eq!(rt; refused, !sound, "from {first} to {last}, {count}");
    }
    Ok(())
}

// Without a tree of free inodes nobody looks at where it would stand.
#[test]
fn looks_at_the_tree_that_is_there(rt: HostRuntime) -> Result<(), Fail> {
    let bytes = changed(&VOLUME, Header::Superblock, 0, 212, &[0, 0, 0, 0]);
    let geo = super_of(&bytes, SECTORS)?;
    let agi = changed(
        &VOLUME,
        Header::Agi,
        1,
        328,
        &[0xFF, 0xFF, 0xFF, 0xFF, 0, 0, 0, 0],
    );
    assert_eq!(rt; refusal(&rt, &geo, Header::Agi, 1, &agi), None);
    Ok(())
}

// The entries of a list of 119 that goes round its end, the last of them a block of the group or not.
#[test]
fn goes_round_the_list(rt: HostRuntime) -> Result<(), Fail> {
    let geo = super_of(&VOLUME.superblock(), SECTORS)?;
    let bytes = changed(
        &VOLUME,
        Header::Agf,
        0,
        40,
        &[0, 0, 0, 117, 0, 0, 0, 1, 0, 0, 0, 4],
    );
    let agf = agf_of(&bytes[..geo.sectsize as usize], &geo, 0)?;
    for (last, sound) in [
        (7, true),
        (0x8555, true),
        (0x8556, false),
        (0xFFFF_FFFF, false),
    ] {
        let list = list_with(&[(117, 34133), (118, 5), (0, 6), (1, last), (2, 0xFFFF_FFFF)]);
        let want = if sound {
            Ok(())
        } else {
            Err(Reason::Header { sector: 3 })
        };
        assert_eq!(rt;
            used_of(&list[..geo.sectsize as usize], &geo, 0, &agf),
            want,
            "with {last}"
        );
        assert_eq!(rt; used(&rt, &agf, &list), [34133, 5, 6, last]);
    }
    Ok(())
}

// A list of free blocks with these entries.
fn list_with(entries: &[(usize, u32)]) -> [u8; 4096] {
    let mut out = VOLUME.header(Header::Agfl, 0);
    for (i, block) in entries {
        if *i < 1015 {
            put(&mut out, 36 + 4 * *i, &block.to_be_bytes());
        }
    }
    out
}

// The four entries in use.
fn used(rt: &impl Abort, agf: &Agf, list: &[u8; 4096]) -> [u32; 4] {
    assert!(rt; agf.flfirst < 119 && agf.flcount == 4);
    let bytes = &list[..512];
    assert_eq!(rt; agfl_entry(bytes, 118), 5);
    [
        used_entry(bytes, agf, 0),
        used_entry(bytes, agf, 1),
        used_entry(bytes, agf, 2),
        used_entry(bytes, agf, 3),
    ]
}
