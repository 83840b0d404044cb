//! A volume of 4093 blocks in four groups of 1024, the last of which is three blocks short, with an empty root directory
//! and a log of 4096 sectors; and what the check says of it, by what its log holds.
ghost use Rattle.std.specs.Prelude.{◌≤◌};

use crate::logs::{Sector, header, unmount};
use disk_base::put;
use disk_fixtures::{Built, GroupLeaf, Header, StoredChunk, StoredInode, Volume, short_form};
use std::alloc::{AllocError, Global};
use std::test::Fail;
use xfs_check::check;
use xfs_super::{CheckFault, Reason};

const SIZES: Volume = Volume {
    large: false,
    dblocks: 4093,
    agblocks: 1024,
    agcount: 4,
    agblklog: 10,
    logstart: 2056,
    logblocks: 512,
};

/// The free runs of each group: the inodes stand in blocks 16 to 23 of the first one, the log in blocks 8 to 519 of the
/// third one, and the last run ends where the last group does.
const FREE: [&[(u32, u32)]; 4] = [
    &[(5, 11), (24, 1000)],
    &[(5, 1019)],
    &[(5, 3), (520, 504)],
    &[(5, 1016)],
];

/// How many blocks the free runs of a group have, and how many the longest one has.
const COUNTS: [[u32; 2]; 4] = [[1011, 1000], [1019, 1019], [507, 504], [1016, 1016]];

/// The chunk of the first group, of whose inodes three are in use.
const CHUNK: StoredChunk = StoredChunk {
    start: 128,
    holemask: 0,
    count: 64,
    freecount: 61,
    free: 0xFFFF_FFFF_FFFF_FFF8,
};

/// In which sector of its group a header stands, and where it holds its checksum.
fn place_of(header: Header) -> (usize, usize)
    ensures { result.0 ≤ 3 }
{
    match header {
        Header::Superblock => (0, 224),
        Header::Agf => (1, 216),
        Header::Agi => (2, 312),
        Header::Agfl => (3, 32),
    }
}

/// The first sector.
fn first_sector(bytes: &[u8; 4096]) -> &[u8] {
    &bytes[..512]
}

/// Puts a header of a group with other bytes from byte `at` on, and its right checksum.
fn put_header(built: &mut Built, header: Header, group: u32, at: usize, bytes: &[u8]) {
    let (sector, sum) = place_of(header);
    let from = 512 * (8192 * (group as usize % 4) + sector);
    let whole = SIZES.header(header, group);
    built.put(from, first_sector(&whole));
    built.put(from + at % 512, bytes);
    built.resum(from, 512, sum);
}

/// The numbers behind one another, highest bytes first.
fn in_a_row(numbers: &[u32]) -> [u8; 32] {
    let mut out = [0; 32];
    for (place, number) in numbers.iter().enumerate() {
        if place < 8 {
            put(&mut out, 4 * place, &number.to_be_bytes());
        }
    }
    out
}

/// The headers of a group; the first one has the inodes.
fn put_headers(built: &mut Built, group: u32) {
    let [free, longest] = COUNTS[group as usize % 4];
    put_header(built, Header::Superblock, group, 0, &[]);
    let space = in_a_row(&[0, 118, 0, free, longest]);
    put_header(built, Header::Agf, group, 40, &space[..20]);
    let [count, freecount, newino] = if group == 0 {
        [64, 61, 128]
    } else {
        [0, 0, u32::MAX]
    };
    let inodes = in_a_row(&[count, 3, 1, freecount, newino]);
    put_header(built, Header::Agi, group, 16, &inodes[..20]);
    put_header(built, Header::Agfl, group, 0, &[]);
}

/// Puts a tree of one leaf in block `number` of a group.
fn put_leaf(built: &mut Built, magic: [u8; 4], place: (u32, u32), count: u16, records: &[u8]) {
    let (group, number) = place;
    let leaf = GroupLeaf {
        magic,
        group,
        at: 1024 * (group % 4) + number % 1024,
        count,
    };
    built.put_block(leaf.at, &leaf.bytes(records));
}

/// The records of free runs.
fn records(runs: &[(u32, u32)]) -> [u8; 32] {
    let mut out = [0; 32];
    for (place, (start, count)) in runs.iter().enumerate() {
        if place < 4 {
            put(&mut out, 8 * place, &start.to_be_bytes());
            put(&mut out, 8 * place + 4, &count.to_be_bytes());
        }
    }
    out
}

/// The trees of a group. The runs of each stand by their counts as by their starts.
fn put_trees(built: &mut Built, group: u32) {
    let runs = FREE[group as usize % 4];
    let space = records(runs);
    let count = (runs.len() % 5) as u16;
    put_leaf(built, *b"AB3B", (group, 1), count, &space);
    put_leaf(built, *b"AB3C", (group, 2), count, &space);
    let chunk = CHUNK.bytes();
    let (count, inodes): (u16, &[u8]) = if group == 0 { (1, &chunk) } else { (0, &[]) };
    put_leaf(built, *b"IAB3", (group, 3), count, inodes);
    put_leaf(built, *b"FIB3", (group, 4), count, inodes);
}

/// The inodes: the root directory, two empty files, and free ones.
fn put_inodes(built: &mut Built) {
    for ino in 128..192 {
        built.put(512 * ino as usize, &StoredInode::free(ino).bytes(&[], &[]));
    }
    for ino in [129, 130] {
        let file = StoredInode::empty(ino, 0o100644);
        built.put(512 * ino as usize, &file.bytes(&[], &[]));
    }
    let (bytes, len) = short_form(128, &[]);
    let mut root = StoredInode::empty(128, 0o040755);
    root.format = 1;
    root.nlink = 2;
    root.size = len as u64;
    built.put(512 * 128, &root.bytes(&bytes, &[]));
}

/// The volume with these sectors in its log, by their places, and zeros else.
fn volume_with(alloc: Global, log: &[(usize, Sector)]) -> Result<Built, AllocError> {
    let mut built = Built::new(alloc, 4093)?;
    for group in 0..4 {
        put_headers(&mut built, group);
        put_trees(&mut built, group);
    }
    put_inodes(&mut built);
    for (place, sector) in log {
        built.put(4096 * 2056 + 512 * (*place % 4096), &sector.bytes());
    }
    Ok(built)
}

/// The header of an unmount record in the last sector of the log, and its further one in the first sector.
fn ended() -> [(usize, Sector); 2] {
    [(4095, header(6, 512)), (0, unmount(7))]
}

#[test]
fn a_free_run_may_end_with_the_last_group(rt: HostRuntime) -> Result<(), Fail> {
    let alloc = rt.alloc();
    let mut disk = volume_with(alloc, &ended())?.into_disk(None);
    let volume = check(alloc, &mut disk)?;
    let geo = volume.geo();
    assert_eq!(rt; [geo.dblocks, geo.rootino], [4093, 128]);
    assert_eq!(rt; [geo.agblocks, geo.agcount, geo.sectsize], [1024, 4, 512]);
    assert!(rt; geo.finobt);
    for group in 0..4 {
        assert!(rt; group < volume.geo().agcount);
        assert_eq!(rt; volume.free(group).runs(), FREE[group as usize]);
    }
    Ok(())
}

#[test]
fn an_unmount_may_go_round_the_log(rt: HostRuntime) -> Result<(), Fail> {
    let alloc = rt.alloc();
    let [first, second] = ended();
    let more = [
        first,
        second,
        (1, header(7, 512)),
        (2, Sector::Data { cycle: 7, flags: 0 }),
    ];
    let dirty = Some(CheckFault::Bad(Reason::DirtyLog));
    let rows: [(&[(usize, Sector)], Option<CheckFault>); 3] = [
        (&[first, second], None),
        (&more, dirty),
        (&[first, (0, unmount(6))], dirty),
    ];
    for (log, want) in rows {
        let mut disk = volume_with(alloc, log)?.into_disk(None);
        assert_eq!(rt; check(alloc, &mut disk).err(), want);
    }
    Ok(())
}
