//! What the files of the whole small volume contain, against what was put there.

use crate::list_mark::ListMark;
use crate::trees::zeros;
use crate::volume::{geometry, inode_on, piece};
use disk_base::{Blocks, ByteDisk};
use disk_fixtures::{
    AWAY, Built, DEVICE, DIRECTORY, FAR_LINK, FILE, NEAR_LINK, NOTED, PIPE, StoredExtent,
    StoredInode, TREE, Volume, data_byte, listed,
};
use std::alloc::Global;
use std::process::Abort;
use std::test::Fail;
use xfs_inode::{content_at, extents_of};
use xfs_super::super_of;
use xfs_tree::Extent;

/// Which blocks of a file were written: the first of the file, the first of the volume, and how many.
type Written<'a> = &'a [(u64, u32, u32)];

const FILE_BLOCKS: [(u64, u32, u32); 2] = [(0, 24, 2), (9, 28, 1)];

const TREE_BLOCKS: [(u64, u32, u32); 4] = [(0, 90, 1), (3, 91, 2), (12, 210, 1), (100, 212, 3)];

// The byte that a file has there.
fn due(written: Written<'_>, at: u64) -> u8 {
    let number = at / 4096;
    for (file, block, count) in written {
        if *file <= number && number - *file < u64::from(*count) {
            return data_byte(
                block.wrapping_add((number - *file) as u32),
                (at % 4096) as usize,
            );
        }
    }
    0
}

// Reads a piece of a file, and looks at each of its bytes, and that those behind it are as they were.
fn is_given(
    rt: &impl Abort,
    alloc: Global,
    (ino, size): (u64, u64),
    written: Written<'_>,
    (offset, len): (u64, usize),
) -> Result<(), Fail> {
    let mut disk = Built::whole(alloc)?.into_disk(None);
    let mut out = zeros(alloc, len)?;
    out.fill(238);
    let n = piece(rt, alloc, &mut disk, &geometry()?, (ino, offset), &mut out)?;
    let want = size.saturating_sub(offset).min(out.len() as u64);
    assert_eq!(rt; n as u64, want, "of inode {ino} at {offset}");
    for (k, byte) in out.iter().enumerate() {
        let at = offset.saturating_add(k as u64);
        let want = if k < n { due(written, at) } else { 238 };
        assert_eq!(rt; *byte, want, "byte {at} of inode {ino}");
    }
    Ok(())
}

#[test]
fn gives_each_byte_of_a_file(rt: HostRuntime) -> Result<(), Fail> {
    let alloc = rt.alloc();
    is_given(&rt, alloc, (FILE, 40000), &FILE_BLOCKS, (0, 41000))?;
    is_given(&rt, alloc, (TREE, 421883), &TREE_BLOCKS, (0, 422000))?;
    for ino in [NOTED, AWAY] {
        is_given(&rt, alloc, (ino, 0), &[], (0, 10))?;
    }
    Ok(())
}

// Pieces that begin and end in the middle of a block, of a hole, of what isn't written, and of the file's end.
#[test]
fn gives_pieces(rt: HostRuntime) -> Result<(), Fail> {
    let alloc = rt.alloc();
    let pieces = [
        (1, 4095),
        (4095, 2),
        (8000, 9000),
        (19000, 10000),
        (36863, 3137),
        (39999, 5),
        (40000, 5),
        (u64::MAX, 5),
    ];
    for piece in pieces {
        is_given(&rt, alloc, (FILE, 40000), &FILE_BLOCKS, piece)?;
    }
    let pieces = [
        (4095, 8194),
        (20000, 20000),
        (49000, 5000),
        (400000, 21000),
        (421882, 3),
    ];
    for piece in pieces {
        is_given(&rt, alloc, (TREE, 421883), &TREE_BLOCKS, piece)?;
    }
    Ok(())
}

// A file may be as long as its size has room for: what no extent covers is zeros, and is answered at once.
#[test]
fn gives_the_end_of_the_longest_file(rt: HostRuntime) -> Result<(), Fail> {
    let alloc = rt.alloc();
    let mut built = Built::whole(alloc)?;
    built.change_inode(FILE, 56, &[255; 8]);
    let mut disk = built.into_disk(None);
    let mut out = [7; 5000];
    let n = piece(
        &rt,
        alloc,
        &mut disk,
        &geometry()?,
        (FILE, u64::MAX - 4100),
        &mut out,
    )?;
    assert_eq!(rt; n, 4100);
    assert!(rt; out.iter().take(4100).all(|byte| *byte == 0));
    assert!(rt; out.iter().skip(4100).all(|byte| *byte == 7));
    let n = piece(&rt, alloc, &mut disk, &geometry()?, (FILE, 36860), &mut out)?;
    assert_eq!(rt; n, 5000);
    for (at, want) in [
        (3, 0),
        (4, data_byte(28, 0)),
        (4099, data_byte(28, 4095)),
        (4100, 0),
    ] {
        assert_eq!(rt; out.get(at).copied(), Some(want));
    }
    Ok(())
}

#[test]
fn gives_links_and_devices(rt: HostRuntime) -> Result<(), Fail> {
    let alloc = rt.alloc();
    let far = [b'x'; 600];
    let table: [(u64, u64, &[u8]); 9] = [
        (NEAR_LINK, 0, b"near/by"),
        (NEAR_LINK, 5, b"by"),
        (NEAR_LINK, 7, b""),
        (FAR_LINK, 0, &far),
        (FAR_LINK, 599, b"x"),
        (FAR_LINK, u64::MAX, b""),
        (DEVICE, 0, &[0, 0x14, 0, 1]),
        (PIPE, 0, b""),
        (DIRECTORY, 0, b""),
    ];
    let mut disk = Built::whole(alloc)?.into_disk(None);
    for (ino, offset, want) in table {
        let mut out = [0; 700];
        let n = piece(&rt, alloc, &mut disk, &geometry()?, (ino, offset), &mut out)?;
        assert!(rt; n <= 700);
        assert!(rt; &out[..n] == want, "of inode {ino} at {offset}");
    }
    Ok(())
}

// The extents of a data fork and of an attribute fork, and which blocks are claimed then.
#[test]
fn reads_the_extents_of_both_forks(rt: HostRuntime) -> Result<(), Fail> {
    let alloc = rt.alloc();
    let table = [
        (FILE, false, 3, 5, Some((9, 28, 1))),
        (FILE, true, 0, 0, None),
        (TREE, false, 5, 11, Some((100, 212, 3))),
        (NOTED, false, 0, 0, None),
        (NOTED, true, 1, 1, Some((0, 31, 1))),
        (NEAR_LINK, false, 0, 0, None),
    ];
    let mut disk = Built::whole(alloc)?.into_disk(None);
    let geo = geometry()?;
    for (ino, attribute, count, claimed, last) in table {
        let mut bytes = [0; 2048];
        let core = inode_on(&rt, &mut disk, &geo, ino, &mut bytes)?;
        assert!(rt; geo.dblocks <= disk.sectors() / 8);
        let mut marks = ListMark::new(alloc);
        let extents = extents_of::<ByteDisk, ListMark>(
            alloc, &mut disk, &geo, &core, &bytes, attribute, &mut marks,
        )?;
        assert_eq!(rt; extents.items().len(), count, "of inode {ino}");
        assert_eq!(rt; marks.count(), claimed, "of inode {ino}");
        let last = last.map(|(file, block, count)| Extent {
            unwritten: false,
            file,
            block,
            count,
        });
        assert_eq!(rt; extents.items().last().copied(), last, "of inode {ino}");
    }
    Ok(())
}

// A read that fails in the middle of a piece.
#[test]
fn tells_of_a_failed_read(rt: HostRuntime) -> Result<(), Fail> {
    let alloc = rt.alloc();
    let geo = geometry()?;
    for (failing, fails) in [(3, true), (4, true), (5, false)] {
        let mut disk = Built::whole(alloc)?.into_disk(Some(failing));
        let mut bytes = [0; 2048];
        let core = inode_on(&rt, &mut disk, &geo, TREE, &mut bytes)?;
        assert!(rt; geo.dblocks <= disk.sectors() / 8);
        let mut marks = ListMark::new(alloc);
        let extents = extents_of::<ByteDisk, ListMark>(
            alloc, &mut disk, &geo, &core, &bytes, false, &mut marks,
        )?;
        let mut out = [0; 9000];
        assert!(rt; geo.dblocks <= disk.sectors() / 8);
        let read = content_at(
            &mut disk,
            &geo,
            &core,
            &bytes,
            extents.items(),
            12288,
            &mut out,
        );
        assert_eq!(rt; read.is_err(), fails, "where read {failing} fails");
    }
    Ok(())
}

// Where groups have fewer blocks than their numbers have room for, block 133 is block 5 of the second group, and block
// 137, which has inode 1096, its block 9.
#[test]
fn finds_blocks_of_the_second_group(rt: HostRuntime) -> Result<(), Fail> {
    let alloc = rt.alloc();
    let sizes = Volume {
        large: false,
        dblocks: 144,
        agblocks: 72,
        agcount: 2,
        agblklog: 7,
        logstart: 60,
        logblocks: 4,
    };
    let mut inode = StoredInode::empty(1096, 0o100644);
    inode.size = 8192;
    inode.extents = 1;
    let extent = StoredExtent {
        unwritten: false,
        file: 1,
        block: 133,
        count: 1,
    };
    let mut built = Built::new(alloc, 144)?;
    built.put_block(72 + 9, &inode.bytes(&listed(&[extent]), &[]));
    built.put_block(72 + 5, &[5; 4096]);
    let mut disk = built.into_disk(None);
    let geo = super_of(&sizes.superblock(), 1152)?;
    let mut out = [7; 5000];
    let n = piece(&rt, alloc, &mut disk, &geo, (1096, 4000), &mut out)?;
    assert_eq!(rt; n, 4192);
    for (k, byte) in out.iter().enumerate() {
        let want = match k {
            0..96 => 0,
            96..4192 => 5,
            _ => 7,
        };
        assert_eq!(rt; *byte, want, "byte {k}");
    }
    Ok(())
}
