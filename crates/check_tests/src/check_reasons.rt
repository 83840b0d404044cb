//! Each reason against a volume but claims: changes of the whole small volume, of which just that reason comes.

use crate::check_change::{Change, compare, fault_with};
use disk_base::ByteDisk;
use disk_fixtures::{Built, DIRECTORY, FILE, Header, NOTED, ROOT, StoredExtent, TREE};
use std::test::Fail;
use xfs_check::check;
use xfs_super::{CheckFault, Reason};

fn stored(file: u64, block: u64, count: u32) -> [u8; 16] {
    StoredExtent {
        unwritten: false,
        file,
        block,
        count,
    }
    .bytes()
}

#[test]
fn names_what_the_superblock_says(rt: HostRuntime) -> Result<(), Fail> {
    let table = [
        (Change::superblock(88, &[0, 0, 0, 5]), Reason::Geometry),
        (Change::superblock(14, &[1, 1]), Reason::Geometry),
        (Change::superblock(215, &[0x19]), Reason::Feature),
        (Change::superblock(100, &[0xB4, 0xA4]), Reason::Feature),
        (Change::superblock(215, &[0x0D]), Reason::Reflink),
        (Change::superblock(215, &[0x0B]), Reason::ReverseMap),
        (Change::superblock(23, &[1]), Reason::RealTime),
        (Change::superblock(48, &[0; 8]), Reason::ExternalLog),
        (Change::superblock(219, &[0x3B]), Reason::NeedsRepair),
        (Change::superblock(126, &[1]), Reason::InProgress),
        (Change::superblock(0, b"XFSC"), Reason::Header { sector: 0 }),
        (Change::raw(108, b"B"), Reason::Checksum { sector: 0 }),
    ];
    compare(&rt, rt.alloc(), &table)
}

// The headers of group 1 are the sectors behind sector 512.
#[test]
fn names_a_header_of_a_group(rt: HostRuntime) -> Result<(), Fail> {
    let sum = |sector| Reason::Checksum { sector };
    let says = |sector| Reason::Header { sector };
    let table = [
        (Change::raw(512 * 513 + 100, &[1]), sum(513)),
        (Change::raw(512 * 1026 + 400, &[1]), sum(1026)),
        (Change::raw(512 * 1539 + 500, &[1]), sum(1539)),
        (Change::header(Header::Agf, 3, 15, &[63]), says(1537)),
        (Change::header(Header::Agi, 2, 11, &[3]), says(1026)),
        (Change::header(Header::Agfl, 1, 8, &[9]), says(515)),
        // An entry in use is no block of the group.
        (Change::header(Header::Agfl, 0, 43, &[64]), says(3)),
    ];
    compare(&rt, rt.alloc(), &table)
}

// Magic, checksum, level and owner: the trees of free space, of the inodes and of the free ones, and that of a file,
// whose root stands in the block of its inode.
#[test]
fn names_a_block_of_a_tree(rt: HostRuntime) -> Result<(), Fail> {
    let tree = |group, block| Reason::Tree { group, block };
    let table = [
        (Change::tree(1, 3, b"C"), tree(0, 1)),
        (Change::raw(4096 * 66 + 4000, &[1]), tree(1, 2)),
        (Change::tree(131, 5, &[1]), tree(2, 3)),
        (Change::tree(196, 51, &[2]), tree(3, 4)),
        (Change::block(200, 64, 63, &[131]), tree(3, 8)),
        (Change::inode(TREE, 177, &[0]), tree(0, 16)),
    ];
    compare(&rt, rt.alloc(), &table)
}

// Chunks that overlap can't stand in one tree.
#[test]
fn names_a_tree_of_chunks_that_overlap(rt: HostRuntime) -> Result<(), Fail> {
    let count = Change::tree(67, 7, &[2]);
    let mut chunk = [255; 16];
    chunk[..8].copy_from_slice(&[0, 0, 0, 184, 0xFF, 0xFC, 8, 8]);
    let fault = fault_with(rt.alloc(), &[count, Change::tree(67, 72, &chunk)])?;
    let want = Reason::Tree { group: 1, block: 3 };
    assert_eq!(rt; fault, Some(CheckFault::Bad(want)));
    Ok(())
}

#[test]
fn names_what_differs_of_free_space(rt: HostRuntime) -> Result<(), Fail> {
    let count = Reason::FreeCount {
        group: 1,
        stored: 50,
        found: 51,
    };
    let table = [
        (
            Change::tree(66, 59, &[6]),
            Reason::FreeTreesDiffer { group: 1 },
        ),
        (Change::header(Header::Agf, 1, 55, &[50]), count),
    ];
    compare(&rt, rt.alloc(), &table)
}

#[test]
fn names_an_inode(rt: HostRuntime) -> Result<(), Fail> {
    let inode = |ino| Reason::Inode { ino };
    let table = [
        (Change::inode(FILE, 4, &[2]), inode(FILE)),
        (Change::raw(512 * 640 + 8, &[1]), inode(640)),
        // A chunk that doesn't begin with a block, and one with a hole that splits a block.
        (Change::tree(3, 59, &[132]), inode(132)),
        (Change::tree(67, 61, &[1]), inode(640)),
        // The root is no directory, isn't in use, or is the number of another inode that is no directory or isn't.
        (Change::inode(ROOT, 2, &[0x81, 0xED, 3, 2]), inode(ROOT)),
        (Change::tree(3, 71, &[1]), inode(ROOT)),
        (Change::superblock(63, &[131]), inode(131)),
        (Change::superblock(63, &[190]), inode(190)),
    ];
    compare(&rt, rt.alloc(), &table)
}

#[test]
fn names_an_extent(rt: HostRuntime) -> Result<(), Fail> {
    let extent = |ino| Reason::Extent { ino };
    let table = [
        // It has no block, begins before the end of the one before it, or ends behind its group.
        (Change::inode(FILE, 192, &stored(5, 26, 0)), extent(FILE)),
        (Change::inode(FILE, 192, &stored(1, 26, 2)), extent(FILE)),
        (Change::inode(FILE, 208, &stored(9, 63, 2)), extent(FILE)),
        // The attribute fork begins 24 times 8 bytes behind the core.
        (Change::inode(NOTED, 368, &stored(0, 256, 1)), extent(NOTED)),
    ];
    compare(&rt, rt.alloc(), &table)
}

#[test]
fn names_a_block_of_a_directory(rt: HostRuntime) -> Result<(), Fail> {
    let alloc = rt.alloc();
    let entries = |ino, block| Reason::Directory { ino, block };
    let table = [
        (Change::block(7, 4, 0, b"Y"), entries(DIRECTORY, 0)),
        (Change::raw(4096 * 7 + 2000, &[1]), entries(DIRECTORY, 0)),
        // The short form shall have one more entry.
        (Change::inode(ROOT, 176, &[9]), entries(ROOT, 0)),
    ];
    compare(&rt, alloc, &table)?;
    // The block is another one of the directory, and names another owner.
    let moved = Change::inode(DIRECTORY, 176, &stored(3, 7, 1));
    assert_eq!(rt; fault_with(alloc, &[moved])?, None);
    let fault = fault_with(alloc, &[moved, Change::block(7, 4, 47, &[138])])?;
    assert_eq!(rt; fault, Some(CheckFault::Bad(entries(DIRECTORY, 3))));
    Ok(())
}

// The log begins with block 148, and the flags of the unmount stand in its second sector.
#[test]
fn names_the_log(rt: HostRuntime) -> Result<(), Fail> {
    let record = [254, 237, 186, 190, 0, 0, 0, 1];
    let table = [
        (Change::raw(4096 * 148 + 521, &[1]), Reason::DirtyLog),
        // A newer record stands in its last sector.
        (Change::raw(4096 * 156 - 512, &record), Reason::DirtyLog),
        (Change::raw(4096 * 148, &[0]), Reason::LogShape),
    ];
    compare(&rt, rt.alloc(), &table)
}

// The disk has seven sectors, and the superblock.
#[test]
fn refuses_less_than_a_block(rt: HostRuntime) -> Result<(), Fail> {
    let alloc = rt.alloc();
    let mut bytes = Built::whole(alloc)?.into_bytes();
    bytes.truncate(3584);
    let mut disk = ByteDisk::new(bytes, 7, None);
    let fault = check(alloc, &mut disk).err();
    assert_eq!(rt; fault, Some(CheckFault::Bad(Reason::Geometry)));
    assert_eq!(rt; disk.reads(), 0);
    Ok(())
}
