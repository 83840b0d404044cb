//! Blocks with two uses: changes of the whole small volume, in each of which one block is claimed twice.

use crate::check_change::{Change, compare, fault_with};
use disk_fixtures::{FILE, Header, NOTED, StoredExtent, TREE};
use std::test::Fail;
use xfs_super::{CheckFault, Reason};

// The bytes of an extent of one block.
fn one(file: u64, block: u64) -> [u8; 16] {
    StoredExtent {
        unwritten: false,
        file,
        block,
        count: 1,
    }
    .bytes()
}

// The third extent of a file is that block.
fn third(block: u64) -> Change {
    Change::inode(FILE, 208, &one(9, block))
}

fn twice(block: u64) -> Reason {
    Reason::ClaimedTwice { block }
}

// A block of a file that is free, a directory's, another file's, its own, of the log, or kept for the trees of free
// space; a block of an attribute that has inodes; and a leaf that is both leaves of a file.
#[test]
fn names_a_block_of_a_file(rt: HostRuntime) -> Result<(), Fail> {
    let right = 70u64.to_be_bytes();
    let table = [
        (third(29), twice(29)),
        (third(7), twice(7)),
        (third(92), twice(92)),
        (third(24), twice(24)),
        (third(155), twice(155)),
        (third(6), twice(6)),
        (Change::inode(NOTED, 368, &one(0, 16)), twice(16)),
        (Change::inode(TREE, 204, &right), twice(70)),
    ];
    compare(&rt, rt.alloc(), &table)
}

// A free block that the list of free blocks has, that is a ninth one of the log, or that is the fifth one of a chunk;
// and the root of the tree of all chunks, where that of those with free inodes begins, too.
#[test]
fn names_a_block_of_a_group(rt: HostRuntime) -> Result<(), Fail> {
    let table = [
        (Change::header(Header::Agfl, 0, 43, &[8]), twice(8)),
        (Change::superblock(99, &[9]), twice(156)),
        (Change::tree(67, 60, &[0xFC]), twice(84)),
        (Change::header(Header::Agi, 0, 331, &[3]), twice(3)),
    ];
    compare(&rt, rt.alloc(), &table)
}

// The only free run of one block of the second group is the block of its headers, and then that of a tree.
#[test]
fn names_a_block_that_is_free(rt: HostRuntime) -> Result<(), Fail> {
    for block in [0u8, 4] {
        let start = Change::tree(65, 59, &[block]);
        let count = Change::tree(66, 59, &[block]);
        let fault = fault_with(rt.alloc(), &[start, count])?;
        let want = twice(64 + u64::from(block));
        assert_eq!(rt; fault, Some(CheckFault::Bad(want)));
    }
    Ok(())
}
