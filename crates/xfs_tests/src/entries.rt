use disk_base::put;
use std::test::*;
use xfs_dir::{BlockEntries, EntryFault, block_entries, short_entries};

/// A short form with the entry `a` of inode 131.
const ONE: [u8; 15] = [
    0x01, 0, 0, 0, 0, 0x80, 0x01, 0, 0x60, 0x61, 0x01, 0, 0, 0, 0x83,
];

/// The entry `b` of inode 131, an item of 16 bytes at byte 64 of its block.
const USED: [u8; 16] = [0, 0, 0, 0, 0, 0, 0, 131, 1, b'b', 2, 0, 0, 0, 0, 0x40];

/// Where the bytes of a short form cease to be one.
fn short_fault(bytes: &[u8]) -> Option<u32> {
    short_entries(bytes).err().map(|fault| fault.at)
}

/// Where the bytes of a block cease to be one.
fn block_fault(bytes: &[u8; 4096]) -> Option<u32> {
    block_entries(bytes).err().map(|fault| fault.at)
}

/// A block with that magic and one unused item.
fn empty(magic: &[u8; 4]) -> [u8; 4096] {
    let mut out = [0; 4096];
    put(&mut out, 0, magic);
    put(&mut out, 64, &[0xFF, 0xFF, 0x0F, 0xC0]);
    put(&mut out, 4094, &[0, 0x40]);
    out
}

/// A block with an entry, and unused space behind it.
fn used() -> [u8; 4096] {
    let mut out = empty(b"XDD3");
    put(&mut out, 64, &USED);
    put(&mut out, 80, &[0xFF, 0xFF, 0x0F, 0xB0]);
    put(&mut out, 4094, &[0, 80]);
    out
}

/// The inode of the first entry of that name.
fn find(entries: BlockEntries<'_>, name: &[u8]) -> Option<u64> {
    for entry in entries {
        if entry.name == name {
            return Some(entry.ino);
        }
    }
    None
}

#[test]
fn short_form_of_one_entry(rt: HostRuntime) -> Result<(), Fail> {
    let mut entries = short_entries(&ONE)?;
    let entry = entries.next().ok_or("it has an entry")?;
    assert!(rt; entry.name == b"a".as_slice());
    assert_eq!(rt; (entry.ino, entry.ftype), (131, 1));
    assert!(rt; entries.next().is_none());
    Ok(())
}

#[test]
fn faults_of_short_forms(rt: HostRuntime) -> Result<(), Fail> {
    // Cut short within the entry, and within the head.
    for (len, at) in [(14, 6), (7, 6), (6, 6), (5, 0), (1, 0), (0, 0)] {
        assert_eq!(rt; short_fault(&ONE[..len]), Some(at));
    }
    // Other bytes in place of those at one place.
    let cases = [
        // There shall be two entries, or none.
        (0, 2, Some(15)),
        (0, 0, Some(6)),
        // The parent's number has 8 bytes, and so the bytes behind it aren't an entry.
        (1, 1, Some(10)),
        // The name is empty, or longer than what is left.
        (6, 0, Some(6)),
        (6, 2, Some(6)),
        // No field but these is looked at.
        (2, 0xFF, None),
        (7, 0xFF, None),
        (10, 0xFF, None),
    ];
    for (place, byte, fault) in cases {
        let mut bytes = ONE;
        if place < 15 {
            bytes[place] = byte;
        }
        assert_eq!(rt; short_fault(&bytes), fault);
    }
    // A byte behind the last entry, and none.
    let mut more = [0; 16];
    put(&mut more, 0, &ONE);
    assert_eq!(rt; short_fault(&more), Some(15));
    assert_eq!(rt; short_fault(&[0, 0, 0, 0, 0, 0x80]), None);
    Ok(())
}

#[test]
fn blocks_of_unused_space(rt: HostRuntime) -> Result<(), Fail> {
    let block = empty(b"XDD3");
    let mut none = block_entries(&block)?;
    assert!(rt; none.next().is_none());
    // The same where the leaf entries and the tail are part of it, and of a block of leaf entries alone.
    let mut tailed = empty(b"XDB3");
    put(&mut tailed, 66, &[0x0F, 0xB0]);
    put(&mut tailed, 4078, &[0, 0x40]);
    put(&mut tailed, 4088, &[0, 0, 0, 1]);
    assert_eq!(rt; block_fault(&tailed), None);
    put(&mut tailed, 4088, &[0, 0, 0x01, 0xF7]);
    assert_eq!(rt; block_fault(&tailed), None);
    Ok(())
}

#[test]
fn faults_of_blocks(rt: HostRuntime) -> Result<(), Fail> {
    let cases: [(usize, [u8; 2], Option<u32>); 13] = [
        // It is no data block, or it has a tail whose leaf entries leave no room.
        (2, *b"X3", Some(0)),
        (0, *b"Xd", Some(0)),
        // The first item has no name, another place, or a number that is a free tag with another length.
        (72, [0, b'b'], Some(64)),
        (78, [0, 0x41], Some(64)),
        (78, [0x01, 0x40], Some(64)),
        (64, [0xFF, 0xFF], Some(64)),
        // It is longer, and ends elsewhere.
        (72, [6, b'b'], Some(64)),
        // The second has no length, one that is no multiple of 8, one too great, or another place.
        (82, [0, 0], Some(80)),
        (82, [0x0F, 0xAC], Some(80)),
        (82, [0x0F, 0xB8], Some(80)),
        (4094, [0, 0x40], Some(80)),
        // It is shorter, and nothing stands at its end.
        (82, [0x0F, 0xA8], Some(80)),
        // No field but these is looked at.
        (74, [0xFF, 0xFF], None),
    ];
    for (place, bytes, fault) in cases {
        let mut block = used();
        if place < 4095 {
            put(&mut block, place, &bytes);
        }
        assert_eq!(rt; block_fault(&block), fault);
    }
    let mut tailed = empty(b"XDB3");
    put(&mut tailed, 4088, &[0, 0, 0x01, 0xF8]);
    assert_eq!(rt; block_fault(&tailed), Some(0));
    let mut no_length = empty(b"XDD3");
    put(&mut no_length, 66, &[0, 0]);
    assert_eq!(rt; block_fault(&no_length), Some(64));
    Ok(())
}

#[test]
fn entries_of_a_block(rt: HostRuntime) -> Result<(), Fail> {
    let block = used();
    let mut entries = block_entries(&block)?;
    assert_eq!(rt; find(entries, b"b"), Some(131));
    assert_eq!(rt; find(entries, b"c"), None);
    let entry = entries.next().ok_or("it has an entry")?;
    assert_eq!(rt; entry.ftype, 2);
    assert!(rt; entries.next().is_none());
    Ok(())
}

#[test]
fn fault_is_told(rt: HostRuntime) -> Result<(), Fail> {
    let fault = EntryFault { at: 80 };
    assert_eq!(rt; format!(in rt.alloc(); "{fault}")?.as_str(), "Entry at=80");
    Ok(())
}
