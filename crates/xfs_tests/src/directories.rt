//! The directories of the whole small volume, as xfs_db prints them.

use crate::volume::{geometry, inode_on};
use disk_base::Blocks;
use disk_fixtures::{
    AWAY, Built, DEVICE, DIRECTORY, FAR_LINK, FILE, NEAR_LINK, NOTED, PIPE, ROOT, TREE,
};
use std::test::Fail;
use xfs_dir::{block_entries, short_entries};

#[test]
fn lists_a_short_form(rt: HostRuntime) -> Result<(), Fail> {
    let geo = geometry()?;
    let mut disk = Built::whole(rt.alloc())?.into_disk(None);
    let mut bytes = [0; 2048];
    let core = inode_on(&rt, &mut disk, &geo, ROOT, &mut bytes)?;
    assert_eq!(rt; (core.size, core.nlink), (109, 3));
    let mut entries = short_entries(&bytes[176..176 + core.size as usize])?;
    let table: [(&[u8], u64, u8); 8] = [
        (b"file", FILE, 1),
        (b"tree", TREE, 1),
        (b"near", NEAR_LINK, 7),
        (b"far", FAR_LINK, 7),
        (b"device", DEVICE, 3),
        (b"pipe", PIPE, 5),
        (b"directory", DIRECTORY, 2),
        (b"noted", NOTED, 1),
    ];
    for (name, ino, ftype) in table {
        let entry = entries.next().ok_or("an entry is missing")?;
        assert!(rt; entry.name == name, "inode {ino}");
        assert_eq!(rt; (entry.ino, entry.ftype), (ino, ftype));
    }
    assert!(rt; entries.next().is_none());
    Ok(())
}

#[test]
fn lists_a_block(rt: HostRuntime) -> Result<(), Fail> {
    let mut disk = Built::whole(rt.alloc())?.into_disk(None);
    assert!(rt; 64 <= disk.sectors());
    let mut block = [0; 4096];
    disk.read(56, &mut block)?;
    let mut entries = block_entries(&block)?;
    let table: [(&[u8], u64, u8); 3] = [(b".", DIRECTORY, 2), (b"..", ROOT, 2), (b"away", AWAY, 1)];
    for (name, ino, ftype) in table {
        let entry = entries.next().ok_or("an entry is missing")?;
        assert!(rt; entry.name == name, "inode {ino}");
        assert_eq!(rt; (entry.ino, entry.ftype), (ino, ftype));
    }
    assert!(rt; entries.next().is_none());
    Ok(())
}
