ghost use Rattle.std.specs.Prelude.{◌≡◌, ◌*◌, ◌≤◌, length};

use disk_base::ByteDisk;
use disk_fixtures::{Built, Header};
use std::alloc::{AllocError, Global};
use std::process::Abort;
use std::test::Fail;
use swap_area::PAGE;
use volume_content::*;
use xfs_super::Reason;

// The first page that `mkswap -p 4096` of util-linux writes for 256 sectors, without its identifier.
fn swap_page() -> [u8; PAGE] {
    let mut page = [0; PAGE];
    page[1024..1032].copy_from_slice(&[1, 0, 0, 0, 31, 0, 0, 0]);
    page[4086..4096].copy_from_slice(b"SWAPSPACE2");
    page
}

// A page that begins with the magic number of XFS, and ends as that of a swap area.
fn magic_page() -> [u8; PAGE] {
    let mut page = swap_page();
    page[..4].copy_from_slice(b"XFSB");
    page
}

// A disk of that many sectors that begins with these bytes, as far as they fit.
fn disk_with(
    alloc: Global,
    bytes: &[u8],
    sectors: u16,
    failing: Option<u64>,
) -> Result<ByteDisk, AllocError> {
    let n = bytes.len().min(512 * usize::from(sectors));
    let held = bytes[..n].to_vec(alloc)?;
    Ok(ByteDisk::new(held, u64::from(sectors), failing))
}

fn is_unread(
    rt: &impl Abort,
    alloc: Global,
    disk: &mut ByteDisk,
    want: Why,
    row: usize,
) -> Result<(), Fail> {
    match content_of(alloc, disk)? {
        Inner::Unread(why) => assert_eq!(rt; why, want, "in row {row}"),
        Inner::Xfs(_) | Inner::Swap(_) => assert!(rt; false, "row {row} is read"),
    }
    Ok(())
}

fn is_whole(rt: &impl Abort, alloc: Global, built: Built) -> Result<(), Fail> {
    match content_of(alloc, &mut built.into_disk(None))? {
        Inner::Xfs(volume) => {
            assert_eq!(rt; volume.geo().dblocks, 256);
            assert_eq!(rt; volume.geo().rootino, 128);
        }
        Inner::Swap(_) | Inner::Unread(_) => assert!(rt; false, "no XFS"),
    }
    Ok(())
}

#[test]
fn reads_an_xfs_volume(rt: HostRuntime) -> Result<(), Fail> {
    let alloc = rt.alloc();
    is_whole(&rt, alloc, Built::whole(alloc)?)?;
    // The bytes behind the headers in its first block are free to say anything.
    let mut marked = Built::whole(alloc)?;
    marked.put(4086, b"SWAPSPACE2");
    is_whole(&rt, alloc, marked)
}

#[test]
fn names_the_reason_against_an_xfs_volume(rt: HostRuntime) -> Result<(), Fail> {
    let alloc = rt.alloc();
    let mut torn = Built::whole(alloc)?;
    torn.put(300, &[9]);
    let sum = Why::Xfs(Reason::Checksum { sector: 0 });
    is_unread(&rt, alloc, &mut torn.into_disk(None), sum, 0)?;
    let mut unmade = Built::whole(alloc)?;
    unmade.change_header(Header::Superblock, 0, 126, &[1]);
    let progress = Why::Xfs(Reason::InProgress);
    is_unread(&rt, alloc, &mut unmade.into_disk(None), progress, 1)?;
    let mut short = disk_with(alloc, &magic_page(), 1, None)?;
    is_unread(&rt, alloc, &mut short, Why::Xfs(Reason::Geometry), 2)
}

#[test]
fn reads_a_swap_area(rt: HostRuntime) -> Result<(), Fail> {
    let alloc = rt.alloc();
    match content_of(alloc, &mut disk_with(alloc, &swap_page(), 256, Some(2))?)? {
        Inner::Swap(swap) => assert_eq!(rt; swap.last_page, 31),
        Inner::Xfs(_) | Inner::Unread(_) => assert!(rt; false, "no swap area"),
    }
    Ok(())
}

#[test]
fn names_what_is_not_read(rt: HostRuntime) -> Result<(), Fail> {
    let alloc = rt.alloc();
    let mut second = swap_page();
    second[1024] = 2;
    let mut other = swap_page();
    other[4095] = b'3';
    let rows: [([u8; PAGE], u16, Why); 7] = [
        (second, 256, Why::Swap),
        (swap_page(), 255, Why::Swap),
        (swap_page(), 8, Why::Swap),
        (swap_page(), 7, Why::Other),
        (other, 256, Why::Other),
        ([0; PAGE], 16, Why::Other),
        (magic_page(), 0, Why::Other),
    ];
    for (row, (page, sectors, want)) in rows.iter().enumerate() {
        let mut disk = disk_with(alloc, page, *sectors, None)?;
        is_unread(&rt, alloc, &mut disk, *want, row)?;
    }
    Ok(())
}

fn fails(rt: &impl Abort, alloc: Global, disk: &mut ByteDisk) {
    match content_of(alloc, disk) {
        Ok(_) => assert!(rt; false, "a read that failed is answered"),
        Err(fault) => assert_eq!(rt; fault, ContentFault::Device),
    }
}

#[test]
fn says_that_the_device_failed(rt: HostRuntime) -> Result<(), Fail> {
    let alloc = rt.alloc();
    for read in 0..4 {
        fails(&rt, alloc, &mut Built::whole(alloc)?.into_disk(Some(read)));
    }
    for read in 0..2 {
        fails(
            &rt,
            alloc,
            &mut disk_with(alloc, &swap_page(), 256, Some(read))?,
        );
    }
    Ok(())
}

#[test]
fn prints_why(rt: HostRuntime) -> Result<(), Fail> {
    let alloc = rt.alloc();
    let rows = [
        (Why::Other, "Other"),
        (Why::Swap, "Swap"),
        (
            Why::Xfs(Reason::Checksum { sector: 8 }),
            "Checksum sector=8",
        ),
    ];
    for (why, want) in rows {
        assert_eq!(rt; format!(in alloc; "{why}")?.as_str(), want);
    }
    Ok(())
}
