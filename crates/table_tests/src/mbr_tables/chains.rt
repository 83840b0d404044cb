//! Chains of extended boot records, spelled byte by byte.
use super::*;
use std::alloc::AllocError;

/// An entry of that type, first sector and count.
fn spelled(kind: u8, start: u32, count: u32) -> [u8; 16] {
    let [a, b, c, d] = start.to_le_bytes();
    let [p, q, r, s] = count.to_le_bytes();
    [
        0, 0xFE, 0xFF, 0xFF, kind, 0xFE, 0xFF, 0xFF, a, b, c, d, p, q, r, s,
    ]
}

/// A sector with these two first entries.
fn sector_with(first: [u8; 16], second: [u8; 16]) -> [u8; 512] {
    let mut sector = [0; 512];
    sector[446..462].copy_from_slice(&first);
    sector[462..478].copy_from_slice(&second);
    sector[510] = 0x55;
    sector[511] = 0xAA;
    sector
}

/// A record whose partition has that start, behind the record, and count, and whose next record has that
/// start, behind the extended partition's, and count.
fn linked(own: (u32, u32), next: (u32, u32)) -> [u8; 512] {
    sector_with(spelled(0x83, own.0, own.1), spelled(0x05, next.0, next.1))
}

/// The last record of a chain.
fn last(own: (u32, u32)) -> [u8; 512] {
    sector_with(spelled(0x83, own.0, own.1), [0; 16])
}

/// A disk of 65536 sectors whose extended partition, from 2048 on, has 40960 sectors; `records` are its
/// records and the next one.
fn disk(alloc: Global, records: &[(u64, [u8; 512])]) -> Result<Small, AllocError> {
    let mut written = records.to_vec(alloc)?;
    written.push((0, sector_with(spelled(0x05, 2048, 40960), [0; 16])))?;
    Ok(Small {
        sectors: 65536,
        written,
        reads: 0,
        failing: u64::MAX,
    })
}

/// A chain of `count` records, 100 sectors apart, each with a partition of 99 sectors right behind it. The
/// last names the record at `end` sectors behind the extended partition's start, if one is given.
fn long_disk(alloc: Global, count: u8, end: Option<u32>) -> Result<Small, AllocError> {
    let mut records = Vec::new(alloc);
    for i in 0..count {
        let next = 100 * (u32::from(i) + 1);
        let record = match end {
            _ if i + 1 < count => linked((1, 99), (next, 100)),
            Some(end) => linked((1, 99), (end, 100)),
            None => last((1, 99)),
        };
        records.push((2048 + 100 * u64::from(i), record))?;
    }
    disk(alloc, &records)
}

#[test]
fn reads_a_chain(rt: HostRuntime) -> Result<(), Fail> {
    let mut chained = disk(
        rt.alloc(),
        &[
            (2048, linked((128, 10000), (10240, 10128))),
            (12288, linked((128, 10000), (20480, 10128))),
            (22528, last((128, 10000))),
        ],
    )?;
    let table = read_mbr(rt.alloc(), &mut chained)?;
    let expected = [
        Logical {
            ebr: 2048,
            slot: plain(2176, 10000),
        },
        Logical {
            ebr: 12288,
            slot: plain(12416, 10000),
        },
        Logical {
            ebr: 22528,
            slot: plain(22656, 10000),
        },
    ];
    assert_eq!(rt; table.logicals(), expected.as_slice());
    assert_eq!(rt; chained.reads, 4);
    one_chain();
    Ok(())
}

#[test]
fn reads_a_chain_to_its_bounds(rt: HostRuntime) -> Result<(), Fail> {
    let mut sixty = long_disk(rt.alloc(), 60, None)?;
    let table = read_mbr(rt.alloc(), &mut sixty)?;
    assert_eq!(rt; table.logicals().len(), 60);
    assert_eq!(rt;
        table.logicals().last(),
        Some(&Logical {
            ebr: 7948,
            slot: plain(7949, 99)
        })
    );
    assert_eq!(rt; sixty.reads, 61);

    // A partition that ends with the extended one; its link's count and type say nothing.
    let mut whole = disk(
        rt.alloc(),
        &[
            (
                2048,
                sector_with(spelled(0x83, 1, 40959), spelled(0x83, 40959, 0)),
            ),
            (43007, sector_with([0; 16], spelled(0x00, 7, 7))),
        ],
    )?;
    let table = read_mbr(rt.alloc(), &mut whole)?;
    let expected = [Logical {
        ebr: 2048,
        slot: plain(2049, 40959),
    }];
    assert_eq!(rt; table.logicals(), expected.as_slice());
    assert_eq!(rt; whole.reads, 3);
    Ok(())
}

#[test]
fn says_why_there_is_no_chain(rt: HostRuntime) -> Result<(), Fail> {
    let alloc = rt.alloc();
    let mut cut = last((128, 10000));
    cut[511] = 0;
    let cases = [
        ("names itself", linked((128, 10000), (0, 1000)), 2048, 2),
        (
            "names a place behind the extended partition",
            linked((128, 10000), (40960, 1)),
            43008,
            2,
        ),
        (
            "names a place far behind",
            linked((128, 10000), (u32::MAX, 1)),
            4294969343,
            2,
        ),
        (
            "names a sector that is no record",
            linked((128, 10000), (10240, 1)),
            12288,
            3,
        ),
        ("has no signature", cut, 2048, 2),
        ("has a partition that leaves", last((128, 40833)), 2048, 2),
        (
            "has a partition that leaves by far",
            last((u32::MAX, u32::MAX)),
            2048,
            2,
        ),
        ("has a partition on its record", last((0, 10)), 2048, 2),
    ];
    for (what, first, at, reads) in cases {
        let mut bad = disk(alloc, &[(2048, first)])?;
        assert_eq!(rt;
            read_mbr(alloc, &mut bad).err(),
            Some(MbrFault::Chain { at }),
            "{what}"
        );
        assert_eq!(rt; bad.reads, reads, "{what}");
    }
    Ok(())
}

#[test]
fn ends_a_chain_that_is_too_long(rt: HostRuntime) -> Result<(), Fail> {
    let alloc = rt.alloc();
    let cases = [
        (61, None, MbrFault::TooMany { at: 8048 }),
        (60, Some(6000), MbrFault::TooMany { at: 8048 }),
        (60, Some(0), MbrFault::Chain { at: 2048 }),
        (60, Some(5900), MbrFault::Chain { at: 7948 }),
        (60, Some(40960), MbrFault::Chain { at: 43008 }),
    ];
    for (count, end, fault) in cases {
        let mut long = long_disk(alloc, count, end)?;
        assert_eq!(rt; read_mbr(alloc, &mut long).err(), Some(fault));
        assert_eq!(rt; long.reads, 61);
    }
    Ok(())
}

#[test]
fn fails_with_the_device(rt: HostRuntime) -> Result<(), Fail> {
    let alloc = rt.alloc();
    for failing in 0..4 {
        let mut chained = long_disk(alloc, 3, None)?;
        chained.failing = failing;
        assert_eq!(rt; read_mbr(alloc, &mut chained).err(), Some(MbrFault::Device));
        assert_eq!(rt; chained.reads, failing + 1);
    }
    Ok(())
}

#[test]
fn writes_records(rt: HostRuntime) {
    let own = plain(128, 10000);
    let own_entry = [
        0x00, 0xFE, 0xFF, 0xFF, 0x83, 0xFE, 0xFF, 0xFF, 0x80, 0x00, 0x00, 0x00, 0x10, 0x27, 0x00,
        0x00,
    ];
    let next_entry = [
        0x00, 0xFE, 0xFF, 0xFF, 0x05, 0xFE, 0xFF, 0xFF, 0x00, 0x28, 0x00, 0x00, 0x90, 0x27, 0x00,
        0x00,
    ];
    let countless = [
        0x00, 0xFE, 0xFF, 0xFF, 0x05, 0xFE, 0xFF, 0xFF, 0x00, 0x28, 0x00, 0x00, 0x00, 0x00, 0x00,
        0x00,
    ];
    let cases = [
        (own, Some((10240, 10128)), own_entry, next_entry),
        (own, Some((10240, 0)), own_entry, countless),
        (own, None, own_entry, [0; 16]),
        (EMPTY, None, [0; 16], [0; 16]),
    ];
    for (slot, next, first, second) in cases {
        let mut sector = [9; 512];
        ebr_sector(&slot, next, &mut sector);
        assert_eq!(rt; sector.as_slice(), sector_with(first, second).as_slice());
    }
    chain_reads_back();
    table_reads_back();
}
