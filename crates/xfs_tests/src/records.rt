use std::test::Fail;
use xfs_tree::{ByCount, ByStart, Chunk, Extent, FreeChunk, FreeSparseChunk, Record, SparseChunk};

// Of a record that is read from bytes: whether it fits, is before itself, and is spelt by the same bytes.
fn kept<R: Record>(bytes: &[u8; 16]) -> [bool; 3] {
    let record = R::read(&bytes[..R::SIZE]);
    let mut out = [0; 16];
    record.put(&mut out[..R::SIZE]);
    [
        record.fits(),
        record.before(&record),
        out[..R::SIZE] == bytes[..R::SIZE],
    ]
}

#[test]
fn spells_what_it_read(rt: HostRuntime) -> Result<(), Fail> {
    let bytes = [129, 2, 3, 4, 5, 6, 7, 8, 9, 10, 11, 12, 13, 14, 15, 16];
    let all = [
        kept::<ByStart>(&bytes),
        kept::<ByCount>(&bytes),
        kept::<Chunk>(&bytes),
        kept::<FreeChunk>(&bytes),
        kept::<SparseChunk>(&bytes),
        kept::<FreeSparseChunk>(&bytes),
        kept::<Extent>(&bytes),
    ];
    assert_eq!(rt; all, [[true, false, true]; 7]);
    let chunk = SparseChunk::read(&bytes);
    assert_eq!(rt;
        (chunk.start, chunk.holemask, chunk.count, chunk.freecount),
        (2164392708, 1286, 7, 8)
    );
    assert_eq!(rt; chunk.free, 651345242494996240);
    let extent = Extent::read(&bytes);
    assert_eq!(rt; extent.block, 2322479143477352);
    assert_eq!(rt;
        (extent.unwritten, extent.file, extent.count),
        (true, 141843476153091, 921360)
    );
    Ok(())
}
