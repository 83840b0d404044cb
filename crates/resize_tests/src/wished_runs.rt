//! Whole runs with wishes, and over disks with a GPT or a chain of logical partitions.
ghost use Rattle.std.specs.Prelude.{◌≡◌, ◌*◌, ◌≤◌, IfOk, length, ◌%◌};

use disk_base::crc32;
use run_fixtures::{
    Failing, Left, NONE, SOURCE, Seen, Slot, TARGET, after_run, are_all, filled, part, put,
    put_table, with_slots,
};
use std::alloc::{AllocError, Global};
use std::test::Fail;

// Sectors from one to another that hold a byte.
type Held = (u32, u32, u8);

// Fills sectors from one to another where they are.
fn fill(image: &mut [u8], from: u32, to: u32, byte: u8) {
    let (from, to) = (512 * from as usize, 512 * to as usize);
    if from <= to && to <= image.len() {
        image[from..to].fill(byte);
    }
}

// Some sectors of an image.
fn sectors_of(image: &[u8], from: u32, to: u32) -> &[u8] {
    part(image, 512 * from as usize, 512 * to as usize)
}

fn holds(image: &[u8], held: &[Held]) -> bool {
    held.iter().all(|(from, to, byte)| are_all(sectors_of(image, *from, *to), *byte))
}

// A disk of 65536 sectors with one partition of bytes 75, a head of bytes 3C and zeros elsewhere.
fn one_partition(alloc: Global) -> Result<Vec<u8>, AllocError>
    ensures { IfOk result (λ image. length image.items ≡ 512 * 65536) }
{
    let mut image = with_slots(alloc, 65536, 0, &[(0x83, 2048, 20480)])?;
    fill(image.as_mut_slice(), 2048, 22528, 0x75);
    put(image.as_mut_slice(), 0, &[0x3C; 446]);
    Ok(image)
}

// A run to a target of `sectors` sectors that hold 5A, with a call that fails.
fn failing_to(
    alloc: Global,
    words: &[&str],
    source: Vec<u8>,
    sectors: u32,
    failing: Failing,
) -> Result<Seen, AllocError>
    requires { (length source.items % 512 ≡ 0) × (length source.items ≤ 512 * 131072) }
{
    let target = filled(alloc, u64::from(sectors).min(131072), 0x5A)?;
    after_run(alloc, words, source, target, failing)
}

// A run over the disk with one partition.
fn run_to(alloc: Global, words: &[&str], sectors: u32) -> Result<Seen, AllocError> {
    let source = one_partition(alloc)?;
    failing_to(alloc, words, source, sectors, NONE)
}

#[test]
fn a_partition_gets_another_length(rt: HostRuntime) -> Result<(), Fail> {
    let cases: [(&[&str], u32, &[u8], &[Held]); 4] = [
        (
            &["virt-resize", "--expand", "/dev/sda1", "a", "b"],
            65537,
            b"/dev/sda1: resized 2048+20480 -> /dev/sda1 2048+63489\n/dev/sda1: not expanded: Other\ndone\n",
            &[(1, 2048, 0), (2048, 22528, 0x75), (22528, 65537, 0x5A)],
        ),
        (
            &["virt-resize", "--resize", "sda1=+20%", "a", "b"],
            65537,
            b"/dev/sda1: resized 2048+20480 -> /dev/sda1 2048+24576\nextra: /dev/sda2 26624+38913\n/dev/sda1: not expanded: Other\ndone\n",
            &[(2048, 22528, 0x75), (22528, 65537, 0x5A)],
        ),
        (
            &["virt-resize", "--resize", "sda1=150%", "a", "b"],
            65537,
            b"/dev/sda1: resized 2048+20480 -> /dev/sda1 2048+30720\nextra: /dev/sda2 32768+32769\n/dev/sda1: not expanded: Other\ndone\n",
            &[(2048, 22528, 0x75), (22528, 65537, 0x5A)],
        ),
        (
            &["virt-resize", "--resize-force", "sda1=10485248b", "a", "b"],
            22527,
            b"/dev/sda1: resized 2048+20480 -> /dev/sda1 2048+20479\ndone\n",
            &[(2048, 22527, 0x75)],
        ),
    ];
    for (words, sectors, out, held) in cases {
        let left = run_to(rt.alloc(), words, sectors)?;
        assert_eq!(rt;
            (left.status, left.out.as_slice()),
            (0, out),
            "at {words:?}"
        );
        assert!(rt; left.err.is_empty() && holds(left.target.as_slice(), held));
        assert!(rt; are_all(part(left.target.as_slice(), 0, 446), 0x3C));
    }
    Ok(())
}

#[test]
fn partitions_are_laid_out_or_left_out(rt: HostRuntime) -> Result<(), Fail> {
    let cases: [(&[&str], &[u8], &[Held]); 4] = [
        (
            &["virt-resize", "--", "a", "b"],
            b"/dev/sda1: kept 2048+20480 -> /dev/sda1 2048+20480\nextra: /dev/sda2 22528+43008\ndone\n",
            &[(1, 2048, 0), (2048, 22528, 0x75), (22528, 65536, 0x5A)],
        ),
        (
            &["virt-resize", "--align-first", "always", "a", "b"],
            b"/dev/sda1: kept 2048+20480 -> /dev/sda1 128+20480\nextra: /dev/sda2 20608+44928\ndone\n",
            &[(1, 128, 0), (128, 20608, 0x75), (20608, 65536, 0x5A)],
        ),
        (
            &["virt-resize", "--delete", "sda1", "a", "b"],
            b"/dev/sda1: deleted 2048+20480\nextra: /dev/sda1 128+65408\ndone\n",
            &[(1, 65536, 0x5A)],
        ),
        (
            &["virt-resize", "-q", "a", "b"],
            b"",
            &[(1, 2048, 0), (2048, 22528, 0x75), (22528, 65536, 0x5A)],
        ),
    ];
    for (words, out, held) in cases {
        let left = run_to(rt.alloc(), words, 65536)?;
        assert_eq!(rt;
            (left.status, left.out.as_slice()),
            (0, out),
            "at {words:?}"
        );
        assert!(rt; left.err.is_empty() && holds(left.target.as_slice(), held));
        assert!(rt; are_all(part(left.target.as_slice(), 0, 446), 0x3C));
    }
    Ok(())
}

#[test]
fn a_run_that_is_dry_or_refused_writes_nothing(rt: HostRuntime) -> Result<(), Fail> {
    let cases: [(&[&str], u32, u8, &[u8], &[u8]); 7] = [
        (
            &["virt-resize", "-n", "a", "b"],
            65536,
            0,
            b"/dev/sda1: kept 2048+20480 -> /dev/sda1 2048+20480\nextra: /dev/sda2 22528+43008\ndry run\n",
            b"",
        ),
        (
            &["virt-resize", "--shrink", "sda1", "a", "b"],
            22527,
            4,
            b"",
            b"virt-resize: no plan: WouldCut part=1 content=20480 wanted=20479\n",
        ),
        (
            &["virt-resize", "--shrink", "sda1", "a", "b"],
            22528,
            4,
            b"",
            b"virt-resize: no plan: NoDeficit end=22528\n",
        ),
        (
            &["virt-resize", "--expand", "sda1", "a", "b"],
            22528,
            4,
            b"",
            b"virt-resize: no plan: NoSurplus limit=22528\n",
        ),
        (
            &[
                "virt-resize",
                "--resize",
                "sda1=+20%",
                "--resize",
                "sda1=1G",
                "a",
                "b",
            ],
            65536,
            4,
            b"",
            b"virt-resize: no plan: NamedTwice place=4\n",
        ),
        (
            &["virt-resize", "--delete", "sda9", "a", "b"],
            65536,
            4,
            b"",
            b"virt-resize: no plan: NoSuchPart place=2\n",
        ),
        (
            &[
                "virt-resize",
                "--expand",
                "sda1",
                "--unknown-filesystems",
                "error",
                "a",
                "b",
            ],
            65537,
            2,
            b"",
            b"virt-resize: source: /dev/sda1: Other\n",
        ),
    ];
    for (words, sectors, status, out, err) in cases {
        let left = run_to(rt.alloc(), words, sectors)?;
        assert_eq!(rt;
            (left.status, left.out.as_slice()),
            (status, out),
            "at {words:?}"
        );
        assert_eq!(rt; left.err.as_slice(), err, "at {words:?}");
        assert!(rt; are_all(left.target.as_slice(), 0x5A));
    }
    Ok(())
}

#[test]
fn the_first_word_that_is_wrong_is_named(rt: HostRuntime) -> Result<(), Fail> {
    let cases: [(&[&str], &[u8]); 6] = [
        (
            &[
                "virt-resize",
                "--expand",
                "sda1",
                "--shrink",
                "sda2",
                "a",
                "b",
            ],
            b"virt-resize: usage: Excluded place=3\n",
        ),
        (
            &["virt-resize", "--alignment", "0", "a", "b"],
            b"virt-resize: usage: Value place=2\n",
        ),
        (
            &["virt-resize", "--alignment=0", "a", "b"],
            b"virt-resize: usage: Value place=1\n",
        ),
        (
            &["virt-resize", "--resize", "sda1=5x", "a", "b"],
            b"virt-resize: usage: Size place=2\n",
        ),
        (
            &[
                "virt-resize",
                "--expand",
                "sda1",
                "--expand",
                "sda1",
                "a",
                "b",
            ],
            b"virt-resize: usage: Twice place=3\n",
        ),
        (
            &["virt-resize", "--expand", "sda1", "--shrink=x", "a", "b"],
            b"virt-resize: usage: Excluded place=3\n",
        ),
    ];
    for (words, err) in cases {
        let source = filled(rt.alloc(), 8, 0)?;
        let left = failing_to(rt.alloc(), words, source, 8, NONE)?;
        assert_eq!(rt;
            (left.status, left.err.as_slice()),
            (1, err),
            "at {words:?}"
        );
        assert!(rt; left.out.is_empty() && are_all(left.target.as_slice(), 0x5A));
    }
    Ok(())
}

#[test]
fn pieces_of_zeros_are_left_out_unless_they_are_asked_for(rt: HostRuntime) -> Result<(), Fail> {
    let cases: [(&[&str], u8); 2] = [
        (&["virt-resize", "a", "b"], 0x5A),
        (&["virt-resize", "--no-sparse", "a", "b"], 0),
    ];
    for (words, byte) in cases {
        let mut source = with_slots(rt.alloc(), 65536, 0, &[(0x83, 2048, 20480)])?;
        put(source.as_mut_slice(), 2097152, &[1]);
        let left = failing_to(rt.alloc(), words, source, 65536, NONE)?;
        let image = left.target.as_slice();
        assert_eq!(rt; left.status, 0, "at {words:?}");
        assert!(rt;
            holds(
                image,
                &[(2048, 4096, byte), (4097, 6144, 0), (6144, 22528, byte)]
            )
        );
        assert!(rt; part(image, 2097152, 2097153) == [1].as_slice());
        assert!(rt; are_all(part(image, 2097153, 2097664), 0));
    }
    Ok(())
}

// 11223344-5566-7788-99AA-BBCCDDEEFF00 as it stands on a disk.
const DISK: [u8; 16] = [
    0x44, 0x33, 0x22, 0x11, 0x66, 0x55, 0x88, 0x77, 0x99, 0xAA, 0xBB, 0xCC, 0xDD, 0xEE, 0xFF, 0x00,
];

// The version 5 identifier of that one and of `extra`, 31D8D6F1-E9FF-5E88-B866-E792EBEC701A.
const EXTRA: [u8; 16] = [
    0xF1, 0xD6, 0xD8, 0x31, 0xFF, 0xE9, 0x88, 0x5E, 0xB8, 0x66, 0xE7, 0x92, 0xEB, 0xEC, 0x70, 0x1A,
];

// 0FC63DAF-8483-4772-8E79-3D69D8477DE4, the kind of data of Linux.
const LINUX: [u8; 16] = [
    0xAF, 0x3D, 0xC6, 0x0F, 0x83, 0x84, 0x72, 0x47, 0x8E, 0x79, 0x3D, 0x69, 0xD8, 0x47, 0x7D, 0xE4,
];

// Puts a header's checksum into its place, where the header stands in that sector.
fn seal(image: &mut [u8], own: u32) {
    let at = 512 * own as usize;
    put(image, at + 16, &[0; 4]);
    let sum = crc32(part(image, at, at + 92));
    put(image, at + 16, &sum.to_le_bytes());
}

// Puts a header into that sector: for entries of an array, where the other header stands and the last usable sector.
fn put_header(image: &mut [u8], own: u32, other: u32, array: u32, last: u32) {
    let at = 512 * own as usize;
    let sum = crc32(sectors_of(image, array, array.saturating_add(32)));
    put(image, at, b"EFI PART\0\0\x01\0\x5C\0\0\0");
    put(image, at + 24, &u64::from(own).to_le_bytes());
    put(image, at + 32, &u64::from(other).to_le_bytes());
    put(image, at + 40, &[34, 0, 0, 0, 0, 0, 0, 0]);
    put(image, at + 48, &u64::from(last).to_le_bytes());
    put(image, at + 56, &DISK);
    put(image, at + 72, &u64::from(array).to_le_bytes());
    put(image, at + 80, &[128, 0, 0, 0, 128, 0, 0, 0]);
    put(image, at + 88, &sum.to_le_bytes());
    seal(image, own);
}

// Puts one or two entries into an array, each from its first sector to its last.
fn put_entries(image: &mut [u8], array: u32, spans: &[(u32, u32)]) {
    let array = 512 * array as usize;
    for ((first, last), (place, id)) in spans.iter().zip([(0u16, 1u8), (128, 2)]) {
        let at = array + usize::from(place);
        put(image, at, &LINUX);
        put(image, at + 16, &[id; 16]);
        put(image, at + 32, &u64::from(*first).to_le_bytes());
        put(image, at + 40, &u64::from(*last).to_le_bytes());
    }
}

// Makes an image of `sectors` sectors a disk with a GUID partition table, its header's array at both ends.
fn put_gpt(image: &mut [u8], sectors: u32, spans: &[(u32, u32)]) {
    let end = sectors.max(68);
    put_table(image, &[(0xEE, 1, end - 1)]);
    put_entries(image, 2, spans);
    put_entries(image, end - 33, spans);
    put_header(image, 1, end - 1, 2, end - 34);
    put_header(image, end - 1, 1, end - 33, end - 34);
}

// A disk of 65536 sectors with such a table, whose first partition's bytes are 75.
fn gpt_disk(alloc: Global, spans: &[(u32, u32)]) -> Result<Vec<u8>, AllocError>
    ensures { IfOk result (λ image. length image.items ≡ 512 * 65536) }
{
    let mut image = filled(alloc, 65536, 0)?;
    fill(image.as_mut_slice(), 2048, 22528, 0x75);
    put_gpt(image.as_mut_slice(), 65536, spans);
    Ok(image)
}

// Turns the lowest bit of a byte.
fn flip(image: &mut [u8], at: usize) {
    if at < image.len() {
        image[at] ^= 1;
    }
}

fn flip_all(image: &mut [u8], places: &[usize]) {
    for at in places {
        flip(image, *at);
    }
}

// The number of 8 bytes at a place of an image.
fn number_at(image: &[u8], at: usize) -> u64 {
    part(image, at, at.saturating_add(8))
        .iter()
        .rev()
        .fold(0u64, |sum, byte| (sum << 8) | u64::from(*byte))
}

// Whether a header stands in that sector, whose own checksum and that of the array in another sector are right.
fn is_sealed(image: &[u8], own: u32, array: u32) -> bool {
    let at = 512 * own as usize;
    let mut bytes = [0; 92];
    put(&mut bytes, 0, part(image, at, at + 92));
    put(&mut bytes, 16, &[0; 4]);
    let sum = crc32(sectors_of(image, array, array.saturating_add(32)));
    part(image, at, at + 8) == b"EFI PART".as_slice()
        && part(image, at + 16, at + 20) == crc32(&bytes).to_le_bytes().as_slice()
        && part(image, at + 88, at + 92) == sum.to_le_bytes().as_slice()
}

// What a header in that sector names: itself, the other one, the first and the last usable sector, and its array.
fn named_in(image: &[u8], own: u32) -> [u64; 5] {
    let at = 512 * own as usize;
    [
        number_at(image, at + 24),
        number_at(image, at + 32),
        number_at(image, at + 40),
        number_at(image, at + 48),
        number_at(image, at + 72),
    ]
}

// The kind, the identifier, the first and the last sector of an entry of the array in sector 2, by its number from 0.
fn entry_at(image: &[u8], number: u8) -> (&[u8], &[u8], u64, u64) {
    let at = 1024 + 128 * number as usize;
    (
        part(image, at, at + 16),
        part(image, at + 16, at + 32),
        number_at(image, at + 32),
        number_at(image, at + 40),
    )
}

#[test]
fn a_table_is_read_from_its_backup_and_written_whole(rt: HostRuntime) -> Result<(), Fail> {
    let mut source = gpt_disk(rt.alloc(), &[(2048, 22527)])?;
    flip(source.as_mut_slice(), 528);
    let left = failing_to(rt.alloc(), PLAIN, source, 131072, NONE)?;
    let image = left.target.as_slice();
    assert_eq!(rt;
        (left.status, left.out.as_slice()),
        (
            0,
            b"/dev/sda1: kept 2048+20480 -> /dev/sda1 2048+20480\nextra: /dev/sda2 22528+108511\ndone\n".as_slice()
        )
    );
    assert!(rt; is_sealed(image, 1, 2) && is_sealed(image, 131071, 131039));
    assert_eq!(rt;
        named_in(image, 1).as_slice(),
        [1, 131071, 34, 131038, 2].as_slice()
    );
    assert_eq!(rt;
        named_in(image, 131071).as_slice(),
        [131071, 1, 34, 131038, 131039].as_slice()
    );
    assert!(rt; sectors_of(image, 2, 34) == sectors_of(image, 131039, 131071));
    assert!(rt; part(image, 568, 584) == DISK.as_slice());
    assert!(rt; part(image, 67108408, 67108424) == DISK.as_slice());
    assert_eq!(rt;
        entry_at(image, 0),
        (LINUX.as_slice(), [1; 16].as_slice(), 2048, 22527)
    );
    assert_eq!(rt;
        entry_at(image, 1),
        (LINUX.as_slice(), EXTRA.as_slice(), 22528, 131038)
    );
    assert!(rt; are_all(part(image, 1280, 17408), 0));
    assert!(rt;
        part(image, 446, 462)
            == [
                0, 0, 2, 0, 0xEE, 0xFF, 0xFF, 0xFF, 1, 0, 0, 0, 0xFF, 0xFF, 1, 0
            ]
            .as_slice()
    );
    assert!(rt;
        holds(
            image,
            &[(34, 2048, 0), (2048, 22528, 0x75), (22528, 131039, 0x5A)]
        )
    );
    Ok(())
}

#[test]
fn what_is_wrong_with_a_table_or_too_small_for_it_is_told(rt: HostRuntime) -> Result<(), Fail> {
    let one: &[(u32, u32)] = &[(2048, 22527)];
    let cases: [(&[(u32, u32)], &[usize], u8, u32, u8, &[u8]); 5] = [
        (
            one,
            &[528, 33553936],
            128,
            131072,
            2,
            b"virt-resize: source: NoHeader\n",
        ),
        (
            one,
            &[],
            128,
            67,
            4,
            b"virt-resize: no plan: TooSmall sectors=67\n",
        ),
        (
            one,
            &[],
            128,
            68,
            4,
            b"virt-resize: no plan: DoesNotFit end=22528 limit=35\n",
        ),
        (
            &[(2048, 3000), (3000, 4000)],
            &[],
            128,
            68,
            2,
            b"virt-resize: source: Overlap a=1 b=2\n",
        ),
        (
            one,
            &[],
            127,
            68,
            2,
            b"virt-resize: source: Shape count=127 size=128\n",
        ),
    ];
    for (spans, flips, count, sectors, status, err) in cases {
        let mut source = gpt_disk(rt.alloc(), spans)?;
        put(source.as_mut_slice(), 592, &[count]);
        seal(source.as_mut_slice(), 1);
        flip_all(source.as_mut_slice(), flips);
        let left = failing_to(rt.alloc(), PLAIN, source, sectors, NONE)?;
        assert_eq!(rt; (left.status, left.err.as_slice()), (status, err));
        assert!(rt; left.out.is_empty() && are_all(left.target.as_slice(), 0x5A));
    }
    Ok(())
}

// Makes a sector a table with the signature and these slots.
fn put_record(image: &mut [u8], at: u32, slots: &[Slot]) {
    let at = 512 * at as usize;
    if at + 512 <= image.len() {
        put_table(&mut image[at..at + 512], slots);
    }
}

// A disk of 65536 sectors whose extended partition has three logical ones, of bytes 5, 6 and 7.
fn chained_disk(alloc: Global, next: Slot) -> Result<Vec<u8>, AllocError>
    ensures { IfOk result (λ image. length image.items ≡ 512 * 65536) }
{
    let mut image = with_slots(alloc, 65536, 0, &[(5, 2048, 40960)])?;
    let own = (0x83, 128, 10000);
    put_record(image.as_mut_slice(), 2048, &[own, next]);
    put_record(image.as_mut_slice(), 12288, &[own, (5, 20480, 10128)]);
    put_record(image.as_mut_slice(), 22528, &[own]);
    fill(image.as_mut_slice(), 2176, 12176, 5);
    fill(image.as_mut_slice(), 12416, 22416, 6);
    fill(image.as_mut_slice(), 22656, 32656, 7);
    Ok(image)
}

// The link of the first record to the second.
const SECOND: Slot = (5, 10240, 10128);

// A run over that disk.
fn chained_to(alloc: Global, words: &[&str], next: Slot) -> Result<Seen, AllocError> {
    let source = chained_disk(alloc, next)?;
    failing_to(alloc, words, source, 65536, NONE)
}

#[test]
fn a_chain_is_written_without_what_is_deleted(rt: HostRuntime) -> Result<(), Fail> {
    let left = chained_to(rt.alloc(), WITHOUT, SECOND)?;
    let image = left.target.as_slice();
    assert_eq!(rt; left.status, 0);
    assert_eq!(rt;
        left.out.as_slice(),
        b"/dev/sda1: extended 2048+40960 -> /dev/sda1 2048+20368\n/dev/sda5: kept 2176+10000 -> /dev/sda5 2176+10000\n/dev/sda6: deleted 12416+10000\n/dev/sda7: kept 22656+10000 -> /dev/sda6 12416+10000\nextra: /dev/sda2 22528+43008\ndone\n".as_slice()
    );
    let own = [
        0, 0xFE, 0xFF, 0xFF, 0x83, 0xFE, 0xFF, 0xFF, 128, 0, 0, 0, 0x10, 0x27, 0, 0,
    ];
    assert!(rt; part(image, 1049022, 1049038) == own.as_slice());
    assert!(rt;
        part(image, 1049038, 1049054)
            == [
                0, 0xFE, 0xFF, 0xFF, 5, 0xFE, 0xFF, 0xFF, 0, 0x28, 0, 0, 0x90, 0x27, 0, 0
            ]
            .as_slice()
    );
    assert!(rt; part(image, 6291902, 6291918) == own.as_slice());
    assert!(rt;
        are_all(part(image, 6291918, 6291966), 0)
            && part(image, 6291966, 6291968) == [0x55, 0xAA].as_slice()
    );
    assert!(rt;
        are_all(part(image, 1048576, 1049022), 0)
            && are_all(part(image, 1049054, 1049086), 0)
            && part(image, 1049086, 1049088) == [0x55, 0xAA].as_slice()
    );
    assert!(rt;
        part(image, 446, 478)
            == [
                0, 0xFE, 0xFF, 0xFF, 5, 0xFE, 0xFF, 0xFF, 0, 8, 0, 0, 0x90, 0x4F, 0, 0, 0, 0xFE,
                0xFF, 0xFF, 0x83, 0xFE, 0xFF, 0xFF, 0, 0x58, 0, 0, 0, 0xA8, 0, 0
            ]
            .as_slice()
    );
    assert!(rt;
        holds(
            image,
            &[
                (1, 2048, 0),
                (2049, 2176, 0x5A),
                (2176, 12176, 5),
                (12176, 12288, 0x5A),
                (12416, 22416, 7),
                (22416, 65536, 0x5A)
            ]
        )
    );
    Ok(())
}

#[test]
fn a_chain_may_be_deleted_whole_or_name_itself(rt: HostRuntime) -> Result<(), Fail> {
    let all: &[&str] = &[
        "virt-resize",
        "--delete",
        "sda5",
        "--delete",
        "sda6",
        "--delete",
        "sda7",
        "a",
        "b",
    ];
    let cases: [(&[&str], Slot, u8, &[u8], &[u8]); 2] = [
        (
            all,
            SECOND,
            0,
            b"/dev/sda1: deleted 2048+40960\n/dev/sda5: deleted 2176+10000\n/dev/sda6: deleted 12416+10000\n/dev/sda7: deleted 22656+10000\nextra: /dev/sda1 128+65408\ndone\n",
            b"",
        ),
        (
            WITHOUT,
            (5, 0, 1000),
            2,
            b"",
            b"virt-resize: source: Chain at=2048\n",
        ),
    ];
    for (words, next, status, out, err) in cases {
        let left = chained_to(rt.alloc(), words, next)?;
        assert_eq!(rt;
            (left.status, left.out.as_slice()),
            (status, out),
            "at {words:?}"
        );
        assert_eq!(rt; left.err.as_slice(), err, "at {words:?}");
        assert!(rt; holds(left.target.as_slice(), &[(1, 65536, 0x5A)]));
    }
    Ok(())
}

const PLAIN: &[&str] = &["virt-resize", "a", "b"];

const WITHOUT: &[&str] = &["virt-resize", "--delete", "/dev/sda6", "a", "b"];

// A disk of 256 sectors with a GUID partition table, its first header damaged, and one partition.
fn small_gpt(alloc: Global) -> Result<Vec<u8>, AllocError>
    ensures { IfOk result (λ image. length image.items ≡ 512 * 256) }
{
    let mut image = filled(alloc, 256, 0x75)?;
    fill(image.as_mut_slice(), 0, 34, 0);
    fill(image.as_mut_slice(), 223, 256, 0);
    put_gpt(image.as_mut_slice(), 256, &[(64, 103)]);
    flip(image.as_mut_slice(), 528);
    Ok(image)
}

// A disk of 1024 sectors whose extended partition has three logical ones.
fn small_chain(alloc: Global) -> Result<Vec<u8>, AllocError>
    ensures { IfOk result (λ image. length image.items ≡ 512 * 1024) }
{
    let mut image = with_slots(alloc, 1024, 0x75, &[(5, 128, 740)])?;
    let own = (0x83, 128, 100);
    put_record(image.as_mut_slice(), 128, &[own, (5, 256, 228)]);
    put_record(image.as_mut_slice(), 384, &[own, (5, 512, 228)]);
    put_record(image.as_mut_slice(), 640, &[own]);
    Ok(image)
}

// What a run over one of these disks leaves, with a call that fails.
fn small_left(alloc: Global, is_gpt: bool, failing: Failing) -> Result<Left, AllocError> {
    let left = if is_gpt {
        let source = small_gpt(alloc)?;
        failing_to(alloc, PLAIN, source, 400, failing)?
    } else {
        let source = small_chain(alloc)?;
        failing_to(alloc, WITHOUT, source, 1024, failing)?
    };
    Ok(Left {
        status: left.status,
        table: left.target.get(510).copied(),
        out: left.out,
        err: left.err,
    })
}

// What they print before they write, and in all.
fn small_texts(is_gpt: bool) -> (&'static [u8], &'static [u8]) {
    if is_gpt {
        (
            b"/dev/sda1: kept 64+40 -> /dev/sda1 64+40\n",
            b"/dev/sda1: kept 64+40 -> /dev/sda1 64+40\ndone\n",
        )
    } else {
        (
            b"/dev/sda1: extended 128+740 -> /dev/sda1 128+484\n/dev/sda5: kept 256+100 -> /dev/sda5 256+100\n/dev/sda6: deleted 512+100\n/dev/sda7: kept 768+100 -> /dev/sda6 512+100\n",
            b"/dev/sda1: extended 128+740 -> /dev/sda1 128+484\n/dev/sda5: kept 256+100 -> /dev/sda5 256+100\n/dev/sda6: deleted 512+100\n/dev/sda7: kept 768+100 -> /dev/sda6 512+100\ndone\n",
        )
    }
}

// The source is attached and its table is read, the backup and its array too, or the three records; each partition but the
// extended one is looked at three times; then the content is copied, or both contents, and the boot area.
#[test]
fn each_call_of_a_source_with_another_table_may_fail(rt: HostRuntime) -> Result<(), Fail> {
    for step in 0..32u64 {
        let (is_gpt, number) = (step < 12, if step < 12 { step } else { step - 12 });
        let (ready, calls) = if is_gpt { (9, 11) } else { (16, 19) };
        let failing = Failing {
            source: Some(number),
            ..NONE
        };
        let left = small_left(rt.alloc(), is_gpt, failing)?;
        let (summary, all) = small_texts(is_gpt);
        let (status, out, err, table) = if number < ready {
            (5, b"".as_slice(), SOURCE, 0x5A)
        } else if number < calls {
            (5, summary, SOURCE, 0)
        } else {
            (0, all, b"".as_slice(), 0x55)
        };
        assert_eq!(rt;
            (left.status, left.table),
            (status, Some(table)),
            "step {step}"
        );
        assert_eq!(rt;
            (left.out.as_slice(), left.err.as_slice()),
            (out, err),
            "step {step}"
        );
    }
    Ok(())
}

// The target is attached, cleared and flushed; the contents, the boot area and the table but for sector 0 are
// written and flushed, then sector 0 is written and flushed.
#[test]
fn each_call_of_a_target_with_another_table_may_fail(rt: HostRuntime) -> Result<(), Fail> {
    for step in 0..25u64 {
        let (is_gpt, number) = (step < 13, if step < 13 { step } else { step - 13 });
        let (last, calls) = if is_gpt { (11, 12) } else { (10, 11) };
        let failing = Failing {
            target: Some(number),
            ..NONE
        };
        let left = small_left(rt.alloc(), is_gpt, failing)?;
        let (summary, all) = small_texts(is_gpt);
        let (status, out, err, table) = if number == 0 {
            (6, b"".as_slice(), TARGET, 0x5A)
        } else if number == 1 {
            (6, summary, TARGET, 0x5A)
        } else if number == calls {
            (0, all, b"".as_slice(), 0x55)
        } else {
            (6, summary, TARGET, if number == last { 0x55 } else { 0 })
        };
        assert_eq!(rt;
            (left.status, left.table),
            (status, Some(table)),
            "step {step}"
        );
        assert_eq!(rt;
            (left.out.as_slice(), left.err.as_slice()),
            (out, err),
            "step {step}"
        );
    }
    Ok(())
}
