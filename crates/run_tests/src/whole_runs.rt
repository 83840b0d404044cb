//! Whole runs over a disk with a table of MBR, and what is told where a device fails.
ghost use Rattle.std.specs.Prelude.{◌≤◌};

use run_fixtures::{
    Failing, Left, NONE, SOURCE, Seen, Slot, TARGET, after_run, are_all, filled, part, put,
    with_slots,
};
use std::alloc::{AllocError, Global};
use std::test::Fail;

// Copies a disk of 65536 sectors with one partition to a target of `sectors` sectors.
fn copied_to(alloc: Global, sectors: u64) -> Result<Seen, AllocError>
    requires { sectors ≤ 131072 }
{
    let source = with_slots(alloc, 65536, 75, &[(0x83, 2048, 20480)])?;
    let target = filled(alloc, sectors, 0)?;
    after_run(alloc, &["virt-resize", "a", "b"], source, target, NONE)
}

const KEPT: &[u8] = b"/dev/sda1: kept 2048+20480 -> /dev/sda1 2048+20480\ndone\n";

#[test]
fn one_partition_is_copied_and_the_rest_becomes_another(rt: HostRuntime) -> Result<(), Fail> {
    let left = copied_to(rt.alloc(), 65536)?;
    let image = left.target.as_slice();
    assert_eq!(rt; left.status, 0);
    assert_eq!(rt;
        left.out.as_slice(),
        b"/dev/sda1: kept 2048+20480 -> /dev/sda1 2048+20480\nextra: /dev/sda2 22528+43008\ndone\n".as_slice()
    );
    assert_eq!(rt;
        part(image, 446, 462),
        [
            0, 0xFE, 0xFF, 0xFF, 0x83, 0xFE, 0xFF, 0xFF, 0, 8, 0, 0, 0, 0x50, 0, 0
        ]
        .as_slice()
    );
    assert_eq!(rt;
        part(image, 462, 478),
        [
            0, 0xFE, 0xFF, 0xFF, 0x83, 0xFE, 0xFF, 0xFF, 0, 0x58, 0, 0, 0, 0xA8, 0, 0
        ]
        .as_slice()
    );
    assert_eq!(rt; image.len(), 33554432);
    assert!(rt; are_all(part(image, 512, 11534336), 75));
    assert!(rt; are_all(part(image, 11534336, 33554432), 0));
    Ok(())
}

#[test]
fn targets_that_fit_and_that_do_not(rt: HostRuntime) -> Result<(), Fail> {
    let cases: [(u16, u8, &[u8], &[u8]); 5] = [
        (43007, 0, KEPT, b""),
        (
            43008,
            0,
            b"/dev/sda1: kept 2048+20480 -> /dev/sda1 2048+20480\nextra: /dev/sda2 22528+20480\ndone\n",
            b"",
        ),
        (22528, 0, KEPT, b""),
        (
            22527,
            4,
            b"",
            b"virt-resize: no plan: DoesNotFit end=22528 limit=22527\n",
        ),
        (1, 4, b"", b"virt-resize: no plan: TooSmall sectors=1\n"),
    ];
    for (sectors, status, out, err) in cases {
        let left = copied_to(rt.alloc(), u64::from(sectors))?;
        assert_eq!(rt; left.status, status, "at {sectors}");
        assert_eq!(rt; left.out.as_slice(), out, "at {sectors}");
        assert_eq!(rt; left.err.as_slice(), err, "at {sectors}");
    }
    Ok(())
}

#[test]
fn what_is_no_job_or_no_source_is_told(rt: HostRuntime) -> Result<(), Fail> {
    let alloc = rt.alloc();
    let cases: [(&[&str], u16, &[Slot], u8, &[u8]); 15] = [
        (
            &["virt-resize", "--lv-expand", "vg/root", "a", "b"],
            8,
            &[],
            9,
            b"virt-resize: not yet\n",
        ),
        (
            &["virt-sparsify", "--in-place", "a"],
            8,
            &[],
            9,
            b"virt-sparsify: not yet\n",
        ),
        (
            &["virt-sparsify", "a", "b"],
            8,
            &[],
            9,
            b"virt-sparsify: not yet\n",
        ),
        (&["frob"], 8, &[], 1, b"virt: usage: Tool\n"),
        (&[], 8, &[], 1, b"virt: usage: Tool\n"),
        (
            &["virt-resize", "a"],
            8,
            &[],
            1,
            b"virt-resize: usage: Missing\n",
        ),
        (
            &["virt-resize", "a", "a"],
            8,
            &[],
            1,
            b"virt-resize: usage: Same\n",
        ),
        (
            &["virt-resize", "a", "b", "c"],
            8,
            &[],
            1,
            b"virt-resize: usage: Extra place=3\n",
        ),
        (
            &["virt-resize", "--frob", "a", "b"],
            8,
            &[],
            1,
            b"virt-resize: usage: Unknown place=1\n",
        ),
        (
            &["virt-sparsify", "--zero", "/dev/vg", "a", "b"],
            8,
            &[],
            1,
            b"virt-sparsify: usage: Value place=2\n",
        ),
        (
            &["virt-resize", "a", "b"],
            20000,
            &[(0x83, 2048, 20480)],
            2,
            b"virt-resize: source: Entry number=1\n",
        ),
        (
            &["virt-resize", "a", "b"],
            0,
            &[],
            2,
            b"virt-resize: source: NoSignature\n",
        ),
        (
            &["virt-resize", "a", "b"],
            8,
            &[(0x83, 1, 4), (0x83, 4, 2)],
            2,
            b"virt-resize: source: Overlap a=1 b=2\n",
        ),
        (
            &["virt-resize", "a", "b"],
            8,
            &[(0xEE, 1, 7)],
            2,
            b"virt-resize: source: NoHeader\n",
        ),
        (
            &["virt-resize", "a", "b"],
            8,
            &[(0x83, 1, 2), (0x0F, 4, 2)],
            2,
            b"virt-resize: source: Chain at=4\n",
        ),
    ];
    for (words, sectors, slots, status, line) in cases {
        let source = with_slots(alloc, u64::from(sectors), 75, slots)?;
        let told = after_run(alloc, words, source, filled(alloc, 8, 0x5A)?, NONE)?;
        assert_eq!(rt;
            (told.status, told.err.as_slice()),
            (status, line),
            "at {words:?}"
        );
        assert!(rt; told.out.is_empty());
        assert!(rt; told.target.iter().all(|byte| *byte == 0x5A));
    }
    Ok(())
}

// Copies the disk with one partition, with a call that fails.
fn failing_copy(alloc: Global, failing: Failing) -> Result<Left, AllocError> {
    let source = with_slots(alloc, 65536, 75, &[(0x83, 2048, 20480)])?;
    let target = filled(alloc, 65536, 0x5A)?;
    let left = after_run(alloc, &["virt-resize", "a", "b"], source, target, failing)?;
    Ok(Left {
        status: left.status,
        out: left.out,
        err: left.err,
        table: left.target.get(510).copied(),
    })
}

const SUMMARY: &[u8] =
    b"/dev/sda1: kept 2048+20480 -> /dev/sda1 2048+20480\nextra: /dev/sda2 22528+43008\n";

const ALL: &[u8] =
    b"/dev/sda1: kept 2048+20480 -> /dev/sda1 2048+20480\nextra: /dev/sda2 22528+43008\ndone\n";

const PRINTING: &[u8] = b"virt-resize: printing\n";

// The source is attached, read three times for its table, three times for what the partition holds, ten times to copy it
// and once for the boot area.
#[test]
fn each_call_of_the_source_may_fail(rt: HostRuntime) -> Result<(), Fail> {
    let alloc = rt.alloc();
    for number in 0..19 {
        let failing = Failing {
            source: Some(number),
            ..NONE
        };
        let left = failing_copy(alloc, failing)?;
        let (status, out, err, table) = match number {
            0..=6 => (5, b"".as_slice(), SOURCE, 0x5A),
            18 => (0, ALL, b"".as_slice(), 0x55),
            _ => (5, SUMMARY, SOURCE, 0),
        };
        assert_eq!(rt;
            (left.status, left.table),
            (status, Some(table)),
            "call {number}"
        );
        assert_eq!(rt;
            (left.out.as_slice(), left.err.as_slice()),
            (out, err),
            "call {number}"
        );
    }
    Ok(())
}

// The target is attached, cleared and flushed, written eleven times and flushed, given its table and flushed.
#[test]
fn each_call_of_the_target_may_fail(rt: HostRuntime) -> Result<(), Fail> {
    let alloc = rt.alloc();
    for number in 0..18 {
        let failing = Failing {
            target: Some(number),
            ..NONE
        };
        let left = failing_copy(alloc, failing)?;
        let (status, out, err, table) = match number {
            0 => (6, b"".as_slice(), TARGET, 0x5A),
            1 => (6, SUMMARY, TARGET, 0x5A),
            16 => (6, SUMMARY, TARGET, 0x55),
            17 => (0, ALL, b"".as_slice(), 0x55),
            _ => (6, SUMMARY, TARGET, 0),
        };
        assert_eq!(rt;
            (left.status, left.table),
            (status, Some(table)),
            "call {number}"
        );
        assert_eq!(rt;
            (left.out.as_slice(), left.err.as_slice()),
            (out, err),
            "call {number}"
        );
    }
    Ok(())
}

// What a stream that fails leaves, where it takes nothing then.
#[test]
fn each_stream_may_fail(rt: HostRuntime) -> Result<(), Fail> {
    let alloc = rt.alloc();
    let first = Failing {
        out: Some(0),
        ..NONE
    };
    let second = Failing {
        out: Some(1),
        ..NONE
    };
    let unheard = Failing {
        err: Some(0),
        ..NONE
    };
    let both = Failing {
        source: Some(0),
        ..unheard
    };
    let cases: [(Failing, u8, &[u8], &[u8], u8); 4] = [
        (first, 8, b"", PRINTING, 0x5A),
        (second, 8, SUMMARY, PRINTING, 0x55),
        (both, 5, b"", b"", 0x5A),
        (unheard, 0, ALL, b"", 0x55),
    ];
    for (failing, status, out, err, table) in cases {
        let left = failing_copy(alloc, failing)?;
        assert_eq!(rt;
            (left.status, left.table),
            (status, Some(table)),
            "at {failing:?}"
        );
        assert_eq!(rt;
            (left.out.as_slice(), left.err.as_slice()),
            (out, err),
            "at {failing:?}"
        );
    }
    Ok(())
}

// Puts a byte of its own, its number, into the first sector of each partition.
fn mark(image: &mut [u8], slots: &[Slot]) {
    for ((_, start, _), number) in slots.iter().zip([1, 2, 3, 4]) {
        put(image, 512 * *start as usize, &[number; 512]);
    }
}

// The first sector in the slots of an image's table, and the byte that stands there, for as many slots as wanted.
fn placed(alloc: Global, image: &[u8], count: usize) -> Result<Vec<(u32, u8)>, AllocError> {
    let mut list = Vec::new(alloc);
    for i in 0..count.min(4) {
        let bytes = part(image, 454 + 16 * i, 458 + 16 * i);
        let start = bytes
            .iter()
            .rev()
            .fold(0u32, |sum, byte| (sum << 8) | u32::from(*byte));
        let first = image.get(512 * start as usize).copied().unwrap_or(0xFF);
        list.push((start, first))?;
    }
    Ok(list)
}

#[test]
fn tables_of_other_shapes_are_copied(rt: HostRuntime) -> Result<(), Fail> {
    let alloc = rt.alloc();
    let cases: [(&[Slot], &[u8], &[(u32, u8)]); 3] = [
        (
            &[
                (0x83, 128, 10),
                (0x82, 256, 10),
                (0x83, 384, 10),
                (0x07, 512, 10),
            ],
            b"/dev/sda1: kept 128+10 -> /dev/sda1 128+10\n/dev/sda2: kept 256+10 -> /dev/sda2 256+10\n/dev/sda3: kept 384+10 -> /dev/sda3 384+10\n/dev/sda4: kept 512+10 -> /dev/sda4 512+10\ndone\n",
            &[(128, 1), (256, 2), (384, 3), (512, 4)],
        ),
        (
            &[(0x83, 8192, 100), (0x83, 2048, 100)],
            b"/dev/sda1: kept 8192+100 -> /dev/sda1 2176+100\n/dev/sda2: kept 2048+100 -> /dev/sda2 2048+100\nextra: /dev/sda3 2304+28416\ndone\n",
            &[(2176, 1), (2048, 2), (2304, 0)],
        ),
        (
            &[],
            b"extra: /dev/sda1 128+30592\ndone\n",
            &[(128, 0), (0, 0)],
        ),
    ];
    for (slots, text, starts) in cases {
        let mut source = with_slots(alloc, 16384, 75, slots)?;
        mark(source.as_mut_slice(), slots);
        let target = filled(alloc, 30720, 0)?;
        let left = after_run(alloc, &["virt-resize", "a", "b"], source, target, NONE)?;
        assert_eq!(rt; (left.status, left.out.as_slice()), (0, text));
        let placed = placed(alloc, left.target.as_slice(), starts.len())?;
        assert_eq!(rt; placed.as_slice(), starts);
    }
    Ok(())
}
