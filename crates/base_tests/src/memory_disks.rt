ghost use Rattle.std.specs.Prelude.{◌<◌, ◌≡◌, ◌≤◌};

use disk_base::*;
use std::alloc::{AllocError, Global};
use std::test::Fail;

const NAME: &str = "a.img";

// Two reads and a `?`: only reads, whatever is answered.
fn read_ends<B: Blocks>(disk: &mut B, out: &mut [u8; 512]) -> Result<(), Failed>
    requires { 0 < B.size disk.old }
    ensures { B.only_read disk.old disk.new }
{
    disk.read(0, out)?;
    disk.read(disk.sectors() - 1, out)?;
    Ok(())
}

// A loop of reads: only reads, whatever is answered.
fn read_each<B: Blocks>(disk: &mut B, out: &mut [u8; 512]) -> Result<(), Failed>
    ensures { B.only_read disk.old disk.new }
{
    let sectors = disk.sectors();
    for at in 0..sectors {
        disk.read(at, out)?;
    }
    Ok(())
}

fn ample() -> MemLimits
    ensures { result.room ≡ 4 }
{
    MemLimits {
        room: 4,
        calls: 16,
        bytes: 4096,
        discards: true,
    }
}

// Attaches to change, writes sectors 1 and 2 in one call, reads sector 1, gives up sector 2 and flushes:
// which of these answered Ok.
fn five_calls(disk: &mut MemDisk, name: &str) -> [bool; 5] {
    let mut done = [false; 5];
    let Ok(()) = disk.attach(name.as_bytes(), Mode::Change) else {
        return done;
    };
    done[0] = true;
    if disk.sectors() == 3 && disk.can_discard() {
        let mut out = [0; 512];
        done[1] = disk.write(1, &[7; 1024]).is_ok();
        done[2] = disk.read(1, &mut out).is_ok();
        done[3] = disk.discard(2, 1).is_ok();
        done[4] = disk.flush().is_ok();
    }
    done
}

// What five calls left: which answered Ok, how many failed, the first bytes of the sectors, how many runs
// were given up.
#[derive(Clone, Copy, Debug, PartialEq, Eq)]
struct Seen {
    done: [bool; 5],
    faults: u64,
    bytes: [Option<u8>; 3],
    given_up: usize,
}

// What five calls leave of a disk of three sectors of ones.
fn after_calls(
    alloc: Global,
    failing: &[u64],
    name: &str,
    limits: MemLimits,
) -> Result<Seen, AllocError>
    requires { 3 ≤ limits.room }
{
    let image = vec![in alloc; 1u8; 1536]?;
    let mut disk = MemDisk::new(alloc, NAME, image, limits, failing.to_vec(alloc)?)?;
    let done = five_calls(&mut disk, name);
    Ok(Seen {
        done,
        faults: disk.faults(),
        bytes: [
            disk.image().get(0).copied(),
            disk.image().get(512).copied(),
            disk.image().get(1024).copied(),
        ],
        given_up: disk.discarded().len(),
    })
}

fn expected(done: [bool; 5], faults: u64, bytes: [u8; 3]) -> Seen {
    Seen {
        done,
        faults,
        bytes: [Some(bytes[0]), Some(bytes[1]), Some(bytes[2])],
        given_up: if done[3] { 1 } else { 0 },
    }
}

#[test]
fn a_disk_fails_where_it_is_told_to(rt: HostRuntime) -> Result<(), Fail> {
    let alloc = rt.alloc();
    let all = ample();
    let done = expected([true; 5], 0, [1, 7, 0xA5]);
    assert_eq!(rt; after_calls(alloc, &[], NAME, all)?, done);
    assert_eq!(rt; after_calls(alloc, &[9, 5], NAME, all)?, done);
    let rows: [(u64, [bool; 5], [u8; 3]); 5] = [
        (0, [false; 5], [1, 1, 1]),
        (1, [true, false, true, true, true], [1, 1, 0xA5]),
        (2, [true, true, false, true, true], [1, 7, 0xA5]),
        (3, [true, true, true, false, true], [1, 7, 7]),
        (4, [true, true, true, true, false], [1, 7, 0xA5]),
    ];
    for (number, answers, bytes) in rows {
        let want = expected(answers, 1, bytes);
        assert_eq!(rt;
            after_calls(alloc, &[number], NAME, all)?,
            want,
            "call {number}"
        );
    }
    let other_name = expected([false; 5], 1, [1, 1, 1]);
    assert_eq!(rt; after_calls(alloc, &[], "b.img", all)?, other_name);
    let few_calls = MemLimits { calls: 3, ..all };
    let want = expected([true, true, true, false, false], 2, [1, 7, 7]);
    assert_eq!(rt; after_calls(alloc, &[], NAME, few_calls)?, want);
    let few_bytes = MemLimits { bytes: 1023, ..all };
    let want = expected([true, false, true, true, true], 1, [1, 1, 0xA5]);
    assert_eq!(rt; after_calls(alloc, &[], NAME, few_bytes)?, want);
    Ok(())
}

#[test]
fn a_disk_is_created_within_its_room(rt: HostRuntime) -> Result<(), Fail> {
    let alloc = rt.alloc();
    let image = vec![in alloc; 1u8; 512]?;
    let mut disk = MemDisk::new(alloc, NAME, image, ample(), Vec::new(alloc))?;
    assert_eq!(rt; disk.sectors(), 1);
    assert_eq!(rt; disk.attach(NAME.as_bytes(), Mode::Create(5)), Err(Failed));
    assert_eq!(rt; disk.sectors(), 1);
    assert_eq!(rt; disk.attach(NAME.as_bytes(), Mode::Create(4)), Ok(()));
    assert_eq!(rt; disk.sectors(), 4);
    assert!(rt; disk.image().iter().all(|byte| *byte == 0));
    let mut out = [1; 512];
    assert_eq!(rt; read_ends(&mut disk, &mut out), Ok(()));
    assert_eq!(rt; read_each(&mut disk, &mut out), Ok(()));
    assert_eq!(rt; out, [0; 512]);
    assert_eq!(rt; disk.calls(), 8);
    assert_eq!(rt; disk.faults(), 1);
    Ok(())
}

// The first bytes of the sectors of the image that a stop inside that call leaves.
fn first_bytes(
    alloc: Global,
    disk: &MemDisk,
    call: u64,
    keep: u64,
    fill: u8,
) -> Result<[Option<u8>; 3], AllocError> {
    if !disk.has_stops(call) {
        return Ok([None; 3]);
    }
    let image = disk.stopped(alloc, call, keep, fill)?;
    Ok([
        image.get(0).copied(),
        image.get(512).copied(),
        image.get(1024).copied(),
    ])
}

#[test]
fn a_stop_leaves_what_was_lasting_and_the_first_sectors_since(rt: HostRuntime) -> Result<(), Fail> {
    let alloc = rt.alloc();
    let image = vec![in alloc; 1u8; 1536]?;
    let mut disk = MemDisk::new(alloc, NAME, image, ample(), [5].to_vec(alloc)?)?;
    let done = five_calls(&mut disk, NAME);
    assert_eq!(rt; done, [true; 5]);
    assert_eq!(rt; disk.attach(b"b.img", Mode::Read), Err(Failed));
    // The call, how many sectors take effect, and whether the last sector is then one that was given up.
    let rows: [(u64, u64, [u8; 3], bool); 18] = [
        (0, 0, [1, 1, 1], false),
        (0, 1, [1, 1, 1], false),
        (0, 9, [1, 1, 1], false),
        (1, 0, [1, 1, 1], false),
        (1, 1, [1, 7, 1], false),
        (1, 9, [1, 7, 7], false),
        (2, 0, [1, 1, 1], false),
        (2, 1, [1, 7, 1], false),
        (2, 9, [1, 7, 7], false),
        (3, 0, [1, 1, 1], false),
        (3, 1, [1, 7, 1], false),
        (3, 9, [1, 7, 0], true),
        (4, 0, [1, 1, 1], false),
        (4, 1, [1, 7, 1], false),
        (4, 9, [1, 7, 0], true),
        (5, 0, [1, 7, 0xA5], false),
        (5, 1, [1, 7, 0xA5], false),
        (5, 9, [1, 7, 0xA5], false),
    ];
    for fill in [0x00, 0x5A] {
        for (call, keep, bytes, given_up) in rows {
            let last = if given_up { fill } else { bytes[2] };
            let want = [Some(bytes[0]), Some(bytes[1]), Some(last)];
            let image = first_bytes(alloc, &disk, call, keep, fill)?;
            assert_eq!(rt; image, want, "call {call}, keep {keep}");
        }
    }
    Ok(())
}

// Creates a disk of two sectors, and writes the second one: which of these answered Ok.
fn two_calls<D: Disk>(disk: &mut D) -> [bool; 3] {
    let mut done = [false; 3];
    let Ok(()) = disk.attach(b"any", Mode::Create(2)) else {
        return done;
    };
    done[0] = true;
    if disk.sectors() == 2 {
        done[1] = disk.write(1, &[7; 512]).is_ok();
    }
    done[2] = disk.flush().is_ok();
    done
}

#[test]
fn a_disk_without_a_record_takes_what_it_has_room_for(rt: HostRuntime) -> Result<(), Fail> {
    let alloc = rt.alloc();
    let mut disk = RamDisk::new(alloc, NAME, 1, 4)?;
    assert!(rt; !disk.can_discard());
    assert_eq!(rt; two_calls(&mut disk), [true; 3]);
    assert_eq!(rt; disk.image().len(), 1024);
    assert_eq!(rt; disk.image().get(511).copied(), Some(0));
    assert_eq!(rt; disk.image().get(512).copied(), Some(7));
    assert_eq!(rt; disk.attach(b"b.img", Mode::Create(5)), Err(Failed));
    assert_eq!(rt; disk.faults(), 1);
    assert_eq!(rt; disk.image().len(), 1024);
    Ok(())
}

#[test]
fn a_disk_of_bytes_has_zeros_behind_them(rt: HostRuntime) -> Result<(), Fail> {
    let alloc = rt.alloc();
    let bytes = vec![in alloc; 3u8; 520]?;
    assert_eq!(rt; bytes.len(), 520);
    let mut disk = ByteDisk::new(bytes, 3, Some(1));
    let mut out = [9; 512];
    assert_eq!(rt; disk.sectors(), 3);
    assert_eq!(rt; disk.read(1, &mut out), Ok(()));
    assert_eq!(rt; [out[0], out[7], out[8], out[511]], [3, 3, 0, 0]);
    assert_eq!(rt; disk.read(0, &mut out), Err(Failed));
    assert_eq!(rt; disk.reads(), 2);
    Ok(())
}

#[test]
fn numbers_are_read_in_both_byte_orders(rt: HostRuntime) {
    let bytes = [0, 1, 2, 3, 4, 5, 6, 7, 8];
    assert_eq!(rt;
        (little_u16(&bytes, 1), big_u16(&bytes, 1)),
        (0x0201, 0x0102)
    );
    assert_eq!(rt;
        (little_u32(&bytes, 1), big_u32(&bytes, 1)),
        (0x0403_0201, 0x0102_0304)
    );
    assert_eq!(rt;
        (little_u64(&bytes, 1), big_u64(&bytes, 1)),
        (0x0807_0605_0403_0201, 0x0102_0304_0506_0708)
    );
    let mut out = [9; 4];
    put(&mut out, 1, &[5, 6]);
    assert_eq!(rt; out, [9, 5, 6, 9]);
    let run = Run { start: 2, count: 3 };
    assert_eq!(rt; run.end(), 5);
}

#[test]
fn a_sink_fails_where_it_is_told_to(rt: HostRuntime) -> Result<(), Fail> {
    let alloc = rt.alloc();
    let mut sink = MemSink::new(alloc, 5, [1].to_vec(alloc)?)?;
    assert_eq!(rt; sink.write(b"one"), Ok(()));
    assert_eq!(rt; sink.write(b"x"), Err(Failed));
    assert_eq!(rt; sink.write(b"two"), Err(Failed));
    assert_eq!(rt; sink.write(b"22"), Ok(()));
    assert_eq!(rt; sink.write(b""), Ok(()));
    assert_eq!(rt; sink.text(), b"one22".as_slice());
    assert_eq!(rt; sink.faults(), 2);
    Ok(())
}

#[test]
fn lists_and_names_hold_what_they_are_given(rt: HostRuntime) -> Result<(), Fail> {
    let alloc = rt.alloc();
    let mut list = List::new(alloc);
    assert!(rt; list.push(3u8).is_ok());
    assert!(rt; list.push(4u8).is_ok());
    assert_eq!(rt; list.items(), [3, 4].as_slice());
    assert_eq!(rt; list.pop(), Some(4));
    assert_eq!(rt; Name::of(alloc, b"a b")?.bytes(), b"a b".as_slice());
    assert_eq!(rt;
        Name::from_vec(b"a".to_vec(alloc)?).bytes(),
        b"a".as_slice()
    );
    assert_eq!(rt;
        format!(in alloc; "{}, {}", DeviceFault::Source, DeviceFault::Target)?.as_str(),
        "source device, target device"
    );
    Ok(())
}
