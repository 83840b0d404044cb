ghost use Rattle.std.specs.Prelude.{◌≡◌, ◌*◌, ◌≤◌, IfOk, length};

use disk_base::{MemDisk, MemLimits, MemSink};
use layout_plan::{Fate, Placed};
use resize_core::*;
use run_copy::Transfer;
use run_end::{End, VolumeFault};
use std::alloc::{AllocError, Global};
use std::test::Fail;
use volume_content::Why;
use words::{Job, read_words};

// That many sectors of bytes 75.
fn filled(alloc: Global, sectors: u64) -> Result<Vec<u8>, AllocError>
    requires { sectors ≤ 64 }
    ensures { IfOk result (λ image. length image.items ≡ 512 * sectors) }
{
    vec![in alloc; 0x75; 512 * sectors as usize]
}

// Makes sector 0 a table with one partition, 8+16.
fn put_table(image: &mut [u8]) {
    if image.len() >= 512 {
        image[..512].fill(0);
        image[450] = 0x83;
        image[454] = 8;
        image[458] = 16;
        image[510] = 0x55;
        image[511] = 0xAA;
    }
}

// An image with that table.
fn image(alloc: Global, sectors: u64) -> Result<Vec<u8>, AllocError>
    requires { sectors ≤ 64 }
    ensures { IfOk result (λ image. length image.items ≡ 512 * sectors) }
{
    let mut image = filled(alloc, sectors)?;
    put_table(image.as_mut_slice());
    Ok(image)
}

fn disk(alloc: Global, name: &str, image: Vec<u8>) -> Result<MemDisk, AllocError>
    requires { length image.items ≡ 512 * 64 }
{
    let limits = MemLimits {
        room: 64,
        calls: 100,
        bytes: 100_000,
        discards: true,
    };
    let disk = MemDisk::new(alloc, name, image, limits, Vec::new(alloc))?;
    Ok(disk)
}

// The words that enlarge the partition.
fn expanding(alloc: Global) -> Result<Vec<String>, AllocError> {
    let mut words = Vec::new(alloc);
    for word in ["virt-resize", "--expand", "sda1", "a", "b"] {
        words.push(String::from_str(alloc, word)?)?;
    }
    Ok(words)
}

#[test]
fn a_job_is_decided_before_it_is_done(rt: HostRuntime) -> Result<(), Fail> {
    let alloc = rt.alloc();
    let mut source = disk(alloc, "a", image(alloc, 64)?)?;
    let found = read_source(alloc, &mut source)
        .ok()
        .ok_or("the source is a guest")?;
    let words = expanding(alloc)?;
    let Ok(Job::Resize(job)) = read_words(alloc, words.as_slice()) else {
        return Err(Fail::from("the words are a job"));
    };
    let ready = prepare(alloc, &found, &job, 64).ok().ok_or("the job fits")?;
    let placed = Placed {
        from: 1,
        number: 1,
        ebr: 0,
        start: 8,
        count: 56,
        fate: Fate::Resized,
    };
    assert_eq!(rt; placed_from(&ready.planned, 1), Some(placed));
    assert_eq!(rt; placed_from(&ready.planned, 2), None);
    let transfers = contents(alloc, found.guest.parts(), &ready.planned, true)?;
    let transfer = Transfer {
        from: 8,
        to: 8,
        count: 16,
        sparse: true,
    };
    assert_eq!(rt; transfers.as_slice(), [transfer].as_slice());
    let stuck = stuck_parts(alloc, found.guest.parts(), &ready.planned, job.grow)?;
    let fault = VolumeFault {
        part: 1,
        why: Why::Other,
    };
    assert_eq!(rt; stuck.as_slice(), [fault].as_slice());
    let text = summary(alloc, &job, &found.guest, &ready.planned, stuck.as_slice())?;
    assert_eq!(rt;
        text.as_str(),
        "/dev/sda1: resized 8+16 -> /dev/sda1 8+56\n/dev/sda1: not expanded: Other\n"
    );
    Ok(())
}

#[test]
fn a_job_is_done_on_disks_in_memory(rt: HostRuntime) -> Result<(), Fail> {
    let alloc = rt.alloc();
    let mut source = disk(alloc, "a", image(alloc, 64)?)?;
    let mut target = disk(alloc, "b", image(alloc, 64)?)?;
    let mut out = MemSink::new(alloc, 1000, Vec::new(alloc))?;
    let words = expanding(alloc)?;
    let Ok(Job::Resize(job)) = read_words(alloc, words.as_slice()) else {
        return Err(Fail::from("the words are a job"));
    };
    let end = resize(alloc, &job, &mut source, &mut target, &mut out);
    assert_eq!(rt; end, End::Done);
    assert_eq!(rt;
        out.text(),
        b"/dev/sda1: resized 8+16 -> /dev/sda1 8+56\n/dev/sda1: not expanded: Other\ndone\n".as_slice()
    );
    assert_eq!(rt;
        target.image().get(446..462).unwrap_or(&[]),
        [
            0, 0xFE, 0xFF, 0xFF, 0x83, 0xFE, 0xFF, 0xFF, 8, 0, 0, 0, 56, 0, 0, 0
        ]
        .as_slice()
    );
    Ok(())
}
