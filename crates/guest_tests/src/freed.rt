//! What of a disk is free for a job of virt-sparsify, as text.

use crate::alone::volume_disk;
use crate::groups::{PLAIN, TEXT, changed, group_disk, spread_disk};
use crate::written::put_swap;
use disk_base::ByteDisk;
use free_sectors::free_runs;
use guest_view::{Guest, inspect};
use run_set::Runs;
use std::alloc::Global;
use std::fmt::Write;
use std::test::Fail;
use volume_choice::{ChoiceFault, Choices, UnreadVolume, choices};
use words::{Job, SparsifyJob, read_words};

fn add_set(line: &mut String, runs: &Runs) -> Result<(), Fail> {
    for index in 0..runs.count() {
        let (start, count) = runs.get(index);
        write!(line, " {start}+{count}")?;
    }
    Ok(())
}

fn add_unread(line: &mut String, unread: &UnreadVolume) -> Result<(), Fail> {
    let UnreadVolume { part, lv, why } = *unread;
    match lv {
        None => write!(line, " {part} {why}")?,
        Some(lv) => write!(line, " {part}/{lv} {why}")?,
    }
    Ok(())
}

fn add_fault(line: &mut String, fault: &ChoiceFault) -> Result<(), Fail> {
    match fault {
        ChoiceFault::Volume(unread) => add_unread(line, unread)?,
        ChoiceFault::NoSuchVolume { place } => write!(line, " missing {place}")?,
        ChoiceFault::Memory => write!(line, " memory")?,
    }
    Ok(())
}

fn add_free(
    line: &mut String,
    alloc: Global,
    guest: &Guest,
    choices: &Choices,
) -> Result<(), Fail> {
    add_set(line, &free_runs(alloc, guest, choices)?)
}

fn add_answer(
    line: &mut String,
    alloc: Global,
    guest: &Guest,
    job: &SparsifyJob,
) -> Result<(), Fail> {
    match choices(alloc, guest, job) {
        Ok(choices) => add_free(line, alloc, guest, &choices),
        Err(fault) => add_fault(line, &fault),
    }
}

// The job of these words behind the tool's own.
fn job_of(alloc: Global, words: &str) -> Result<SparsifyJob, Fail> {
    let mut all = Vec::new(alloc);
    all.push(String::from_str(alloc, "virt-sparsify")?)?;
    for word in words.split(' ') {
        all.push(String::from_str(alloc, word)?)?;
    }
    match read_words(alloc, all.as_slice()) {
        Ok(Job::Sparsify(job)) => Ok(job),
        _ => Err("the words are a job")?,
    }
}

// The free runs of a disk for a job, or why it can't be done.
fn freed(alloc: Global, disk: &mut ByteDisk, words: &str) -> Result<String, Fail> {
    let job = job_of(alloc, words)?;
    let guest = inspect(alloc, disk)?;
    let mut line = String::new(alloc);
    add_answer(&mut line, alloc, &guest, &job)?;
    Ok(line)
}

// The first free extent is the third of the second physical volume, at 88 + 16 + 2 * 8 = 120; the second page of the swap
// area stands at 136.
const JOBS: [(&str, &str); 14] = [
    ("a b", " 120+8 136+8"),
    ("--ignore /dev/vg/swap a b", " 120+8"),
    ("--zero vg/swap a b", " 120+24"),
    ("--zero /dev/vg/root a b", " 24+48 104+24 136+8"),
    ("--zero vg --ignore vg/swap a b", " 8+72 88+40 144+16"),
    // A group that is ignored keeps its free extents, and one that is zeroed goes with all its partitions.
    ("--ignore vg a b", " 136+8"),
    ("--zero vg a b", " 8+72 88+72"),
    ("--ignore /dev/sda2 a b", ""),
    ("--zero sda2 a b", " 88+72"),
    ("--zero vg --ignore sda2 a b", " 8+72"),
    ("--ignore nogroup --ignore sda1 a b", " missing 2"),
    ("--ignore sda1 --zero vg/nope a b", " missing 4"),
    ("--zero sda3 --ignore other/root a b", " missing 2"),
    ("--ignore vg/swap --zero sda9 a b", " missing 4"),
];

#[test]
fn what_a_group_does_not_use_is_free(rt: HostRuntime) -> Result<(), Fail> {
    let alloc = rt.alloc();
    for (words, expected) in JOBS {
        let mut disk = group_disk(alloc, &PLAIN, [8, 88], [TEXT, TEXT])?.into_disk(None);
        let free = freed(alloc, &mut disk, words)?;
        assert_eq!(rt; free.as_str(), expected, "with {words}");
    }
    Ok(())
}

// The swap area of the second volume has more pages than that.
const DAMAGED: [(&str, &str); 6] = [
    ("a b", " 1/1 Swap"),
    ("--ignore nogroup a b", " 1/1 Swap"),
    ("--ignore sda1 a b", " 1/1 Swap"),
    ("--ignore vg a b", " 1/1 Swap"),
    ("--ignore sda2 a b", ""),
    ("--zero vg/swap a b", " 120+24"),
];

#[test]
fn a_volume_that_can_not_be_read_must_be_named(rt: HostRuntime) -> Result<(), Fail> {
    let alloc = rt.alloc();
    for (words, expected) in DAMAGED {
        let mut disk = group_disk(alloc, &PLAIN, [8, 88], [TEXT, TEXT])?;
        put_swap(&mut disk, 128, 3);
        let free = freed(alloc, &mut disk.into_disk(None), words)?;
        assert_eq!(rt; free.as_str(), expected, "with {words}");
    }
    let text = changed(alloc, "\"striped\"", "\"mirror\"")?;
    let texts = [text.as_str(), text.as_str()];
    let mut disk = group_disk(alloc, &PLAIN, [8, 88], texts)?.into_disk(None);
    assert_eq!(rt;
        freed(alloc, &mut disk, "--ignore sda1 a b")?.as_str(),
        " 2 Kind lv=0"
    );
    Ok(())
}

// The blocks of the whole small volume that nothing uses, from sector 8 on; its partition is longer than it.
const ALONE: &str =
    " 72+64 240+8 264+256 560+8 576+72 680+48 752+280 1072+120 1256+32 1304+240 1584+24 1616+72 1696+8 1728+328";

// The same where the first half of it stands from sector 1064 on, and the second from sector 24 on.
const SPREAD: &str =
    " 64+120 248+32 296+240 576+24 608+72 688+8 720+328 1128+64 1296+8 1320+256 1616+8 1632+72 1736+48 1808+280";

#[test]
fn free_blocks_are_free(rt: HostRuntime) -> Result<(), Fail> {
    let alloc = rt.alloc();
    let mut disk = volume_disk(alloc, 0, &[], false)?.into_disk(None);
    assert_eq!(rt; freed(alloc, &mut disk, "a b")?.as_str(), ALONE);
    assert_eq!(rt;
        freed(alloc, &mut disk, "--zero sda1 a b")?.as_str(),
        " 8+2100"
    );
    let mut disk = spread_disk(alloc)?.into_disk(None);
    assert_eq!(rt; freed(alloc, &mut disk, "a b")?.as_str(), SPREAD);
    let mut disk = volume_disk(alloc, 215, &[0x0D], true)?.into_disk(None);
    assert_eq!(rt; freed(alloc, &mut disk, "a b")?.as_str(), " 1 Reflink");
    assert_eq!(rt; freed(alloc, &mut disk, "--ignore sda1 a b")?.as_str(), "");
    Ok(())
}
