//! Partitions with texts, each with the group or the fault that they make.
ghost use Rattle.std.specs.Prelude.{◌≡◌, ◌^◌, ◌≤◌, All, AllPairs};
ghost use Rattle.disk_base.specs.Run.{IsWithin};
ghost use Rattle.group_content.specs.Grouped.{HaveTwoNumbers, LieApart};

use crate::disks::{FIRST, SECOND, TEXT, disk_over, image_with};
use disk_base::{ByteDisk, Run};
use disk_view::View;
use group_content::{FoundPartition, GroupContent, Standing, standings};
use partition_content::{Found, find};
use std::alloc::Global;
use std::fmt::Write;
use std::test::Fail;
use volume_content::{ContentFault, Inner};

// What a volume holds, as text.
fn add_inner(line: &mut String, inner: &Inner) -> Result<(), Fail> {
    match inner {
        Inner::Xfs(_) => write!(line, " xfs")?,
        Inner::Swap(swap) => {
            let pages = swap.last_page;
            write!(line, " swap {pages}")?
        }
        Inner::Unread(why) => write!(line, " {why}")?,
    }
    Ok(())
}

fn add_runs(line: &mut String, runs: &[Run]) -> Result<(), Fail> {
    for run in runs {
        let Run { start, count } = *run;
        write!(line, " {start}+{count}")?;
    }
    Ok(())
}

// A group, as text.
fn add_group(line: &mut String, content: &GroupContent) -> Result<(), Fail> {
    let name = std::str::from_utf8(content.group.name()).unwrap_or("?");
    write!(line, " {name}:")?;
    for volume in content.volumes.as_slice() {
        add_runs(line, volume.runs.as_slice())?;
        add_inner(line, &volume.inner)?;
    }
    Ok(())
}

fn shown(alloc: Global, standing: &Standing) -> Result<String, Fail> {
    let mut line = String::new(alloc);
    match standing {
        Standing::Alone => write!(line, "alone")?,
        Standing::Holder(membership, content) => {
            let device = membership.device;
            write!(line, "{device} holds")?;
            add_group(&mut line, content)?;
        }
        Standing::Member(membership) => {
            let device = membership.device;
            let holder = membership.holder;
            write!(line, "{device} of {holder}")?
        }
        Standing::Unread(why) => write!(line, "{why}")?,
    }
    Ok(line)
}

// What a partition of a disk holds by itself.
fn found_at(alloc: Global, disk: &mut ByteDisk, run: Run) -> Result<Found, Fail>
    requires sectors { disk.old.sectors ≡ 136 }
    requires inside { IsWithin 136 run }
    ensures { disk.new.sectors ≡ 136 }
{
    let runs = [run];
    let mut view = View::new(disk, runs.as_slice());
    match find(alloc, &mut view) {
        Ok(found) => Ok(found),
        Err(_) => Err("a read fails")?,
    }
}

// What all are, as text, one a line.
fn lines(
    alloc: Global,
    disk: &mut ByteDisk,
    partitions: &[FoundPartition],
) -> Result<Result<String, ContentFault>, Fail>
    requires few { disk.old.sectors ≤ 2 ^ 31 }
    requires inside { All (λ partition. IsWithin disk.old.sectors partition.run) partitions.now }
    requires apart { AllPairs LieApart partitions.now }
    requires numbers { AllPairs HaveTwoNumbers partitions.now }
{
    let standings = match standings(alloc, disk, partitions) {
        Ok(standings) => standings,
        Err(fault) => return Ok(Err(fault)),
    };
    let mut lines = String::new(alloc);
    for standing in standings.as_slice() {
        let line = shown(alloc, standing)?;
        writeln!(lines, "{line}")?;
    }
    Ok(Ok(lines))
}

// What the two partitions are, by the texts on them, where that read of a volume fails.
fn answer(
    alloc: Global,
    first: &str,
    second: &str,
    failing: Option<u64>,
) -> Result<Result<String, ContentFault>, Fail> {
    let mut disk = disk_over(image_with(alloc, first, second)?, None);
    let one = found_at(alloc, &mut disk, FIRST)?;
    let other = found_at(alloc, &mut disk, SECOND)?;
    let partitions = [
        FoundPartition {
            number: 1,
            run: FIRST,
            found: one,
        },
        FoundPartition {
            number: 2,
            run: SECOND,
            found: other,
        },
    ];
    let mut disk = disk_over(image_with(alloc, first, second)?, failing);
    lines(alloc, &mut disk, partitions.as_slice())
}

// The text with a part of it changed.
fn changed(alloc: Global, from: &str, to: &str) -> Result<String, Fail> {
    let parts = TEXT.split_once(from).ok_or("the text has it")?;
    let mut text = String::from_str(alloc, parts.0)?;
    text.push_str(to)?;
    text.push_str(parts.1)?;
    Ok(text)
}

/// What is changed in the text of the first partition, in that of the second, and what that gives.
const ROWS: [([&str; 2], [&str; 2], &str); 6] = [
    (
        ["vg {", "vg {"],
        ["vg {", "vg {"],
        "64 holds vg: 24+48 88+16 Other 112+16 swap 1\n56 of 1\n",
    ),
    // The swap area is looked for an extent too far, and finds none.
    (
        ["1\", 3", "1\", 2"],
        ["1\", 3", "1\", 2"],
        "64 holds vg: 24+48 88+16 Other 104+16 Other\n56 of 1\n",
    ),
    (
        ["1\", 3", "1\", 4"],
        ["1\", 3", "1\", 4"],
        "Segments lv=1\nSegments lv=1\n",
    ),
    (
        ["no = 1 ", "no = "],
        ["no = 1 ", "no = "],
        "Shape at=13\nShape at=13\n",
    ),
    // The second text is another one of the same length: each is a group of its own, that lacks a member.
    (["vg {", "vg {"], ["no = 1", "no = 2"], "Members\nMembers\n"),
    // The second text ends at once: it spells a tree of no group.
    (["vg {", "vg {"], ["vg {", "\0"], "Members\nField\n"),
];

#[test]
fn partitions_with_one_text_make_a_group(rt: HostRuntime) -> Result<(), Fail> {
    let alloc = rt.alloc();
    for (first, second, expected) in ROWS {
        let one = changed(alloc, first[0], first[1])?;
        let other = changed(alloc, second[0], second[1])?;
        let lines = match answer(alloc, one.as_str(), other.as_str(), None)? {
            Ok(lines) => lines,
            Err(_) => String::from_str(alloc, "no answer")?,
        };
        assert_eq!(rt; lines.as_str(), expected);
    }
    Ok(())
}

// The first sector and the first page of each of the two volumes.
const READS: u64 = 2 * 2;

#[test]
fn a_read_of_a_volume_that_fails_leaves_no_answer(rt: HostRuntime) -> Result<(), Fail> {
    let alloc = rt.alloc();
    for read in 0..READS {
        let failed = answer(alloc, TEXT, TEXT, Some(read))?;
        assert_eq!(rt; failed.err(), Some(ContentFault::Device));
    }
    assert!(rt; answer(alloc, TEXT, TEXT, Some(READS))?.is_ok());
    Ok(())
}
