//! Texts of groups over the partitions that have their labels, each with the group or the fault that they make.
use disk_base::List;
use lvm_group::*;
use lvm_label::Label;
use lvm_text::read_text;
use std::alloc::{AllocError, Global};
use std::fmt::Write;
use std::test::*;

/// One physical volume; `root` has its extents 0 to 23 and 32 to 39, and `swap` 24 to 31.
const ONE: &str =
    "vg { seqno = 1 extent_size = 2048 physical_volumes { pv0 { id = \"aaaaaa-aaaa-aaaa-aaaa-aaaa-aaaa-aaaaaa\" dev_size = 133120 pe_start = 2048 pe_count = 64 } } logical_volumes { root { segment_count = 2 segment1 { start_extent = 0 extent_count = 24 type = \"striped\" stripe_count = 1 stripes = [\"pv0\", 0] } segment2 { start_extent = 24 extent_count = 8 type = \"striped\" stripe_count = 1 stripes = [\"pv0\", 32] } } swap { segment_count = 1 segment1 { start_extent = 0 extent_count = 8 type = \"striped\" stripe_count = 1 stripes = [\"pv0\", 24] } } } }";

const SOUND: &str =
    "vg 3=64 root:32 0@2048+49152 0@67584+16384 swap:8 0@51200+16384 free 0@83968+49152";

/// Two physical volumes; `root` has all extents of the first, and extents 0 to 4 of the second.
const TWO: &str =
    "vg { seqno = 1 extent_size = 2048 physical_volumes { pv0 { id = \"aaaaaa-aaaa-aaaa-aaaa-aaaa-aaaa-aaaaaa\" dev_size = 32768 pe_start = 2048 pe_count = 15 } pv1 { id = \"bbbbbb-bbbb-bbbb-bbbb-bbbb-bbbb-bbbbbb\" dev_size = 32768 pe_start = 2048 pe_count = 14 } } logical_volumes { root { segment_count = 2 segment1 { start_extent = 0 extent_count = 15 type = \"striped\" stripe_count = 1 stripes = [\"pv0\", 0] } segment2 { start_extent = 15 extent_count = 5 type = \"striped\" stripe_count = 1 stripes = [\"pv1\", 0] } } } }";

/// What is changed in the first text, and what that gives.
const CHANGES: [(&str, &str, &str); 36] = [
    ("vg {", "vg {", SOUND),
    ("vg {", "version = 1 vg {", SOUND),
    ("vg {", "w { } vg {", "Field"),
    ("vg {", "vg = 1 wg = 2 # {", "Field"),
    ("vg {", "-vg {", "Field"),
    ("seqno = 1", "", "Field"),
    ("seqno = 1", "seqno = -1", "Field"),
    ("seqno = 1", "seqno = 2147483648", SOUND),
    ("seqno = 1", "seqno = 2147483649", "Field"),
    ("extent_size = 2048", "extent_size = \"2048\"", "Field"),
    ("extent_size = 2048", "extent_size = 0", "Field"),
    ("extent_size = 2048", "extent_size = 2049", "Field"),
    ("dev_size = 133120", "dev_size = 133121", "Field"),
    ("dev_size = 133120", "dev_size = 1", SOUND),
    ("pe_count = 64", "pe_count = 65", "Field"),
    ("pv0 {", "-pv0 {", "Field"),
    ("pv0 {", "note = 1 pv0 {", SOUND),
    ("root {", "-root {", "Field"),
    ("logical_volumes {", "logical_volumes = 1 other {", "Field"),
    ("logical_volumes {", "other {", "vg 3=64 free 0@2048+131072"),
    ("aaaaaa\"", "aaaaab\"", "Members"),
    ("\"striped\"", "\"mirror\"", "Kind lv=0"),
    ("stripe_count = 1", "stripe_count = 2", "Kind lv=0"),
    ("[\"pv0\", 24]", "[\"pv1\", 24]", "Kind lv=1"),
    (", 32]", "]", "Kind lv=0"),
    ("segment_count = 2", "segment_count = 0", "Segments lv=0"),
    (
        "segment_count = 2",
        "segment_count = 1",
        "vg 3=64 root:24 0@2048+49152 swap:8 0@51200+16384 free 0@67584+65536",
    ),
    ("segment_count = 2", "segment_count = 2147483648", "Field"),
    ("start_extent = 24", "start_extent = 23", "Segments lv=0"),
    ("extent_count = 24", "extent_count = 0", "Segments lv=0"),
    (", 32]", ", 57]", "Segments lv=0"),
    (
        ", 32]",
        ", 56]",
        "vg 3=64 root:32 0@2048+49152 0@116736+16384 swap:8 0@51200+16384 free 0@67584+49152",
    ),
    (", 32]", ", -1]", "Segments lv=0"),
    (", 32]", ", 23]", "Segments lv=0"),
    (", 24]", ", 23]", "Segments lv=1"),
    (
        ", 24]",
        ", 48]",
        "vg 3=64 root:32 0@2048+49152 0@67584+16384 swap:8 0@100352+16384 free 0@51200+16384 0@83968+16384 0@116736+16384",
    ),
];

fn member(part: u32, id: u8, areas: u32, sectors: u64) -> Member {
    let label = Label {
        sector: 1,
        offset: 32,
        id: [id; 32],
        size: 512,
        areas,
        start: 4096,
        length: 1044480,
        second: None,
    };
    Member {
        part,
        label,
        sectors,
    }
}

fn changed(alloc: Global, from: &str, to: &str) -> Result<String, Fail> {
    let parts = ONE.split_once(from).ok_or("the text has it")?;
    let mut text = String::from_str(alloc, parts.0)?;
    text.push_str(to)?;
    text.push_str(parts.1)?;
    Ok(text)
}

fn add_runs(line: &mut String, runs: &[(u32, u64, u64)]) -> Result<(), Fail> {
    for (member, start, count) in runs {
        write!(line, " {member}@{start}+{count}")?;
    }
    Ok(())
}

fn shown(alloc: Global, group: &Group) -> Result<String, Fail> {
    let mut line = String::new(alloc);
    let name = std::str::from_utf8(group.name()).unwrap_or("?");
    write!(line, "{name}")?;
    for m in 0..group.member_count() {
        let part = group.member(m).part;
        let extents = group.extents(m);
        write!(line, " {part}={extents}")?;
    }
    for lv in 0..group.count() {
        let name = std::str::from_utf8(group.lv_name(lv)).unwrap_or("?");
        let extents = group.lv_extents(lv);
        write!(line, " {name}:{extents}")?;
        add_runs(&mut line, group.runs_of(lv))?;
    }
    line.push_str(" free")?;
    add_runs(&mut line, group.free_extents())?;
    Ok(line)
}

fn found(alloc: Global, members: &[Member]) -> Result<List<Member>, AllocError> {
    let mut list = List::new(alloc);
    for m in members {
        if list.push(*m).is_err() {
            return Err(AllocError);
        }
    }
    Ok(list)
}

fn answer(alloc: Global, text: &str, members: &[Member]) -> Result<String, Fail> {
    let tree = read_text(alloc, text.as_bytes())
        .ok()
        .ok_or("the text is a tree")?;
    let items = tree.items().len();
    match group_of(alloc, found(alloc, members)?, tree) {
        Err(fault) => Ok(format!(in alloc; "{fault}")?),
        Ok(group) => {
            if group.tree().items().len() != items {
                return Ok(String::from_str(alloc, "another tree")?);
            }
            shown(alloc, &group)
        }
    }
}

#[test]
fn reads_a_group_or_tells_its_first_fault(rt: HostRuntime) -> Result<(), Fail> {
    let alloc = rt.alloc();
    let members = [member(3, b'a', 1, 133120)];
    for (from, to, expected) in &CHANGES {
        let text = changed(alloc, from, to)?;
        let given = answer(alloc, text.as_str(), &members)?;
        assert_eq!(rt; given.as_str(), *expected, "{from} {to}");
    }
    Ok(())
}

#[test]
fn names_each_physical_volume_that_was_found_once(rt: HostRuntime) -> Result<(), Fail> {
    let alloc = rt.alloc();
    let a = member(1, b'a', 1, 32768);
    let b = member(2, b'b', 2, 32768);
    let sound = "vg 1=15 2=14 root:20 0@2048+30720 1@2048+10240 free 1@12288+18432";
    assert_eq!(rt; answer(alloc, TWO, &[a, b])?.as_str(), sound);
    assert_eq!(rt; answer(alloc, TWO, &[b, a])?.as_str(), sound);
    let short = member(2, b'b', 2, 32767);
    let many = member(2, b'b', 3, 32768);
    let none = member(2, b'b', 0, 32768);
    let other = member(3, b'c', 1, 32768);
    assert_eq!(rt; answer(alloc, TWO, &[a, short])?.as_str(), "Field");
    assert_eq!(rt; answer(alloc, TWO, &[a])?.as_str(), "Members");
    assert_eq!(rt; answer(alloc, TWO, &[a, many])?.as_str(), "Members");
    assert_eq!(rt; answer(alloc, TWO, &[a, none])?.as_str(), "Members");
    assert_eq!(rt; answer(alloc, TWO, &[a, b, b])?.as_str(), "Members");
    assert_eq!(rt; answer(alloc, TWO, &[a, b, other])?.as_str(), "Members");
    Ok(())
}
