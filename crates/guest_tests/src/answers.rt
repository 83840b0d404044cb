//! What `inspect` answers of a disk, as text.
ghost use Rattle.guest_view.specs.Contents.{PartFits};

use disk_base::{ByteDisk, Run};
use group_content::{GroupContent, Membership};
use guest_view::{Content, Guest, GuestPart, inspect};
use std::alloc::Global;
use std::fmt::Write;
use std::test::Fail;
use swap_area::Swap;
use volume_content::Inner;
use xfs_check::Volume;

fn add_xfs(lines: &mut String, volume: &Volume) -> Result<(), Fail> {
    let blocks = volume.geo().dblocks;
    write!(lines, " xfs {blocks}")?;
    Ok(())
}

fn add_swap(lines: &mut String, swap: &Swap) -> Result<(), Fail> {
    let last_page = swap.last_page;
    write!(lines, " swap {last_page}")?;
    Ok(())
}

fn add_inner(lines: &mut String, inner: &Inner) -> Result<(), Fail> {
    match inner {
        Inner::Xfs(volume) => add_xfs(lines, volume)?,
        Inner::Swap(swap) => add_swap(lines, swap)?,
        Inner::Unread(why) => write!(lines, " unread {why}")?,
    }
    Ok(())
}

fn add_runs(lines: &mut String, runs: &[Run]) -> Result<(), Fail> {
    for run in runs {
        let Run { start, count } = *run;
        write!(lines, " {start}+{count}")?;
    }
    Ok(())
}

// The logical volumes of a group: where each stands, and what it holds.
fn add_volumes(lines: &mut String, content: &GroupContent) -> Result<(), Fail> {
    for lv in 0..content.group.count() {
        let name = std::str::from_utf8(content.group.lv_name(lv)).unwrap_or("?");
        write!(lines, "; {name}")?;
        if let Some(volume) = content.volumes.as_slice().get(lv as usize) {
            add_runs(lines, volume.runs.as_slice())?;
            add_inner(lines, &volume.inner)?;
        }
    }
    Ok(())
}

fn add_membership(lines: &mut String, membership: &Membership) -> Result<(), Fail> {
    let Membership { holder, device } = *membership;
    write!(lines, " member of {holder} device {device}")?;
    Ok(())
}

// What a partition holds, without the volumes of a group.
fn add_content(lines: &mut String, content: &Content) -> Result<(), Fail> {
    match content {
        Content::Extended => write!(lines, " extended")?,
        Content::Xfs(volume) => add_xfs(lines, volume)?,
        Content::Swap(swap) => add_swap(lines, swap)?,
        Content::Group(_, membership, content) => {
            let name = std::str::from_utf8(content.group.name()).unwrap_or("?");
            write!(lines, " group {name}")?;
            add_membership(lines, membership)?;
        }
        Content::Member(_, membership) => add_membership(lines, membership)?,
        Content::Unread(why) => write!(lines, " unread {why}")?,
    }
    Ok(())
}

fn add_part(lines: &mut String, part: &GuestPart) -> Result<(), Fail>
    requires { PartFits part.now }
{
    let number = part.number;
    let needed = part.needed();
    write!(lines, "{number}")?;
    add_content(lines, &part.content)?;
    write!(lines, " needs {needed}")?;
    if let Content::Group(_, _, content) = &part.content {
        add_volumes(lines, content)?;
    }
    Ok(())
}

fn add_parts(lines: &mut String, guest: &Guest) -> Result<(), Fail> {
    for part in guest.parts() {
        add_part(lines, part)?;
        writeln!(lines)?;
    }
    Ok(())
}

/// What a disk is: a line for each of its partitions, or why it is no guest.
pub(crate) fn answer(alloc: Global, disk: &mut ByteDisk) -> Result<String, Fail> {
    let mut lines = String::new(alloc);
    match inspect(alloc, disk) {
        Ok(guest) => add_parts(&mut lines, &guest)?,
        Err(fault) => write!(lines, "{fault}")?,
    }
    Ok(lines)
}
