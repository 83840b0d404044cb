//! The partitions of a disk with what they hold.
ghost use Rattle.std.specs.Prelude.{◌≡◌, ◌+◌, ◌<◌, IfOk, length};
ghost use Rattle.std.specs.Vec.Iter.{into_iter_items, into_iter_len};
ghost use Rattle.guest_view.specs.Contents.{content_by, part_with, parts_with};
ghost use Rattle.guest_view.specs.inside.Holding.{IsNextContent};

use crate::content::Content;
use crate::guest::GuestPart;
use crate::partition::Partition;
use group_content::{FoundPartition, Standing};
use layout_plan::Role;
use std::alloc::{AllocError, Global};
use std::vec::IntoIter;
use volume_content::Why;

// What the next partition holds, which has that role.
fn next_content(
    role: Role,
    found: &mut IntoIter<FoundPartition>,
    standings: &mut IntoIter<Standing>,
) -> Content
    requires found { 0 < into_iter_len found.old }
    requires standings { 0 < into_iter_len standings.old }
    ensures next { IsNextContent role (into_iter_items found.old) (into_iter_items found.new)
        (into_iter_items standings.old) (into_iter_items standings.new) result }
    ensures found_left { into_iter_len found.new + 1 ≡ into_iter_len found.old }
    ensures standings_left { into_iter_len standings.new + 1 ≡ into_iter_len standings.old }
{
    match (found.next(), standings.next()) {
        (Some(one), Some(standing)) => Content::of(role, one.found, standing),
        _ => Content::Unread(Why::Other),
    }
}

// A partition with what it holds.
fn part_with(partition: &Partition, content: Content) -> GuestPart
    ensures { result ≡ part_with partition.now content }
{
    let Partition {
        number,
        role,
        start,
        count,
        ebr,
    } = *partition;
    GuestPart {
        number,
        role,
        start,
        count,
        ebr,
        content,
    }
}

/// The partitions with what they hold, by what is found in each and what it is among the others.
pub(crate) fn parts_with(
    alloc: Global,
    partitions: &[Partition],
    found: Vec<FoundPartition>,
    standings: Vec<Standing>,
) -> Result<Vec<GuestPart>, AllocError>
    requires found { length found.items ≡ length partitions.now }
    requires standings { length standings.items ≡ length partitions.now }
    ensures { IfOk result (λ parts. parts.items ≡ parts_with partitions.now found.items standings.items) }
{
    let mut found = found.into_iter();
    let mut standings = standings.into_iter();
    let mut parts = Vec::new(alloc);
    for partition in partitions {
        let content = next_content(partition.role, &mut found, &mut standings);
        parts.push(part_with(partition, content))?;
    }
    Ok(parts)
}
