//! The partitions that have one text, as members of a group.
ghost use Rattle.std.specs.Prelude.{◌≡◌, ◌<◌, ◌++◌, ◌∷◌, [], length, List, IfOk};
ghost use Rattle.disk_base.specs.declared.run.Run.{Run as DiskRun};
ghost use Rattle.group_content.specs.Grouped.{device_of, has_text, member_before, member_of, member_runs, members_with, run_numbered};
ghost use Rattle.group_content.specs.inside.Firsts.{HasTextAt, IsFirstWith};
ghost use Rattle.lvm_group.specs.declared.types.Member.{Member as GroupMember};

use crate::types::FoundPartition;
use disk_base::{List, Run};
use lvm_group::{Group, Member};
use partition_content::{Found, Physical};
use std::alloc::{AllocError, Global};

// Whether what is found is a physical volume with that text.
fn has_text(text: &[u8], found: &Found) -> bool
    ensures { result ≡ has_text text.now found.now }
{
    match found {
        Found::Physical(physical) => physical.first.text() == text,
        Found::Inner(_) => false,
    }
}

/// The place of the first partition that has the text, of those before place `end` and of the one there, which has it.
pub(crate) fn first_with(partitions: &[FoundPartition], text: &[u8], end: usize) -> usize
    requires inside { end < length partitions.now }
    requires there { HasTextAt text.now partitions.now end }
    ensures { IsFirstWith text.now partitions.now end result }
{
    for (k, partition) in partitions.iter().enumerate() {
        if has_text(text, &partition.found) {
            return k;
        }
    }
    end
}

// A physical volume as a member of a group.
fn member_of(partition: &FoundPartition, physical: &Physical) -> Member
    ensures { result ≡ member_of partition.now physical.now }
{
    Member {
        part: partition.number,
        label: physical.label,
        sectors: partition.run.count,
    }
}

// Puts a member behind the others.
fn pushed(members: List<Member>, member: Member) -> Result<List<Member>, AllocError>
    ensures { IfOk result (λ more. more ≡ members ++ member ∷ []) }
{
    let mut members = members;
    match members.push(member) {
        Ok(()) => Ok(members),
        Err((_, refused)) => Err(refused),
    }
}

// Puts a partition behind the members, if it has the text.
fn add(
    members: List<Member>,
    partition: &FoundPartition,
    text: &[u8],
) -> Result<List<Member>, AllocError>
    ensures { IfOk result (λ more. (rest : List GroupMember)
        → more ++ rest ≡ members ++ member_before text.now partition.now partition.now.found rest) }
{
    match &partition.found {
        Found::Physical(physical) if physical.first.text() == text => {
            pushed(members, member_of(partition, physical))
        }
        _ => Ok(members),
    }
}

/// All partitions that have the text, as members.
pub(crate) fn members_with(
    alloc: Global,
    partitions: &[FoundPartition],
    text: &[u8],
) -> Result<List<Member>, AllocError>
    ensures { IfOk result (λ members. members ≡ members_with text.now partitions.now) }
{
    let mut members = List::new(alloc);
    for partition in partitions {
        members = add(members, partition, text)?;
    }
    Ok(members)
}

// The run of the partition of that number.
fn run_numbered(partitions: &[FoundPartition], number: u32) -> Run
    ensures { result ≡ run_numbered number partitions.now }
{
    for partition in partitions {
        if partition.number == number {
            return partition.run;
        }
    }
    Run { start: 0, count: 0 }
}

/// The runs of a group's members on the disk, in its order.
pub(crate) fn member_runs(
    alloc: Global,
    partitions: &[FoundPartition],
    group: &Group,
) -> Result<Vec<Run>, AllocError>
    ensures { IfOk result (λ runs. runs.items ≡ member_runs partitions.now group.now.members) }
{
    let mut runs = Vec::new(alloc);
    for m in 0..group.member_count() {
        runs.push(run_numbered(partitions, group.member(m).part))?;
    }
    Ok(runs)
}

/// How many sectors the physical volume on the partition of that number has by the group's text.
pub(crate) fn device_of(group: &Group, number: u32) -> u64
    ensures { result ≡ device_of group.now number }
{
    for m in 0..group.member_count() {
        if group.member(m).part == number {
            return group.device_sectors(m);
        }
    }
    0
}
