//! What each partition is among the others.
ghost use Rattle.std.specs.Prelude.{◌≡◌, ◌^◌, ◌<◌, ◌≤◌, ◌++◌, ◌∷◌, [], ℕ, List, length, All, AllPairs, IsTrue, IfOk, IfErr, IsErrOf, slice_index_or};
ghost use Rattle.disk_base.specs.Faults.{Rose};
ghost use Rattle.disk_base.specs.Run.{IsWithin};
ghost use Rattle.group_content.specs.Grouped.{HaveTwoNumbers, LieApart, first_part, members_with};
ghost use Rattle.group_content.specs.Standing.{AreStandings, HoldInners, IsGroupOf, IsStanding, IsStandingBy, StandingFits};
ghost use Rattle.group_content.specs.inside.Firsts.{AreOnDisk, AreStandingsOf, IsHeldBy, IsUngrouped, IsSeenFrom, IsSomeGroup};
ghost use Rattle.lvm_text.specs.Faults.{Spells};

use crate::members::{device_of, first_with, member_runs, members_with};
use crate::types::{FoundPartition, GroupContent, Membership, Standing, Ungrouped};
use crate::volumes::volumes_on;
use disk_base::{Blocks, Run};
use group_runs::{members_are_found, volumes_lie_in_members};
use lvm_group::{Group, GroupFault, group_of};
use lvm_text::{TextFault, Tree, read_text};
use partition_content::Found;
use std::alloc::{AllocError, Global};
use volume_content::{ContentFault, Why};

// The tree that a text spells.
fn tree_of(alloc: Global, text: &[u8]) -> Result<Tree, Ungrouped>
    ensures tree { IfOk result (Spells text.now) }
    ensures fault { IfErr result (λ stop. (partitions : List FoundPartition) → IsUngrouped partitions text.now stop) }
{
    match read_text(alloc, text) {
        Ok(tree) => Ok(tree),
        Err(TextFault::Memory) => Err(Ungrouped::Memory),
        Err(fault) => Err(Ungrouped::Unread(Why::Text(fault))),
    }
}

// The group that a tree, which the text spells, makes of the partitions with the text.
fn group_in(
    alloc: Global,
    partitions: &[FoundPartition],
    text: &[u8],
    tree: Tree,
) -> Result<Group, Ungrouped>
    requires { Spells text.now tree }
    ensures group { IfOk result (IsGroupOf partitions.now text.now) }
    ensures fault { IfErr result (IsUngrouped partitions.now text.now) }
{
    let members = match members_with(alloc, partitions, text) {
        Ok(members) => members,
        Err(AllocError) => return Err(Ungrouped::Memory),
    };
    match group_of(alloc, members, tree) {
        Ok(group) => Ok(group),
        Err(GroupFault::Memory) => Err(Ungrouped::Memory),
        Err(fault) => Err(Ungrouped::Unread(Why::Group(fault))),
    }
}

// The group that the text spells over the partitions with the text.
fn group_with(alloc: Global, partitions: &[FoundPartition], text: &[u8]) -> Result<Group, Ungrouped>
    ensures group { IfOk result (IsGroupOf partitions.now text.now) }
    ensures fault { IfErr result (IsUngrouped partitions.now text.now) }
{
    match tree_of(alloc, text) {
        Ok(tree) => group_in(alloc, partitions, text, tree),
        Err(stop) => Err(stop),
    }
}

// What the first partition of a group is, which has that number.
fn hold<B: Blocks>(
    alloc: Global,
    disk: &mut B,
    partitions: &[FoundPartition],
    number: u32,
    group: Group,
) -> Result<Standing, ContentFault>
    requires few { B.size disk.old ≤ 2 ^ 31 }
    requires on_disk { AreOnDisk (B.size disk.old) partitions.now }
    requires some { IsSomeGroup partitions.now group }
    ensures read { B.only_read disk.old disk.new }
    ensures held { IfOk result (IsHeldBy partitions.now number group) }
    ensures inners { IsTrue B.tells → IfOk result (HoldInners (B.image disk.old)) }
    ensures fits { IfOk result StandingFits }
    ensures device { IsErrOf result ContentFault.Device → Rose (B.faults disk.old) (B.faults disk.new) }
{
    let runs = match member_runs(alloc, partitions, &group) {
        Ok(runs) => runs,
        Err(AllocError) => return Err(ContentFault::Memory),
    };
    members_are_found();
    volumes_lie_in_members();
    let volumes = match volumes_on(alloc, disk, &group, runs.as_slice()) {
        Ok(volumes) => volumes,
        Err(fault) => return Err(fault),
    };
    let membership = Membership {
        holder: number,
        device: device_of(&group, number),
    };
    Ok(Standing::Holder(membership, GroupContent { group, volumes }))
}

// What the first partition with a text is, which has that number.
fn first_standing<B: Blocks>(
    alloc: Global,
    disk: &mut B,
    partitions: &[FoundPartition],
    text: &[u8],
    number: u32,
) -> Result<Standing, ContentFault>
    requires few { B.size disk.old ≤ 2 ^ 31 }
    requires on_disk { AreOnDisk (B.size disk.old) partitions.now }
    requires first { first_part (members_with text.now partitions.now) ≡ number }
    ensures read { B.only_read disk.old disk.new }
    ensures standing { IfOk result (IsStandingBy partitions.now text.now number) }
    ensures inners { IsTrue B.tells → IfOk result (HoldInners (B.image disk.old)) }
    ensures fits { IfOk result StandingFits }
    ensures device { IsErrOf result ContentFault.Device → Rose (B.faults disk.old) (B.faults disk.new) }
{
    match group_with(alloc, partitions, text) {
        Ok(group) => hold(alloc, disk, partitions, number, group),
        Err(Ungrouped::Unread(why)) => Ok(Standing::Unread(why)),
        Err(Ungrouped::Memory) => Err(ContentFault::Memory),
    }
}

// What a later partition with a text is, by what the first one is.
fn later_standing(first: &Standing, number: u32) -> Standing
    ensures seen { IsSeenFrom number first.now result }
    ensures inners { (image : List ℕ) → HoldInners image result }
    ensures fits { StandingFits result }
{
    match first {
        Standing::Holder(membership, content) => Standing::Member(Membership {
            holder: membership.holder,
            device: device_of(&content.group, number),
        }),
        Standing::Unread(why) => Standing::Unread(*why),
        // The first one is none of these.
        Standing::Alone | Standing::Member(_) => Standing::Alone,
    }
}

// What the partition behind those is of which it is known.
fn next_standing<B: Blocks>(
    alloc: Global,
    disk: &mut B,
    partitions: &[FoundPartition],
    known: &[Standing],
) -> Result<Standing, ContentFault>
    requires few { B.size disk.old ≤ 2 ^ 31 }
    requires on_disk { AreOnDisk (B.size disk.old) partitions.now }
    requires more { length known.now < length partitions.now }
    requires known { AreStandingsOf partitions.now known.now }
    ensures read { B.only_read disk.old disk.new }
    ensures standing { IfOk result (λ standing. (default : FoundPartition)
        → IsStanding partitions.now (slice_index_or partitions.now (length known.now) default) standing) }
    ensures inners { IsTrue B.tells → IfOk result (HoldInners (B.image disk.old)) }
    ensures fits { IfOk result StandingFits }
    ensures device { IsErrOf result ContentFault.Device → Rose (B.faults disk.old) (B.faults disk.new) }
{
    let partition = &partitions[known.len()];
    let text = match &partition.found {
        Found::Inner(_) => return Ok(Standing::Alone),
        Found::Physical(physical) => physical.first.text(),
    };
    let first = first_with(partitions, text, known.len());
    if first < known.len() {
        return Ok(later_standing(&known[first], partition.number));
    }
    first_standing(alloc, disk, partitions, text, partition.number)
}

// Puts one behind the others.
fn add(standings: Vec<Standing>, standing: Standing) -> Result<Vec<Standing>, ContentFault>
    ensures added { IfOk result (λ more. more.items ≡ standings.items ++ standing ∷ []) }
    ensures memory { IsErrOf result ContentFault.Device → ⊥ }
{
    let mut standings = standings;
    match standings.push(standing) {
        Ok(()) => Ok(standings),
        Err(_) => Err(ContentFault::Memory),
    }
}

/// What each of the partitions is among them all, in their order: `partitions` are all of a disk of at most 2^31
/// sectors, no two of one number, and those that are physical volumes lie apart. Nothing is written.
///
/// # Errors
///
/// `Device` where a read of a logical volume failed, and `Memory` where memory was refused.
pub fn standings<B: Blocks>(
    alloc: Global,
    disk: &mut B,
    partitions: &[FoundPartition],
) -> Result<Vec<Standing>, ContentFault>
    requires few { B.size disk.old ≤ 2 ^ 31 }
    requires inside { All (λ partition. IsWithin (B.size disk.old) partition.run) partitions.now }
    requires apart { AllPairs LieApart partitions.now }
    requires numbers { AllPairs HaveTwoNumbers partitions.now }
    ensures read { B.only_read disk.old disk.new }
    ensures standings { IfOk result (λ standings. AreStandings partitions.now standings.items) }
    ensures inners { IsTrue B.tells → IfOk result (λ standings. All (HoldInners (B.image disk.old)) standings.items) }
    ensures fits { IfOk result (λ standings. All StandingFits standings.items) }
    ensures device { IsErrOf result ContentFault.Device → Rose (B.faults disk.old) (B.faults disk.new) }
{
    let mut standings = Vec::new(alloc);
    for _partition in partitions {
        let standing = next_standing(alloc, disk, partitions, standings.as_slice())?;
        standings = add(standings, standing)?;
    }
    Ok(standings)
}
