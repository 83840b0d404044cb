//! Reading what the partitions of a disk hold.
ghost use Rattle.std.specs.Prelude.{◌≡◌, ◌^◌, ◌≤◌, ◌++◌, ◌∷◌, [], All, AllPairs, IsTrue, IfOk, IsErrOf, length, map};
ghost use Rattle.std.specs.List.{AllZip};
ghost use Rattle.disk_base.specs.Faults.{Rose};
ghost use Rattle.disk_base.specs.Run.{AreApart, IsWithin};
ghost use Rattle.disk_view.specs.Join.{joined_runs, total};
ghost use Rattle.partition_content.specs.Found.{FoundFits, IsFoundIn};
ghost use Rattle.guest_view.specs.Contents.{HaveContents, IsFoundPartition, PartFits, partition_of, run_of_partition};
ghost use Rattle.guest_view.specs.inside.Sound.{EndsOn, LieBeside, Rises, StandFor, StandsFor};

use crate::guest::GuestPart;
use crate::holding::parts_with;
use crate::partition::Partition;
use disk_base::{Blocks, Run};
use disk_view::View;
use group_content::{FoundPartition, standings};
use layout_plan::Role;
use partition_content::{Found, find};
use std::alloc::{AllocError, Global};
use volume_content::{ContentFault, Inner, Why};

// What a volume in these runs holds by itself.
fn find_on<B: Blocks>(alloc: Global, disk: &mut B, runs: &[Run]) -> Result<Found, ContentFault>
    requires few { total runs.now ≤ 2 ^ 31 }
    requires inside { All (IsWithin (B.size disk.old)) runs.now }
    requires apart { AllPairs AreApart runs.now }
    ensures read { B.only_read disk.old disk.new }
    ensures found { IsTrue B.tells
        → IfOk result (IsFoundIn (total runs.now) (joined_runs (B.image disk.old) runs.now)) }
    ensures fits { IfOk result (FoundFits (total runs.now)) }
    ensures device { IsErrOf result ContentFault.Device → Rose (B.faults disk.old) (B.faults disk.new) }
{
    let mut view = View::new(disk, runs);
    find(alloc, &mut view)
}

// What a partition holds by itself, which isn't read of the extended one.
fn find_in<B: Blocks>(
    alloc: Global,
    disk: &mut B,
    partition: &Partition,
) -> Result<FoundPartition, ContentFault>
    requires few { B.size disk.old ≤ 2 ^ 31 }
    requires inside { EndsOn (B.size disk.old) partition.now }
    ensures read { B.only_read disk.old disk.new }
    ensures found { IsTrue B.tells → IfOk result (IsFoundPartition (B.image disk.old) partition.now) }
    ensures stands { IfOk result (StandsFor partition.now) }
    ensures device { IsErrOf result ContentFault.Device → Rose (B.faults disk.old) (B.faults disk.new) }
{
    let Partition {
        number,
        role,
        start,
        count,
        ..
    } = *partition;
    let run = Run { start, count };
    let found = match role {
        Role::Extended => Found::Inner(Inner::Unread(Why::Other)),
        Role::Slot | Role::Logical => find_on(alloc, disk, &[run])?,
    };
    Ok(FoundPartition { number, run, found })
}

// Puts one behind the others.
fn add(found: Vec<FoundPartition>, one: FoundPartition) -> Result<Vec<FoundPartition>, ContentFault>
    ensures added { IfOk result (λ more. more.items ≡ found.items ++ one ∷ []) }
    ensures memory { IsErrOf result ContentFault.Device → ⊥ }
{
    let mut found = found;
    match found.push(one) {
        Ok(()) => Ok(found),
        Err(_) => Err(ContentFault::Memory),
    }
}

// What each of the partitions holds by itself.
fn find_each<B: Blocks>(
    alloc: Global,
    disk: &mut B,
    partitions: &[Partition],
) -> Result<Vec<FoundPartition>, ContentFault>
    requires few { B.size disk.old ≤ 2 ^ 31 }
    requires inside { All (EndsOn (B.size disk.old)) partitions.now }
    ensures read { B.only_read disk.old disk.new }
    ensures found { IsTrue B.tells
        → IfOk result (λ found. AllZip (IsFoundPartition (B.image disk.old)) partitions.now found.items) }
    ensures stand { IfOk result (λ found. StandFor partitions.now found.items) }
    ensures device { IsErrOf result ContentFault.Device → Rose (B.faults disk.old) (B.faults disk.new) }
{
    let mut found = Vec::new(alloc);
    for partition in partitions {
        let one = find_in(alloc, disk, partition)?;
        found = add(found, one)?;
    }
    Ok(found)
}

/// The partitions of a disk with what they hold. Nothing is written.
pub(crate) fn contents<B: Blocks>(
    alloc: Global,
    disk: &mut B,
    partitions: &[Partition],
) -> Result<Vec<GuestPart>, ContentFault>
    requires few { B.size disk.old ≤ 2 ^ 31 }
    requires inside { All (EndsOn (B.size disk.old)) partitions.now }
    requires apart { AllPairs LieBeside partitions.now }
    requires rising { AllPairs Rises partitions.now }
    ensures read { B.only_read disk.old disk.new }
    ensures contents { IsTrue B.tells
        → IfOk result (λ parts. HaveContents (B.image disk.old) partitions.now parts.items) }
    ensures named { IfOk result (λ parts. map partition_of parts.items ≡ partitions.now) }
    ensures fits { IfOk result (λ parts. All PartFits parts.items) }
    ensures device { IsErrOf result ContentFault.Device → Rose (B.faults disk.old) (B.faults disk.new) }
{
    let found = find_each(alloc, disk, partitions)?;
    let standings = standings(alloc, disk, found.as_slice())?;
    match parts_with(alloc, partitions, found, standings) {
        Ok(parts) => Ok(parts),
        Err(AllocError) => Err(ContentFault::Memory),
    }
}
