//! Reading what the logical volumes of a group hold.
ghost use Rattle.std.specs.Prelude.{◌≡◌, ◌^◌, ◌≤◌, ◌++◌, ◌∷◌, [], map, All, AllPairs, IsTrue, IfOk, IsErrOf};
ghost use Rattle.disk_base.specs.Faults.{Rose};
ghost use Rattle.disk_base.specs.Run.{AreApart, IsWithin};
ghost use Rattle.disk_view.specs.Join.{joined_runs, total};
ghost use Rattle.group_content.specs.Grouped.{HoldsInner, VolumeFits, runs_held, volume_places};
ghost use Rattle.group_runs.specs.Places.{LiesInMember, disk_runs, runs_of_volumes};
ghost use Rattle.volume_content.specs.Inner.{InnerFits, IsInner};

use crate::types::GroupVolume;
use disk_base::{Blocks, Run};
use disk_view::View;
use group_runs::disk_runs;
use lvm_group::Group;
use std::alloc::{AllocError, Global};
use volume_content::{ContentFault, Inner, content_of};

// What a volume in these runs holds.
fn inner_on<B: Blocks>(alloc: Global, disk: &mut B, runs: &[Run]) -> Result<Inner, ContentFault>
    requires inside { All (IsWithin (B.size disk.old)) runs.now }
    requires apart { AllPairs AreApart runs.now }
    ensures read { B.only_read disk.old disk.new }
    ensures inner { IsTrue B.tells
        → IfOk result (IsInner (total runs.now) (joined_runs (B.image disk.old) runs.now)) }
    ensures fits { IfOk result (InnerFits (total runs.now)) }
    ensures device { IsErrOf result ContentFault.Device → Rose (B.faults disk.old) (B.faults disk.new) }
{
    let mut view = View::new(disk, runs);
    content_of(alloc, &mut view)
}

// The logical volume in these runs of members.
fn volume_on<B: Blocks>(
    alloc: Global,
    disk: &mut B,
    members: &[Run],
    runs: &[(u32, u64, u64)],
) -> Result<GroupVolume, ContentFault>
    requires few { All (IsWithin (2 ^ 31)) members.now }
    requires lie { All (LiesInMember members.now) runs.now }
    requires inside { All (IsWithin (B.size disk.old)) (disk_runs members.now runs.now) }
    requires apart { AllPairs AreApart (disk_runs members.now runs.now) }
    ensures read { B.only_read disk.old disk.new }
    ensures place { IfOk result (λ volume. volume.runs.items ≡ disk_runs members.now runs.now) }
    ensures inner { IsTrue B.tells → IfOk result (HoldsInner (B.image disk.old)) }
    ensures fits { IfOk result VolumeFits }
    ensures device { IsErrOf result ContentFault.Device → Rose (B.faults disk.old) (B.faults disk.new) }
{
    let runs = match disk_runs(alloc, members, runs) {
        Ok(runs) => runs,
        Err(AllocError) => return Err(ContentFault::Memory),
    };
    match inner_on(alloc, disk, runs.as_slice()) {
        Ok(inner) => Ok(GroupVolume { runs, inner }),
        Err(fault) => Err(fault),
    }
}

// Puts a volume behind the others.
fn add(volumes: Vec<GroupVolume>, volume: GroupVolume) -> Result<Vec<GroupVolume>, ContentFault>
    ensures added { IfOk result (λ more. more.items ≡ volumes.items ++ volume ∷ []) }
    ensures memory { IsErrOf result ContentFault.Device → ⊥ }
{
    let mut volumes = volumes;
    match volumes.push(volume) {
        Ok(()) => Ok(volumes),
        Err(_) => Err(ContentFault::Memory),
    }
}

/// The logical volumes of a group whose members stand in these runs of the disk, in the group's order.
pub(crate) fn volumes_on<B: Blocks>(
    alloc: Global,
    disk: &mut B,
    group: &Group,
    members: &[Run],
) -> Result<Vec<GroupVolume>, ContentFault>
    requires few { B.size disk.old ≤ 2 ^ 31 }
    requires inside { All (IsWithin (B.size disk.old)) members.now }
    requires lie { All (LiesInMember members.now) (runs_of_volumes group.now) }
    requires apart { AllPairs AreApart (disk_runs members.now (runs_of_volumes group.now)) }
    ensures read { B.only_read disk.old disk.new }
    ensures place { IfOk result (λ volumes. map runs_held volumes.items ≡ volume_places members.now group.now) }
    ensures inners { IsTrue B.tells → IfOk result (λ volumes. All (HoldsInner (B.image disk.old)) volumes.items) }
    ensures fits { IfOk result (λ volumes. All VolumeFits volumes.items) }
    ensures device { IsErrOf result ContentFault.Device → Rose (B.faults disk.old) (B.faults disk.new) }
{
    let mut volumes = Vec::new(alloc);
    for lv in 0..group.count() {
        let volume = volume_on(alloc, disk, members, group.runs_of(lv))?;
        volumes = add(volumes, volume)?;
    }
    Ok(volumes)
}
