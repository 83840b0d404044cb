//! Checking the free space of a group.
ghost use Rattle.std.specs.Prelude.{◌≡◌, ℕ, ◌+◌, ◌*◌, ◌<◌, ◌≤◌, length, map, take, slice_index, true, IsTrue, IfOk, IfErr, IsErrOf, OnOk};
ghost use Rattle.disk_base.specs.Faults.{Rose};
ghost use Rattle.xfs_alloc.specs.Free.{IsFreeSpace};
ghost use Rattle.xfs_alloc.specs.FreeSpace.{free_space};
ghost use Rattle.xfs_check.specs.Parts.{header_claims, space_parts};
ghost use Rattle.xfs_check.specs.Seen.{agf_seen};
ghost use Rattle.xfs_check.specs.Valid.{SpeaksAgainstSpace, unclaimed};
ghost use Rattle.xfs_check.specs.inside.Reading.{head_on, group_on, IsHeadRead};
ghost use Rattle.xfs_check.specs.inside.Steps.{AreTaken, IsStepRefused};
ghost use Rattle.xfs_super.specs.Headers.{IsSoundAgf, are_used_inside, used_entries};
ghost use Rattle.xfs_super.specs.Super.{geometry_of};
ghost use Rattle.xfs_tree.specs.Marks.{marked, AreClaimed, AdmitsVolume, IsClaimFault};

use crate::head::Head;
use disk_base::Blocks;
use std::alloc::Global;
use xfs_alloc::{Free, free_of};
use xfs_inode::told;
use xfs_super::{Agf, CheckFault, Super, used_entry};
use xfs_tree::{Mark, TreeFault, claim_run};

/// Claims the blocks in which the headers of a group stand.
fn claim_headers<M: Mark>(geo: &Super, group: u32, marks: &mut M) -> Result<(), TreeFault>
    requires group { group < geo.now.agcount }
    requires admits { AdmitsVolume geo.now (M.admits marks.old) }
    ensures claimed { OnOk result
        (AreClaimed geo.now (M.claimed marks.old) (header_claims (geometry_of geo.now) group) (M.claimed marks.new)) }
    ensures fault { IfErr result (IsClaimFault geo.now.agblocks
        (marked geo.now.agblocks (M.claimed marks.old)) (header_claims (geometry_of geo.now) group)) }
    ensures admits { (g b : ℕ) → M.admits marks.new g b ≡ M.admits marks.old g b }
{
    let first = u64::from(group) * u64::from(geo.agblocks);
    if geo.sectsize == 4096 {
        claim_run(geo, first, 4, marks)?;
        return Ok(());
    }
    claim_run(geo, first, 1, marks)?;
    Ok(())
}

/// Block `i` of those that the list of free blocks of a group has, by its number in the volume.
fn listed_block(geo: &Super, group: u32, agf: &Agf, bytes: &[u8], i: u32) -> u64
    requires group { group < geo.now.agcount }
    requires agf { IsSoundAgf (geometry_of geo.now) group agf.now }
    requires sector { length bytes.now ≡ geo.now.sectsize }
    requires inside { are_used_inside (geometry_of geo.now) group agf.now bytes.now ≡ true }
    requires used { i < agf.now.flcount }
    ensures block { result ≡ group * geo.now.agblocks + slice_index (used_entries agf.now bytes.now) i }
    ensures inside { result + 1 ≤ geo.now.dblocks }
{
    u64::from(group) * u64::from(geo.agblocks) + u64::from(used_entry(bytes, agf, i))
}

/// Claims the blocks that the list of free blocks of a group has.
fn claim_list<M: Mark>(
    geo: &Super,
    group: u32,
    agf: &Agf,
    bytes: &[u8],
    marks: &mut M,
) -> Result<(), TreeFault>
    requires group { group < geo.now.agcount }
    requires agf { IsSoundAgf (geometry_of geo.now) group agf.now }
    requires sector { length bytes.now ≡ geo.now.sectsize }
    requires inside { are_used_inside (geometry_of geo.now) group agf.now bytes.now ≡ true }
    requires admits { AdmitsVolume geo.now (M.admits marks.old) }
    ensures claimed { OnOk result (AreClaimed geo.now (M.claimed marks.old)
        (map (λ b. group * geo.now.agblocks + b) (used_entries agf.now bytes.now)) (M.claimed marks.new)) }
    ensures fault { IfErr result (IsClaimFault geo.now.agblocks (marked geo.now.agblocks (M.claimed marks.old))
        (map (λ b. group * geo.now.agblocks + b) (used_entries agf.now bytes.now))) }
    ensures admits { (g b : ℕ) → M.admits marks.new g b ≡ M.admits marks.old g b }
{
    for i in 0..agf.flcount {
        claim_run(geo, listed_block(geo, group, agf, bytes, i), 1, marks)?;
    }
    Ok(())
}

/// Checks the free space of a group whose headers were read, and takes it: the blocks of the headers, those that the
/// list of free blocks has, those of the trees, and those that are free.
pub(crate) fn check_space<B: Blocks, M: Mark>(
    alloc: Global,
    disk: &mut B,
    geo: &Super,
    group: u32,
    head: &Head,
    marks: &mut M,
) -> Result<Free, CheckFault>
    requires volume { 8 * geo.now.dblocks ≤ B.size disk.old }
    requires group { group < geo.now.agcount }
    requires agf { IsSoundAgf (geometry_of geo.now) group head.now.agf }
    requires inside { are_used_inside (geometry_of geo.now) group head.now.agf (take geo.now.sectsize head.now.agfl) ≡ true }
    requires head { IsTrue B.tells → IsHeadRead (geometry_of geo.now) group (head_on geo.now group (B.image disk.old)) head.now }
    requires admits { AdmitsVolume geo.now (M.admits marks.old) }
    ensures read { B.only_read disk.old disk.new }
    ensures space { IsTrue B.tells → IfOk result (λ free.
        free ≡ free_space (geometry_of geo.now) group (group_on geo.now group (B.image disk.old)).free) }
    ensures sound { IsTrue B.tells → OnOk result (IsFreeSpace (geometry_of geo.now) group
        (agf_seen (head_on geo.now group (B.image disk.old))) (group_on geo.now group (B.image disk.old)).free unclaimed) }
    ensures taken { IsTrue B.tells → OnOk result (AreTaken (geometry_of geo.now)
        (space_parts (group_on geo.now group (B.image disk.old)))
        (marked geo.now.agblocks (M.claimed marks.old)) (marked geo.now.agblocks (M.claimed marks.new))) }
    ensures fault { IsTrue B.tells → IfErr result (IsStepRefused
        (SpeaksAgainstSpace (geometry_of geo.now) (group_on geo.now group (B.image disk.old))) (geometry_of geo.now)
        (space_parts (group_on geo.now group (B.image disk.old))) (marked geo.now.agblocks (M.claimed marks.old))) }
    ensures device { IsErrOf result CheckFault.Device → Rose (B.faults disk.old) (B.faults disk.new) }
    ensures admits { (g b : ℕ) → M.admits marks.new g b ≡ M.admits marks.old g b }
{
    match claim_headers(geo, group, marks) {
        Ok(()) => {}
        Err(fault) => return Err(told(geo, fault)),
    }
    let list = &head.agfl[..geo.sectsize as usize];
    match claim_list(geo, group, &head.agf, list, marks) {
        Ok(()) => {}
        Err(fault) => return Err(told(geo, fault)),
    }
    let free = free_of(alloc, disk, geo, group, &head.agf, marks)?;
    Ok(free)
}
