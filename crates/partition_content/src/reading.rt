//! Reading what a partition holds.
ghost use Rattle.std.specs.Prelude.{◌≡◌, ◌^◌, ◌≤◌, None, Some, IsTrue, IfOk, IfErr, IsErrOf, OnOk};
ghost use Rattle.disk_base.specs.Faults.{Rose};
ghost use Rattle.lvm_label.specs.Ring.{HasArea, IsPlacedBy, IsRingBy};
ghost use Rattle.partition_content.specs.Found.{AreasFit, FoundFits, HasLabel, HasOneText, IsFoundIn, IsSecondRing, SecondFits};
ghost use Rattle.partition_content.specs.inside.Stops.{IsAreaStop, IsSecondStop, IsStop, KnowsAreas};
ghost use Rattle.partition_content.specs.declared.found.Stop.TheVariants.{Failed as NotKnown};

use crate::found::{Found, Physical, Stop};
use disk_base::{Blocks, Failed};
use lvm_group::GroupFault;
use lvm_label::{Label, Ring, read_label, read_ring};
use std::alloc::Global;
use volume_content::{ContentFault, Inner, Why, content_of};

/// The bytes of the first four sectors, one of which holds a label.
const LABELS: usize = 2048;

/// Why members are no group: their texts differ, or they have no metadata area or more than two.
const MEMBERS: Stop = Stop::Unread(Why::Group(GroupFault::Members));

// The label of a volume, if it has one.
fn label_of<B: Blocks>(disk: &mut B) -> Result<Option<Label>, Failed>
    ensures read { B.only_read disk.old disk.new }
    ensures label { IsTrue B.tells → IfOk result (HasLabel (B.size disk.old) (B.image disk.old)) }
    ensures known { IfOk result KnowsAreas }
    ensures cause { IfErr result (λ _. Rose (B.faults disk.old) (B.faults disk.new)) }
{
    if disk.sectors() < 4 {
        return Ok(None);
    }
    let mut bytes = [0; LABELS];
    let found = read_label(disk, &mut bytes)?;
    Ok(found)
}

// The ring of a metadata area.
fn ring_of<B: Blocks>(alloc: Global, disk: &mut B, label: &Label, area: u32) -> Result<Ring, Stop>
    requires few { B.size disk.old ≤ 2 ^ 31 }
    requires has { HasArea label.now area }
    ensures read { B.only_read disk.old disk.new }
    ensures placed { OnOk result (IsPlacedBy (B.size disk.old) label.now area) }
    ensures ring { IsTrue B.tells → IfOk result (IsRingBy (B.size disk.old) (B.image disk.old) label.now area) }
    ensures stop { IsTrue B.tells → IfErr result (IsAreaStop (B.size disk.old) (B.image disk.old) label.now area) }
    ensures device { IsErrOf result (NotKnown ContentFault.Device) → Rose (B.faults disk.old) (B.faults disk.new) }
{
    match read_ring(alloc, disk, label, area) {
        Ok(ring) => Ok(ring),
        Err(fault) => Err(Stop::of(fault)),
    }
}

// The ring of the second area, if there is one: it has the text of the first.
fn second_ring<B: Blocks>(
    alloc: Global,
    disk: &mut B,
    label: &Label,
    first: &Ring,
) -> Result<Option<Ring>, Stop>
    requires few { B.size disk.old ≤ 2 ^ 31 }
    requires two { label.now.areas ≤ 2 }
    requires known { KnowsAreas (Some label.now) }
    ensures read { B.only_read disk.old disk.new }
    ensures fits { IfOk result (SecondFits (B.size disk.old) label.now) }
    ensures ring { IsTrue B.tells
        → IfOk result (IsSecondRing (B.size disk.old) (B.image disk.old) label.now first.now) }
    ensures stop { IsTrue B.tells
        → IfErr result (IsSecondStop (B.size disk.old) (B.image disk.old) label.now first.now) }
    ensures device { IsErrOf result (NotKnown ContentFault.Device) → Rose (B.faults disk.old) (B.faults disk.new) }
{
    if label.areas < 2 {
        return Ok(None);
    }
    let ring = match ring_of(alloc, disk, label, 1) {
        Ok(ring) => ring,
        Err(stop) => return Err(stop),
    };
    if ring.text() != first.text() {
        return Err(MEMBERS);
    }
    Ok(Some(ring))
}

// The physical volume with that label.
fn physical_of<B: Blocks>(alloc: Global, disk: &mut B, label: Label) -> Result<Physical, Stop>
    requires few { B.size disk.old ≤ 2 ^ 31 }
    requires known { KnowsAreas (Some label) }
    ensures read { B.only_read disk.old disk.new }
    ensures fits { IfOk result (AreasFit (B.size disk.old)) }
    ensures physical { IsTrue B.tells → IfOk result (HasOneText (B.size disk.old) (B.image disk.old) label) }
    ensures stop { IsTrue B.tells → IfErr result (IsStop (B.size disk.old) (B.image disk.old) label) }
    ensures device { IsErrOf result (NotKnown ContentFault.Device) → Rose (B.faults disk.old) (B.faults disk.new) }
{
    if label.areas == 0 || label.areas > 2 {
        return Err(MEMBERS);
    }
    let first = match ring_of(alloc, disk, &label, 0) {
        Ok(ring) => ring,
        Err(stop) => return Err(stop),
    };
    match second_ring(alloc, disk, &label, &first) {
        Ok(second) => Ok(Physical {
            label,
            first,
            second,
        }),
        Err(stop) => Err(stop),
    }
}

// What a volume without a label holds.
fn found_alone<B: Blocks>(alloc: Global, disk: &mut B) -> Result<Found, ContentFault>
    requires { IsTrue B.tells → HasLabel (B.size disk.old) (B.image disk.old) None }
    ensures read { B.only_read disk.old disk.new }
    ensures found { IsTrue B.tells → IfOk result (IsFoundIn (B.size disk.old) (B.image disk.old)) }
    ensures fits { IfOk result (FoundFits (B.size disk.old)) }
    ensures device { IsErrOf result ContentFault.Device → Rose (B.faults disk.old) (B.faults disk.new) }
{
    match content_of(alloc, disk) {
        Ok(inner) => Ok(Found::Inner(inner)),
        Err(fault) => Err(fault),
    }
}

// What a volume with that label holds.
fn found_with<B: Blocks>(alloc: Global, disk: &mut B, label: Label) -> Result<Found, ContentFault>
    requires few { B.size disk.old ≤ 2 ^ 31 }
    requires labelled { IsTrue B.tells → HasLabel (B.size disk.old) (B.image disk.old) (Some label) }
    requires known { KnowsAreas (Some label) }
    ensures read { B.only_read disk.old disk.new }
    ensures found { IsTrue B.tells → IfOk result (IsFoundIn (B.size disk.old) (B.image disk.old)) }
    ensures fits { IfOk result (FoundFits (B.size disk.old)) }
    ensures device { IsErrOf result ContentFault.Device → Rose (B.faults disk.old) (B.faults disk.new) }
{
    match physical_of(alloc, disk, label) {
        Ok(physical) => Ok(Found::Physical(physical)),
        Err(Stop::Unread(why)) => Ok(Found::Inner(Inner::Unread(why))),
        Err(Stop::Failed(fault)) => Err(fault),
    }
}

/// What a partition holds by itself, which is read as a disk of its own, of at most 2^31 sectors. Nothing is written.
///
/// # Errors
///
/// `Device` where a read failed, and `Memory` where memory was refused: then nothing is known of the partition.
pub fn find<B: Blocks>(alloc: Global, disk: &mut B) -> Result<Found, ContentFault>
    requires { B.size disk.old ≤ 2 ^ 31 }
    ensures read { B.only_read disk.old disk.new }
    ensures found { IsTrue B.tells → IfOk result (IsFoundIn (B.size disk.old) (B.image disk.old)) }
    ensures fits { IfOk result (FoundFits (B.size disk.old)) }
    ensures device { IsErrOf result ContentFault.Device → Rose (B.faults disk.old) (B.faults disk.new) }
{
    let label = match label_of(disk) {
        Ok(label) => label,
        Err(Failed) => return Err(ContentFault::Device),
    };
    match label {
        None => found_alone(alloc, disk),
        Some(label) => found_with(alloc, disk, label),
    }
}
