//! The group of a physical volume.
ghost use Rattle.std.specs.Prelude.{◌≡◌, ◌*◌, ◌/◌, ◌^◌, ◌<◌, ◌≤◌, length, take, IfOk, IsErrOf};

use crate::fault::Fault;
use disk_base::{Blocks, ByteDisk, List, MOST_SECTORS, SECTOR};
use lvm_group::{Group, Member, group_of};
use lvm_label::{Label, read_label, read_ring};
use lvm_text::{Tree, read_text};
use std::alloc::Global;

/// The whole sectors of those bytes as a disk.
pub fn disk_of(bytes: Vec<u8>) -> Result<ByteDisk, Fault>
    ensures some { IfOk result (λ disk. 4 ≤ disk.sectors) }
    ensures few { IfOk result (λ disk. disk.sectors ≤ 2 ^ 31) }
    ensures sectors { IfOk result (λ disk. disk.sectors ≡ length bytes.items / 512) }
    ensures bytes { IfOk result (λ disk. disk.bytes.items ≡ take (512 * (length bytes.items / 512)) bytes.items) }
    ensures short { IsErrOf result Fault.Label → length bytes.items / 512 < 4 }
    ensures long { IsErrOf result Fault.Long → 2 ^ 31 < length bytes.items / 512 }
{
    let mut whole = bytes;
    let sectors = whole.len() / SECTOR;
    whole.truncate(SECTOR * sectors);
    if sectors < 4 {
        return Err(Fault::Label);
    }
    if sectors as u64 > MOST_SECTORS {
        return Err(Fault::Long);
    }
    Ok(ByteDisk::new(whole, sectors as u64, None))
}

/// The tree that the text of the first metadata area spells.
fn tree_on(alloc: Global, disk: &mut ByteDisk, label: &Label) -> Result<Tree, Fault>
    requires few { disk.old.sectors ≤ 2 ^ 31 }
{
    if label.areas == 0 {
        return Err(Fault::Area);
    }
    let ring = read_ring(alloc, disk, label, 0)?;
    let tree = read_text(alloc, ring.text())?;
    Ok(tree)
}

/// The group whose one physical volume the disk is.
pub fn group_on(alloc: Global, disk: &mut ByteDisk) -> Result<Group, Fault>
    requires some { 4 ≤ disk.old.sectors }
    requires few { disk.old.sectors ≤ 2 ^ 31 }
{
    let sectors = disk.sectors();
    let label = match read_label(disk, &mut [0; 2048])? {
        None => return Err(Fault::Label),
        Some(label) => label,
    };
    let tree = tree_on(alloc, disk, &label)?;
    let member = Member {
        part: 1,
        label,
        sectors,
    };
    let mut members = List::new(alloc);
    if members.push(member).is_err() {
        return Err(Fault::Memory);
    }
    let group = group_of(alloc, members, tree)?;
    Ok(group)
}
