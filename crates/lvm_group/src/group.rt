//! Groups, and what they give.
ghost use Rattle.std.specs.Prelude.{◌≡◌, ◌<◌, ◌^◌, length, slice_get};
ghost use Rattle.lvm_group.specs.Judged.{extents_from};
ghost use Rattle.lvm_group.specs.Volumes.{IsItemAt, device_sectors, names_of};
ghost use Rattle.lvm_group.specs.declared.spans.Volume.{Volume};

use crate::spans::{Volume, device_at, extent_count};
use crate::types::{LogicalVolume, Member, Spelt};
use disk_base::List;
use lvm_text::Tree;

/// A group of volumes: what its text spells, over the partitions that were found.
#[derive(Debug, Drop)]
pub struct Group {
    pub(crate) spelt: Spelt,
    pub(crate) tree: Tree,
    pub(crate) members: List<Member>,
    pub(crate) volumes: List<Volume>,
    pub(crate) free: List<(u32, u64, u64)>,
    ghost few_members: { length members < 2 ^ 32 },
    ghost few_volumes: { length volumes < 2 ^ 32 },
    ghost each_volume: { length volumes ≡ length spelt.logicals },
}

fn name_at(ls: &[LogicalVolume], lv: usize) -> &[u8]
    requires { lv < length ls.now }
    ensures { IsItemAt lv (names_of ls.now) result.now }
{
    ls[lv].name.bytes()
}

impl Group {
    /// Its name.
    pub fn name(&self) -> &[u8]
        ensures { result.now ≡ self.now.spelt.name }
    {
        self.spelt.name.bytes()
    }

    /// Its text, as a tree.
    pub fn tree(&self) -> &Tree
        ensures { result.now ≡ self.now.tree }
    {
        &self.tree
    }

    /// How many physical volumes it has.
    pub fn member_count(&self) -> u32
        ensures { result ≡ length self.now.members }
    {
        self.members.items().len() as u32
    }

    /// Physical volume `m`, in the text's order.
    pub fn member(&self, m: u32) -> &Member
        requires { m < length self.now.members }
        ensures { IsItemAt m self.now.members result.now }
    {
        &self.members.items()[m as usize]
    }

    /// How many extents physical volume `m` has: its `pe_count`.
    pub fn extents(&self, m: u32) -> u64
        requires { m < length self.now.members }
        ensures { result ≡ extents_from 0 m self.now.spelt.physicals }
    {
        u64::from(extent_count(self.spelt.physicals.items(), m))
    }

    /// How many sectors physical volume `m` has by the text: its `dev_size`, or what its extents reach, if that is more.
    /// Real tools leave it smaller than its extents where they made the volume longer.
    pub fn device_sectors(&self, m: u32) -> u64
        requires { m < length self.now.members }
        ensures { result ≡ device_sectors self.now.spelt.extent (slice_get self.now.spelt.physicals m) }
    {
        device_at(self.spelt.physicals.items(), self.spelt.extent, m as usize)
    }

    /// How many logical volumes it has.
    pub fn count(&self) -> u32
        ensures { result ≡ length self.now.volumes }
    {
        self.volumes.items().len() as u32
    }

    /// The name of logical volume `lv`, in the text's order.
    pub fn lv_name(&self, lv: u32) -> &[u8]
        requires { lv < length self.now.volumes }
        ensures { IsItemAt lv (names_of self.now.spelt.logicals) result.now }
    {
        name_at(self.spelt.logicals.items(), lv as usize)
    }

    /// How many extents logical volume `lv` has.
    pub fn lv_extents(&self, lv: u32) -> u64
        requires { lv < length self.now.volumes }
        ensures { (volume : Volume) → IsItemAt lv self.now.volumes volume → result ≡ volume.extents }
    {
        self.volumes.items()[lv as usize].extents
    }

    /// The runs of logical volume `lv`, in its order: each with its physical volume, its first sector there and its
    /// sectors.
    pub fn runs_of(&self, lv: u32) -> &[(u32, u64, u64)]
        requires { lv < length self.now.volumes }
        ensures { (volume : Volume) → IsItemAt lv self.now.volumes volume → result.now ≡ volume.runs }
    {
        self.volumes.items()[lv as usize].runs.items()
    }

    /// The free extents as greatest runs, physical volume by physical volume in the text's order and rising: each with its
    /// physical volume, its first sector there and its sectors.
    pub fn free_extents(&self) -> &[(u32, u64, u64)]
        ensures { result.now ≡ self.now.free }
    {
        self.free.items()
    }
}
