//! A valid volume.
ghost use Rattle.std.specs.Prelude.{◌≡◌, ℕ, ◌<◌, map, length, slice_index_or};
ghost use Rattle.xfs_check.specs.Volume.{GroupSpace, VolumeSpace};
ghost use Rattle.xfs_check.specs.inside.Grouping.{as_space};
ghost use Rattle.xfs_super.specs.Super.{geometry_of};

use crate::group::Group;
use std::marker::Model;
use xfs_alloc::Free;
use xfs_super::{Agf, Agi, Super};

/// A volume that was found valid: what its superblock says, and the headers and the free space of each of its groups.
#[derive(Drop)]
pub struct Volume {
    geo: Super,
    groups: Vec<Group>,
}

impl Model for Volume {
    ghost use Rattle.std.specs.Prelude.{◌≡◌, map, length};
    ghost use Rattle.xfs_check.specs.Volume.{VolumeSpace};
    ghost use Rattle.xfs_check.specs.inside.Grouping.{as_space};
    ghost use Rattle.xfs_super.specs.Super.{geometry_of};

    ghost Value = { VolumeSpace };

    ghost view = { λ v. record { geometry = geometry_of v.geo; groups = map as_space v.groups.items } };

    ghost invariant = { λ v. length v.groups.items ≡ v.geo.agcount };
}

impl Volume {
    ghost use Rattle.std.specs.Prelude.{◌≡◌, ℕ, ◌<◌, map, length, slice_index_or};
    ghost use Rattle.xfs_check.specs.Volume.{GroupSpace};
    ghost use Rattle.xfs_check.specs.inside.Grouping.{as_space};
    ghost use Rattle.xfs_super.specs.Super.{geometry_of};

    /// A volume of these groups.
    pub(crate) fn of(geo: Super, groups: Vec<Group>) -> Volume
        requires { length groups.items ≡ geo.agcount }
        ensures geometry { result.geometry ≡ geometry_of geo }
        ensures groups { result.groups ≡ map as_space groups.items }
    {
        Volume { geo, groups }
    }

    /// What its superblock says.
    pub fn geo(&self) -> &Super
        ensures { geometry_of result.now ≡ self.now.geometry }
    {
        &self.geo
    }

    /// The AGF of a group.
    pub fn agf(&self, group: u32) -> &Agf
        requires { group < self.now.geometry.agcount }
        ensures { (d : GroupSpace) → result.now ≡ (slice_index_or self.now.groups group d).agf }
    {
        &self.groups[group as usize].agf
    }

    /// The AGI of a group.
    pub fn agi(&self, group: u32) -> &Agi
        requires { group < self.now.geometry.agcount }
        ensures { (d : GroupSpace) → result.now ≡ (slice_index_or self.now.groups group d).agi }
    {
        &self.groups[group as usize].agi
    }

    /// The free space of a group.
    pub fn free(&self, group: u32) -> &Free
        requires { group < self.now.geometry.agcount }
        ensures { (d : GroupSpace) → result.now ≡ (slice_index_or self.now.groups group d).free }
    {
        &self.groups[group as usize].free
    }
}
