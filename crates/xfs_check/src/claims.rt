//! Which blocks of a volume are claimed.
ghost use Rattle.std.specs.Prelude.{◌≡◌, ℕ, ◌<◌, ◌≤◌, false, replicate, length, map, IfOk};
ghost use Rattle.std.specs.List.{range_with_len};
ghost use Rattle.xfs_check.specs.inside.Claiming.{claimed_in, admitted_in};
ghost use Rattle.xfs_super.specs.Geometry.{group_len};
ghost use Rattle.xfs_super.specs.Super.{geometry_of};
ghost use Rattle.xfs_tree.specs.Marks.{AdmitsVolume};

use run_set::Bits;
use std::alloc::{AllocError, Global};
use xfs_super::Super;
use xfs_tree::Mark;

/// A bit for each block of each group: whether it is claimed.
#[derive(Drop)]
pub(crate) struct Claims {
    pub(crate) groups: Vec<Bits>,
}

impl Claims {
    ghost use Rattle.std.specs.Prelude.{◌≡◌, ℕ, false, IfOk};
    ghost use Rattle.xfs_check.specs.inside.Claiming.{claimed_in, admitted_in};
    ghost use Rattle.xfs_tree.specs.Marks.{AdmitsVolume};

    /// No claims on a volume.
    pub(crate) fn new(alloc: Global, geo: &Super) -> Result<Claims, AllocError>
        ensures none { IfOk result (λ claims. (g b : ℕ) → claimed_in claims.groups.items g b ≡ false) }
        ensures admits { IfOk result (λ claims. AdmitsVolume geo.now (admitted_in claims.groups.items)) }
    {
        let mut groups = Vec::new(alloc);
        for group in 0..geo.agcount {
            groups.push(Bits::new(alloc, u64::from(geo.group_len(group)))?)?;
        }
        Ok(Claims { groups })
    }
}

impl Mark for Claims {
    ghost use Rattle.xfs_check.specs.inside.Claiming.{claimed_in, admitted_in};

    ghost claimed = { λ claims. claimed_in claims.groups.items };

    ghost admits = { λ claims. admitted_in claims.groups.items };

    fn claim(&mut self, group: u32, block: u32) -> Result<bool, AllocError> {
        let bits = &mut self.groups[group as usize];
        Ok(bits.take(u64::from(block)))
    }
}
