//! What the headers of a group have in common.
ghost use Rattle.std.specs.Prelude.{◌≡◌, ◌+◌, ◌<◌, ◌≤◌, length, true, Bool, OnOk, IfErr};
ghost use Rattle.xfs_super.specs.Geometry.{header_sector};
ghost use Rattle.xfs_super.specs.Headers.{is_height, PassesAsHeader, SpeaksAgainstHeader};
ghost use Rattle.xfs_super.specs.Super.{geometry_of};

use crate::bytes::has_checksum;
use crate::geometry::Super;
use crate::reason::Reason;

/// The version of each header.
pub(crate) const VERSION: u32 = 1;

/// Whether a tree may have that many levels.
pub(crate) fn is_height(level: u32) -> bool
    ensures { result ≡ is_height level }
{
    1 <= level && level <= 8
}

/// The sector of 512 bytes at which header `k` of a group begins.
pub(crate) fn header_sector(geo: &Super, group: u32, k: u32) -> u64
    requires group { group < geo.now.agcount }
    requires few { k ≤ 3 }
    ensures { result ≡ header_sector (geometry_of geo.now) group k }
{
    geo.sector_of(group, 0) + u64::from(k) * u64::from(geo.sectsize / 512)
}

/// Judges a header that begins at that sector and has its checksum at byte `at`, given whether it passed its
/// other tests.
pub(crate) fn judge(bytes: &[u8], sector: u64, at: usize, passes: bool) -> Result<(), Reason>
    requires { at + 4 ≤ length bytes.now }
    ensures sound { OnOk result (PassesAsHeader at passes bytes.now) }
    ensures reason { IfErr result (SpeaksAgainstHeader sector at passes bytes.now) }
{
    if !has_checksum(bytes, at) {
        return Err(Reason::Checksum { sector });
    }
    if !passes {
        return Err(Reason::Header { sector });
    }
    Ok(())
}
