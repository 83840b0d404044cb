//! The list of free blocks that a group keeps for its trees of free space.
ghost use Rattle.std.specs.Prelude.{◌≡◌, ◌+◌, ◌-◌, ◌*◌, ◌/◌, ◌<◌, ◌≤◌, length, true, slice_index, OnOk, IfErr};
ghost use Rattle.xfs_super.specs.Headers.{agfl_entry, list_capacity, used_entries, are_used_inside, IsAgfl, IsSoundAgf, SpeaksAgainstAgfl, SpeaksAgainstUsed};
ghost use Rattle.xfs_super.specs.Super.{geometry_of};

use crate::agf::Agf;
use crate::bytes::array;
use crate::geometry::Super;
use crate::header::{header_sector, judge};
use crate::reason::Reason;
use disk_base::big_u32;

const MAGIC: u32 = 0x5841_464C;

/// Judges the AGFL of a group, which is the fourth sector of the file system in it. Which of its entries are
/// in use the AGF says: see [`used_of`].
///
/// # Errors
///
/// A reason that speaks against it, where one does: of several, any.
pub fn agfl_of(bytes: &[u8], geo: &Super, group: u32) -> Result<(), Reason>
    requires sector { length bytes.now ≡ geo.now.sectsize }
    requires group { group < geo.now.agcount }
    ensures header { OnOk result (IsAgfl (geometry_of geo.now) group bytes.now) }
    ensures reason { IfErr result (SpeaksAgainstAgfl (geometry_of geo.now) group bytes.now) }
{
    let uuid: [u8; 16] = array(bytes, 8);
    let fits = big_u32(bytes, 0) == MAGIC && big_u32(bytes, 4) == group && uuid == geo.meta;
    judge(bytes, header_sector(geo, group, 3), 32, fits)?;
    Ok(())
}

/// Entry `i` of an AGFL: a block of its group.
pub fn agfl_entry(bytes: &[u8], i: u32) -> u32
    requires { i < list_capacity (length bytes.now) }
    ensures { result ≡ agfl_entry bytes.now i }
{
    big_u32(bytes, 36 + 4 * i as usize)
}

/// The `i`-th of the entries of an AGFL that are in use by an AGF, going round.
pub fn used_entry(bytes: &[u8], agf: &Agf, i: u32) -> u32
    requires sector { 512 ≤ length bytes.now }
    requires short { length bytes.now ≤ 4096 }
    requires first { agf.now.flfirst < list_capacity (length bytes.now) }
    requires used { i < agf.now.flcount }
    requires listed { agf.now.flcount ≤ list_capacity (length bytes.now) }
    ensures { result ≡ slice_index (used_entries agf.now bytes.now) i }
{
    let capacity = ((bytes.len() - 36) / 4) as u32;
    agfl_entry(bytes, (agf.flfirst + i) % capacity)
}

/// Judges the entries of an AGFL that are in use by the AGF of its group.
///
/// # Errors
///
/// `Header`, exactly where one of them is no block of the group.
pub fn used_of(bytes: &[u8], geo: &Super, group: u32, agf: &Agf) -> Result<(), Reason>
    requires sector { length bytes.now ≡ geo.now.sectsize }
    requires group { group < geo.now.agcount }
    requires agf { IsSoundAgf (geometry_of geo.now) group agf.now }
    ensures inside { OnOk result (are_used_inside (geometry_of geo.now) group agf.now bytes.now ≡ true) }
    ensures reason { IfErr result (SpeaksAgainstUsed (geometry_of geo.now) group agf.now bytes.now) }
{
    let len = geo.group_len(group);
    for i in 0..agf.flcount {
        if used_entry(bytes, agf, i) >= len {
            let sector = header_sector(geo, group, 3);
            return Err(Reason::Header { sector });
        }
    }
    Ok(())
}
