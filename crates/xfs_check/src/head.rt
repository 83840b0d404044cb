//! Reading the headers of a group.
ghost use Rattle.std.specs.Prelude.{◌≡◌, ◌+◌, ◌*◌, ◌<◌, ◌≤◌, length, take, true, IsTrue, IfOk, IfErr, IsErrOf, OnOk};
ghost use Rattle.block_claims.specs.Agreement.{block};
ghost use Rattle.disk_base.specs.Faults.{Rose, HasCause};
ghost use Rattle.xfs_check.specs.Seen.{agf_seen, agi_seen};
ghost use Rattle.xfs_check.specs.inside.Reading.{head_on, IsHeadRead, HasHeadFault, HasAgfFault, HasAgiFault, HasAgflFault};
ghost use Rattle.xfs_super.specs.Geometry.{header_sector, header_seen};
ghost use Rattle.xfs_super.specs.Headers.{IsAgf, IsAgfl, IsAgi, IsSoundAgf, IsSoundAgi, are_used_inside};
ghost use Rattle.xfs_super.specs.Super.{geometry_of};

use disk_base::{Blocks, Failed};
use xfs_super::{Agf, Agi, CheckFault, Super, agf_of, agfl_of, agi_of, used_of};

/// Bytes of a block, and of the largest sector of a file system.
pub(crate) const BLOCK: usize = 4096;

/// The headers of a group but its superblock; the list of free blocks stands in the first bytes of `agfl`.
#[derive(Drop)]
pub(crate) struct Head {
    pub(crate) agf: Agf,
    pub(crate) agi: Agi,
    pub(crate) agfl: [u8; BLOCK],
}

/// The sector of 512 bytes at which header `k` of a group begins.
fn header_sector(geo: &Super, group: u32, k: u32) -> u64
    requires group { group < geo.now.agcount }
    requires few { k ≤ 3 }
    ensures sector { result ≡ header_sector (geometry_of geo.now) group k }
    ensures inside { 512 * result + geo.now.sectsize ≤ 4096 * geo.now.dblocks }
{
    geo.sector_of(group, 0) + u64::from(k) * u64::from(geo.sectsize / 512)
}

/// Reads header `k` of a group into the first bytes of `out`.
fn read_header<B: Blocks>(
    disk: &mut B,
    geo: &Super,
    group: u32,
    k: u32,
    out: &mut [u8; BLOCK],
) -> Result<(), Failed>
    requires volume { 8 * geo.now.dblocks ≤ B.size disk.old }
    requires group { group < geo.now.agcount }
    requires few { k ≤ 3 }
    ensures bytes { IsTrue B.tells → OnOk result
        (take geo.now.sectsize out.new ≡ header_seen (geometry_of geo.now) (block (B.image disk.old)) group k) }
    ensures read { B.only_read disk.old disk.new }
    ensures cause { HasCause (B.faults disk.old) (B.faults disk.new) result }
{
    disk.read(
        header_sector(geo, group, k),
        &mut out[..geo.sectsize as usize],
    )?;
    Ok(())
}

/// The AGF of a group.
fn agf_at<B: Blocks>(disk: &mut B, geo: &Super, group: u32) -> Result<Agf, CheckFault>
    requires volume { 8 * geo.now.dblocks ≤ B.size disk.old }
    requires group { group < geo.now.agcount }
    ensures read { B.only_read disk.old disk.new }
    ensures agf { IsTrue B.tells → IfOk result (λ agf. agf ≡ agf_seen (head_on geo.now group (B.image disk.old))) }
    ensures header { IsTrue B.tells → OnOk result (IsAgf (geometry_of geo.now) group (head_on geo.now group (B.image disk.old)).agf) }
    ensures sound { IfOk result (IsSoundAgf (geometry_of geo.now) group) }
    ensures fault { IsTrue B.tells → IfErr result (HasAgfFault (geometry_of geo.now) group (head_on geo.now group (B.image disk.old))) }
    ensures device { IsErrOf result CheckFault.Device → Rose (B.faults disk.old) (B.faults disk.new) }
{
    let mut bytes = [0; BLOCK];
    read_header(disk, geo, group, 1, &mut bytes)?;
    let agf = agf_of(&bytes[..geo.sectsize as usize], geo, group)?;
    Ok(agf)
}

/// The AGI of a group.
fn agi_at<B: Blocks>(disk: &mut B, geo: &Super, group: u32) -> Result<Agi, CheckFault>
    requires volume { 8 * geo.now.dblocks ≤ B.size disk.old }
    requires group { group < geo.now.agcount }
    ensures read { B.only_read disk.old disk.new }
    ensures agi { IsTrue B.tells → IfOk result (λ agi. agi ≡ agi_seen (head_on geo.now group (B.image disk.old))) }
    ensures header { IsTrue B.tells → OnOk result (IsAgi (geometry_of geo.now) group (head_on geo.now group (B.image disk.old)).agi) }
    ensures sound { IfOk result (IsSoundAgi (geometry_of geo.now) group) }
    ensures fault { IsTrue B.tells → IfErr result (HasAgiFault (geometry_of geo.now) group (head_on geo.now group (B.image disk.old))) }
    ensures device { IsErrOf result CheckFault.Device → Rose (B.faults disk.old) (B.faults disk.new) }
{
    let mut bytes = [0; BLOCK];
    read_header(disk, geo, group, 2, &mut bytes)?;
    let agi = agi_of(&bytes[..geo.sectsize as usize], geo, group)?;
    Ok(agi)
}

/// The list of free blocks of a group, whose AGF that is.
fn agfl_at<B: Blocks>(
    disk: &mut B,
    geo: &Super,
    group: u32,
    agf: &Agf,
) -> Result<[u8; BLOCK], CheckFault>
    requires volume { 8 * geo.now.dblocks ≤ B.size disk.old }
    requires group { group < geo.now.agcount }
    requires agf { IsSoundAgf (geometry_of geo.now) group agf.now }
    requires own { IsTrue B.tells → agf.now ≡ agf_seen (head_on geo.now group (B.image disk.old)) }
    requires header { IsTrue B.tells → IsAgf (geometry_of geo.now) group (head_on geo.now group (B.image disk.old)).agf }
    ensures read { B.only_read disk.old disk.new }
    ensures bytes { IsTrue B.tells → IfOk result (λ bytes. take geo.now.sectsize bytes ≡ (head_on geo.now group (B.image disk.old)).agfl) }
    ensures header { IsTrue B.tells → OnOk result (IsAgfl (geometry_of geo.now) group (head_on geo.now group (B.image disk.old)).agfl) }
    ensures inside { IfOk result (λ bytes. are_used_inside (geometry_of geo.now) group agf.now (take geo.now.sectsize bytes) ≡ true) }
    ensures fault { IsTrue B.tells → IfErr result (HasAgflFault (geometry_of geo.now) group (head_on geo.now group (B.image disk.old))) }
    ensures device { IsErrOf result CheckFault.Device → Rose (B.faults disk.old) (B.faults disk.new) }
{
    let mut bytes = [0; BLOCK];
    read_header(disk, geo, group, 3, &mut bytes)?;
    let sector = &bytes[..geo.sectsize as usize];
    agfl_of(sector, geo, group)?;
    used_of(sector, geo, group, agf)?;
    Ok(bytes)
}

/// The headers of a group.
pub(crate) fn read_head<B: Blocks>(
    disk: &mut B,
    geo: &Super,
    group: u32,
) -> Result<Head, CheckFault>
    requires volume { 8 * geo.now.dblocks ≤ B.size disk.old }
    requires group { group < geo.now.agcount }
    ensures read { B.only_read disk.old disk.new }
    ensures head { IsTrue B.tells → IfOk result
        (IsHeadRead (geometry_of geo.now) group (head_on geo.now group (B.image disk.old))) }
    ensures agf { IfOk result (λ head. IsSoundAgf (geometry_of geo.now) group head.agf) }
    ensures agi { IfOk result (λ head. IsSoundAgi (geometry_of geo.now) group head.agi) }
    ensures inside { IfOk result (λ head. are_used_inside (geometry_of geo.now) group head.agf (take geo.now.sectsize head.agfl) ≡ true) }
    ensures fault { IsTrue B.tells → IfErr result
        (HasHeadFault (geometry_of geo.now) group (head_on geo.now group (B.image disk.old))) }
    ensures device { IsErrOf result CheckFault.Device → Rose (B.faults disk.old) (B.faults disk.new) }
{
    let agf = agf_at(disk, geo, group)?;
    let agi = agi_at(disk, geo, group)?;
    let agfl = agfl_at(disk, geo, group, &agf)?;
    Ok(Head { agf, agi, agfl })
}
