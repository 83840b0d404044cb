//! Reading an inode.
ghost use Rattle.std.specs.Prelude.{◌≡◌, ◌*◌, ◌<◌, ◌≤◌, length, true, false, IsTrue, MatchOption, IfOk, IfErr, IsErrOf, OnOk};
ghost use Rattle.block_claims.specs.Agreement.{block};
ghost use Rattle.disk_base.specs.Faults.{Rose, HasCause};
ghost use Rattle.xfs_inode.specs.Core.{core_of, fork_of, fork_holds};
ghost use Rattle.xfs_inode.specs.Inode.{front_inode, IsSoundAs, HasInodeFaultAs, IsSoundOn, HasInodeFaultOn};
ghost use Rattle.xfs_inode.specs.Seen.{inode_block, inode_bytes, holds_forks, spells_inode};
ghost use Rattle.xfs_inode.specs.inside.Judging.{is_judged, IsJudgedCore};
ghost use Rattle.xfs_super.specs.Super.{geometry_of};

use crate::bytes::{has_checksum, part};
use crate::core_fields::{Core, core_in};
use crate::fork::fork_in;
use crate::place::{BLOCK, block_named, inode_place, read_block};
use crate::target::{spells_target_block, target_place};
use disk_base::{Blocks, Failed, big_u16, put};
use xfs_super::{CheckFault, Reason, Super};

/// Reads the bytes of an inode into the front of a buffer.
fn read_bytes<B: Blocks>(
    disk: &mut B,
    geo: &Super,
    ino: u64,
    out: &mut [u8; 2048],
) -> Result<(), Failed>
    requires volume { 8 * geo.now.dblocks ≤ B.size disk.old }
    requires inside { inode_block (geometry_of geo.now) ino < geo.now.dblocks }
    ensures bytes { IsTrue B.tells → OnOk result
        (front_inode geo.now out.new ≡ inode_bytes (geometry_of geo.now) (block (B.image disk.old)) ino) }
    ensures read { B.only_read disk.old disk.new }
    ensures cause { HasCause (B.faults disk.old) (B.faults disk.new) result }
{
    let (number, offset) = inode_place(geo, ino);
    let mut buffer = [0; BLOCK];
    read_block(disk, geo, block_named(geo, number), &mut buffer)?;
    put(out, 0, part(&buffer, offset, geo.inodesize as usize));
    Ok(())
}

/// Whether a fork of an inode holds what it has to.
fn holds_fork(geo: &Super, core: &Core, bytes: &[u8], attribute: bool) -> bool
    requires { length bytes.now ≡ geo.now.inodesize }
    ensures { result ≡ fork_holds (fork_of (geometry_of geo.now) core.now bytes.now attribute) }
{
    match fork_in(geo, core, bytes, attribute) {
        Some(_) => true,
        None => false,
    }
}

/// Whether both forks do.
fn holds_forks(geo: &Super, core: &Core, bytes: &[u8]) -> bool
    requires { length bytes.now ≡ geo.now.inodesize }
    ensures { result ≡ holds_forks (geometry_of geo.now) core.now bytes.now }
{
    holds_fork(geo, core, bytes, false) && holds_fork(geo, core, bytes, true)
}

/// Whether the bytes, whose core that is, spell that inode of the volume.
fn spells_inode(geo: &Super, ino: u64, bytes: &[u8], core: &Core) -> bool
    requires long { length bytes.now ≡ geo.now.inodesize }
    requires core { core.now ≡ core_of (geometry_of geo.now) bytes.now }
    ensures { result ≡ spells_inode (geometry_of geo.now) ino bytes.now }
{
    big_u16(bytes, 0) == 0x494E
        && has_checksum(bytes, 100)
        && core.fits(geo, ino)
        && holds_forks(geo, core, bytes)
}

/// The core of that inode of the volume, if the bytes spell it, and the root inode is a directory.
fn judged_core(geo: &Super, ino: u64, bytes: &[u8]) -> Option<Core>
    requires { length bytes.now ≡ geo.now.inodesize }
    ensures { MatchOption result
        (is_judged (geometry_of geo.now) ino bytes.now ≡ false)
        (IsJudgedCore (geometry_of geo.now) ino bytes.now) }
{
    let core = core_in(geo, bytes);
    if !spells_inode(geo, ino, bytes, &core) || !core.is_root_sound(geo, ino) {
        return None;
    }
    Some(core)
}

/// The core of that inode of the volume, whose bytes stand at the front of `bytes`, as they were read with the block
/// that it stands in. Where it is a link whose target has a block of its own, that block is read. It takes no memory.
///
/// # Errors
///
/// `Bad` with `Inode` where the bytes don't spell that inode, by magic, version, checksum, number, identity, kind of
/// file, format or forks, where a link is too long or the block of its target isn't one, or where the root inode is
/// no directory. `Device` where a read failed.
pub fn inode_in<B: Blocks>(
    disk: &mut B,
    geo: &Super,
    ino: u64,
    bytes: &[u8; 2048],
) -> Result<Core, CheckFault>
    requires volume { 8 * geo.now.dblocks ≤ B.size disk.old }
    ensures read { B.only_read disk.old disk.new }
    ensures core { IfOk result (λ core. core ≡ core_of (geometry_of geo.now) (front_inode geo.now bytes.now)) }
    ensures sound { IsTrue B.tells → OnOk result
        (IsSoundAs geo.now ino (front_inode geo.now bytes.now) (B.image disk.old)) }
    ensures fault { IsTrue B.tells → IfErr result
        (HasInodeFaultAs geo.now ino (front_inode geo.now bytes.now) (B.image disk.old)) }
    ensures device { IsErrOf result CheckFault.Device → Rose (B.faults disk.old) (B.faults disk.new) }
{
    let inode = &bytes[..geo.inodesize as usize];
    let Some(core) = judged_core(geo, ino, inode) else {
        return Err(CheckFault::Bad(Reason::Inode { ino }));
    };
    if !core.needs_target_block() {
        return Ok(core);
    }
    let Some(at) = target_place(geo, &core, inode) else {
        return Err(CheckFault::Bad(Reason::Inode { ino }));
    };
    let mut target = [0; BLOCK];
    read_block(disk, geo, at, &mut target)?;
    if !spells_target_block(geo, ino, core.size, at, &target) {
        return Err(CheckFault::Bad(Reason::Inode { ino }));
    }
    Ok(core)
}

/// An inode, which stands in a block of the volume: its core is answered, and its bytes stand in front of `out`
/// then. Where it is a link whose target has a block of its own, that block is read, too. It takes no memory.
///
/// # Errors
///
/// `Bad` and `Device` as [`inode_in`] has them. Then what `out` holds is open.
pub fn read_inode<B: Blocks>(
    disk: &mut B,
    geo: &Super,
    ino: u64,
    out: &mut [u8; 2048],
) -> Result<Core, CheckFault>
    requires volume { 8 * geo.now.dblocks ≤ B.size disk.old }
    requires inside { inode_block (geometry_of geo.now) ino < geo.now.dblocks }
    ensures read { B.only_read disk.old disk.new }
    ensures bytes { IsTrue B.tells → OnOk result
        (front_inode geo.now out.new ≡ inode_bytes (geometry_of geo.now) (block (B.image disk.old)) ino) }
    ensures core { IfOk result (λ core. core ≡ core_of (geometry_of geo.now) (front_inode geo.now out.new)) }
    ensures sound { IsTrue B.tells → OnOk result (IsSoundOn geo.now ino (B.image disk.old)) }
    ensures fault { IsTrue B.tells → IfErr result (HasInodeFaultOn geo.now ino (B.image disk.old)) }
    ensures device { IsErrOf result CheckFault.Device → Rose (B.faults disk.old) (B.faults disk.new) }
{
    read_bytes(disk, geo, ino, out)?;
    inode_in(disk, geo, ino, out)
}
