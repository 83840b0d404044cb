//! Reading what a volume holds.
ghost use Rattle.std.specs.Prelude.{◌≡◌, true, false, IsTrue, IfOk, IfErr, IsErrOf};
ghost use Rattle.disk_base.specs.Faults.{Rose};
ghost use Rattle.volume_content.specs.Inner.{InnerFits, IsInner, has_xfs_magic};

use crate::content::{Inner, Why};
use crate::fault::ContentFault;
use disk_base::{Blocks, Failed, SECTOR, big_u32};
use std::alloc::Global;
use swap_area::PAGE;
use xfs_check::check;
use xfs_super::CheckFault;

/// The bytes `XFSB`, with which an XFS volume begins (XFS Algorithms & Data Structures, "Superblocks").
const MAGIC: u32 = 0x5846_5342;

/// Whether a volume begins with the magic number of XFS.
fn has_xfs_magic<B: Blocks>(disk: &mut B) -> Result<bool, Failed>
    ensures read { B.only_read disk.old disk.new }
    ensures magic { IsTrue B.tells → IfOk result (λ magic. magic ≡ has_xfs_magic (B.image disk.old)) }
    ensures cause { IfErr result (λ _. Rose (B.faults disk.old) (B.faults disk.new)) }
{
    if disk.sectors() == 0 {
        return Ok(false);
    }
    let mut bytes = [0; SECTOR];
    disk.read(0, &mut bytes)?;
    Ok(big_u32(&bytes, 0) == MAGIC)
}

/// The content of a volume that begins with the magic number of XFS.
fn xfs_content<B: Blocks>(alloc: Global, disk: &mut B) -> Result<Inner, ContentFault>
    requires magic { IsTrue B.tells → has_xfs_magic (B.image disk.old) ≡ true }
    ensures read { B.only_read disk.old disk.new }
    ensures content { IsTrue B.tells → IfOk result (IsInner (B.size disk.old) (B.image disk.old)) }
    ensures fits { IfOk result (InnerFits (B.size disk.old)) }
    ensures device { IsErrOf result ContentFault.Device → Rose (B.faults disk.old) (B.faults disk.new) }
{
    match check(alloc, disk) {
        Ok(volume) => Ok(Inner::Xfs(volume)),
        Err(CheckFault::Bad(reason)) => Ok(Inner::Unread(Why::Xfs(reason))),
        Err(CheckFault::Device) => Err(ContentFault::Device),
        Err(CheckFault::Memory) => Err(ContentFault::Memory),
    }
}

/// The content of a volume that doesn't begin with that number.
fn page_content<B: Blocks>(disk: &mut B) -> Result<Inner, ContentFault>
    requires magic { IsTrue B.tells → has_xfs_magic (B.image disk.old) ≡ false }
    ensures read { B.only_read disk.old disk.new }
    ensures content { IsTrue B.tells → IfOk result (IsInner (B.size disk.old) (B.image disk.old)) }
    ensures fits { IfOk result (InnerFits (B.size disk.old)) }
    ensures device { IsErrOf result ContentFault.Device → Rose (B.faults disk.old) (B.faults disk.new) }
{
    let sectors = disk.sectors();
    if sectors < 8 {
        return Ok(Inner::Unread(Why::Other));
    }
    let mut page = [0; PAGE];
    disk.read(0, &mut page)?;
    Ok(Inner::of_page(&page, sectors))
}

/// What a volume holds, which is read as a disk of its own. Nothing is written.
///
/// # Errors
///
/// `Device` where a read failed, and `Memory` where memory was refused: then nothing is known of the volume.
pub fn content_of<B: Blocks>(alloc: Global, disk: &mut B) -> Result<Inner, ContentFault>
    ensures read { B.only_read disk.old disk.new }
    ensures content { IsTrue B.tells → IfOk result (IsInner (B.size disk.old) (B.image disk.old)) }
    ensures fits { IfOk result (InnerFits (B.size disk.old)) }
    ensures device { IsErrOf result ContentFault.Device → Rose (B.faults disk.old) (B.faults disk.new) }
{
    let magic = has_xfs_magic(disk)?;
    if magic {
        xfs_content(alloc, disk)
    } else {
        page_content(disk)
    }
}
