//! Where the log of a volume stands, and its sectors.
ghost use Rattle.std.specs.Prelude.{◌≡◌, ◌+◌, ◌*◌, ◌<◌, ◌≤◌, IsTrue, OnOk};
ghost use Rattle.block_claims.specs.Agreement.{block};
ghost use Rattle.disk_base.specs.Faults.{HasCause};
ghost use Rattle.xfs_log.specs.Log.{log_first};
ghost use Rattle.xfs_log.specs.inside.Finding.{sector_of_log};
ghost use Rattle.xfs_super.specs.Super.{geometry_of};

use disk_base::{Blocks, Failed, SECTOR};
use xfs_super::Super;

/// Bytes of a block.
pub(crate) const BLOCK: usize = 4096;

/// The block of the volume at which its log begins, which has `logblocks` blocks.
pub fn log_first(geo: &Super) -> u64
    ensures first { result ≡ log_first (geometry_of geo.now) }
    ensures inside { result + geo.now.logblocks ≤ geo.now.dblocks }
    ensures small { geo.now.dblocks ≤ 1152921504606846976 }
{
    // Read for its range, which bounds the blocks of the volume.
    let _groups = geo.agcount;
    let group = geo.logstart >> geo.agblklog;
    let block = geo.logstart - (group << geo.agblklog);
    group * (geo.agblocks as u64) + block
}

/// How many sectors of 512 bytes the log has.
pub(crate) fn log_len(geo: &Super) -> u64
    ensures { result ≡ 8 * geo.now.logblocks }
{
    8 * (geo.logblocks as u64)
}

/// Reads a block of the log.
pub(crate) fn read_block<B: Blocks>(
    disk: &mut B,
    geo: &Super,
    at: u32,
    out: &mut [u8; BLOCK],
) -> Result<(), Failed>
    requires volume { 8 * geo.now.dblocks ≤ B.size disk.old }
    requires at { at < geo.now.logblocks }
    ensures bytes { IsTrue B.tells → OnOk result
        (out.new ≡ block (B.image disk.old) (log_first (geometry_of geo.now) + at)) }
    ensures read { B.only_read disk.old disk.new }
    ensures cause { HasCause (B.faults disk.old) (B.faults disk.new) result }
{
    disk.read(8 * (log_first(geo) + at as u64), out)?;
    Ok(())
}

/// Reads a sector of the log.
pub(crate) fn read_sector<B: Blocks>(
    disk: &mut B,
    geo: &Super,
    at: u64,
    out: &mut [u8; SECTOR],
) -> Result<(), Failed>
    requires volume { 8 * geo.now.dblocks ≤ B.size disk.old }
    requires at { at < 8 * geo.now.logblocks }
    ensures bytes { IsTrue B.tells → OnOk result
        (out.new ≡ sector_of_log (geometry_of geo.now) (B.image disk.old) at) }
    ensures read { B.only_read disk.old disk.new }
    ensures cause { HasCause (B.faults disk.old) (B.faults disk.new) result }
{
    disk.read(8 * log_first(geo) + at, out)?;
    Ok(())
}
