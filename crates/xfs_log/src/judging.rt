//! Judging the log of a volume.
ghost use Rattle.std.specs.Prelude.{◌≡◌, ◌*◌, ◌<◌, ◌≤◌, ◌↔◌, IsTrue, IfOk, IfErr, IsErrOf, OnOk};
ghost use Rattle.block_claims.specs.Agreement.{block};
ghost use Rattle.disk_base.specs.Faults.{Rose, HasCause};
ghost use Rattle.xfs_log.specs.Log.{log_seen, IsWholeUnmount, IsCleanLog, HasLogFault};
ghost use Rattle.xfs_super.specs.Super.{geometry_of};

use crate::finding::find_newest;
use crate::place::{log_len, read_sector};
use crate::unmount::Unmount;
use disk_base::{Blocks, Failed, SECTOR};
use xfs_super::{CheckFault, Reason, Super};

/// Whether the record that begins at a place of the log is that of an unmount and stands there whole.
fn is_unmount<B: Blocks>(disk: &mut B, geo: &Super, place: u64) -> Result<bool, Failed>
    requires volume { 8 * geo.now.dblocks ≤ B.size disk.old }
    requires place { place < 8 * geo.now.logblocks }
    ensures whole { IsTrue B.tells → IfOk result (λ whole. IsTrue whole
        ↔ IsWholeUnmount (log_seen (geometry_of geo.now) (block (B.image disk.old))) place) }
    ensures read { B.only_read disk.old disk.new }
    ensures cause { HasCause (B.faults disk.old) (B.faults disk.new) result }
{
    let mut bytes = [0; SECTOR];
    read_sector(disk, geo, place, &mut bytes)?;
    let Some(unmount) = Unmount::of(&bytes, place, log_len(geo)) else {
        return Ok(false);
    };
    let whole = unmount.is_whole(disk, geo)?;
    Ok(whole)
}

/// Judges the log of a volume: whether its newest record is that of an unmount and stands there whole. Each block of
/// the log is read once, and the sectors of that record once more. It takes no memory.
///
/// # Errors
///
/// `Bad` with `LogShape` where the log has no record, and with `DirtyLog` where its newest one is another.
/// `Device` where a read failed.
pub fn judge_log<B: Blocks>(disk: &mut B, geo: &Super) -> Result<(), CheckFault>
    requires volume { 8 * geo.now.dblocks ≤ B.size disk.old }
    ensures read { B.only_read disk.old disk.new }
    ensures clean { IsTrue B.tells → OnOk result
        (IsCleanLog (log_seen (geometry_of geo.now) (block (B.image disk.old)))) }
    ensures fault { IsTrue B.tells → IfErr result
        (HasLogFault (log_seen (geometry_of geo.now) (block (B.image disk.old)))) }
    ensures device { IsErrOf result CheckFault.Device → Rose (B.faults disk.old) (B.faults disk.new) }
{
    let found = find_newest(disk, geo)?;
    let Some(newest) = found else {
        return Err(CheckFault::Bad(Reason::LogShape));
    };
    if !is_unmount(disk, geo, newest.place)? {
        return Err(CheckFault::Bad(Reason::DirtyLog));
    }
    Ok(())
}
