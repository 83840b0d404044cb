//! Carrying out the work, in its order of writes.
ghost use Rattle.std.specs.Prelude.{◌≡◌, ◌<◌, length, replicate, IsTrue, OnOk, OnErr, IfErr, All, AllPairs};
ghost use Rattle.disk_base.specs.Devices.{CausedBy, Used};
ghost use Rattle.disk_base.specs.Faults.{Rose};
ghost use Rattle.disk_base.specs.Image.{with_bytes, HalfWritten};
ghost use Rattle.disk_base.specs.Log.{IsWritable};
ghost use Rattle.disk_base.specs.Stops.{IsSettled, Adds, Follows};
ghost use Rattle.target_work.specs.Works.{EndsAtGate, Finishes, IsWritePlace, LeavesNoTable, StopsAtGate, WritesLieApart};
ghost use Rattle.target_work.specs.inside.Phases.{ArePut, Fills, KeepsFirst, OldOrWith, OnlyInWrites};

use crate::sector_write::SectorWrite;
use crate::writing::Writing;
use disk_base::{Blocks, DeviceFault, Disk, Failed, SECTOR};
use run_copy::copy_all;

// Makes sector 0 zeros, and that lasting, so that a stop leaves no table.
fn clear_table<T: Disk>(target: &mut T) -> Result<(), Failed>
    requires some { 0 < T.size target.old }
    requires writable { IsWritable (T.attached target.old) }
    ensures wrote { IsTrue T.tells → OnOk result (T.image target.new ≡ with_bytes (T.image target.old) 0 (replicate 512 0)) }
    ensures half { IsTrue T.tells → OnErr result (OldOrWith 0 (replicate 512 0) (T.image target.old) (T.image target.new)) }
    ensures stops { IsTrue T.tells_stops → Follows (HalfWritten 0 (replicate 512 0)) (T.stops target.old) (T.stops target.new) }
    ensures settled { IsTrue T.tells_stops → OnOk result (IsSettled (T.image target.new) (T.stops target.new)) }
    ensures used { Used T.Blocks T.Disk.own target.old target.new }
    ensures cause { OnErr result (Rose (T.faults target.old) (T.faults target.new)) }
{
    let zeros = [0; SECTOR];
    target.write(0, &zeros)?;
    target.flush()?; // before any of the old contents goes
    Ok(())
}

// Makes all before lasting, then writes the new sector 0 in a write of its own and makes that lasting.
fn put_first<T: Disk>(target: &mut T, first: &[u8; 512]) -> Result<(), Failed>
    requires some { 0 < T.size target.old }
    requires writable { IsWritable (T.attached target.old) }
    ensures wrote { IsTrue T.tells → OnOk result (T.image target.new ≡ with_bytes (T.image target.old) 0 first.now) }
    ensures half { IsTrue T.tells → OnErr result (OldOrWith 0 first.now (T.image target.old) (T.image target.new)) }
    ensures stops { IsTrue T.tells_stops → Adds (HalfWritten 0 first.now (T.image target.old)) (T.stops target.old) (T.stops target.new) }
    ensures settled { IsTrue T.tells_stops → OnOk result (IsSettled (T.image target.new) (T.stops target.new)) }
    ensures used { Used T.Blocks T.Disk.own target.old target.new }
    ensures cause { OnErr result (Rose (T.faults target.old) (T.faults target.new)) }
{
    target.flush()?; // all that the table names
    target.write(0, first)?;
    target.flush()?; // the table itself
    Ok(())
}

// Makes the writes, in their order.
fn put_all<T: Disk>(target: &mut T, writes: &[SectorWrite]) -> Result<(), Failed>
    requires places { All (IsWritePlace (T.size target.old)) writes.now }
    requires apart { AllPairs WritesLieApart writes.now }
    requires writable { IsWritable (T.attached target.old) }
    ensures put { IsTrue T.tells → OnOk result (ArePut writes.now (length writes.now) (T.image target.old) (T.image target.new)) }
    ensures within { IsTrue T.tells → OnlyInWrites writes.now (T.image target.old) (T.image target.new) }
    ensures stops { IsTrue T.tells_stops → Follows (OnlyInWrites writes.now) (T.stops target.old) (T.stops target.new) }
    ensures used { Used T.Blocks T.Disk.own target.old target.new }
    ensures cause { OnErr result (Rose (T.faults target.old) (T.faults target.new)) }
{
    for piece in writes {
        target.write(piece.at, piece.bytes.bytes())?;
    }
    Ok(())
}

// Writes all that stands behind sector 0.
fn fill<S: Blocks, T: Disk>(
    writing: &Writing,
    source: &mut S,
    target: &mut T,
    buffer: &mut [u8],
) -> Result<(), DeviceFault>
    requires source { S.size source.old ≡ writing.now.source_sectors }
    requires target { T.size target.old ≡ writing.now.target_sectors }
    requires writable { IsWritable (T.attached target.old) }
    requires room { length buffer.old ≡ 1048576 }
    ensures read { S.only_read source.old source.new }
    ensures filled { OnOk result (Fills writing.now S.Blocks source.old T.Blocks target.old target.new) }
    ensures first { IsTrue T.tells → KeepsFirst (T.image target.old) (T.image target.new) }
    ensures stops { IsTrue T.tells_stops → Follows KeepsFirst (T.stops target.old) (T.stops target.new) }
    ensures used { Used T.Blocks T.Disk.own target.old target.new }
    ensures cause { IfErr result (CausedBy S.Blocks source.old source.new T.Blocks target.old target.new) }
{
    copy_all(source, target, writing.transfers(), buffer)?;
    put_all(target, writing.writes()).map_err(|_| DeviceFault::Target)?;
    Ok(())
}

/// Does the work: sector 0 of the target as zeros, the transfers, the writes, and last the new sector 0, with
/// a flush before and behind each table. It takes no memory. Where the source fails, the target has no table;
/// where the target fails, it is as it was, has no table, or is finished.
pub fn carry_out<S: Blocks, T: Disk>(
    writing: &Writing,
    source: &mut S,
    target: &mut T,
    buffer: &mut [u8],
) -> Result<(), DeviceFault>
    requires source { S.size source.old ≡ writing.now.source_sectors }
    requires target { T.size target.old ≡ writing.now.target_sectors }
    requires writable { IsWritable (T.attached target.old) }
    requires room { length buffer.old ≡ 1048576 }
    ensures read { S.only_read source.old source.new }
    ensures finished { OnOk result (Finishes writing.now S.Blocks source.old T.Blocks target.old target.new) }
    ensures no_table { IsTrue T.tells → IfErr result (LeavesNoTable (T.image target.new)) }
    ensures gate { OnErr result (EndsAtGate writing.now S.Blocks source.old T.Blocks target.old target.new) }

    // A stop at any moment leaves the target as it was, without a table, or finished; after Ok it leaves
    // what the target holds.
    ensures moments { StopsAtGate writing.now S.Blocks source.old T.Blocks T.Disk.own target.old target.new }
    ensures settled { IsTrue T.tells_stops → OnOk result (IsSettled (T.image target.new) (T.stops target.new)) }
    ensures used { Used T.Blocks T.Disk.own target.old target.new }
    ensures cause { IfErr result (CausedBy S.Blocks source.old source.new T.Blocks target.old target.new) }
{
    let first = writing.first();
    clear_table(target).map_err(|_| DeviceFault::Target)?;
    fill(writing, source, target, buffer)?;
    put_first(target, first).map_err(|_| DeviceFault::Target)?;
    Ok(())
}
