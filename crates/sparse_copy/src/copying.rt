//! Copying what lies between the free sectors.
ghost use Rattle.std.specs.Prelude.{◌≡◌, ℕ, ◌*◌, ◌^◌, ◌≤◌, length, replicate, IsTrue, OnOk, IfErr};
ghost use Rattle.disk_base.specs.Devices.{CausedBy, Used};
ghost use Rattle.disk_base.specs.Log.{IsWritable};
ghost use Rattle.disk_base.specs.Stops.{IsSettled};
ghost use Rattle.run_copy.specs.Copies.{Copied, CopyWrites};
ghost use Rattle.sparse_copy.specs.Sparse.{CopiedOut, EndWithin, KeptWrites, between};

use disk_base::{Blocks, DeviceFault, Disk};
use run_copy::{Transfer, copy_run};
use run_set::Runs;

// Copies the sectors from `low` up to below `end` to the same places.
fn copy_between<S: Blocks, T: Disk>(
    source: &mut S,
    target: &mut T,
    low: u64,
    end: u64,
    buffer: &mut [u8],
) -> Result<(), DeviceFault>
    requires few { S.size source.old ≤ 2 ^ 31 }
    requires long { T.size target.old ≡ S.size source.old }
    requires rising { low ≤ end }
    requires inside { end ≤ S.size source.old }
    requires room { length buffer.old ≡ 1048576 }
    requires writable { IsWritable (T.attached target.old) }
    ensures read { S.only_read source.old source.new }
    ensures copied { OnOk result (Copied S.Blocks source.old T.Blocks target.old target.new (between low end)) }
    ensures writes { OnOk result (CopyWrites S.Blocks source.old T.Blocks T.Disk.own target.old target.new (between low end)) }
    ensures used { Used T.Blocks T.Disk.own target.old target.new }
    ensures cause { IfErr result (CausedBy S.Blocks source.old source.new T.Blocks target.old target.new) }
{
    let kept = Transfer {
        from: low,
        to: low,
        count: end - low,
        sparse: true,
    };
    copy_run(source, target, &kept, buffer)
}

// Copies what lies before the first of the runs, between them, and behind the last.
fn copy_kept<S: Blocks, T: Disk>(
    source: &mut S,
    target: &mut T,
    runs: &Runs,
    buffer: &mut [u8],
) -> Result<(), DeviceFault>
    requires few { S.size source.old ≤ 2 ^ 31 }
    requires long { T.size target.old ≡ S.size source.old }
    requires inside { EndWithin (S.size source.old) runs.now }
    requires blank { IsTrue T.tells → T.image target.old ≡ replicate (512 * T.size target.old) 0 }
    requires room { length buffer.old ≡ 1048576 }
    requires writable { IsWritable (T.attached target.old) }
    ensures read { S.only_read source.old source.new }
    ensures copied { OnOk result (CopiedOut S.Blocks source.old T.Blocks target.new runs.now) }
    ensures writes { OnOk result (KeptWrites S.Blocks source.old T.Blocks T.Disk.own target.old target.new runs.now) }
    ensures used { Used T.Blocks T.Disk.own target.old target.new }
    ensures cause { IfErr result (CausedBy S.Blocks source.old source.new T.Blocks target.old target.new) }
{
    let mut low = 0;
    for index in 0..runs.count() {
        let (start, count) = runs.get(index);
        copy_between(source, target, low, start, buffer)?;
        low = start + count;
    }
    let end = source.sectors();
    copy_between(source, target, low, end, buffer)?;
    Ok(())
}

/// Copies to a blank disk of the same size every sector that none of the runs has, without pieces of zeros, and
/// makes that lasting. It takes no memory, and answers Ok wherever no disk failed.
pub fn copy_out<S: Blocks, T: Disk>(
    source: &mut S,
    target: &mut T,
    runs: &Runs,
    buffer: &mut [u8],
) -> Result<(), DeviceFault>
    requires few { S.size source.old ≤ 2 ^ 31 }
    requires long { T.size target.old ≡ S.size source.old }
    requires inside { EndWithin (S.size source.old) runs.now }
    requires blank { IsTrue T.tells → T.image target.old ≡ replicate (512 * T.size target.old) 0 }
    requires room { length buffer.old ≡ 1048576 }
    requires writable { IsWritable (T.attached target.old) }
    ensures read { S.only_read source.old source.new }
    ensures copied { OnOk result (CopiedOut S.Blocks source.old T.Blocks target.new runs.now) }
    ensures settled { IsTrue T.tells_stops → OnOk result (IsSettled (T.image target.new) (T.stops target.new)) }
    ensures writes { OnOk result (KeptWrites S.Blocks source.old T.Blocks T.Disk.own target.old target.new runs.now) }
    ensures used { Used T.Blocks T.Disk.own target.old target.new }
    ensures cause { IfErr result (CausedBy S.Blocks source.old source.new T.Blocks target.old target.new) }
{
    copy_kept(source, target, runs, buffer)?;
    target.flush().map_err(|_| DeviceFault::Target)?;
    Ok(())
}
