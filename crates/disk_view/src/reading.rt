//! Reading across runs.
ghost use Rattle.std.specs.Prelude.{◌≡◌, ℕ, ◌+◌, ◌*◌, ◌%◌, ◌^◌, ◌-◌, ◌≤◌, length, All, IsTrue, OnOk};
ghost use Rattle.disk_base.specs.Faults.{HasCause};
ghost use Rattle.disk_base.specs.Image.{bytes_at, with_bytes};
ghost use Rattle.disk_base.specs.Run.{IsWithin};
ghost use Rattle.disk_view.specs.Join.{joined_runs, total};

use disk_base::{Blocks, Failed, Run, SECTOR};

// Fills `n` bytes of `out` from byte `at` on with the sectors of the disk from sector `from` on.
fn read_into<B: Blocks>(
    disk: &mut B,
    from: u64,
    out: &mut [u8],
    at: usize,
    n: usize,
) -> Result<(), Failed>
    requires whole { n % 512 ≡ 0 }
    requires room { at + n ≤ length out.old }
    requires inside { 512 * from + n ≤ 512 * B.size disk.old }
    ensures bytes { IsTrue B.tells
        → OnOk result (out.new ≡ with_bytes out.old at (bytes_at (B.image disk.old) (512 * from) n)) }
    ensures long { length out.new ≡ length out.old }
    ensures read { B.only_read disk.old disk.new }
    ensures cause { HasCause (B.faults disk.old) (B.faults disk.new) result }
{
    disk.read(from, &mut out[at..at + n])?;
    Ok(())
}

// Fills `out` with the sectors of the join from its sector `at` on, run by run.
fn read_parts<B: Blocks>(disk: &mut B, runs: &[Run], at: u64, out: &mut [u8]) -> Result<(), Failed>
    requires few { B.size disk.old ≤ 2 ^ 64 - 1 }
    requires whole { length out.old % 512 ≡ 0 }
    requires inside { All (IsWithin (B.size disk.old)) runs.now }
    requires reach { 512 * at + length out.old ≤ 512 * total runs.now }
    ensures bytes { IsTrue B.tells
        → OnOk result (out.new ≡ bytes_at (joined_runs (B.image disk.old) runs.now) (512 * at) (length out.old)) }
    ensures read { B.only_read disk.old disk.new }
    ensures cause { HasCause (B.faults disk.old) (B.faults disk.new) result }
{
    let mut at = at;
    let mut done = 0;
    for run in runs {
        let left = (out.len() - done) / SECTOR;
        if left == 0 {
            break;
        }
        let Run { start, count } = *run;
        if at >= count {
            at -= count;
            continue;
        }
        let n = SECTOR * (count - at).min(left as u64) as usize;
        read_into(disk, start + at, out, done, n)?;
        done += n;
        at = 0;
    }
    Ok(())
}

/// Fills `out` with the sectors of the join of the runs from its sector `at` on. A join of one run costs one read
/// of the disk, of the same bytes.
///
/// # Errors
///
/// `Failed` where a read of the disk fails, which ends the reading: the contents of `out` are open then.
pub fn read_runs<B: Blocks>(
    disk: &mut B,
    runs: &[Run],
    at: u64,
    out: &mut [u8],
) -> Result<(), Failed>
    requires few { B.size disk.old ≤ 2 ^ 64 - 1 }
    requires whole { length out.old % 512 ≡ 0 }
    requires inside { All (IsWithin (B.size disk.old)) runs.now }
    requires reach { 512 * at + length out.old ≤ 512 * total runs.now }
    ensures bytes { IsTrue B.tells
        → OnOk result (out.new ≡ bytes_at (joined_runs (B.image disk.old) runs.now) (512 * at) (length out.old)) }
    ensures read { B.only_read disk.old disk.new }
    ensures cause { HasCause (B.faults disk.old) (B.faults disk.new) result }
{
    match runs {
        [run] => disk.read(run.start + at, out)?,
        _ => read_parts(disk, runs, at, out)?,
    }
    Ok(())
}
