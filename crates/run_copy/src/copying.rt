//! Copying, in pieces of a buffer.
ghost use Rattle.std.specs.Prelude.{◌≡◌, ℕ, ◌+◌, ◌-◌, ◌*◌, ◌/◌, ◌%◌, ◌^◌, ◌<◌, ◌≤◌, min, length, IsTrue, OnOk, OnErr, IfErr, All, AllPairs};
ghost use Rattle.disk_base.specs.Devices.{CausedBy, Used};
ghost use Rattle.disk_base.specs.Faults.{Rose};
ghost use Rattle.disk_base.specs.Image.{AgreesOutside};
ghost use Rattle.disk_base.specs.Log.{IsWritable};
ghost use Rattle.disk_base.specs.Stops.{Follows};
ghost use Rattle.run_copy.specs.Copies.{AllCopied, Copied, CopyWrites, IsBetween, OnlyIn, OnlyWithin, WriteApart, WritesAtMost, all_zero};
ghost use Rattle.run_copy.specs.inside.Puts.{PutNext, WritesNext, put_of, writes_of};

use crate::transfer::Transfer;
use disk_base::{Blocks, DeviceFault, Disk, Failed, SECTOR};
use run_set::all_zero;

/// The bytes of the buffer that a copy takes.
pub const BUFFER: usize = 1048576;

/// The sectors of the buffer, and so of a piece.
const PIECE: u64 = 2048;

// Whether each byte of a piece is zero.
fn is_zero(piece: &[u8]) -> bool
    ensures { result ≡ all_zero piece.now }
{
    all_zero(piece)
}

// Writes a piece to the sectors from `at` on, or leaves it out.
fn put_piece<T: Disk>(target: &mut T, at: u64, sparse: bool, piece: &[u8]) -> Result<(), Failed>
    requires whole { length piece.now % 512 ≡ 0 }
    requires inside { 512 * at + length piece.now ≤ 512 * T.size target.old }
    requires writable { IsWritable (T.attached target.old) }
    ensures put { IsTrue T.tells → OnOk result (T.image target.new ≡ put_of sparse at piece.now (T.image target.old)) }
    ensures writes { IsTrue T.tells → OnOk result (WritesAtMost (writes_of sparse piece.now) (T.log target.old) (T.log target.new)) }
    ensures others { IsTrue T.tells → AgreesOutside (512 * at) (length piece.now) (T.image target.old) (T.image target.new) }
    ensures stops { IsTrue T.tells_stops → Follows (AgreesOutside (512 * at) (length piece.now)) (T.stops target.old) (T.stops target.new) }
    ensures used { Used T.Blocks T.Disk.own target.old target.new }
    ensures cause { OnErr result (Rose (T.faults target.old) (T.faults target.new)) }
{
    if sparse && is_zero(piece) {
        return Ok(());
    }
    target.write(at, piece)?;
    Ok(())
}

// Copies the piece of that number of a transfer.
fn copy_piece<S: Blocks, T: Disk>(
    source: &mut S,
    target: &mut T,
    transfer: &Transfer,
    number: u64,
    buffer: &mut [u8],
) -> Result<(), DeviceFault>
    requires some { 2048 * number < transfer.now.count }
    requires between { IsBetween (S.size source.old) (T.size target.old) transfer.now }
    requires room { length buffer.old ≡ 1048576 }
    requires writable { IsWritable (T.attached target.old) }
    ensures read { S.only_read source.old source.new }
    ensures put { OnOk result (PutNext S.Blocks source.old T.Blocks target.old target.new transfer.now number) }
    ensures writes { OnOk result (WritesNext S.Blocks source.old T.Blocks T.Disk.own target.old target.new transfer.now number) }
    ensures within { IsTrue T.tells → OnlyIn transfer.now (T.image target.old) (T.image target.new) }
    ensures stops { IsTrue T.tells_stops → Follows (OnlyIn transfer.now) (T.stops target.old) (T.stops target.new) }
    ensures used { Used T.Blocks T.Disk.own target.old target.new }
    ensures cause { IfErr result (CausedBy S.Blocks source.old source.new T.Blocks target.old target.new) }
{
    let Transfer {
        from,
        to,
        count,
        sparse,
    } = *transfer;
    let done = PIECE * number;
    let n = (count - done).min(PIECE);
    let piece = &mut buffer[..SECTOR * n as usize];
    let read = source.read(from + done, piece);
    read.map_err(|_| DeviceFault::Source)?;
    put_piece(target, to + done, sparse, piece).map_err(|_| DeviceFault::Target)?;
    Ok(())
}

/// Copies the sectors of a transfer, with at most one write for each piece that isn't left out. It takes no memory, and
/// answers Ok wherever no disk failed.
pub fn copy_run<S: Blocks, T: Disk>(
    source: &mut S,
    target: &mut T,
    transfer: &Transfer,
    buffer: &mut [u8],
) -> Result<(), DeviceFault>
    requires between { IsBetween (S.size source.old) (T.size target.old) transfer.now }
    requires room { length buffer.old ≡ 1048576 }
    requires writable { IsWritable (T.attached target.old) }
    ensures read { S.only_read source.old source.new }
    ensures copied { OnOk result (Copied S.Blocks source.old T.Blocks target.old target.new transfer.now) }
    ensures writes { OnOk result (CopyWrites S.Blocks source.old T.Blocks T.Disk.own target.old target.new transfer.now) }
    ensures within { IsTrue T.tells → OnlyIn transfer.now (T.image target.old) (T.image target.new) }
    ensures stops { IsTrue T.tells_stops → Follows (OnlyIn transfer.now) (T.stops target.old) (T.stops target.new) }
    ensures used { Used T.Blocks T.Disk.own target.old target.new }
    ensures cause { IfErr result (CausedBy S.Blocks source.old source.new T.Blocks target.old target.new) }
{
    for number in 0..transfer.count.div_ceil(PIECE) {
        copy_piece(source, target, transfer, number, buffer)?;
    }
    Ok(())
}

/// Copies the sectors of each transfer, in their order. It takes no memory, and answers Ok wherever no disk
/// failed.
pub fn copy_all<S: Blocks, T: Disk>(
    source: &mut S,
    target: &mut T,
    transfers: &[Transfer],
    buffer: &mut [u8],
) -> Result<(), DeviceFault>
    requires between { All (IsBetween (S.size source.old) (T.size target.old)) transfers.now }
    requires apart { AllPairs WriteApart transfers.now }
    requires room { length buffer.old ≡ 1048576 }
    requires writable { IsWritable (T.attached target.old) }
    ensures read { S.only_read source.old source.new }
    ensures copied { OnOk result (AllCopied S.Blocks source.old T.Blocks target.old target.new transfers.now) }
    ensures within { IsTrue T.tells → OnlyWithin transfers.now (T.image target.old) (T.image target.new) }
    ensures stops { IsTrue T.tells_stops → Follows (OnlyWithin transfers.now) (T.stops target.old) (T.stops target.new) }
    ensures used { Used T.Blocks T.Disk.own target.old target.new }
    ensures cause { IfErr result (CausedBy S.Blocks source.old source.new T.Blocks target.old target.new) }
{
    for transfer in transfers {
        copy_run(source, target, transfer, buffer)?;
    }
    Ok(())
}
