//! Printing the lines and carrying out the work.
ghost use Rattle.std.specs.Prelude.{◌≡◌, ◌≢◌, ◌++◌, ◌≤◌, IsTrue, OnOk, OnErr, IfErr, length, string_bytes, []};
ghost use Rattle.disk_base.specs.Devices.{CausedBy, GainsPrefix, Used};
ghost use Rattle.disk_base.specs.Faults.{Rose};
ghost use Rattle.disk_base.specs.Log.{IsWritable};
ghost use Rattle.disk_base.specs.Stops.{IsSettled};
ghost use Rattle.target_work.specs.Works.{Finishes, StopsAtGate};
ghost use Rattle.resize_core.specs.inside.Working.{CutsDevice, CutsLines, CutsShort, FailedBy, HasText, ShowsPart};

use disk_base::{Blocks, DeviceFault, Disk, Failed, Sink};
use run_end::Failing;
use target_work::{Writing, carry_out};

/// What is printed before the first write, and behind the last one; nothing where a job is quiet.
#[derive(Debug, Drop)]
pub(crate) struct Lines {
    pub(crate) summary: String,
    pub(crate) last: String,
}

// Writes text to standard output, where there is any.
fn print<O: Sink>(out: &mut O, text: &[u8]) -> Result<(), Failed>
    ensures printed { IsTrue O.tells_text → OnOk result (O.text out.new ≡ O.text out.old ++ text.now) }
    ensures half { IsTrue O.tells_text → OnErr result (GainsPrefix text.now (O.text out.old) (O.text out.new)) }
    ensures cause { OnErr result (Rose (O.sink_faults out.old) (O.sink_faults out.new)) }
    ensures some { OnErr result (text.now ≢ []) }
    ensures later { O.sink_faults out.old ≤ O.sink_faults out.new }
{
    if text.is_empty() {
        return Ok(());
    }
    out.write(text)
}

// Carries out the work.
fn carry<S: Blocks, T: Disk>(
    writing: &Writing,
    source: &mut S,
    target: &mut T,
    buffer: &mut [u8],
) -> Result<(), DeviceFault>
    requires source { S.size source.old ≡ writing.now.source_sectors }
    requires target { T.size target.old ≡ writing.now.target_sectors }
    requires writable { IsWritable (T.attached target.old) }
    requires room { length buffer.old ≡ 1048576 }
    ensures read { S.only_read source.old source.new }
    ensures done { OnOk result (Finishes writing.now S.Blocks source.old T.Blocks target.old target.new) }
    ensures left { IfErr result (CutsDevice writing.now S.Blocks source.old T.Blocks target.old target.new) }
    ensures moments { StopsAtGate writing.now S.Blocks source.old T.Blocks T.Disk.own target.old target.new }
    ensures settled { IsTrue T.tells_stops → OnOk result (IsSettled (T.image target.new) (T.stops target.new)) }
    ensures used { Used T.Blocks T.Disk.own target.old target.new }
    ensures cause { IfErr result (CausedBy S.Blocks source.old source.new T.Blocks target.old target.new) }
{
    carry_out(writing, source, target, buffer)
}

/// Prints the summary and the last line of a job that writes nothing.
pub(crate) fn show<O: Sink>(lines: &Lines, out: &mut O) -> Result<(), Failed>
    ensures printed { IsTrue O.tells_text → OnOk result
        (O.text out.new ≡ O.text out.old ++ string_bytes lines.now.summary ++ string_bytes lines.now.last) }
    ensures part { IsTrue O.tells_text → OnErr result
        (ShowsPart (string_bytes lines.now.summary) (string_bytes lines.now.last) (O.text out.old) (O.text out.new)) }
    ensures some { OnErr result (HasText (string_bytes lines.now.summary) (string_bytes lines.now.last)) }
    ensures cause { OnErr result (Rose (O.sink_faults out.old) (O.sink_faults out.new)) }
{
    print(out, lines.summary.as_bytes())?;
    print(out, lines.last.as_bytes())?;
    Ok(())
}

/// Prints the summary, carries out the work, and prints the last line.
pub(crate) fn write<S: Blocks, T: Disk, O: Sink>(
    writing: &Writing,
    lines: &Lines,
    source: &mut S,
    target: &mut T,
    out: &mut O,
    buffer: &mut [u8],
) -> Result<(), Failing>
    requires source { S.size source.old ≡ writing.now.source_sectors }
    requires target { T.size target.old ≡ writing.now.target_sectors }
    requires writable { IsWritable (T.attached target.old) }
    requires room { length buffer.old ≡ 1048576 }
    ensures read { S.only_read source.old source.new }
    ensures done { OnOk result (Finishes writing.now S.Blocks source.old T.Blocks target.old target.new) }
    ensures left { IfErr result (CutsShort writing.now S.Blocks source.old T.Blocks T.Disk.own target.old target.new) }
    ensures moments { StopsAtGate writing.now S.Blocks source.old T.Blocks T.Disk.own target.old target.new }
    ensures settled { IsTrue T.tells_stops → OnOk result (IsSettled (T.image target.new) (T.stops target.new)) }
    ensures used { Used T.Blocks T.Disk.own target.old target.new }
    ensures printed { IsTrue O.tells_text → OnOk result
        (O.text out.new ≡ O.text out.old ++ string_bytes lines.now.summary ++ string_bytes lines.now.last) }
    ensures part { IfErr result (CutsLines writing.now (string_bytes lines.now.summary) (string_bytes lines.now.last) S.Blocks source.old
        T.Blocks T.Disk.own target.old target.new O.Sink out.old out.new) }
    ensures cause { IfErr result (FailedBy (string_bytes lines.now.summary) (string_bytes lines.now.last) S.Blocks source.old source.new
        T.Blocks target.old target.new O.Sink out.old out.new) }
{
    if print(out, lines.summary.as_bytes()).is_err() {
        return Err(Failing::Printing);
    }
    if let Err(fault) = carry(writing, source, target, buffer) {
        return Err(Failing::Device(fault));
    }
    if print(out, lines.last.as_bytes()).is_err() {
        return Err(Failing::Printing);
    }
    Ok(())
}
