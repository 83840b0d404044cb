//! A whole job: attach, read, decide, print, write.
ghost use Rattle.std.specs.Prelude.{◌≡◌, ℕ, ◌<◌, ◌≤◌, ◌^◌, IsTrue, OnOk, OnErr, IfOk, IfErr, length, string_bytes, Some};
ghost use Rattle.disk_base.specs.declared.device.Mode.TheVariants.{Read as ToRead, Change as ToChange};
ghost use Rattle.disk_base.specs.Devices.{AskedOnce, CausedBy, held};
ghost use Rattle.disk_base.specs.Faults.{Rose};
ghost use Rattle.disk_base.specs.Log.{IsWritable};
ghost use Rattle.disk_base.specs.Stops.{Waits};
ghost use Rattle.resize_core.specs.Resizing.{resize_on, to_change, to_read};
ghost use Rattle.resize_core.specs.inside.Deciding.{IsRefusedFor};
ghost use Rattle.resize_core.specs.inside.Working.{AsksOnly, AttachedFirst, CausesOn, IsPrepared, IsShownBy, LeavesOn, OnResize, PreparedOn, PrintsOn, SourceFailed, StopsOn, UnreadyOn, last_text, summary_text, unready_of_fault};
ghost use Rattle.resize_core.specs.Growth.{stuck_parts};
ghost use Rattle.run_end.specs.Ending.{Attached, IsDue, Settled, Unprinted};
ghost use Rattle.words.specs.Plannable.{IsPlannable};

use crate::lines::{last_line, summary};
use crate::planning::prepare;
use crate::ready::Ready;
use crate::source::{SourceDisk, read_source};
use crate::writing::{Lines, show, write};
use disk_base::{Blocks, DeviceFault, Disk, Failed, Mode, Sink};
use guest_view::{Guest, InspectFault};
use run_copy::BUFFER;
use run_end::{End, Failing, Refusal, SourceFault};
use std::alloc::{AllocError, Global};
use target_work::Writing;
use words::ResizeJob;

/// Why no work is ready: it was refused, or the source failed.
#[derive(Clone, Copy, Debug, PartialEq, Eq)]
pub enum Unready {
    Refused(Refusal),
    Device,
}

/// What is made before the first write: what is to be written, the lines, and the buffer for copying.
#[derive(Debug, Drop)]
pub(crate) struct Prepared {
    pub(crate) writing: Writing,
    pub(crate) lines: Lines,
    pub(crate) buffer: Vec<u8>,
}

// A buffer of that many bytes.
fn zeros(alloc: Global, count: usize) -> Result<Vec<u8>, AllocError>
    ensures { IfOk result (λ bytes. length bytes.items ≡ count) }
{
    vec![in alloc; 0; count]
}

// What a source that is no guest stops with.
fn unready_of(fault: InspectFault) -> Unready
    ensures { result ≡ unready_of_fault fault }
{
    match fault {
        InspectFault::Device => Unready::Device,
        InspectFault::Memory => Unready::Refused(Refusal::Memory),
        fault => Unready::Refused(Refusal::Source(SourceFault::Guest(fault))),
    }
}

// The lines of a job; a quiet one has none.
fn lines_for(
    alloc: Global,
    job: &ResizeJob,
    guest: &Guest,
    ready: &Ready,
) -> Result<Lines, AllocError>
    requires { ready.now.stuck.items ≡ stuck_parts job.now.grow ready.now.planned guest.now.parts }
    ensures summary { IfOk result (λ lines. string_bytes lines.summary ≡ summary_text job.now guest.now ready.now.planned) }
    ensures last { IfOk result (λ lines. string_bytes lines.last ≡ last_text job.now) }
{
    if job.quiet {
        return Ok(Lines {
            summary: String::new(alloc),
            last: String::new(alloc),
        });
    }
    let summary = summary(alloc, job, guest, &ready.planned, ready.stuck.as_slice())?;
    let last = last_line(alloc, job.dry)?;
    Ok(Lines { summary, last })
}

// The work that is ready, its lines and the buffer.
fn gather(
    alloc: Global,
    job: &ResizeJob,
    guest: &Guest,
    ready: Ready,
) -> Result<Prepared, AllocError>
    requires { ready.stuck.items ≡ stuck_parts job.now.grow ready.planned guest.now.parts }
    ensures work { IfOk result (λ prepared. prepared.writing ≡ ready.writing) }
    ensures summary { IfOk result (λ prepared. string_bytes prepared.lines.summary ≡ summary_text job.now guest.now ready.planned) }
    ensures last { IfOk result (λ prepared. string_bytes prepared.lines.last ≡ last_text job.now) }
    ensures buffer { IfOk result (λ prepared. length prepared.buffer.items ≡ 1048576) }
{
    let lines = lines_for(alloc, job, guest, &ready)?;
    let buffer = zeros(alloc, BUFFER)?;
    Ok(Prepared {
        writing: ready.writing,
        lines,
        buffer,
    })
}

// The work for a source as it was read.
fn prepare_for(
    alloc: Global,
    found: &SourceDisk,
    job: &ResizeJob,
    sectors: u64,
) -> Result<Prepared, Refusal>
    requires { IsPlannable job.now }
    ensures ready { IfOk result (λ prepared. IsPrepared job.now found.now.guest found.now.head sectors prepared) }
    ensures buffer { IfOk result (λ prepared. length prepared.buffer.items ≡ 1048576) }
    ensures refused { IfErr result (IsRefusedFor job.now found.now.guest sectors) }
{
    let ready = match prepare(alloc, found, job, sectors) {
        Ok(ready) => ready,
        Err(refusal) => return Err(refusal),
    };
    match gather(alloc, job, &found.guest, ready) {
        Ok(prepared) => Ok(prepared),
        Err(_) => Err(Refusal::Memory),
    }
}

// The work that is due, by what the source holds and the target's size.
fn prepare_on<S: Blocks>(
    alloc: Global,
    source: &mut S,
    job: &ResizeJob,
    sectors: u64,
) -> Result<Prepared, Unready>
    requires { IsPlannable job.now }
    ensures read { S.only_read source.old source.new }
    ensures work { IfOk result (λ prepared. PreparedOn job.now S.Blocks source.old sectors prepared.writing
        (string_bytes prepared.lines.summary) (string_bytes prepared.lines.last)) }
    ensures shown { IfOk result (λ prepared. IsShownBy job.now (string_bytes prepared.lines.summary) (string_bytes prepared.lines.last)) }
    ensures stop { IfErr result (UnreadyOn job.now S.Blocks source.old sectors) }
    ensures from { IfOk result (λ prepared. prepared.writing.source_sectors ≡ S.size source.old) }
    ensures to { IfOk result (λ prepared. prepared.writing.target_sectors ≡ sectors) }
    ensures buffer { IfOk result (λ prepared. length prepared.buffer.items ≡ 1048576) }
    ensures cause { IfErr result (SourceFailed (Rose (S.faults source.old) (S.faults source.new))) }
{
    let found = match read_source(alloc, source) {
        Ok(found) => found,
        Err(fault) => return Err(unready_of(fault)),
    };
    match prepare_for(alloc, &found, job, sectors) {
        Ok(prepared) => Ok(prepared),
        Err(refusal) => Err(Unready::Refused(refusal)),
    }
}

// Attaches the source to be read and the target to be changed.
fn attach_both<S: Disk, T: Disk>(
    job: &ResizeJob,
    source: &mut S,
    target: &mut T,
) -> Result<(), DeviceFault>
    ensures source { AsksOnly S.Blocks S.Disk.own (to_read job.now.source) source.old source.new }
    ensures target { AsksOnly T.Blocks T.Disk.own (to_change job.now.target) target.old target.new }
    ensures waits { IsTrue T.tells_stops → Waits (T.stops target.old) (T.stops target.new) }
    ensures writable { OnOk result (IsWritable (T.attached target.new)) }
    ensures to_read { OnOk result (S.attached source.new ≡ Some ToRead) }
    ensures to_change { OnOk result (T.attached target.new ≡ Some ToChange) }
    ensures first { IfErr result (AttachedFirst (S.attached source.new)) }
    ensures later { S.faults source.old ≤ S.faults source.new }
    ensures target_later { T.faults target.old ≤ T.faults target.new }
    ensures cause { IfErr result (CausedBy S.Blocks source.old source.new T.Blocks target.old target.new) }
{
    let read = source.attach(job.source.bytes(), Mode::Read);
    read.map_err(|_| DeviceFault::Source)?;
    let change = target.attach(job.target.bytes(), Mode::Change);
    change.map_err(|_| DeviceFault::Target)?;
    Ok(())
}

/// Does a job: attaches both disks, prepares the work, prints its summary, carries it out and prints the last line. A
/// dry run writes nothing, and a quiet one prints nothing.
pub fn resize<S: Disk, T: Disk, O: Sink>(
    alloc: Global,
    job: &ResizeJob,
    source: &mut S,
    target: &mut T,
    out: &mut O,
) -> End
    requires { IsPlannable job.now }
    ensures cause { CausesOn job.now S.Blocks source.old source.new T.Blocks target.old target.new
        O.Sink out.old out.new result }
    ensures attached { Attached (resize_on job.now S.Blocks source.old T.Blocks target.old)
        (S.attached source.new) (T.attached target.new) result }
    ensures source { AsksOnly S.Blocks S.Disk.own (to_read job.now.source) source.old source.new }
    ensures asked { IsTrue T.tells → AskedOnce (to_change job.now.target) (T.log target.old) (T.log target.new) }
    ensures due { OnResize job.now S.Blocks source.old T.Blocks target.old (λ m. IsDue m result) }
    ensures left { OnResize job.now S.Blocks source.old T.Blocks target.old
        (LeavesOn T.Blocks T.Disk.own target.old target.new result) }
    ensures moments { OnResize job.now S.Blocks source.old T.Blocks target.old
        (StopsOn T.Blocks T.Disk.own target.old target.new) }
    ensures settled { IsTrue T.tells_stops → Settled (resize_on job.now S.Blocks source.old T.Blocks target.old)
        (held T.Blocks T.Disk.own target.old) (held T.Blocks T.Disk.own target.new) result }
    ensures unprinted { IsTrue O.tells_text → Unprinted (O.text out.old) (O.text out.new) result }
    ensures printed { OnResize job.now S.Blocks source.old T.Blocks target.old
        (PrintsOn T.Blocks T.Disk.own target.old target.new O.Sink out.old out.new result) }
{
    if let Err(fault) = attach_both(job, source, target) {
        return End::Failed(Failing::Device(fault));
    }
    let mut prepared = match prepare_on(alloc, source, job, target.sectors()) {
        Ok(prepared) => prepared,
        Err(Unready::Refused(refusal)) => return End::Refused(refusal),
        Err(Unready::Device) => return End::Failed(Failing::Device(DeviceFault::Source)),
    };
    if job.dry {
        match show(&prepared.lines, out) {
            Ok(()) => return End::Done,
            Err(Failed) => return End::Failed(Failing::Printing),
        }
    }
    let buffer = prepared.buffer.as_mut_slice();
    match write(
        &prepared.writing,
        &prepared.lines,
        source,
        target,
        out,
        buffer,
    ) {
        Ok(()) => End::Done,
        Err(failing) => End::Failed(failing),
    }
}
