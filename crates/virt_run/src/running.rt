//! The top call.
ghost use Rattle.std.specs.Prelude.{◌≡◌, Ok, map, string_bytes};
ghost use Rattle.words.specs.declared.job.Job.TheVariants.{Resize as ToResize};
ghost use Rattle.virt_run.specs.Ran.{Ran, Uncalled, UncalledBy};
ghost use Rattle.words.specs.Plannable.{IsPlannable, MayBePlanned};
ghost use Rattle.virt_run.specs.inside.Acts.{Acted, ActedBy, refusal_of_usage};

use crate::report::report;
use crate::tool::{is_served, tool_of};
use disk_base::{Disk, Sink};
use resize_core::resize;
use run_end::{End, Refusal, status_of};
use std::alloc::Global;
use words::{Job, ResizeJob, Usage, read_words};

// The refusal for words that are no job.
fn refusal_of(usage: Usage) -> Refusal
    ensures { result ≡ refusal_of_usage usage }
{
    match usage {
        Usage::Memory => Refusal::Memory,
        usage => Refusal::Usage(usage),
    }
}

// A copy with its partitions laid out anew, where it is served.
fn resize_served<S: Disk, T: Disk, O: Sink>(
    alloc: Global,
    job: &ResizeJob,
    source: &mut S,
    target: &mut T,
    out: &mut O,
) -> End
    requires { IsPlannable job.now }
    ensures uncalled { UncalledBy (Ok (ToResize job.now))
        source.old source.new target.old target.new out.old out.new }
    ensures ended { ActedBy (Ok (ToResize job.now)) S.Blocks S.Disk.own T.Blocks T.Disk.own O.Sink
        source.old target.old out.old source.new target.new out.new result }
{
    if !is_served(job) {
        return End::Refused(Refusal::NotYet);
    }
    resize(alloc, job, source, target, out)
}

// Does a job, and gives how it ended.
fn act_on<S: Disk, T: Disk, O: Sink>(
    alloc: Global,
    job: &Job,
    source: &mut S,
    target: &mut T,
    out: &mut O,
) -> End
    requires { MayBePlanned job.now }
    ensures uncalled { UncalledBy (Ok job.now) source.old source.new target.old target.new out.old out.new }
    ensures ended { ActedBy (Ok job.now) S.Blocks S.Disk.own T.Blocks T.Disk.own O.Sink
        source.old target.old out.old source.new target.new out.new result }
{
    match job {
        Job::Resize(job) => resize_served(alloc, job, source, target, out),
        Job::Sparsify(_) => End::Refused(Refusal::NotYet),
    }
}

// Does what the words ask for, and gives how it ended.
fn act<S: Disk, T: Disk, O: Sink>(
    alloc: Global,
    words: &[String],
    source: &mut S,
    target: &mut T,
    out: &mut O,
) -> End
    ensures uncalled { Uncalled words.now source.old source.new target.old target.new out.old out.new }
    ensures ended { Acted words.now S.Blocks S.Disk.own T.Blocks T.Disk.own O.Sink
        source.old target.old out.old source.new target.new out.new result }
{
    match read_words(alloc, words) {
        Err(usage) => End::Refused(refusal_of(usage)),
        Ok(job) => act_on(alloc, &job, source, target, out),
    }
}

/// Does what the words ask for, tells how it ended, and answers the status: 0 where it is done, 1 for words that
/// are no job, 2 for a source
/// that isn't valid, 4 where there is no plan, 5 and 6 for a source or target that failed, 7 for want of memory
/// before anything was written, 8 for standard output that failed, and 9 for what isn't served yet.
pub fn run<S: Disk, T: Disk, O: Sink, E: Sink>(
    alloc: Global,
    words: &[String],
    source: &mut S,
    target: &mut T,
    out: &mut O,
    err: &mut E,
) -> u8
    // Where the words are no job that is served, no disk is called and nothing is printed.
    ensures uncalled { Uncalled words.now source.old source.new target.old target.new out.old out.new }

    // The run has one end, and the status, the disks and the streams are as that end says.
    ensures ran { Ran words.now S.Blocks S.Disk.own T.Blocks T.Disk.own O.Sink E.Sink
        source.old target.old out.old err.old source.new target.new out.new err.new result }
{
    let end = act(alloc, words, source, target, out);
    status_of(report(alloc, tool_of(words), end, err))
}
