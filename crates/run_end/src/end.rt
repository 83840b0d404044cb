//! How a run ends.
ghost use Rattle.std.specs.Prelude.{◌≡◌};
ghost use Rattle.run_end.specs.Ending.{refusal_status, status_of};

use disk_base::DeviceFault;
use guest_view::InspectFault;
use layout_plan::NoPlan;
use std::fmt;
use volume_content::Why;
use words::Usage;

/// The content of a partition, by its number in the source, that would have to grow and can't, and why.
#[derive(Clone, Copy, Debug, PartialEq, Eq)]
pub struct VolumeFault {
    pub part: u32,
    pub why: Why,
}

impl fmt::Display for VolumeFault {
    ghost use Rattle.std.specs.Prelude.{Some};
    ghost use Rattle.run_end.specs.Texts.{volume_text};

    ghost output = { λ fault. Some (volume_text fault) };

    fn fmt<W: fmt::Write>(&self, f: &mut fmt::Formatter<W>) -> fmt::Result {
        let VolumeFault { part, why } = *self;
        write!(f, "/dev/sda{part}: {why}")
    }
}

/// Why a disk is no source.
#[derive(Clone, Copy, Debug, PartialEq, Eq)]
pub enum SourceFault {
    /// It is no guest.
    Guest(InspectFault),
    /// A content would have to grow, and can't.
    Volume(VolumeFault),
}

impl fmt::Display for SourceFault {
    ghost use Rattle.std.specs.Prelude.{Some};
    ghost use Rattle.run_end.specs.Texts.{source_text};

    ghost output = { λ fault. Some (source_text fault) };

    fn fmt<W: fmt::Write>(&self, f: &mut fmt::Formatter<W>) -> fmt::Result {
        match *self {
            SourceFault::Guest(fault) => write!(f, "{fault}"),
            SourceFault::Volume(fault) => write!(f, "{fault}"),
        }
    }
}

impl std::error::Error for SourceFault {}

/// Why nothing was written.
#[derive(Clone, Copy, Debug, PartialEq, Eq)]
pub enum Refusal {
    /// The words are no job.
    Usage(Usage),
    /// What is asked for isn't served yet.
    NotYet,
    /// The source isn't valid.
    Source(SourceFault),
    /// There is no plan.
    Plan(NoPlan),
    /// Memory was refused.
    Memory,
}

/// What failed under a job.
#[derive(Clone, Copy, Debug, PartialEq, Eq)]
pub enum Failing {
    /// A disk.
    Device(DeviceFault),
    /// Standard output.
    Printing,
}

/// How a run ended.
#[derive(Clone, Copy, Debug, PartialEq, Eq)]
pub enum End {
    /// The work is done.
    Done,
    /// Nothing was written.
    Refused(Refusal),
    /// Something failed.
    Failed(Failing),
}

fn refusal_status(refusal: Refusal) -> u8
    ensures { result ≡ refusal_status refusal }
{
    match refusal {
        Refusal::Usage(_) => 1,
        Refusal::Source(_) => 2,
        Refusal::Plan(_) => 4,
        Refusal::Memory => 7,
        Refusal::NotYet => 9,
    }
}

/// The status of an end: 0 where the work is done, 1 for words that are no job, 2 for a source that isn't valid, 4 where there is no plan,
/// 5 and 6 for a source or target that failed, 7 for want of memory, 8 for standard output that failed, and 9
/// for what isn't served yet.
pub fn status_of(end: End) -> u8
    ensures { result ≡ status_of end }
{
    match end {
        End::Done => 0,
        End::Refused(refusal) => refusal_status(refusal),
        End::Failed(Failing::Device(DeviceFault::Source)) => 5,
        End::Failed(Failing::Device(DeviceFault::Target)) => 6,
        End::Failed(Failing::Printing) => 8,
    }
}
