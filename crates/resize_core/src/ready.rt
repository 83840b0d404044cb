//! What is ready to be done.

use layout_plan::Planned;
use run_end::VolumeFault;
use target_work::Writing;

/// All that a job has to do, made before the first write: where the partitions come to stand, which contents have to
/// grow and can't, and what is to be written.
#[derive(Debug, Drop)]
pub struct Ready {
    pub planned: Planned,
    pub stuck: Vec<VolumeFault>,
    pub writing: Writing,
}
