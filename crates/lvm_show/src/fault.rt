//! Why nothing is shown.
use disk_base::Failed;
use lvm_group::GroupFault;
use lvm_label::RingFault;
use lvm_text::TextFault;
use std::alloc::AllocError;
use thiserror::Error;

/// Why nothing is shown of a physical volume.
#[derive(Clone, Copy, Debug, PartialEq, Eq, Error)]
pub enum Fault {
    /// It can't be read from standard input, or takes more memory than there is.
    #[error("no input")]
    Input,
    /// There are more than 2^31 sectors.
    #[error("too long")]
    Long,
    /// Its first four sectors hold no label, or there are fewer.
    #[error("no label")]
    Label,
    /// Its label names no metadata area.
    #[error("no area")]
    Area,
    /// Its first metadata area has no text.
    #[error("no ring: {0}")]
    Ring(#[from] RingFault),
    /// The text is no tree.
    #[error("no text: {0}")]
    Text(#[from] TextFault),
    /// The tree is no group over this one member.
    #[error("no group: {0}")]
    Group(#[from] GroupFault),
    /// The disk failed.
    #[error("device")]
    Device,
    /// Memory was refused.
    #[error("memory")]
    Memory,
}

impl From<Failed> for Fault {
    fn from(_failed: Failed) -> Fault {
        Fault::Device
    }
}

impl From<AllocError> for Fault {
    fn from(_refused: AllocError) -> Fault {
        Fault::Memory
    }
}
