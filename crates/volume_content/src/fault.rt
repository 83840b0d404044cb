//! Why a volume wasn't read.
ghost use Rattle.std.specs.Prelude.{◌≡◌};
ghost use Rattle.volume_content.specs.declared.fault.ContentFault.TheVariants as faults;

use disk_base::Failed;

/// Why no content is answered. Nothing is known of the volume then.
#[derive(Clone, Copy, Debug, PartialEq, Eq)]
pub enum ContentFault {
    /// The disk failed.
    Device,
    /// Memory was refused.
    Memory,
}

impl From<Failed> for ContentFault {
    ghost from_gives = { λ _ fault. fault ≡ faults.Device };

    fn from(_failed: Failed) -> ContentFault {
        ContentFault::Device
    }
}
