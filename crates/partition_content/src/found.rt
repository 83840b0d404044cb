//! What is found in a partition.
ghost use Rattle.std.specs.Prelude.{◌≡◌};
ghost use Rattle.partition_content.specs.inside.Stops.{stop_of};

use lvm_label::{Label, Ring, RingFault};
use volume_content::{ContentFault, Inner, Why};

/// A physical volume of LVM2 whose metadata areas, one or two, hold one text.
#[derive(Drop)]
pub struct Physical {
    pub label: Label,
    /// The ring of the first area.
    pub first: Ring,
    /// The ring of the second area, if there is one.
    pub second: Option<Ring>,
}

/// What a partition holds by itself.
#[derive(Drop)]
pub enum Found {
    /// A physical volume whose text is known.
    Physical(Physical),
    /// A volume that stands alone, or what isn't read: a physical volume whose text isn't known, too.
    Inner(Inner),
}

/// Why there is no physical volume whose text is known.
#[derive(Clone, Copy, Debug, PartialEq, Eq)]
pub(crate) enum Stop {
    /// It isn't read, and why.
    Unread(Why),
    /// Nothing is known of it.
    Failed(ContentFault),
}

impl Stop {
    /// What a fault of a metadata area says of its partition: one without a text is in no group yet.
    pub(crate) fn of(fault: RingFault) -> Stop
        ensures { result ≡ stop_of fault }
    {
        match fault {
            RingFault::Device => Stop::Failed(ContentFault::Device),
            RingFault::Memory => Stop::Failed(ContentFault::Memory),
            RingFault::Empty => Stop::Unread(Why::NoGroup),
            RingFault::Place => Stop::Unread(Why::Ring(RingFault::Place)),
            RingFault::Header => Stop::Unread(Why::Ring(RingFault::Header)),
            RingFault::Ignored => Stop::Unread(Why::Ring(RingFault::Ignored)),
            RingFault::Checksum => Stop::Unread(Why::Ring(RingFault::Checksum)),
        }
    }
}
