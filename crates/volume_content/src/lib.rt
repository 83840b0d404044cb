//! What a volume that stands alone holds: an XFS volume, a swap area, or what isn't read, and why.
//!
//! It is for whoever looks at the volumes of a guest one by one: [`content_of`] reads one, as a disk of its own, and
//! answers its [`Inner`].
//!
//! It promises upwards: the answer is the content that `specs/Inner.antt` says, the magic number of XFS before the
//! signature of a swap area; and what carries nothing in a content can hold anything, and the content stays
//! ([`free_of_inner_carries_nothing`]). [`one_kind`] is the law that a volume holds one content, but for the reason
//! of several that speak against an XFS volume.
//!
//! It stands on xfs_check and swap_area, for the two kinds, on xfs_super, for the reasons against an XFS volume, on
//! lvm_label, lvm_text and lvm_group for the faults of physical volumes, which [`Why`] names beside those of volumes
//! that stand alone, and on block_claims and disk_base.
#![tactic(auto)]

mod content;
mod fault;
mod laws;
mod reading;

pub use content::{Inner, Why};
pub use fault::ContentFault;
pub use laws::{free_of_inner_carries_nothing, one_kind};
pub use reading::content_of;
