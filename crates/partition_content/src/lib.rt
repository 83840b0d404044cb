//! What a partition holds by itself: a physical volume of LVM2 with the text of its metadata areas, a volume that stands
//! alone, or what isn't read, and why.
//!
//! It is for whoever looks at the partitions of a guest one by one, before it is known which of them make a group:
//! [`find`] reads one, as a disk of its own, and answers what is [`Found`].
//!
//! It promises upwards: the answer is what `specs/Found.antt` says, the label of a physical volume before the magic number
//! of XFS and the signature of a swap area; [`one_find`] is the law that there is one answer, but for the reason of
//! several that speak against an XFS volume; and [`found_stays`] the law that what is found is the same, with the same
//! files, on any disk that begins with as many of its sectors as it says that it has.
//!
//! It stands on lvm_label for labels and areas, on volume_content for volumes that stand alone and for the causes why a
//! content isn't read, on lvm_group for the fault of members, and on disk_base.
#![tactic(auto)]

mod found;
mod laws;
mod reading;

pub use found::{Found, Physical};
pub use laws::{found_stays, one_find};
pub use reading::find;
