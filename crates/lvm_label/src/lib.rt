//! The label of an LVM2 physical volume, and the text in the ring of one of its metadata areas.
//!
//! It promises upwards: [`read_label`] gives the label that the first four sectors of a volume hold, or says
//! that there is none; [`read_ring`] gives the text of a metadata area, or says exactly why there is none; [`one_label`]
//! and [`ring_or_fault`] are the laws that there is one answer.
//! `specs/Label.antt` says what a label is, and `specs/Ring.antt` what a metadata area stores.
//!
//! It stands on disk_base for disks, fields and checksums. The fields are those of LVM2's label format (`label_header`,
//! `pv_header` and `mda_header`, lowest byte first); an area has at most 2^26 bytes.
#![tactic(auto)]

mod fault;
mod label;
mod laws;
mod ring;

pub use fault::RingFault;
pub use label::{Label, read_label};
pub use laws::{one_label, ring_or_fault};
pub use ring::{Ring, read_ring};
