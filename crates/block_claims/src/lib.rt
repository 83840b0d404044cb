//! Words on blocks that are claimed, and on volumes that agree, with the facts about them.
//!
//! It is for whoever says of a volume what is claimed in it and what of it stays the same: `specs/Agreement.antt`
//! has the definitions, `proofs/Agreements.antt` and `proofs/Passing.antt` the facts, which the crates above cite.
//! It has no code but the laws.
//!
//! It promises upwards: volumes that differ in free blocks alone agree on all that is claimed, and images that
//! differ in some blocks hold the same in each other block ([`free_is_elsewhere`]).
//!
//! It stands on disk_base, for images.
#![tactic(auto)]

mod laws;

pub use laws::free_is_elsewhere;
