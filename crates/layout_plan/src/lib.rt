//! Where the partitions of a source come to stand on a target.
//!
//! It promises upwards: [`plan`] gives a plan exactly where the layout of the parts fits the target. It says
//! where each part comes to stand, and what is made of the sectors that are left over, or else why there is no
//! plan. The partitions of a plan lie apart, behind the table and before the limit, the logical ones inside the
//! extended one. It serves valid tables of both kinds, with all wishes.
//!
//! It stands on disk_base alone, and touches no disk: a plan is a function of numbers. Lengths and places
//! are in sectors of 512 bytes, unless a name says bytes.
#![tactic(auto)]

mod alignment;
mod extra;
mod fault;
mod flexing;
mod laying;
mod line;
mod part;
mod places;
mod planned;
mod planner;
mod settling;
mod sizing;
mod task;
mod wish;
mod wishing;

pub use alignment::one_layout;
pub use fault::NoPlan;
pub use part::{Fate, Kind, Part, Placed, Role};
pub use planned::Planned;
pub use planner::{one_plan, plan};
pub use wish::{Layout, Size, What, Wish};
