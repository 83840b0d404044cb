//! The table that a plan makes of a guest's, in the sectors that are written for it.
//!
//! It promises upwards: [`table_for`] makes sector 0 and the other sectors of the target's table. Whatever disk they
//! stand on is read as the planned table of `specs/Planned.antt`: each placed partition is there under its number and
//! with its name, and nothing else.
//!
//! It stands on guest_view for the source's table, on layout_plan for the plan, on mbr_table and gpt_table for what is
//! written, and on target_work for writes.
#![tactic(auto)]

mod chain;
mod gpt;
mod mbr;
mod slots;
mod table;
mod table_sectors;
mod target;

pub use table::table_for;
pub use table_sectors::TableSectors;
