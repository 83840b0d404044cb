//! Whether the log of an XFS volume was ended by an unmount.
//!
//! It is for whoever reads such a volume without replaying its log: [`judge_log`] answers Ok only where the newest
//! record of the log is that of an unmount and stands there whole, and a reason only where it isn't. `specs/Log.antt`
//! says what that means, after the XFS Algorithms & Data Structures guide.
//!
//! It stands on xfs_super, for where the log lies, and on disk_base.
#![tactic(auto)]

mod finding;
mod judging;
mod laws;
mod place;
mod unmount;

pub use judging::judge_log;
pub use laws::{no_log_reason, one_newest_record};
pub use place::log_first;
