//! What holds of every log.
ghost use Rattle.xfs_log.specs.Laws.{OneNewestRecord, NoLogReason};

/// The law that a log has one newest record at most. A call does nothing.
pub fn one_newest_record()
    ensures { OneNewestRecord }
{}

/// The law that no reason speaks against a log that was ended by an unmount. A call does nothing.
pub fn no_log_reason()
    ensures { NoLogReason }
{}
