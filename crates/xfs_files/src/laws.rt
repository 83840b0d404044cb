//! What holds of every directory.
ghost use Rattle.xfs_files.specs.Laws.{NoDirectoryReason};

/// The law that no reason speaks against a sound directory. A call does nothing.
pub fn no_directory_reason()
    ensures { NoDirectoryReason }
{}
