//! What holds of all that is found.
ghost use Rattle.partition_content.specs.Laws.{OneFind, FoundStays};

/// The law that a partition holds one thing, but for the reason that is named of several. A call does nothing.
pub fn one_find()
    ensures { OneFind }
{}

/// The law that what is found in a partition is found, with the same files, on any disk that begins with as many of its
/// sectors as it says that it has. A call does nothing.
pub fn found_stays()
    ensures { FoundStays }
{}
