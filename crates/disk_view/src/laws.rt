//! What holds of joins.
ghost use Rattle.disk_view.specs.Laws.{JoinIsTheSum, LoneRunIsARange, JoinIsOfTheDisk, JoinFits, JoinDiffersInFree};
ghost use Rattle.disk_view.specs.Laws.{PlacesLieInRuns, PlacesLieOnDisk, PlacesFollowRuns, PlacesDiffer};

/// The laws on where the sectors of a join stand on the disk. A call does nothing.
pub fn joins_are_of_the_disk()
    ensures sum { JoinIsTheSum }
    ensures lone { LoneRunIsARange }
    ensures sectors { JoinIsOfTheDisk }
    ensures in_runs { PlacesLieInRuns }
    ensures on_disk { PlacesLieOnDisk }
    ensures follow { PlacesFollowRuns }
    ensures differ { PlacesDiffer }
    ensures fits { JoinFits }
{}

/// The law that disks which are equal but for the places of free blocks give joins that differ in these blocks
/// alone. A call does nothing.
pub fn free_blocks_stay_free()
    ensures { JoinDiffersInFree }
{}
