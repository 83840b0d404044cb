//! What holds of every group.
ghost use Rattle.group_runs.specs.Laws.{DevicesFit, MembersAreFound, MembersDiffer, RunsLieOnDisk, VolumesLieApart};
ghost use Rattle.group_runs.specs.Laws.{VolumesLieInDevices, VolumesLieInMembers};

/// The laws on where the logical volumes of a group lie. A call does nothing.
pub fn volumes_lie_in_members()
    ensures inside { VolumesLieInMembers }
    ensures devices { VolumesLieInDevices }
    ensures apart { VolumesLieApart }
    ensures on_disk { RunsLieOnDisk }
{}

/// The laws on the physical volumes of a group. A call does nothing.
pub fn members_are_found()
    ensures found { MembersAreFound }
    ensures differ { MembersDiffer }
    ensures devices { DevicesFit }
{}
