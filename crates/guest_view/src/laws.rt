//! What holds of every guest.
ghost use Rattle.guest_view.specs.Laws.{ContentsAreFound, ContentsStay, OneGuest};

/// The law that a disk has at most one guest, but for the reason that is named of several against an XFS volume, and no
/// reason against it where it has one. A call does nothing.
pub fn one_guest()
    ensures { OneGuest }
{}

/// The laws that each content of a guest is what is found in its partition, and is found again, with the same files,
/// wherever its sectors are. A call does nothing.
pub fn contents_stay()
    ensures found { ContentsAreFound }
    ensures stay { ContentsStay }
{}
