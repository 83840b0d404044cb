//! What holds of every content.
ghost use Rattle.volume_content.specs.Laws.{FreeOfInnerCarriesNothing, InnerStays, OneKind};

/// The law that a volume whose blocks that carry nothing hold something else has the same content. A call does nothing.
pub fn free_of_inner_carries_nothing()
    ensures { FreeOfInnerCarriesNothing }
{}

/// The law that a volume has one content, but for the reason that is named of several. A call does nothing.
pub fn one_kind()
    ensures { OneKind }
{}

/// The law that a content is the same, with the same files, on any disk that begins with its blocks and has room for them.
/// A call does nothing.
pub fn inner_stays()
    ensures { InnerStays }
{}
