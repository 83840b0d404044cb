//! What holds of the header.
ghost use Rattle.swap_area.specs.Laws.{LastPageAlone, GrownIsSwap, FreePagesCarryNothing, FreePagesLieInside};

/// The law that a first page whose sector 2 was written with another last page says the same but for that, and is
/// the first of a swap area in a volume that has room for its pages. A call does nothing.
pub fn last_page_alone()
    ensures same { LastPageAlone }
    ensures grown { GrownIsSwap }
{}

/// The law that the header says the same, whatever the pages behind it hold, and that these pages are the ones
/// up to the last, all in the volume. A call does nothing.
pub fn free_pages_carry_nothing()
    ensures same { FreePagesCarryNothing }
    ensures inside { FreePagesLieInside }
{}
