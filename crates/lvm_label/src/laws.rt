//! Laws of labels and rings. A call of one does nothing.
ghost use Rattle.lvm_label.specs.Label.{OneLabel};
ghost use Rattle.lvm_label.specs.Ring.{RingOrFault};

/// The law that the first four sectors of a volume hold one label or none.
pub fn one_label()
    ensures { OneLabel }
{}

/// The law that a metadata area which has a ring has no fault.
pub fn ring_or_fault()
    ensures { RingOrFault }
{}
