//! Laws of what a text spells. A call of one does nothing.
ghost use Rattle.lvm_text.specs.Faults.{OneTree, OneTextFault, TreeOrFault};

/// The law that a text spells one tree at most.
pub fn one_tree()
    ensures { OneTree }
{}

/// The law that a text has one fault at most.
pub fn one_fault()
    ensures { OneTextFault }
{}

/// The law that a text which spells a tree has no fault.
pub fn tree_or_fault()
    ensures { TreeOrFault }
{}
