//! What holds of every block and of every short form.
ghost use Rattle.std.specs.Prelude.{ℕ, List};
ghost use Rattle.xfs_dir.specs.Item.{DirItem};
ghost use Rattle.xfs_dir.specs.Short.{ShortItem};
ghost use Rattle.xfs_dir.specs.Laws.{BlocksAreExact, ShortFormsAreExact};

/// The law that a block spells one list of items alone, and none where it has a fault. A call does nothing.
pub fn blocks_are_exact()
    ensures { (bytes : List ℕ) (items : List DirItem) → BlocksAreExact bytes items }
{}

/// The same law of a short form. A call does nothing.
pub fn short_forms_are_exact()
    ensures { (bytes : List ℕ) (items : List ShortItem) → ShortFormsAreExact bytes items }
{}
