//! What holds of the definitions.
ghost use Rattle.block_claims.specs.Agreement.{FreeIsElsewhere, DiffersInBlocks};

/// The law that volumes which differ in free blocks alone agree on what is claimed. A call does nothing.
pub fn free_is_elsewhere()
    ensures elsewhere { FreeIsElsewhere }
    ensures images { DiffersInBlocks }
{}
