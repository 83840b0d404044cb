//! Claims in a list, for tests of few blocks.
ghost use Rattle.std.specs.Prelude.{◌≡◌, ◌&&◌, ◌==◌, [], length};
ghost use Rattle.std.specs.List.{list_any};

use std::alloc::{AllocError, Global};
use xfs_tree::Mark;

/// Claims in a list. It admits every block.
#[derive(Drop)]
pub(crate) struct ListMark {
    blocks: Vec<(u32, u32)>,
}

impl ListMark {
    /// No claims.
    pub(crate) fn new(alloc: Global) -> ListMark
        ensures { result.blocks.items ≡ [] }
    {
        ListMark {
            blocks: Vec::new(alloc),
        }
    }

    /// How many blocks are claimed.
    pub(crate) fn count(&self) -> usize
        ensures { result ≡ length self.now.blocks.items }
    {
        self.blocks.len()
    }

    fn has(&self, group: u32, block: u32) -> bool
        ensures { result ≡ list_any (λ p. group == p.0 && block == p.1) self.now.blocks.items }
    {
        self.blocks.iter().any(|p| group == p.0 && block == p.1)
    }
}

impl Mark for ListMark {
    ghost use Rattle.std.specs.Prelude.{◌&&◌, ◌==◌, true};
    ghost use Rattle.std.specs.List.{list_any};

    ghost claimed = { λ m group block. list_any (λ p. group == p.0 && block == p.1) m.blocks.items };

    ghost admits = { λ m group block. true };

    fn claim(&mut self, group: u32, block: u32) -> Result<bool, AllocError> {
        if self.has(group, block) {
            return Ok(false);
        }
        match self.blocks.push((group, block)) {
            Ok(()) => Ok(true),
            Err(_) => Err(AllocError),
        }
    }
}
