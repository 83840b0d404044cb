// A set of numbers below a bound, with a bit for each of them.
ghost use Rattle.std.specs.Prelude.{◌≡◌, ◌<◌, false, true, not, replicate, length, slice_index_or, slice_set, IfOk};

use std::alloc::{AllocError, Global};
use std::marker::Model;

/// A set of numbers below a bound, seen as the list that says of each of them whether the set has it.
///
/// It takes an eighth of a byte for each number below the bound, all of it when it is made.
#[derive(Drop)]
pub struct Bits {
    words: Vec<u64>,
    bound: u64,
}

impl Model for Bits {
    ghost use Rattle.std.specs.Prelude.{List, Bool, ◌≤◌, ◌*◌, length};
    ghost use Rattle.run_set.specs.inside.Words.{tests_of};

    ghost Value = { List Bool };

    ghost view = { λ b. tests_of b.bound b.words.items };

    ghost invariant = { λ b. b.bound ≤ 64 * length b.words.items };
}

impl Bits {
    /// The empty set of numbers below `bound`.
    ///
    /// # Errors
    ///
    /// Where memory runs out.
    pub fn new(alloc: Global, bound: u64) -> Result<Bits, AllocError>
        ensures { IfOk result (λ bits. bits ≡ replicate bound false) }
    {
        let words = zero_words(alloc, (bound / 64 + 1) as usize)?;
        Ok(Bits { words, bound })
    }

    /// Whether the set has the number.
    pub fn has(&self, number: u64) -> bool
        requires { number < length self.now }
        ensures { result ≡ slice_index_or self.now number false }
    {
        self.words[(number / 64) as usize] >> (number % 64) & 1 == 1
    }

    /// Puts the number into the set, and answers whether it wasn't there. It takes no memory.
    pub fn take(&mut self, number: u64) -> bool
        requires { number < length self.old }
        ensures fresh { result ≡ not (slice_index_or self.old number false) }
        ensures added { self.new ≡ slice_set self.old number true }
    {
        let fresh = !self.has(number);
        self.words[(number / 64) as usize] |= 1 << (number % 64);
        fresh
    }
}

// That many words, all zero.
fn zero_words(alloc: Global, count: usize) -> Result<Vec<u64>, AllocError>
    ensures { IfOk result (λ words. words.items ≡ replicate count 0) }
{
    vec![in alloc; 0; count]
}
