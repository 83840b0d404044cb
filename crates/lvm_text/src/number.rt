//! Words that are numbers.
ghost use Rattle.std.specs.Prelude.{◌≡◌, ℕ, ◌+◌, ◌*◌, ◌<◌, ◌≤◌, true, false, IfSome, IfNone, length};
ghost use Rattle.lvm_text.specs.Grammar.{are_digit_bytes, digits_in, is_negative};
ghost use Rattle.lvm_text.specs.inside.Machine.{SpellUpTo, number_at, number_with};

use crate::bytes::is_digit_byte;
use crate::machine::Wrong;
use crate::tree::Scalar;

const BEYOND: u128 = 9223372036854775808;

/// The number that digits spell, or `BEYOND` where it is greater.
fn size(digits: &[u8]) -> Option<u128>
    ensures some { IfSome result (SpellUpTo 9223372036854775808 digits.now) }
    ensures none { IfNone result (are_digit_bytes digits.now ≡ false) }
{
    if digits.is_empty() {
        return None;
    }
    let mut n: u128 = 0;
    for b in digits {
        if !is_digit_byte(*b) {
            return None;
        }
        n = (10 * n + u128::from(*b - b'0')).min(BEYOND);
    }
    Some(n)
}

fn with_sign(negative: bool, digits: &[u8]) -> Result<Scalar, Wrong>
    ensures { result ≡ number_with true negative digits.now }
{
    match size(digits) {
        None => Err(Wrong::Shape),
        Some(n) => {
            if n >= BEYOND {
                return Err(Wrong::Number);
            }
            let n = n as i64;
            Ok(Scalar::Number(if negative { -n } else { n }))
        }
    }
}

fn has_sign(word: &[u8]) -> bool
    ensures { result ≡ is_negative word.now }
{
    !word.is_empty() && word[0] == b'-'
}

fn digits(word: &[u8]) -> &[u8]
    ensures { result.now ≡ digits_in word.now }
{
    if has_sign(word) { &word[1..] } else { word }
}

/// The number that a word spells.
#[tactic(auto, unfolding(crate::specs::inside::Machine::number_at))]
pub fn number(word: &[u8]) -> Result<Scalar, Wrong>
    ensures { result ≡ number_at true word.now }
{
    with_sign(has_sign(word), digits(word))
}
