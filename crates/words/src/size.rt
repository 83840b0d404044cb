//! What a size spells.
ghost use Rattle.std.specs.Prelude.{◌≡◌, ℕ, ◌+◌, ◌*◌, ◌^◌, ◌≤◌, ◌<◌, IfSome};
ghost use Rattle.words.specs.Sizes.{amount, behind_sign, percentage, sign_of, size_in, size_of, unit_of, unsigned_size};

use crate::spelling::digits;
use layout_plan::Size;

/// The greatest percentage.
const MOST_PERCENT: u64 = 999_999;

/// The sign of a size.
#[derive(Clone, Copy, Debug, PartialEq, Eq)]
pub enum Sign {
    Plus,
    Minus,
    Absent,
}

fn sign_at_front(bytes: &[u8]) -> Sign
    ensures { result ≡ sign_of bytes.now }
{
    match bytes.first().copied() {
        Some(b'+') => Sign::Plus,
        Some(b'-') => Sign::Minus,
        _ => Sign::Absent,
    }
}

fn after_sign(sign: Sign, bytes: &[u8]) -> &[u8]
    ensures { result.now ≡ behind_sign sign bytes.now }
{
    match sign {
        Sign::Plus | Sign::Minus if !bytes.is_empty() => &bytes[1..],
        _ => bytes,
    }
}

fn unit_bytes(unit: u8) -> Option<u64>
    ensures value { result ≡ unit_of unit }
    ensures small { IfSome result (λ scale. scale ≤ 2 ^ 40) }
{
    match unit {
        b'b' => Some(1),
        b'K' => Some(1 << 10),
        b'M' => Some(1 << 20),
        b'G' => Some(1 << 30),
        b'T' => Some(1 << 40),
        _ => None,
    }
}

fn percent(sign: Sign, number: u32) -> Size
    ensures { result ≡ percentage sign number }
{
    match sign {
        Sign::Plus => Size::MorePercent(number),
        Sign::Minus => Size::LessPercent(number),
        Sign::Absent => Size::Percent(number),
    }
}

fn bytes_of(sign: Sign, number: u64) -> Size
    ensures { result ≡ amount sign number }
{
    match sign {
        Sign::Plus => Size::More(number),
        Sign::Minus => Size::Less(number),
        Sign::Absent => Size::Bytes(number),
    }
}

/// The size of `number` units.
fn in_unit(sign: Sign, unit: u8, number: u64) -> Option<Size>
    ensures { result ≡ size_in sign unit number }
{
    if unit == b'%' {
        if number <= MOST_PERCENT {
            return Some(percent(sign, number as u32));
        }
        return None;
    }
    match unit_bytes(unit) {
        None => None,
        Some(scale) => match number.checked_mul(scale) {
            Some(product) if product < 1 << 63 => Some(bytes_of(sign, product)),
            _ => None,
        },
    }
}

fn without_sign(sign: Sign, bytes: &[u8]) -> Option<Size>
    ensures { result ≡ unsigned_size sign bytes.now }
{
    if bytes.is_empty() {
        return None;
    }
    let last = bytes.len() - 1;
    let unit = bytes[last];
    match digits(&bytes[..last], 15) {
        None => None,
        Some(number) => in_unit(sign, unit, number),
    }
}

/// The size that `bytes` spell.
#[tactic(auto, unfolding(crate::specs::Sizes::size_of))]
pub fn read_size(bytes: &[u8]) -> Option<Size>
    ensures { result ≡ size_of bytes.now }
{
    let sign = sign_at_front(bytes);
    without_sign(sign, after_sign(sign, bytes))
}
