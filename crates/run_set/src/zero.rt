// Whether bytes are all zero, 64 of them at a time.
ghost use Rattle.std.specs.Prelude.{◌≡◌, ◌+◌, ◌≤◌, ◌↔◌, All, IsTrue, length};
ghost use Rattle.std.specs.Simd.Lanes.{chunk};

use std::simd::prelude::*;

// How many bytes a vector has.
const LANES: usize = 64;

// Whether each byte of the vector from byte `at` on is zero.
fn vector_is_zero(bytes: &[u8], at: usize) -> bool
    requires { at + 64 ≤ length bytes.now }
    ensures { IsTrue result ↔ All (λ byte. byte ≡ 0) (chunk at 64 bytes.now) }
{
    let lanes = u8x64::from_slice(&bytes[at..]);
    lanes.simd_ne(u8x64::splat(0)).to_bitmask() == 0
}

// Whether each byte is zero, one by one.
fn is_zero(bytes: &[u8]) -> bool
    ensures { IsTrue result ↔ All (λ byte. byte ≡ 0) bytes.now }
{
    bytes.iter().all(|byte| *byte == 0)
}

/// Whether each byte is zero.
pub fn all_zero(bytes: &[u8]) -> bool
    ensures { IsTrue result ↔ All (λ byte. byte ≡ 0) bytes.now }
{
    let mut at = 0;
    while LANES <= bytes.len() - at {
        if !vector_is_zero(bytes, at) {
            return false;
        }
        at += LANES;
    }
    is_zero(&bytes[at..])
}
