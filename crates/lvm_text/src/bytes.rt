//! Bytes of a text: spaces, comments, and the token at the front.
ghost use Rattle.std.specs.Prelude.{◌≡◌, ◌≤◌, IfOk, IfSome, IfNone, false, length, option_map};
ghost use Rattle.lvm_text.specs.Tokens.{is_digit_byte, is_space, is_word_byte, skipped};
ghost use Rattle.lvm_text.specs.inside.Scan.{mark_of, text_at, token_at, word_len};

use crate::token::Token;
use disk_base::Name;
use std::alloc::{AllocError, Global};

fn is_space_byte(b: u8) -> bool
    ensures { result ≡ is_space b }
{
    b == b' ' || b == b'\t' || b == b'\n' || b == b'\r'
}

pub fn is_digit_byte(b: u8) -> bool
    ensures { result ≡ is_digit_byte b }
{
    b'0' <= b && b <= b'9'
}

fn is_in_word(b: u8) -> bool
    ensures { result ≡ is_word_byte b }
{
    is_digit_byte(b)
        || b'A' <= b && b <= b'Z'
        || b'a' <= b && b <= b'z'
        || b == b'_'
        || b == b'.'
        || b == b'+'
        || b == b'-'
}

#[tactic(auto, unfolding(crate::specs::Tokens::behind))]
/// What stands behind the spaces and comments at the front.
pub fn skip(bytes: &[u8]) -> &[u8]
    ensures { result.now ≡ skipped bytes.now }
{
    let mut commented = false;
    let mut rest = bytes;
    while let [b, after @ ..] = rest {
        if commented {
            commented = *b != b'\n';
        } else if *b == b'#' {
            commented = true;
        } else if !is_space_byte(*b) {
            return rest;
        }
        rest = after;
    }
    rest
}

fn mark(b: u8) -> Option<Token>
    ensures { result ≡ mark_of b }
{
    match b {
        b'{' => Some(Token::Open),
        b'}' => Some(Token::Close),
        b'[' => Some(Token::BeginList),
        b']' => Some(Token::EndList),
        b',' => Some(Token::Comma),
        b'=' => Some(Token::Equals),
        _ => None,
    }
}

#[tactic(auto, unfolding(crate::specs::inside::Scan::word_len))]
/// How many bytes of a word stand at the front.
fn word_length(bytes: &[u8]) -> usize
    ensures value { result ≡ word_len bytes.now }
    ensures within { result ≤ length bytes.now }
{
    let mut n = 0;
    while n < bytes.len() && is_in_word(bytes[n]) {
        n += 1;
    }
    n
}

#[tactic(auto, unfolding(crate::specs::inside::Scan::text_at), using(crate::proofs::Loops::with_front_more))]
/// The text up to its closing quote, and what stands behind that.
fn text(alloc: Global, bytes: &[u8]) -> Result<Option<(Name, &[u8])>, AllocError>
    ensures { IfOk result (λ found. option_map (λ p. (p.0, p.1.now)) found ≡ text_at false bytes.now) }
{
    let mut text = Vec::new(alloc);
    let mut escape = false;
    let mut rest = bytes;
    while let [b, after @ ..] = rest {
        if escape {
            if *b != b'"' && *b != b'\\' {
                return Ok(None);
            }
            text.push(*b)?;
            escape = false;
        } else if *b == b'"' {
            return Ok(Some((Name::from_vec(text), after)));
        } else if *b == b'\\' {
            escape = true;
        } else {
            text.push(*b)?;
        }
        rest = after;
    }
    Ok(None)
}

/// The token at the front, and what stands behind it.
#[tactic(auto, unfolding(crate::specs::inside::Scan::token_at))]
pub fn first_token(alloc: Global, bytes: &[u8]) -> Result<Option<(Token, &[u8])>, AllocError>
    ensures { IfOk result (λ found. option_map (λ p. (p.0, p.1.now)) found ≡ token_at bytes.now) }
{
    let [b, after @ ..] = bytes else {
        return Ok(None);
    };
    if let Some(found) = mark(*b) {
        return Ok(Some((found, after)));
    }
    if *b == b'"' {
        return match text(alloc, after)? {
            None => Ok(None),
            Some((text, after)) => Ok(Some((Token::Text(text), after))),
        };
    }
    let length = word_length(bytes);
    if length == 0 {
        return Ok(None);
    }
    let (word, after) = bytes.split_at(length);
    let word = Name::of(alloc, word)?;
    Ok(Some((Token::Word(word), after)))
}
