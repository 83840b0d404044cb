//! The lengths that wishes ask for.
ghost use Rattle.std.specs.Prelude.{◌≡◌, ℕ, ◌*◌, ◌^◌, ◌≤◌, length, map, All, IfOk};
ghost use Rattle.layout_plan.specs.declared.line.Piece.{Piece};
ghost use Rattle.layout_plan.specs.declared.part.Part.{Part};
ghost use Rattle.layout_plan.specs.Plans.{laid_piece};
ghost use Rattle.layout_plan.specs.Size.{wanted_sectors};
ghost use Rattle.layout_plan.specs.Wishes.{asked_length, fate_of, is_delete, is_deleted, is_gone, keeps_logical, makes_room, number_of, remaining, wanted, wish_of};

use crate::line::Piece;
use crate::part::{Fate, Part};
use crate::wish::{Size, What, Wish};
use disk_base::SECTOR;
use std::alloc::{AllocError, Global};

/// So many hundredths of a length, times 100.
fn hundredths(old: u64, percent: u32) -> u64
    requires { old ≤ 2 ^ 31 }
    ensures product { result ≡ old * percent }
    ensures few { result ≤ 2 ^ 63 }
{
    old * u64::from(percent)
}

/// The sectors that a size asks for, where there were `old` sectors.
fn sectors_of(old: u64, size: Size) -> u64
    requires { old ≤ 2 ^ 31 }
    ensures length { result ≡ wanted_sectors old size }
    ensures few { result ≤ 10 ^ 17 }
{
    match size {
        Size::Bytes(bytes) => bytes.div_ceil(SECTOR as u64),
        Size::More(bytes) => old + bytes.div_ceil(SECTOR as u64),
        Size::Less(bytes) => old.saturating_sub(bytes / SECTOR as u64),
        Size::Percent(percent) => hundredths(old, percent).div_ceil(100),
        Size::MorePercent(percent) => old + hundredths(old, percent).div_ceil(100),
        Size::LessPercent(percent) => old.saturating_sub(hundredths(old, percent) / 100),
    }
}

/// What is wished of the part of that number: the first wish that names it.
pub fn wish_of(wishes: &[Wish], number: u32) -> Option<What>
    ensures { result ≡ wish_of wishes.now number }
{
    let wish = wishes.iter().find(|wish| wish.part == number)?;
    Some(wish.what)
}

/// The length that a wish asks for, where there were `old` sectors.
fn asked_length(what: Option<What>, old: u64) -> u64
    requires { old ≤ 2 ^ 31 }
    ensures length { result ≡ asked_length what old }
    ensures few { result ≤ 10 ^ 17 }
{
    match what {
        Some(What::Resize(size) | What::Force(size)) => sectors_of(old, size),
        _ => old,
    }
}

/// The length that a part shall have.
pub fn wanted(wishes: &[Wish], part: &Part) -> u64
    requires { part.now.count ≤ 2 ^ 31 }
    ensures length { result ≡ wanted wishes.now part.now }
    ensures few { result ≤ 10 ^ 17 }
{
    asked_length(wish_of(wishes, part.number), part.count)
}

/// Whether the part isn't made.
pub fn is_deleted(wishes: &[Wish], part: &Part) -> bool
    ensures { result ≡ is_deleted wishes.now part.now }
{
    matches!(wish_of(wishes, part.number), Some(What::Delete))
}

/// Whether a logical partition is left.
#[tactic(auto, unfolding(crate::specs::Wishes::keeps_logical))]
fn keeps_logical(wishes: &[Wish], parts: &[Part]) -> bool
    ensures { result ≡ keeps_logical wishes.now parts.now }
{
    parts
        .iter()
        .any(|part| part.role.is_logical() && !is_deleted(wishes, part))
}

/// Whether a part isn't made: it is deleted, or it is the extended one and no logical one is left.
fn is_gone(wishes: &[Wish], parts: &[Part], part: &Part) -> bool
    ensures { result ≡ is_gone wishes.now parts.now part.now }
{
    is_deleted(wishes, part) || part.role.is_extended() && !keeps_logical(wishes, parts)
}

/// The parts that are made, in their order.
pub fn remaining(alloc: Global, wishes: &[Wish], parts: &[Part]) -> Result<Vec<Part>, AllocError>
    ensures { IfOk result (λ rest. rest.items ≡ remaining wishes.now parts.now) }
{
    parts
        .iter()
        .filter(|part| !is_gone(wishes, parts, part))
        .copied()
        .collect(alloc)
}

/// Whether another part isn't made that has a lower number of the class of this one.
fn makes_room(wishes: &[Wish], parts: &[Part], part: &Part, other: &Part) -> bool
    ensures { result ≡ makes_room wishes.now parts.now part.now other.now }
{
    part.is_of_class(other) && other.number < part.number && is_gone(wishes, parts, other)
}

/// The number of a part on the target.
pub fn number_of(wishes: &[Wish], parts: &[Part], part: &Part) -> u32
    requires { length parts.now ≤ 128 }
    ensures { result ≡ number_of wishes.now parts.now part.now }
{
    let gone = parts
        .iter()
        .filter(|other| makes_room(wishes, parts, part, other))
        .count();
    part.number.saturating_sub(gone as u32)
}

/// The parts as they are laid out, with the lengths that they shall have.
pub fn pieces_of(alloc: Global, wishes: &[Wish], parts: &[Part]) -> Result<Vec<Piece>, AllocError>
    requires { All (λ (part : Part). part.count ≤ 2 ^ 31) parts.now }
    ensures pieces { IfOk result (λ pieces. pieces.items ≡ map (laid_piece wishes.now) parts.now) }
    ensures few { IfOk result (λ pieces. All (λ (piece : Piece). piece.count ≤ 10 ^ 17) pieces.items) }
{
    let mut pieces = Vec::new(alloc);
    for part in parts {
        pieces.push(Piece {
            role: part.role,
            count: wanted(wishes, part),
        })?;
    }
    Ok(pieces)
}

/// What becomes of a part that is made.
pub fn fate_of(wishes: &[Wish], part: &Part) -> Fate
    requires { part.now.count ≤ 2 ^ 31 }
    ensures { result ≡ fate_of wishes.now part.now }
{
    if part.role.is_extended() {
        return Fate::Extended;
    }
    match wish_of(wishes, part.number) {
        Some(What::Ignore) => Fate::Ignored,
        _ if wanted(wishes, part) == part.count => Fate::Kept,
        _ => Fate::Resized,
    }
}
