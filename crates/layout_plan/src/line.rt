//! Where partitions come to stand one behind the other.
ghost use Rattle.std.specs.Prelude.{◌≡◌, ℕ, ◌+◌, ◌-◌, ◌*◌, ◌^◌, ◌<◌, ◌≤◌, length, All, IfOk};
ghost use Rattle.layout_plan.specs.declared.line.Piece.{Piece};
ghost use Rattle.layout_plan.specs.Layouts.{IsLayout, Stands, StandsFirst, StandsInside, end_from, last_end};

use crate::alignment::next_multiple;
use crate::part::Role;
use std::alloc::{AllocError, Global};

/// What is laid out of a partition: what it is, and its length in sectors. That of the extended one says nothing.
#[derive(Clone, Copy, Debug, PartialEq, Eq)]
pub struct Piece {
    pub role: Role,
    pub count: u64,
}

/// Where a partition comes to stand: the sector of its boot record, or 0 where it has none, its first sector, and
/// the first one behind it. The extended partition's end is its start, so far.
#[derive(Clone, Copy, Debug, PartialEq, Eq)]
pub struct Spot {
    pub ebr: u64,
    pub start: u64,
    pub end: u64,
}

/// Where partitions come to stand, and where the last one ends.
#[derive(Debug, Drop)]
pub struct Line {
    pub spots: Vec<Spot>,
    pub last: u64,
}

/// The end of a partition that starts there.
fn end_from(role: Role, count: u64, start: u64) -> u64
    requires start { start < 2 ^ 63 + 2 ^ 62 + 2 ^ 61 }
    requires count { count ≤ 10 ^ 17 }
    ensures { result ≡ end_from role count start }
{
    match role {
        Role::Extended => start,
        Role::Slot | Role::Logical => start + count,
    }
}

/// Where the first partition comes to stand.
fn first_spot(begin: u64, piece: Piece) -> Spot
    requires begin { begin < 2 ^ 32 }
    requires count { piece.count ≤ 10 ^ 17 }
    ensures { StandsFirst begin piece.role piece.count result }
{
    let Piece { role, count } = piece;
    Spot {
        ebr: 0,
        start: begin,
        end: end_from(role, count, begin),
    }
}

/// Where a logical partition comes to stand behind a partition of the role `before`.
fn logical_spot(align: u64, before: Role, behind: u64, piece: Piece) -> Spot
    requires some { 0 < align }
    requires small { align ≤ 1048576 }
    requires room { behind < 2 ^ 63 + 2 ^ 62 }
    requires count { piece.count ≤ 10 ^ 17 }
    ensures { StandsInside align before behind piece.count result }
{
    let ebr = match before {
        Role::Extended => behind,
        Role::Slot | Role::Logical => next_multiple(behind, align),
    };
    let start = next_multiple(ebr + 1, align);
    Spot {
        ebr,
        start,
        end: start + piece.count,
    }
}

/// Where a partition comes to stand behind one of the role `before`.
fn next_spot(align: u64, before: Role, behind: u64, piece: Piece) -> Spot
    requires some { 0 < align }
    requires small { align ≤ 1048576 }
    requires room { behind < 2 ^ 63 + 2 ^ 62 }
    requires count { piece.count ≤ 10 ^ 17 }
    ensures { Stands align before behind piece.role piece.count result }
{
    let Piece { role, count } = piece;
    match role {
        Role::Logical => logical_spot(align, before, behind, piece),
        Role::Slot | Role::Extended => {
            let start = next_multiple(behind, align);
            Spot {
                ebr: 0,
                start,
                end: end_from(role, count, start),
            }
        }
    }
}

/// Lays pieces out one behind the other, the first one at `begin`. A line of none ends at `floor`.
pub fn lay_out(
    alloc: Global,
    align: u64,
    begin: u64,
    floor: u64,
    pieces: &[Piece],
) -> Result<Line, AllocError>
    requires some { 0 < align }
    requires small { align ≤ 1048576 }
    requires begin { begin < 2 ^ 32 }
    requires floor { floor < 2 ^ 32 }
    requires counts { All (λ (piece : Piece). piece.count ≤ 10 ^ 17) pieces.now }
    requires few { length pieces.now ≤ 128 }
    ensures spots { IfOk result (λ line. IsLayout align begin pieces.now line.spots.items) }
    ensures last { IfOk result (λ line. line.last ≡ last_end floor line.spots.items) }
{
    let mut spots = Vec::new(alloc);
    let mut before = Role::Slot;
    let mut last = floor;
    for (index, piece) in pieces.iter().enumerate() {
        let spot = if index == 0 {
            first_spot(begin, *piece)
        } else {
            next_spot(align, before, last, *piece)
        };
        spots.push(spot)?;
        before = piece.role;
        last = spot.end;
    }
    Ok(Line { spots, last })
}
