//! The extents and sectors of segments.
ghost use Rattle.std.specs.Prelude.{◌≡◌, ◌++◌, ◌∷◌, [], ℕ, ◌==◌, ◌&&◌, Some, None, OnOk, IfOk, IfSome, if◌then◌else◌, ◌<◌, ◌≤◌, ◌+◌, ◌*◌, length, max, slice_get};
ghost use Rattle.lvm_group.specs.Judged.{extents_from, span_at, span_by, span_of, next_span, taken_after, taken_by};
ghost use Rattle.lvm_group.specs.Volumes.{device_sectors, start_from, run_of_span, runs_in, extents_in, volume_with};
ghost use Rattle.lvm_group.specs.inside.Laying.{IsNextSegment, IsLaidVolume, AreVolumesLaid};

use crate::span::Span;
use crate::taken::Taken;
use crate::types::{LogicalVolume, PhysicalVolume, Segment, Stripe};
use crate::values::pushed;
use disk_base::List;
use std::alloc::{AllocError, Global};

/// A logical volume as it lies: how many extents it has, and its runs, each with its physical volume, its first sector
/// there and its sectors.
#[derive(Debug, Drop)]
pub struct Volume {
    pub extents: u64,
    pub runs: List<(u32, u64, u64)>,
}

/// How many extents that physical volume has.
pub(crate) fn extent_count(ps: &[PhysicalVolume], m: u32) -> u32
    ensures { result ≡ extents_from 0 m ps.now }
{
    let mut n = 0;
    for p in ps {
        if n == m as usize {
            return p.count;
        }
        n += 1;
    }
    0
}

/// At which of its sectors its extents begin.
pub(crate) fn extent_start(ps: &[PhysicalVolume], m: u32) -> u32
    ensures { result ≡ start_from 0 m ps.now }
{
    let mut n = 0;
    for p in ps {
        if n == m as usize {
            return p.start;
        }
        n += 1;
    }
    0
}

// The end of a device, or of its extents, if that is more.
fn device_end(size: u32, start: u32, count: u32, extent: u32) -> u64
    ensures { result ≡ max size (start + count * extent) }
{
    let reach = u64::from(count) * u64::from(extent);
    u64::from(size).max(u64::from(start) + reach)
}

/// How many sectors that physical volume has by the text.
pub(crate) fn device_at(ps: &[PhysicalVolume], extent: u32, m: usize) -> u64
    ensures { result ≡ device_sectors extent (slice_get ps.now m) }
{
    if m >= ps.len() {
        return 0;
    }
    let PhysicalVolume {
        size,
        start,
        count,
        ..
    } = &ps[m];
    device_end(*size, *start, *count, extent)
}

fn span_at(member: u32, first: i64, n: u32, count: u32) -> Option<Span>
    ensures span { result ≡ span_at member first n count }
    ensures count { IfSome result (λ span. span.count ≡ n) }
{
    if first < 0 || first > 4294967295 {
        return None;
    }
    if first + i64::from(n) > i64::from(count) {
        return None;
    }
    Some(Span {
        member,
        first: first as u32,
        count: n,
    })
}

/// The extents of a segment. A physical volume of a number that has no 32 bits finds no memory.
fn span_in(
    ps: &[PhysicalVolume],
    n: u32,
    stripe: Option<Stripe>,
) -> Result<Option<Span>, AllocError>
    ensures span { IfOk result (λ span. span ≡ span_by ps.now n stripe) }
    ensures count { IfOk result (λ span. IfSome span (λ s. s.count ≡ n)) }
{
    match stripe {
        None => Ok(None),
        Some(s) => {
            if s.member > 4294967295 {
                return Err(AllocError);
            }
            let member = s.member as u32;
            Ok(span_at(member, s.first, n, extent_count(ps, member)))
        }
    }
}

#[tactic(auto, unfolding(crate::specs::Judged::next_span))]
/// The extent behind a segment of a volume, and its own extents, where it begins at extent `at` and none is taken.
fn next(
    ps: &[PhysicalVolume],
    taken: &Taken,
    at: u64,
    p: Segment,
) -> Result<Option<(u64, Span)>, AllocError>
    ensures { IfOk result (IsNextSegment ps.now taken.now at p) }
{
    if u64::from(p.start) != at || p.count == 0 {
        return Ok(None);
    }
    match span_in(ps, p.count, p.stripe)? {
        None => Ok(None),
        Some(span) => {
            if !taken.is_free(span) {
                return Ok(None);
            }
            Ok(Some((u64::from(p.start) + u64::from(p.count), span)))
        }
    }
}

/// Extents as sectors.
pub(crate) fn run(ps: &[PhysicalVolume], extent: u32, s: Span) -> (u32, u64, u64)
    ensures { result ≡ run_of_span ps.now extent s }
{
    let start = extent_start(ps, s.member);
    let first = u64::from(s.first) * u64::from(extent);
    (
        s.member,
        u64::from(start) + first,
        u64::from(s.count) * u64::from(extent),
    )
}

/// One volume: what is taken behind it, and how it lies, where its segments are sound.
fn volume_in(
    alloc: Global,
    ps: &[PhysicalVolume],
    extent: u32,
    earlier: Taken,
    l: &LogicalVolume,
) -> Result<Option<(Taken, Volume)>, AllocError>
    ensures { IfOk result (IsLaidVolume ps.now extent earlier l.now) }
{
    let segments = l.segments.items();
    if segments.is_empty() {
        return Ok(None);
    }
    let mut taken = earlier;
    let mut runs = List::new(alloc);
    let mut at = 0;
    for p in segments {
        match next(ps, &taken, at, *p)? {
            None => return Ok(None),
            Some((behind, span)) => {
                runs = pushed(runs, run(ps, extent, span))?;
                taken = taken.with(span)?;
                at = behind;
            }
        }
    }
    Ok(Some((taken, Volume { extents: at, runs })))
}

/// How the volumes lie and what is free, or the first volume that is not sound.
#[derive(Debug, Drop)]
pub(crate) enum Laid {
    Sound(List<Volume>, List<(u32, u64, u64)>),
    Unsound(usize),
}

/// How all volumes lie, and what is free.
pub(crate) fn lay(
    alloc: Global,
    ps: &[PhysicalVolume],
    extent: u32,
    ls: &[LogicalVolume],
) -> Result<Laid, AllocError>
    ensures { IfOk result (AreVolumesLaid ps.now extent ls.now) }
{
    let mut taken = Taken::new(alloc);
    let mut volumes = List::new(alloc);
    let mut n = 0;
    for l in ls {
        match volume_in(alloc, ps, extent, taken, l)? {
            None => return Ok(Laid::Unsound(n)),
            Some((more, volume)) => {
                taken = more;
                volumes = pushed(volumes, volume)?;
            }
        }
        n += 1;
    }
    let free = taken.free(alloc, ps, extent)?;
    Ok(Laid::Sound(volumes, free))
}
