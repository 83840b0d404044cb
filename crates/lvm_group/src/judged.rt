//! Whether the members that a text names are those that were found, and its segments of the known kind.
ghost use Rattle.std.specs.Prelude.{◌≡◌, ℕ, ◌==◌, ◌&&◌, Some, None, ◌<◌, ◌≤◌, ◌+◌, ◌*◌, length};
ghost use Rattle.std.specs.List.{list_all, list_any, count_by};
ghost use Rattle.std.specs.Str.{bytes_eq};
ghost use Rattle.lvm_group.specs.Judged.{is_of, fits, all_fit, is_named_member, is_found, are_members, first_bad, is_known, is_known_volume};

use crate::types::{LogicalVolume, Member, PhysicalVolume, Segment};

pub(crate) fn belongs(p: &PhysicalVolume, m: &Member) -> bool
    ensures { result ≡ is_of p.now m.now }
{
    p.id.bytes() == m.label.id.as_slice()
}

fn fits_in(extent: u32, p: &PhysicalVolume, m: &Member) -> bool
    ensures { result ≡ fits extent p.now m.now }
{
    let end = u64::from(p.start) + u64::from(p.count) * u64::from(extent);
    !belongs(p, m) || u64::from(p.size) <= m.sectors && end <= m.sectors
}

fn fits_each(extent: u32, p: &PhysicalVolume, ms: &[Member]) -> bool
    ensures { result ≡ list_all (fits extent p.now) ms.now }
{
    for m in ms {
        if !fits_in(extent, p, m) {
            return false;
        }
    }
    true
}

/// Whether all members that were found are as long as the text says.
pub(crate) fn fit_all(extent: u32, ms: &[Member], ps: &[PhysicalVolume]) -> bool
    ensures { result ≡ all_fit extent ms.now ps.now }
{
    for p in ps {
        if !fits_each(extent, p, ms) {
            return false;
        }
    }
    true
}

fn knows(segments: &[Segment]) -> bool
    ensures { result ≡ list_all is_known segments.now }
{
    for segment in segments {
        if segment.stripe.is_none() {
            return false;
        }
    }
    true
}

/// The first volume with a segment of an unknown kind.
pub(crate) fn unknown(logicals: &[LogicalVolume]) -> Option<usize>
    ensures { result ≡ first_bad is_known_volume 0 logicals.now }
{
    let mut n = 0;
    for l in logicals {
        if !knows(l.segments.items()) {
            return Some(n);
        }
        n += 1;
    }
    None
}

fn some_of(ps: &[PhysicalVolume], m: &Member) -> bool
    ensures { result ≡ list_any (λ p. is_of p m.now) ps.now }
{
    for p in ps {
        if belongs(p, m) {
            return true;
        }
    }
    false
}

fn names(ps: &[PhysicalVolume], m: &Member) -> bool
    ensures { result ≡ is_named_member ps.now m.now }
{
    (m.label.areas == 1 || m.label.areas == 2) && some_of(ps, m)
}

fn times_found(p: &PhysicalVolume, ms: &[Member]) -> usize
    ensures { result ≡ count_by (λ m. is_of p.now m) ms.now }
{
    let mut n = 0;
    for m in ms {
        if belongs(p, m) {
            n += 1;
        }
    }
    n
}

fn twins(p: &PhysicalVolume, ps: &[PhysicalVolume]) -> usize
    ensures { result ≡ count_by (λ q. bytes_eq q.id p.now.id) ps.now }
{
    let mut n = 0;
    for q in ps {
        if q.id.bytes() == p.id.bytes() {
            n += 1;
        }
    }
    n
}

#[tactic(auto, unfolding(crate::specs::Judged::is_found))]
fn finds(ps: &[PhysicalVolume], ms: &[Member], p: &PhysicalVolume) -> bool
    ensures { result ≡ is_found ps.now ms.now p.now }
{
    times_found(p, ms) == 1 && twins(p, ps) == 1
}

fn all_named(ps: &[PhysicalVolume], ms: &[Member]) -> bool
    ensures { result ≡ list_all (is_named_member ps.now) ms.now }
{
    for m in ms {
        if !names(ps, m) {
            return false;
        }
    }
    true
}

fn all_found(ps: &[PhysicalVolume], ms: &[Member]) -> bool
    ensures { result ≡ list_all (is_found ps.now ms.now) ps.now }
{
    for p in ps {
        if !finds(ps, ms, p) {
            return false;
        }
    }
    true
}

/// Whether the members that the text names are those that were found.
pub(crate) fn agree(ps: &[PhysicalVolume], ms: &[Member]) -> bool
    ensures { result ≡ are_members ps.now ms.now }
{
    !ps.is_empty() && all_named(ps, ms) && all_found(ps, ms)
}
