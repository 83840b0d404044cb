//! The extents that earlier segments have.
ghost use Rattle.std.specs.Prelude.{◌≡◌, ◌<◌, ◌^◌, ◌++◌, ◌∷◌, [], nat_lt, true, IfOk};
ghost use Rattle.std.specs.List.{list_all, filter};
ghost use Rattle.lvm_group.specs.Apart.{are_apart};
ghost use Rattle.lvm_group.specs.Free.{AreFreeRuns};
ghost use Rattle.lvm_group.specs.inside.Line.{is_in_line, AreKept, begin_of, behind_span, begins_behind};

use crate::free::free_on_all;
use crate::span::Span;
use crate::types::PhysicalVolume;
use crate::values::pushed;
use disk_base::List;
use std::alloc::{AllocError, Global};
use std::collections::BTreeMap;
use std::marker::Model;

/// Extents that are taken. Contracts see them in the order in which they were added. Beside them stands each by the place
/// behind its last extent, with the place of its first.
#[derive(Debug, Drop)]
pub(crate) struct Taken {
    spans: List<Span>,
    line: BTreeMap<u128, u128>,
    ghost in_line: { is_in_line line.entries ≡ true },
    ghost kept: { AreKept spans line.entries },
}

impl Model for Taken {
    ghost use Rattle.std.specs.Prelude.{List};
    ghost use Rattle.lvm_group.specs.declared.span.Span.{Span};

    ghost Value = { List Span };

    ghost view = { λ t. t.spans };
}

fn begin(s: Span) -> u128
    ensures { result ≡ begin_of s }
{
    u128::from(s.member) * 1099511627776 + u128::from(s.first)
}

fn behind(s: Span) -> u128
    ensures { result ≡ behind_span s }
{
    u128::from(s.member) * 1099511627776 + u128::from(s.first) + u128::from(s.count)
}

/// Whether the first entry that ends behind `begin`, if there is one, begins at `behind` or later.
fn is_gap(line: &BTreeMap<u128, u128>, begin: u128, behind: u128) -> bool
    requires { begin < 2 ^ 127 }
    ensures { result ≡ begins_behind behind (filter (λ e. nat_lt begin e.0) line.now.entries) }
{
    match line.range(begin + 1..).next() {
        None => true,
        Some((_, next)) => behind <= *next,
    }
}

impl Taken {
    /// None.
    pub(crate) fn new(alloc: Global) -> Taken
        ensures { result ≡ [] }
    {
        Taken {
            spans: List::new(alloc),
            line: BTreeMap::new(alloc),
        }
    }

    /// Whether none of these extents is taken.
    #[tactic(auto, using(crate::proofs::Line::is_free_line))]
    pub(crate) fn is_free(&self, s: Span) -> bool
        requires { 0 < s.count }
        ensures { result ≡ list_all (are_apart s) self.now }
    {
        is_gap(&self.line, begin(s), behind(s))
    }

    /// The extents of these physical volumes that are not taken, as greatest runs of sectors.
    #[tactic(auto, using(crate::proofs::Gaps::are_free))]
    pub(crate) fn free(
        &self,
        alloc: Global,
        ps: &[PhysicalVolume],
        extent: u32,
    ) -> Result<List<(u32, u64, u64)>, AllocError>
        ensures { IfOk result (AreFreeRuns self.now extent 0 ps.now) }
    {
        let free = free_on_all(alloc, &self.line, ps, extent)?;
        Ok(free)
    }

    /// These extents too.
    #[tactic(auto, using(crate::proofs::Line::is_in_line_insert, crate::proofs::Line::is_kept_more))]
    pub(crate) fn with(self, s: Span) -> Result<Taken, AllocError>
        requires some { 0 < s.count }
        requires free { list_all (are_apart s) self ≡ true }
        ensures { IfOk result (λ more. more ≡ self ++ s ∷ []) }
    {
        let Taken { spans, mut line } = self;
        line.insert(behind(s), begin(s))?;
        let spans = pushed(spans, s)?;
        Ok(Taken { spans, line })
    }
}
