//! What names of volumes stand for, and what is ignored or zeroed then.
ghost use Rattle.std.specs.Prelude.{◌≡◌};
ghost use Rattle.std.specs.List.{list_any};
ghost use Rattle.volume_choice.specs.Chosen.{begins_in, has_chosen, is_ignored_group, is_ignored_logical, is_ignored_part, is_in_zeroed_group, is_same_chosen, is_spared_part, is_zeroed_logical, is_zeroed_part, lies_in_spared};

use disk_base::Run;
use guest_view::{Content, GuestPart};

/// A volume of a guest that is named.
#[derive(Clone, Copy, Debug, PartialEq, Eq)]
pub enum Chosen {
    /// A partition, by its number.
    Part(u32),
    /// A logical volume, by the number of the partition that holds its group, and its place in the group.
    Logical(u32, u32),
    /// A whole group, by the number of the partition that holds it.
    Group(u32),
}

/// What a job names of a guest, in the order of the words.
#[derive(Debug, Drop)]
pub struct Choices {
    /// What stays as it is, and isn't looked into.
    pub ignored: Vec<Chosen>,
    /// What goes whole.
    pub zeroed: Vec<Chosen>,
}

fn is_same_chosen(one: Chosen, other: Chosen) -> bool
    ensures { result ≡ is_same_chosen one other }
{
    match (one, other) {
        (Chosen::Part(number), Chosen::Part(other)) => number == other,
        (Chosen::Logical(holder, lv), Chosen::Logical(other_holder, other_lv)) => {
            holder == other_holder && lv == other_lv
        }
        (Chosen::Group(holder), Chosen::Group(other)) => holder == other,
        _ => false,
    }
}

fn has_chosen(one: Chosen, all: &[Chosen]) -> bool
    ensures { result ≡ has_chosen one all.now }
{
    all.iter().any(|other| is_same_chosen(one, *other))
}

// Whether a run of the disk begins in a partition.
fn begins_in(part: &GuestPart, run: &Run) -> bool
    ensures { result ≡ begins_in part.now run.now }
{
    part.start <= run.start && run.start - part.start < part.count
}

fn some_begins_in(part: &GuestPart, runs: &[Run]) -> bool
    ensures { result ≡ list_any (begins_in part.now) runs.now }
{
    runs.iter().any(|run| begins_in(part, run))
}

impl Choices {
    // Whether the group is zeroed of which this is a member's content.
    fn is_in_zeroed_group(&self, content: &Content) -> bool
        ensures { result ≡ is_in_zeroed_group self.now content.now }
    {
        match content {
            Content::Group(_, membership, _) | Content::Member(_, membership) => {
                has_chosen(Chosen::Group(membership.holder), &self.zeroed)
            }
            _ => false,
        }
    }

    /// Whether a partition is ignored.
    pub fn is_ignored_part(&self, part: &GuestPart) -> bool
        ensures { result ≡ is_ignored_part self.now part.now }
    {
        has_chosen(Chosen::Part(part.number), &self.ignored)
    }

    /// Whether a partition is zeroed: it is named, or it is a member of a group that is.
    pub fn is_zeroed_part(&self, part: &GuestPart) -> bool
        ensures { result ≡ is_zeroed_part self.now part.now }
    {
        has_chosen(Chosen::Part(part.number), &self.zeroed)
            || self.is_in_zeroed_group(&part.content)
    }

    /// Whether logical volume `lv` of the group that partition `holder` holds is ignored.
    pub fn is_ignored_logical(&self, holder: u32, lv: u32) -> bool
        ensures { result ≡ is_ignored_logical self.now holder lv }
    {
        has_chosen(Chosen::Logical(holder, lv), &self.ignored)
    }

    /// Whether logical volume `lv` of the group that partition `holder` holds is zeroed.
    pub fn is_zeroed_logical(&self, holder: u32, lv: u32) -> bool
        ensures { result ≡ is_zeroed_logical self.now holder lv }
    {
        has_chosen(Chosen::Logical(holder, lv), &self.zeroed)
    }

    /// Whether the group that partition `holder` holds is ignored.
    pub fn is_ignored_group(&self, holder: u32) -> bool
        ensures { result ≡ is_ignored_group self.now holder }
    {
        has_chosen(Chosen::Group(holder), &self.ignored)
    }

    /// Whether a partition needn't be read: it is ignored or zeroed.
    pub(crate) fn is_spared_part(&self, part: &GuestPart) -> bool
        ensures { result ≡ is_spared_part self.now part.now }
    {
        self.is_ignored_part(part) || self.is_zeroed_part(part)
    }

    /// Whether a volume with these runs has some of them in a partition that is ignored or zeroed.
    pub(crate) fn lies_in_spared(&self, parts: &[GuestPart], runs: &[Run]) -> bool
        ensures { result ≡ lies_in_spared self.now parts.now runs.now }
    {
        parts.iter().any(|part| self.is_spared_part(part) && some_begins_in(part, runs))
    }
}
