//! What a partition holds.
ghost use Rattle.std.specs.Prelude.{◌≡◌, ◌^◌, ◌≤◌};
ghost use Rattle.guest_view.specs.Contents.{ContentFits, content_by, content_of_found, content_of_inner, content_of_physical, needed_by_member, needed_sectors, second_end};
ghost use Rattle.partition_content.specs.Found.{AreasFit};

use group_content::{GroupContent, Membership, Standing};
use layout_plan::Role;
use partition_content::{Found, Physical};
use swap_area::Swap;
use volume_content::{Inner, Why};
use xfs_check::Volume;

/// What a partition holds.
#[derive(Drop)]
pub enum Content {
    /// The logical partitions of its chain.
    Extended,
    /// An XFS volume that was found valid.
    Xfs(Volume),
    /// A swap area.
    Swap(Swap),
    /// A group of LVM2, whose first physical volume it is.
    Group(Physical, Membership, GroupContent),
    /// A later physical volume of a group.
    Member(Physical, Membership),
    /// What isn't read, and why.
    Unread(Why),
}

// Where the second metadata area of a physical volume ends, in sectors, if there is one.
fn second_end(physical: &Physical, sectors: u64) -> u64
    requires few { sectors ≤ 2 ^ 31 }
    requires fits { AreasFit sectors physical.now }
    ensures { result ≡ second_end physical.now.label physical.now.second }
{
    match (&physical.second, physical.label.second) {
        (Some(_), Some((start, length))) => (start + length) / 512,
        _ => 0,
    }
}

// How many of its sectors a physical volume needs.
fn needed_by_member(physical: &Physical, membership: &Membership, sectors: u64) -> u64
    requires few { sectors ≤ 2 ^ 31 }
    requires fits { AreasFit sectors physical.now }
    ensures { result ≡ needed_by_member physical.now membership.now }
{
    let first = (physical.label.start + physical.label.length) / 512;
    let areas = first.max(second_end(physical, sectors));
    membership.device.max(4).max(areas)
}

impl Content {
    // What stands alone.
    fn of_inner(inner: Inner) -> Content
        ensures { result ≡ content_of_inner inner }
    {
        match inner {
            Inner::Xfs(volume) => Content::Xfs(volume),
            Inner::Swap(swap) => Content::Swap(swap),
            Inner::Unread(why) => Content::Unread(why),
        }
    }

    // A physical volume, by what it is among the others.
    fn of_physical(physical: Physical, standing: Standing) -> Content
        ensures { result ≡ content_of_physical physical standing }
    {
        match standing {
            Standing::Holder(membership, group) => Content::Group(physical, membership, group),
            Standing::Member(membership) => Content::Member(physical, membership),
            Standing::Unread(why) => Content::Unread(why),
            Standing::Alone => Content::Unread(Why::Other),
        }
    }

    fn of_found(found: Found, standing: Standing) -> Content
        ensures { result ≡ content_of_found found standing }
    {
        match found {
            Found::Physical(physical) => Content::of_physical(physical, standing),
            Found::Inner(inner) => Content::of_inner(inner),
        }
    }

    /// What a partition of that role holds, by what is found in it and what it is among the others.
    pub(crate) fn of(role: Role, found: Found, standing: Standing) -> Content
        ensures { result ≡ content_by role found standing }
    {
        match role {
            Role::Extended => Content::Extended,
            Role::Slot | Role::Logical => Content::of_found(found, standing),
        }
    }

    /// How many of the partition's sectors it needs: all where nothing is known of it.
    pub(crate) fn needed(&self, count: u64) -> u64
        requires few { count ≤ 2 ^ 31 }
        requires fits { ContentFits count self.now }
        ensures { result ≡ needed_sectors self.now count }
    {
        match self {
            Content::Extended | Content::Unread(_) => count,
            Content::Xfs(volume) => 8 * volume.geo().dblocks,
            Content::Swap(swap) => (u64::from(swap.last_page) + 1) * 8,
            Content::Group(physical, membership, _) | Content::Member(physical, membership) => {
                needed_by_member(physical, membership, count)
            }
        }
    }
}
