//! What a volume holds.
ghost use Rattle.std.specs.Prelude.{◌≡◌, ◌≤◌, ℕ, List, false};
ghost use Rattle.block_claims.specs.Agreement.{block};
ghost use Rattle.volume_content.specs.Inner.{InnerFits, IsInner, has_xfs_magic};

use lvm_group::GroupFault;
use lvm_label::RingFault;
use lvm_text::TextFault;
use std::fmt;
use swap_area::{PAGE, Swap, has_signature, swap_of};
use xfs_check::Volume;
use xfs_super::Reason;

/// What a volume holds that stands alone: a partition that is in no group, or a logical volume.
#[derive(Drop)]
pub enum Inner {
    /// An XFS volume that was found valid.
    Xfs(Volume),
    /// A swap area.
    Swap(Swap),
    /// What isn't read.
    Unread(Why),
}

/// Why a content isn't read. Faults of a device and of memory are none of these.
#[derive(Clone, Copy, Debug, PartialEq, Eq)]
pub enum Why {
    /// It is of no kind that is read.
    Other,
    /// It is a physical volume of LVM2 that belongs to no group yet.
    NoGroup,
    /// It begins with the magic number of XFS, and that reason speaks against it.
    Xfs(Reason),
    /// Its first page ends as that of a swap area, and isn't a sound one.
    Swap,
    /// It is a physical volume of LVM2, of which a metadata area has that fault.
    Ring(RingFault),
    /// It is a physical volume of LVM2, whose text has that fault.
    Text(TextFault),
    /// It is a physical volume of LVM2, whose text and members are no group.
    Group(GroupFault),
}

impl fmt::Display for Why {
    ghost use Rattle.std.specs.Prelude.{Some};
    ghost use Rattle.volume_content.specs.Text.{unread_text};

    ghost output = { λ why. Some (unread_text why) };

    fn fmt<W: fmt::Write>(&self, f: &mut fmt::Formatter<W>) -> fmt::Result {
        match self {
            Why::Other => write!(f, "Other"),
            Why::NoGroup => write!(f, "NoGroup"),
            Why::Xfs(reason) => write!(f, "{reason}"),
            Why::Swap => write!(f, "Swap"),
            Why::Ring(fault) => write!(f, "{fault}"),
            Why::Text(fault) => write!(f, "{fault}"),
            Why::Group(fault) => write!(f, "{fault}"),
        }
    }
}

impl Inner {
    /// The content of a volume of that many sectors by its first page, where that doesn't begin with the magic number
    /// of XFS.
    pub(crate) fn of_page(page: &[u8; PAGE], sectors: u64) -> Inner
        requires { 8 ≤ sectors }
        ensures content { (image : List ℕ) → has_xfs_magic image ≡ false → page.now ≡ block image 0
            → IsInner sectors image result }
        ensures fits { InnerFits sectors result }
    {
        match swap_of(page, sectors) {
            Some(swap) => Inner::Swap(swap),
            None if has_signature(page) => Inner::Unread(Why::Swap),
            None => Inner::Unread(Why::Other),
        }
    }
}
