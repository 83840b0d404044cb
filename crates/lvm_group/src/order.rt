//! What was found, in the order of the text.
ghost use Rattle.std.specs.Prelude.{◌≡◌, ◌++◌, ◌∷◌, [], IfOk};
ghost use Rattle.lvm_group.specs.Order.{found_for, in_order};

use crate::judged::belongs;
use crate::types::{Member, PhysicalVolume};
use disk_base::List;
use std::alloc::{AllocError, Global};

fn found(p: &PhysicalVolume, ms: &[Member]) -> Option<Member>
    ensures { result ≡ found_for p.now ms.now }
{
    for m in ms {
        if belongs(p, m) {
            return Some(*m);
        }
    }
    None
}

/// The members that were found, in the order of the text.
pub(crate) fn ordered(
    alloc: Global,
    ms: &[Member],
    ps: &[PhysicalVolume],
) -> Result<List<Member>, AllocError>
    ensures { IfOk result (λ list. list ≡ in_order ms.now ps.now) }
{
    let mut list: List<Member> = List::new(alloc);
    for p in ps {
        if let Some(m) = found(p, ms) {
            match list.push(m) {
                Ok(()) => {}
                Err(_back) => return Err(AllocError),
            }
        }
    }
    Ok(list)
}
