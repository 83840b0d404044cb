//! The physical volumes that a text names, found by their names.
ghost use Rattle.std.specs.Prelude.{◌≡◌, IfOk};
ghost use Rattle.lvm_group.specs.Spelt.{place_from};
ghost use Rattle.lvm_group.specs.inside.Names.{AreVolumePlaces};

use crate::names::with_name;
use crate::types::PhysicalVolume;
use std::alloc::{AllocError, Global};
use std::collections::BTreeMap;
use std::marker::Model;

/// Physical volumes with the places of their names. Contracts see the list of them.
#[derive(Drop)]
pub(crate) struct Known<'a> {
    list: &'a [PhysicalVolume],
    places: BTreeMap<&'a [u8], usize>,
    ghost placed: { AreVolumePlaces list.now places },
}

impl<'a> Model for Known<'a> {
    ghost use Rattle.std.specs.Prelude.{List};
    ghost use Rattle.lvm_group.specs.declared.types.PhysicalVolume.{PhysicalVolume};

    ghost Value = { List PhysicalVolume };

    ghost view = { λ k. k.list.now };
}

#[tactic(auto, using(crate::proofs::Places::or_more))]
fn volume_places<'a>(
    alloc: Global,
    list: &'a [PhysicalVolume],
) -> Result<BTreeMap<&'a [u8], usize>, AllocError>
    ensures { IfOk result (AreVolumePlaces list.now) }
{
    let mut places = BTreeMap::new(alloc);
    let mut n = 0;
    for p in list {
        places = with_name(places, p.name.bytes(), n)?;
        n += 1;
    }
    Ok(places)
}

impl<'a> Known<'a> {
    /// These.
    pub(crate) fn of(alloc: Global, list: &'a [PhysicalVolume]) -> Result<Known<'a>, AllocError>
        ensures { IfOk result (λ known. known ≡ list.now) }
    {
        let places = volume_places(alloc, list)?;
        Ok(Known { list, places })
    }

    /// The place of the first of that name.
    pub(crate) fn place(&self, wanted: &[u8]) -> Option<usize>
        ensures { result ≡ place_from 0 wanted.now self.now }
    {
        match self.places.get(wanted) {
            None => None,
            Some(place) => Some(*place),
        }
    }
}
