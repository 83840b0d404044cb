//! Places of names, found without looking at each.
ghost use Rattle.std.specs.Prelude.{◌≡◌, IfOk};
ghost use Rattle.std.specs.Option.{option_copied};
ghost use Rattle.lvm_group.specs.Lookup.{first_named, section_named};
ghost use Rattle.lvm_group.specs.inside.Names.{AddsName, AreItemPlaces};

use crate::lookup::name;
use lvm_text::{Item, Tree};
use std::alloc::{AllocError, Global};
use std::collections::BTreeMap;

/// The places, with that of one more name where it has none.
#[tactic(auto, using(crate::proofs::Places::known_name, crate::proofs::Places::added_name))]
pub(crate) fn with_name<'a>(
    places: BTreeMap<&'a [u8], usize>,
    name: &'a [u8],
    n: usize,
) -> Result<BTreeMap<&'a [u8], usize>, AllocError>
    ensures { IfOk result (AddsName places.entry name.now n) }
{
    if places.contains_key(name) {
        return Ok(places);
    }
    let mut more = places;
    more.insert(name, n)?;
    Ok(more)
}

/// The places of items.
#[tactic(auto, using(crate::proofs::Places::or_more))]
pub(crate) fn item_places<'a>(
    alloc: Global,
    items: &'a [Item],
) -> Result<BTreeMap<&'a [u8], usize>, AllocError>
    ensures { IfOk result (AreItemPlaces items.now) }
{
    let mut places = BTreeMap::new(alloc);
    let mut n = 0;
    for item in items {
        places = with_name(places, name(item), n)?;
        n += 1;
    }
    Ok(places)
}

/// The first item of that name.
fn item_named<'a>(
    places: &BTreeMap<&'a [u8], usize>,
    items: &'a [Item],
    wanted: &[u8],
) -> Option<&'a Item>
    requires { AreItemPlaces items.now places.now }
    ensures { option_copied result ≡ first_named wanted.now items.now }
{
    match places.get(wanted) {
        None => None,
        Some(place) => items.get(*place),
    }
}

/// The section of that name.
pub(crate) fn section_named<'a>(
    places: &BTreeMap<&'a [u8], usize>,
    items: &'a [Item],
    wanted: &[u8],
) -> Option<&'a Tree>
    requires { AreItemPlaces items.now places.now }
    ensures { option_copied result ≡ section_named wanted.now items.now }
{
    match item_named(places, items, wanted) {
        Some(Item::Section(_, inner)) => Some(inner),
        _ => None,
    }
}
