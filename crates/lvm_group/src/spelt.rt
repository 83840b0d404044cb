//! The group that a tree spells.
ghost use Rattle.std.specs.Prelude.{◌≡◌, ◌++◌, ◌∷◌, ℕ, ◌<◌, ◌≤◌, ◌+◌, ◌^◌, ◌&&◌, [], IfOk, Some, length, codes};
ghost use Rattle.lvm_group.specs.Lookup.{section_named, first_named};
ghost use Rattle.lvm_group.specs.inside.Names.{AreItemPlaces};
ghost use Rattle.std.specs.Option.{option_copied, option_and_then};
ghost use Rattle.lvm_text.specs.Tree.{items_in};
ghost use Rattle.lvm_group.specs.Spelt.{physical_volume_of, each_section, place_from, stripe_in, stripe_of, segment_of, segment_in, segments_from, segment_name, logical_volume_of, logicals_of, physicals_of, extent_size_of, group_in, spelt, sections, first_section, is_text, is_one, text_named, needed, unmarked, group_at, logicals_in, both_lists, logicals_in_order, is_striped};

use crate::known::Known;
use crate::lookup::{first, section};
use crate::names::{item_places, section_named};
use crate::types::{LogicalVolume, PhysicalVolume, Segment, Spelt, Stripe};
use crate::values::{has_dash, needed_number, pushed, scalars, text};
use disk_base::{List, Name};
use lvm_text::{Item, Scalar, Tree, Value};
use std::alloc::{AllocError, Global};
use std::collections::BTreeMap;

fn without_marks(alloc: Global, id: &[u8]) -> Result<Name, AllocError>
    ensures { IfOk result (λ name. name ≡ unmarked id.now) }
{
    let mut bytes: Vec<u8> = Vec::new(alloc);
    for b in id {
        if *b != b'-' {
            bytes.push(*b)?;
        }
    }
    Ok(Name::from_vec(bytes))
}

fn physical(alloc: Global, name: &[u8], tree: &Tree) -> Result<Option<PhysicalVolume>, AllocError>
    ensures { IfOk result (λ p. p ≡ physical_volume_of name.now (items_in tree.now)) }
{
    if has_dash(name) {
        return Ok(None);
    }
    match text(tree, b"id") {
        None => Ok(None),
        Some(id) => match needed_number(tree, b"dev_size") {
            None => Ok(None),
            Some(size) => match needed_number(tree, b"pe_start") {
                None => Ok(None),
                Some(start) => match needed_number(tree, b"pe_count") {
                    None => Ok(None),
                    Some(count) => Ok(Some(PhysicalVolume {
                        name: Name::of(alloc, name)?,
                        id: without_marks(alloc, id)?,
                        size,
                        start,
                        count,
                    })),
                },
            },
        },
    }
}

#[tactic(auto, using(crate::proofs::Ahead::ahead_more))]
fn physicals(alloc: Global, items: &[Item]) -> Result<Option<List<PhysicalVolume>>, AllocError>
    ensures { IfOk result (λ ps. ps ≡ each_section physical_volume_of items.now) }
{
    let mut done = List::new(alloc);
    for item in items {
        if let Item::Section(name, tree) = item {
            match physical(alloc, name.bytes(), tree)? {
                None => return Ok(None),
                Some(one) => done = pushed(done, one)?,
            }
        }
    }
    Ok(Some(done))
}

fn stripe_by(physicals: &Known<'_>, scalars: &[Scalar]) -> Option<Stripe>
    ensures { result ≡ stripe_in physicals.now scalars.now }
{
    match scalars {
        [Scalar::Text(name), Scalar::Number(n)] => match physicals.place(name.bytes()) {
            Some(member) => Some(Stripe { member, first: *n }),
            None => None,
        },
        _ => None,
    }
}

fn is_striped(tree: &Tree) -> bool
    ensures { result ≡ is_striped (items_in tree.now) }
{
    match text(tree, b"type") {
        None => false,
        Some(kind) => kind == b"striped".as_slice()
            && needed_number(tree, b"stripe_count") == Some(1),
    }
}

fn stripe(physicals: &Known<'_>, tree: &Tree) -> Option<Stripe>
    ensures { result ≡ stripe_of physicals.now (items_in tree.now) }
{
    if !is_striped(tree) {
        return None;
    }
    match scalars(tree, b"stripes") {
        None => None,
        Some(scalars) => stripe_by(physicals, scalars),
    }
}

fn segment(physicals: &Known<'_>, tree: &Tree) -> Option<Segment>
    ensures { result ≡ segment_of physicals.now (items_in tree.now) }
{
    match needed_number(tree, b"start_extent") {
        None => None,
        Some(start) => match needed_number(tree, b"extent_count") {
            None => None,
            Some(count) => Some(Segment {
                start,
                count,
                stripe: stripe(physicals, tree),
            }),
        },
    }
}

fn segment_numbered<'a>(
    alloc: Global,
    physicals: &Known<'_>,
    places: &BTreeMap<&'a [u8], usize>,
    items: &'a [Item],
    k: u32,
) -> Result<Option<Segment>, AllocError>
    requires { AreItemPlaces items.now places.now }
    ensures { IfOk result (λ p. p ≡ segment_in physicals.now (section_named (segment_name k) items.now)) }
{
    let name = format!(in alloc; "segment{k}")?;
    match section_named(places, items, name.as_bytes()) {
        None => Ok(None),
        Some(inner) => Ok(segment(physicals, inner)),
    }
}

#[tactic(auto, using(crate::proofs::Ahead::ahead_more, crate::proofs::Ahead::segments_step))]
fn segments(
    alloc: Global,
    physicals: &Known<'_>,
    tree: &Tree,
    n: u32,
) -> Result<Option<List<Segment>>, AllocError>
    ensures { IfOk result (λ ps. ps ≡ segments_from physicals.now 1 n (items_in tree.now)) }
{
    let items = tree.items();
    let places = item_places(alloc, items)?;
    let mut done = List::new(alloc);
    for k in 0..n {
        match segment_numbered(alloc, physicals, &places, items, k + 1)? {
            None => return Ok(None),
            Some(one) => done = pushed(done, one)?,
        }
    }
    Ok(Some(done))
}

fn logical(
    alloc: Global,
    physicals: &Known<'_>,
    name: &[u8],
    tree: &Tree,
) -> Result<Option<LogicalVolume>, AllocError>
    ensures { IfOk result (λ l. l ≡ logical_volume_of physicals.now name.now (items_in tree.now)) }
{
    if has_dash(name) {
        return Ok(None);
    }
    match needed_number(tree, b"segment_count") {
        None => Ok(None),
        Some(n) => match segments(alloc, physicals, tree, n)? {
            None => Ok(None),
            Some(segments) => Ok(Some(LogicalVolume {
                name: Name::of(alloc, name)?,
                segments,
            })),
        },
    }
}

#[tactic(auto, using(crate::proofs::Ahead::ahead_more))]
fn logicals(
    alloc: Global,
    physicals: &Known<'_>,
    items: &[Item],
) -> Result<Option<List<LogicalVolume>>, AllocError>
    ensures { IfOk result (λ ls. ls ≡ each_section (logical_volume_of physicals.now) items.now) }
{
    let mut done = List::new(alloc);
    for item in items {
        if let Item::Section(name, tree) = item {
            match logical(alloc, physicals, name.bytes(), tree)? {
                None => return Ok(None),
                Some(one) => done = pushed(done, one)?,
            }
        }
    }
    Ok(Some(done))
}

fn all_logicals(
    alloc: Global,
    physicals: &Known<'_>,
    tree: &Tree,
) -> Result<Option<List<LogicalVolume>>, AllocError>
    ensures { IfOk result (λ ls. ls ≡ logicals_in_order physicals.now (items_in tree.now)) }
{
    match first(tree.items(), b"logical_volumes") {
        None => Ok(Some(List::new(alloc))),
        Some(Item::Section(_, inner)) => logicals(alloc, physicals, inner.items()),
        Some(Item::Value(_, _)) => Ok(None),
    }
}

fn all_physicals(alloc: Global, tree: &Tree) -> Result<Option<List<PhysicalVolume>>, AllocError>
    ensures { IfOk result (λ ps. ps ≡ physicals_of (section_named (codes "physical_volumes") (items_in tree.now))) }
{
    match section(tree, b"physical_volumes") {
        None => Ok(None),
        Some(inner) => physicals(alloc, inner.items()),
    }
}

fn extent(tree: &Tree) -> Option<u32>
    ensures { result ≡ extent_size_of (items_in tree.now) }
{
    match needed_number(tree, b"extent_size") {
        None => None,
        Some(extent) => {
            if extent == 0 {
                return None;
            }
            match needed_number(tree, b"seqno") {
                None => None,
                Some(_) => Some(extent),
            }
        }
    }
}

fn known_logicals(
    alloc: Global,
    physicals: &[PhysicalVolume],
    tree: &Tree,
) -> Result<Option<List<LogicalVolume>>, AllocError>
    ensures { IfOk result (λ ls. ls ≡ logicals_in_order physicals.now (items_in tree.now)) }
{
    let known = Known::of(alloc, physicals)?;
    all_logicals(alloc, &known, tree)
}

fn lists(
    alloc: Global,
    tree: &Tree,
) -> Result<Option<(List<PhysicalVolume>, List<LogicalVolume>)>, AllocError>
    ensures { IfOk result (λ both. both ≡ both_lists (items_in tree.now)) }
{
    match all_physicals(alloc, tree)? {
        None => Ok(None),
        Some(physicals) => match known_logicals(alloc, physicals.items(), tree)? {
            None => Ok(None),
            Some(logicals) => Ok(Some((physicals, logicals))),
        },
    }
}

fn group(alloc: Global, name: &[u8], tree: &Tree) -> Result<Option<Spelt>, AllocError>
    ensures { IfOk result (λ g. g ≡ group_in name.now (items_in tree.now)) }
{
    if has_dash(name) {
        return Ok(None);
    }
    match extent(tree) {
        None => Ok(None),
        Some(extent) => match lists(alloc, tree)? {
            None => Ok(None),
            Some((physicals, logicals)) => Ok(Some(Spelt {
                name: Name::of(alloc, name)?,
                extent,
                physicals,
                logicals,
            })),
        },
    }
}

fn holder(items: &[Item]) -> Option<&Item>
    ensures { option_copied result ≡ first_section items.now }
{
    for item in items {
        if let Item::Section(_, _) = item {
            return Some(item);
        }
    }
    None
}

fn section_count(items: &[Item]) -> usize
    ensures { result ≡ sections items.now }
{
    let mut n = 0;
    for item in items {
        if let Item::Section(_, _) = item {
            n += 1;
        }
    }
    n
}

/// The group that a tree spells, or none where a needed value is missing or wrong.
pub(crate) fn spell(alloc: Global, tree: &Tree) -> Result<Option<Spelt>, AllocError>
    ensures { IfOk result (λ g. g ≡ spelt (items_in tree.now)) }
{
    if section_count(tree.items()) != 1 {
        return Ok(None);
    }
    match holder(tree.items()) {
        Some(Item::Section(name, inner)) => group(alloc, name.bytes(), inner),
        _ => Ok(None),
    }
}
