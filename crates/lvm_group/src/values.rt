//! Values behind names.
ghost use Rattle.std.specs.Prelude.{◌≡◌, ◌∷◌, ◌++◌, [], IfOk};
ghost use Rattle.std.specs.Option.{option_copied};
ghost use Rattle.lvm_text.specs.Tree.{items_in};
ghost use Rattle.lvm_group.specs.Spelt.{bounded, needed, value_named, text_named, scalars_named, is_dashed, first_section, sections};

use crate::lookup::{first, number};
use disk_base::List;
use lvm_text::{Item, Scalar, Tree, Value};
use std::alloc::AllocError;

fn small(n: i64) -> Option<u32>
    ensures { result ≡ bounded n }
{
    if n < 0 || n > 2147483648 {
        None
    } else {
        Some(n as u32)
    }
}

/// The number behind that name, where it is at most 2^31.
pub(crate) fn needed_number(tree: &Tree, wanted: &[u8]) -> Option<u32>
    ensures { result ≡ needed wanted.now (items_in tree.now) }
{
    match number(tree, wanted) {
        Some(n) => small(n),
        None => None,
    }
}

fn value<'a>(tree: &'a Tree, wanted: &[u8]) -> Option<&'a Value>
    ensures { option_copied result ≡ value_named wanted.now (items_in tree.now) }
{
    match first(tree.items(), wanted) {
        Some(Item::Value(_, value)) => Some(value),
        _ => None,
    }
}

/// The text behind that name.
pub(crate) fn text<'a>(tree: &'a Tree, wanted: &[u8]) -> Option<&'a [u8]>
    ensures { option_copied result ≡ text_named wanted.now (items_in tree.now) }
{
    match value(tree, wanted) {
        Some(Value::Text(text)) => Some(text.bytes()),
        _ => None,
    }
}

/// The list behind that name.
pub(crate) fn scalars<'a>(tree: &'a Tree, wanted: &[u8]) -> Option<&'a [Scalar]>
    ensures { option_copied result ≡ scalars_named wanted.now (items_in tree.now) }
{
    match value(tree, wanted) {
        Some(Value::Many(scalars)) => Some(scalars.items()),
        _ => None,
    }
}

pub(crate) fn has_dash(name: &[u8]) -> bool
    ensures { result ≡ is_dashed name.now }
{
    !name.is_empty() && name[0] == b'-'
}

/// The list with one more item.
pub(crate) fn pushed<T: Drop>(list: List<T>, item: T) -> Result<List<T>, AllocError>
    ensures { IfOk result (λ new. new ≡ list ++ item ∷ []) }
{
    let mut list = list;
    match list.push(item) {
        Ok(()) => Ok(list),
        Err(_back) => Err(AllocError),
    }
}
