//! Items of a tree by their names: the first item of a name counts.
ghost use Rattle.std.specs.Prelude.{◌≡◌};
ghost use Rattle.std.specs.Option.{option_copied};
ghost use Rattle.lvm_text.specs.Tree.{items_in};
ghost use Rattle.lvm_group.specs.Lookup.{first_named, name_of, number_named, section_named};

use lvm_text::{Item, Tree, Value};

/// The name of an item.
pub(crate) fn name(item: &Item) -> &[u8]
    ensures { result.now ≡ name_of item.now }
{
    match item {
        Item::Section(name, _) => name.bytes(),
        Item::Value(name, _) => name.bytes(),
    }
}

/// The first item of that name.
pub(crate) fn first<'a>(items: &'a [Item], wanted: &[u8]) -> Option<&'a Item>
    ensures { option_copied result ≡ first_named wanted.now items.now }
{
    for item in items {
        if name(item) == wanted {
            return Some(item);
        }
    }
    None
}

/// The number behind that name.
pub(crate) fn number(tree: &Tree, wanted: &[u8]) -> Option<i64>
    ensures { result ≡ number_named wanted.now (items_in tree.now) }
{
    match first(tree.items(), wanted) {
        Some(Item::Value(_, Value::Number(n))) => Some(*n),
        _ => None,
    }
}

/// The section of that name.
pub(crate) fn section<'a>(tree: &'a Tree, wanted: &[u8]) -> Option<&'a Tree>
    ensures { option_copied result ≡ section_named wanted.now (items_in tree.now) }
{
    match first(tree.items(), wanted) {
        Some(Item::Section(_, inner)) => Some(inner),
        _ => None,
    }
}
