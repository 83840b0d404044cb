//! The words after the tool, divided into items.
ghost use Rattle.std.specs.Option.{option_copied};
ghost use Rattle.std.specs.Prelude.{◌≡◌, ℕ, ◌+◌, ◌-◌, ◌^◌, ◌<◌, ◌≤◌, ◌||◌, IfOk, map, drop, false, length, slice_get, string_bytes};
ghost use Rattle.words.specs.Items.{is_end, is_option, item_at, items_of, joined_item, option_item, taking_next, whole_item, words_in};
ghost use Rattle.words.specs.Options.{option_named};

use crate::options::{Choice, Kind, Known, Tool, find_option};
use crate::spelling::parted;
use disk_base::Name;
use std::alloc::{AllocError, Global};

/// What one word, or an option with its value, says. A place is the index of a word.
#[derive(Debug, Drop)]
pub enum Item {
    /// An option that takes no value.
    Plain(Choice, u64),
    /// An option that takes no value, with `=`.
    Spoiled(Choice, u64),
    /// An option with its value, and the place of the word that holds the value.
    Valued(Known, u64, Name, u64),
    /// An option without its value, at the end of the words.
    Bare(Known, u64),
    /// A word that should be an option of the tool and isn't.
    Stray(u64),
    /// The word that ends the options.
    Ends,
    /// A word that is no option.
    Operand(u64, Name),
}

fn is_option_word(word: &[u8]) -> bool
    ensures { result ≡ is_option word.now }
{
    word.len() > 1 && word[0] == b'-'
}

fn take_next(
    alloc: Global,
    known: Known,
    place: u64,
    next: Option<&[u8]>,
) -> Result<Item, AllocError>
    requires { place + 1 < 2 ^ 64 }
    ensures { IfOk result (λ item. item ≡ taking_next known place (option_copied next.entry)) }
{
    match next {
        None => Ok(Item::Bare(known, place)),
        Some(value) => {
            let value = Name::of(alloc, value)?;
            Ok(Item::Valued(known, place, value, place + 1))
        }
    }
}

fn whole(
    alloc: Global,
    known: Option<Known>,
    place: u64,
    next: Option<&[u8]>,
) -> Result<Item, AllocError>
    requires { place + 1 < 2 ^ 64 }
    ensures { IfOk result (λ item. item ≡ whole_item known place (option_copied next.entry)) }
{
    match known {
        None => Ok(Item::Stray(place)),
        Some(known) => match known.kind {
            Kind::Flag => Ok(Item::Plain(known.option, place)),
            Kind::Once | Kind::Many => take_next(alloc, known, place, next),
        },
    }
}

fn joined(alloc: Global, known: Option<Known>, place: u64, value: &[u8]) -> Result<Item, AllocError>
    ensures { IfOk result (λ item. item ≡ joined_item known place value.now) }
{
    match known {
        None => Ok(Item::Stray(place)),
        Some(known) => match known.kind {
            Kind::Flag => Ok(Item::Spoiled(known.option, place)),
            Kind::Once | Kind::Many => {
                let value = Name::of(alloc, value)?;
                Ok(Item::Valued(known, place, value, place))
            }
        },
    }
}

#[tactic(auto, unfolding(crate::specs::Items::option_item))]
fn option(
    alloc: Global,
    tool: Tool,
    place: u64,
    word: &[u8],
    next: Option<&[u8]>,
) -> Result<Item, AllocError>
    requires { place + 1 < 2 ^ 64 }
    ensures { IfOk result (λ item. item ≡ option_item tool place word.now (option_copied next.entry)) }
{
    match parted(b'=', word) {
        None => whole(alloc, find_option(tool, word), place, next),
        Some((name, value)) => joined(alloc, find_option(tool, name), place, value),
    }
}

/// The item that begins with `word`, where `next` is the word behind it.
#[tactic(auto, unfolding(crate::specs::Items::item_at))]
fn read_item(
    alloc: Global,
    tool: Tool,
    ended: bool,
    place: u64,
    word: &[u8],
    next: Option<&[u8]>,
) -> Result<Item, AllocError>
    requires { place + 1 < 2 ^ 64 }
    ensures { IfOk result (λ item. item ≡ item_at tool ended place word.now (option_copied next.entry)) }
{
    if ended || !is_option_word(word) {
        let text = Name::of(alloc, word)?;
        return Ok(Item::Operand(place, text));
    }
    if word == b"--".as_slice() {
        return Ok(Item::Ends);
    }
    option(alloc, tool, place, word, next)
}

fn count_words(item: &Item) -> usize
    ensures value { result ≡ words_in item.now }
    ensures few { result ≤ 2 }
{
    match item {
        Item::Valued(_, place, _, value_place) if *place < *value_place => 2,
        _ => 1,
    }
}

fn is_over(ended: bool, item: &Item) -> bool
    ensures { result ≡ (ended || is_end item.now) }
{
    ended || matches!(item, Item::Ends)
}

/// The word at a place.
pub fn word_at(words: &[String], at: usize) -> Option<&[u8]>
    ensures { option_copied result ≡ slice_get (map string_bytes words.now) at }
{
    if at < words.len() {
        Some(words[at].as_bytes())
    } else {
        None
    }
}

/// The items of the words behind the first.
pub fn divide(alloc: Global, tool: Tool, words: &[String]) -> Result<Vec<Item>, AllocError>
    ensures { IfOk result (λ items. items.items ≡ items_of tool false 1 (drop 1 (map string_bytes words.now))) }
{
    let mut items = Vec::new(alloc);
    let mut ended = false;
    let mut at = 1;
    while let Some(word) = word_at(words, at) {
        let item = read_item(alloc, tool, ended, at as u64, word, word_at(words, at + 1))?;
        at += count_words(&item);
        ended = is_over(ended, &item);
        items.push(item)?;
    }
    Ok(items)
}
