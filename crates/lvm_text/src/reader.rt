//! Bytes read as a tree.
ghost use Rattle.std.specs.Prelude.{◌≡◌, ◌<◌, ◌^◌, ℕ, length, IfOk, IfErr};
ghost use Rattle.lvm_text.specs.declared.tree.Tree.{Tree};
ghost use Rattle.lvm_text.specs.inside.Ahead.{GivesAt, ahead, finished};
ghost use Rattle.lvm_text.specs.Tree.{items_in};
ghost use Rattle.lvm_text.specs.Written.{Fit};
ghost use Rattle.lvm_text.specs.Faults.{IsReadAs, IsTextFault, Spells};

use crate::bytes::{first_token, skip};
use crate::fault::TextFault;
use crate::machine::{Due, State, Stop, Wrong};
use crate::tree::Tree;
use std::alloc::Global;

/// The state behind the token at the front, and what stands behind that and the spaces after it.
fn take(alloc: Global, state: State, rest: &[u8], at: u64) -> Result<(State, &[u8]), TextFault>
    ensures { GivesAt (λ x. (x.0, x.1.now)) result (ahead at state rest.now) }
{
    match first_token(alloc, rest)? {
        None => Err(TextFault::Token { at }),
        Some((token, after)) => match state.step(alloc, token) {
            Ok(next) => Ok((next, skip(after))),
            Err(Stop::Memory) => Err(TextFault::Memory),
            Err(Stop::Wrong(Wrong::Shape)) => Err(TextFault::Shape { at }),
            Err(Stop::Wrong(Wrong::Number)) => Err(TextFault::Number { at }),
            Err(Stop::Wrong(Wrong::Depth)) => Err(TextFault::Depth { at }),
        },
    }
}

fn finish(state: State, at: u64) -> Result<Tree, TextFault>
    ensures { result ≡ finished at state }
{
    let State { frames, here, due } = state;
    match due {
        Due::Name => {
            if frames.items().is_empty() {
                Ok(Tree::of(here))
            } else {
                Err(TextFault::Shape { at })
            }
        }
        _ => Err(TextFault::Shape { at }),
    }
}

fn read(alloc: Global, bytes: &[u8]) -> Result<Tree, TextFault>
    ensures found { IfOk result (Spells bytes.now) }
    ensures fault { IfErr result (IsTextFault bytes.now) }
{
    let mut state = State::new(alloc);
    let mut rest = skip(bytes);
    while !rest.is_empty() {
        let at = (bytes.len() - rest.len()) as u64;
        let (next, after) = take(alloc, state, rest, at)?;
        state = next;
        rest = after;
    }
    finish(state, bytes.len() as u64)
}

/// The tree that the bytes spell, or the first fault by place.
pub fn read_text(alloc: Global, bytes: &[u8]) -> Result<Tree, TextFault>
    // What is read is spelled so.
    ensures found { IfOk result (Spells bytes.now) }
    // It can be written.
    ensures fits { IfOk result (λ tree. Fit 8 (items_in tree)) }
    // What is spelled so is read, unless memory runs out.
    ensures only { (tree : Tree) → Spells bytes.now tree → IsReadAs tree result }
    // A fault is the first one by place.
    ensures fault { IfErr result (IsTextFault bytes.now) }
{
    read(alloc, bytes)
}
