//! What the tokens so far spell, and what may come next.
ghost use Rattle.std.specs.Prelude.{◌≡◌, [], ◌∷◌, ◌++◌, IfOk, true};
ghost use Rattle.lvm_text.specs.declared.machine.Stop.TheVariants.{Memory};
ghost use Rattle.lvm_text.specs.inside.Machine.{Gives, at_comma, at_first, at_mark, at_name, at_scalar, at_value, begun, closed, opened, parted, scalar_at, step, with_value};

use crate::number::number;
use crate::token::Token;
use crate::tree::{Item, Scalar, Tree, Value};
use disk_base::{List, Name};
use std::alloc::{AllocError, Global};

/// Why a token can't come.
#[derive(Clone, Copy, Debug, PartialEq, Eq)]
pub enum Wrong {
    Shape,
    Number,
    Depth,
}

/// Why a step gives no state.
#[derive(Clone, Copy, Debug, PartialEq, Eq)]
pub enum Stop {
    Wrong(Wrong),
    Memory,
}

impl From<AllocError> for Stop {
    ghost from_gives = { λ _ e. e ≡ Memory };

    fn from(_e: AllocError) -> Stop {
        Stop::Memory
    }
}

/// A section that is open: the items before it, and its name.
#[derive(Debug, Drop)]
pub struct Frame {
    pub before: List<Item>,
    pub name: Name,
}

/// What is due next, with what has come of the item.
#[derive(Debug, Drop)]
pub enum Due {
    /// A name, or the end of the section.
    Name,
    /// `{` or `=`
    Mark(Name),
    /// A value.
    Value(Name),
    /// A scalar, or the end of the list.
    First(Name),
    /// A scalar.
    Scalar(Name, List<Scalar>),
    /// A comma, or the end of the list.
    Comma(Name, List<Scalar>),
}

/// The open sections, outermost first, the items of the innermost so far, and what is due.
#[derive(Debug, Drop)]
pub struct State {
    pub frames: List<Frame>,
    pub here: List<Item>,
    pub due: Due,
}

pub(crate) fn pushed<T: Drop>(mut list: List<T>, item: T) -> Result<List<T>, AllocError>
    ensures { IfOk result (λ longer. longer ≡ list ++ item ∷ []) }
{
    match list.push(item) {
        Ok(()) => Ok(list),
        Err(_back) => Err(AllocError),
    }
}

#[tactic(auto, using(crate::proofs::Frames::parted_last, crate::proofs::Frames::parted_none))]
fn close(mut frames: List<Frame>, here: List<Item>) -> Result<State, Stop>
    ensures { Gives result (closed here (parted frames)) }
{
    match frames.pop() {
        None => Err(Stop::Wrong(Wrong::Shape)),
        Some(frame) => {
            let Frame { before, name } = frame;
            let here = pushed(before, Item::Section(name, Tree::of(here)))?;
            Ok(State {
                frames,
                here,
                due: Due::Name,
            })
        }
    }
}

fn take_name(frames: List<Frame>, here: List<Item>, token: Token) -> Result<State, Stop>
    ensures { Gives result (at_name frames here token) }
{
    match token {
        Token::Word(word) => Ok(State {
            frames,
            here,
            due: Due::Mark(word),
        }),
        Token::Close => close(frames, here),
        _ => Err(Stop::Wrong(Wrong::Shape)),
    }
}

fn open(alloc: Global, frames: List<Frame>, here: List<Item>, name: Name) -> Result<State, Stop>
    ensures { Gives result (opened true frames here name) }
{
    if frames.items().len() >= 8 {
        return Err(Stop::Wrong(Wrong::Depth));
    }
    let frames = pushed(frames, Frame { before: here, name })?;
    Ok(State {
        frames,
        here: List::new(alloc),
        due: Due::Name,
    })
}

fn take_mark(
    alloc: Global,
    frames: List<Frame>,
    here: List<Item>,
    name: Name,
    token: Token,
) -> Result<State, Stop>
    ensures { Gives result (at_mark true frames here name token) }
{
    match token {
        Token::Open => open(alloc, frames, here, name),
        Token::Equals => Ok(State {
            frames,
            here,
            due: Due::Value(name),
        }),
        _ => Err(Stop::Wrong(Wrong::Shape)),
    }
}

fn scalar(token: Token) -> Result<Scalar, Wrong>
    ensures { result ≡ scalar_at true token }
{
    match token {
        Token::Word(word) => number(word.bytes()),
        Token::Text(text) => Ok(Scalar::Text(text)),
        _ => Err(Wrong::Shape),
    }
}

fn add_value(frames: List<Frame>, here: List<Item>, name: Name, value: Value) -> Result<State, Stop>
    ensures { Gives result (with_value frames here name value) }
{
    let here = pushed(here, Item::Value(name, value))?;
    Ok(State {
        frames,
        here,
        due: Due::Name,
    })
}

fn take_value(
    frames: List<Frame>,
    here: List<Item>,
    name: Name,
    token: Token,
) -> Result<State, Stop>
    ensures { Gives result (at_value true frames here name token) }
{
    if let Token::BeginList = token {
        return Ok(State {
            frames,
            here,
            due: Due::First(name),
        });
    }
    match scalar(token) {
        Err(wrong) => Err(Stop::Wrong(wrong)),
        Ok(Scalar::Number(n)) => add_value(frames, here, name, Value::Number(n)),
        Ok(Scalar::Text(text)) => add_value(frames, here, name, Value::Text(text)),
    }
}

fn take_scalar(
    frames: List<Frame>,
    here: List<Item>,
    name: Name,
    scalars: List<Scalar>,
    token: Token,
) -> Result<State, Stop>
    ensures { Gives result (at_scalar true frames here name scalars token) }
{
    match scalar(token) {
        Err(wrong) => Err(Stop::Wrong(wrong)),
        Ok(found) => {
            let scalars = pushed(scalars, found)?;
            Ok(State {
                frames,
                here,
                due: Due::Comma(name, scalars),
            })
        }
    }
}

fn take_first(
    alloc: Global,
    frames: List<Frame>,
    here: List<Item>,
    name: Name,
    token: Token,
) -> Result<State, Stop>
    ensures { Gives result (at_first true frames here name token) }
{
    if let Token::EndList = token {
        return add_value(frames, here, name, Value::Many(List::new(alloc)));
    }
    take_scalar(frames, here, name, List::new(alloc), token)
}

fn take_comma(
    frames: List<Frame>,
    here: List<Item>,
    name: Name,
    scalars: List<Scalar>,
    token: Token,
) -> Result<State, Stop>
    ensures { Gives result (at_comma frames here name scalars token) }
{
    match token {
        Token::Comma => Ok(State {
            frames,
            here,
            due: Due::Scalar(name, scalars),
        }),
        Token::EndList => add_value(frames, here, name, Value::Many(scalars)),
        _ => Err(Stop::Wrong(Wrong::Shape)),
    }
}

impl State {
    pub fn new(alloc: Global) -> State
        ensures { result ≡ begun }
    {
        State {
            frames: List::new(alloc),
            here: List::new(alloc),
            due: Due::Name,
        }
    }

    /// The state after one more token.
    pub fn step(self, alloc: Global, token: Token) -> Result<State, Stop>
        ensures { Gives result (step true self token) }
    {
        let State { frames, here, due } = self;
        match due {
            Due::Name => take_name(frames, here, token),
            Due::Mark(name) => take_mark(alloc, frames, here, name, token),
            Due::Value(name) => take_value(frames, here, name, token),
            Due::First(name) => take_first(alloc, frames, here, name, token),
            Due::Scalar(name, scalars) => take_scalar(frames, here, name, scalars, token),
            Due::Comma(name, scalars) => take_comma(frames, here, name, scalars, token),
        }
    }
}
