ghost use Rattle.std.specs.Prelude.{◌≡◌};
ghost use Rattle.byte_kind.specs.Class.{others};
ghost use Rattle.byte_kind.specs.Reading.{none_so_far, turn_of};

use crate::class::ByteClass;
use kinds::{Refusal, Refused, SetMachine};
use std::ops::ControlFlow;

// The reading of a set: how far it has come, and the class of the items so far. A struct of each kind's own: a
// kind's crate could not make a machine of a type of `kinds`.
#[derive(Clone, Copy)]
pub(crate) struct Items {
    state: SetState,
    class: ByteClass,
}

// How far the reading of a set has come. A place is that of an item's first byte, or of its `\`.
#[derive(Clone, Copy)]
pub(crate) enum SetState {
    // no item so far
    Start,
    // behind a whole range
    Between,
    // behind `\`, which stands for an item's first byte
    Escape(usize),
    // behind an item's first byte, which may yet begin a range
    First(u8, usize),
    // behind the `-` after it
    Dash(u8, usize),
    // behind `\` after that `-`
    LastEscape(u8, usize),
}

impl SetMachine for Items {
    type Class = ByteClass;

    ghost start = { none_so_far };

    ghost turn = { turn_of };

    ghost others = { others };

    fn start() -> Items {
        Items {
            state: SetState::Start,
            class: ByteClass::empty(),
        }
    }

    fn advance(
        self,
        bracket: usize,
        place: usize,
        byte: u8,
    ) -> Result<ControlFlow<ByteClass, Items>, Refused> {
        let class = self.class;
        let (state, class) = match (self.state, byte) {
            (SetState::Start, b']') => return Err(Refusal::EmptySet.at(bracket)),
            (SetState::Between, b']') => return Ok(ControlFlow::Break(class)),
            (SetState::Start | SetState::Between, b'\\') => (SetState::Escape(place), class),
            (SetState::Start | SetState::Between, b) => (SetState::First(b, place), class),
            (SetState::Escape(at), b) => (SetState::First(b, at), class),
            (SetState::First(first, at), b'-') => (SetState::Dash(first, at), class),
            (SetState::First(first, _), b']') => {
                return Ok(ControlFlow::Break(class.with_range(first, first)));
            }
            (SetState::First(first, _), b'\\') => {
                (SetState::Escape(place), class.with_range(first, first))
            }
            (SetState::First(first, _), b) => {
                (SetState::First(b, place), class.with_range(first, first))
            }
            (SetState::Dash(first, _), b']') => {
                let items = class.with_range(first, first).with_range(b'-', b'-');
                return Ok(ControlFlow::Break(items));
            }
            (SetState::Dash(first, at), b'\\') => (SetState::LastEscape(first, at), class),
            (SetState::Dash(first, at) | SetState::LastEscape(first, at), b) if b < first => {
                return Err(Refusal::BackwardRange.at(at));
            }
            (SetState::Dash(first, _) | SetState::LastEscape(first, _), b) => {
                (SetState::Between, class.with_range(first, b))
            }
        };
        Ok(ControlFlow::Continue(Items { state, class }))
    }

    fn others(items: ByteClass) -> ByteClass {
        items.complement()
    }
}
