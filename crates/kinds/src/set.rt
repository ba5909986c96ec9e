ghost use Rattle.std.specs.Prelude.{◌≡◌, ℕ, ◌+◌, ◌<◌, drop};
ghost use Rattle.kinds.specs.Sets.{Turn, run_set, set_from};

use crate::{Atom, Refusal, Refused};
use std::ops::ControlFlow;

// How a kind reads the items of a set: a machine in some state, to which each byte does something.
pub trait SetMachine: Copy {
    type Class: Copy;

    // the state behind the `[`, or behind the `^` that follows it
    ghost start: { Self };
    // what a byte does, in a state, by the places of the `[` and of the byte
    ghost turn: { Self → ℕ → ℕ → ℕ → Turn Self Self.Class };
    // the class of all the symbols that another lacks
    ghost others: { Self.Class → Self.Class };

    fn start() -> Self
        ensures { result ≡ start };

    // Takes the byte at a place of a set that began at the bracket. It goes on in another state, or
    // breaks off with the class of the items where the set is closed.
    fn advance(
        self,
        bracket: usize,
        place: usize,
        byte: u8,
    ) -> Result<ControlFlow<Self::Class, Self>, Refused>
        ensures { result ≡ turn self bracket place byte };

    fn others(items: Self::Class) -> Self::Class
        ensures { result ≡ others items };
}

// The set whose `[` is at a place of the text.
pub fn read_set<M: SetMachine>(text: &[u8], bracket: usize) -> Result<Atom<M::Class>, Refused>
    ensures { result ≡ set_from M.start M.turn M.others (drop (bracket + 1) text.now) bracket }
{
    if bracket >= text.len() {
        return Err(Refusal::UnfinishedSet.at(bracket));
    }
    let inside = bracket + 1;
    if inside < text.len() && text[inside] == b'^' {
        read_items::<M>(text, bracket, inside + 1, true)
    } else {
        read_items::<M>(text, bracket, inside, false)
    }
}

// The items of a set, from their first place on, up to its `]`.
fn read_items<M: SetMachine>(
    text: &[u8],
    bracket: usize,
    from: usize,
    negated: bool,
) -> Result<Atom<M::Class>, Refused>
    requires { bracket < from }
    ensures { result ≡ run_set M.start M.turn M.others negated bracket (drop from text.now) from M.start }
{
    let mut state = M::start();
    // places, not the bytes alone: an atom's length and a refusal are told by them
    for place in from..text.len() {
        match state.advance(bracket, place, text[place])? {
            ControlFlow::Continue(next) => state = next,
            ControlFlow::Break(items) => {
                return Ok(Atom {
                    class: if negated { M::others(items) } else { items },
                    length: place + 1 - bracket,
                });
            }
        }
    }
    Err(Refusal::UnfinishedSet.at(bracket))
}
