ghost use Rattle.std.specs.Prelude.{◌≡◌};
ghost use Rattle.rounds.specs.Class.{others};
ghost use Rattle.rounds.specs.Reading.{none_so_far, begin_unit, units_so_far, turn_of};

use crate::class::RoundClass;
use crate::letter::{outcome_of_letter, side_of_letter};
use crate::symbol::{Outcome, RoundUnit};
use kinds::{Refusal, Refused, SetMachine};
use std::ops::ControlFlow;

// The reading of a set: how far it has come, and the class of the units so far. A struct of each kind's own: a
// kind's crate could not make a machine of a type of `kinds`.
#[derive(Clone, Copy)]
pub(crate) struct Units {
    state: SetState,
    class: RoundClass,
}

// How far the reading of a set has come.
#[derive(Clone, Copy)]
pub(crate) enum SetState {
    // no unit so far
    Start,
    // behind a narrowed unit
    Between,
    // behind a letter, which may yet be narrowed
    Letter(Outcome),
}

// The units so far, where a letter behind which no side was named is a unit of its own.
fn units_so_far(units: Units) -> RoundClass
    ensures { result ≡ units_so_far units.state units.class }
{
    match units.state {
        SetState::Letter(outcome) => units.class.with_unit(RoundUnit {
            outcome,
            side: None,
        }),
        SetState::Start | SetState::Between => units.class,
    }
}

// The set goes on behind a letter, which begins a unit; another byte begins none.
fn begin_unit(
    class: RoundClass,
    place: usize,
    byte: u8,
) -> Result<ControlFlow<RoundClass, Units>, Refused>
    ensures { result ≡ begin_unit class place byte }
{
    let outcome = outcome_of_letter(byte).ok_or(Refusal::NoAtom.at(place))?;
    Ok(ControlFlow::Continue(Units {
        state: SetState::Letter(outcome),
        class,
    }))
}

impl SetMachine for Units {
    type Class = RoundClass;

    ghost start = { none_so_far };

    ghost turn = { turn_of };

    ghost others = { others };

    fn start() -> Units {
        Units {
            state: SetState::Start,
            class: RoundClass::empty(),
        }
    }

    fn advance(
        self,
        bracket: usize,
        place: usize,
        byte: u8,
    ) -> Result<ControlFlow<RoundClass, Units>, Refused> {
        match (self.state, byte) {
            (SetState::Start, b']') => Err(Refusal::EmptySet.at(bracket)),
            (_, b']') => Ok(ControlFlow::Break(units_so_far(self))),
            (SetState::Letter(outcome), _) => match side_of_letter(byte) {
                Some(side) => {
                    let narrowed = RoundUnit {
                        outcome,
                        side: Some(side),
                    };
                    Ok(ControlFlow::Continue(Units {
                        state: SetState::Between,
                        class: self.class.with_unit(narrowed),
                    }))
                }
                None => begin_unit(units_so_far(self), place, byte),
            },
            (SetState::Start | SetState::Between, _) => begin_unit(self.class, place, byte),
        }
    }

    fn others(units: RoundClass) -> RoundClass {
        units.complement()
    }
}
