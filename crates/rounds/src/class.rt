ghost use Rattle.std.specs.Prelude.{◌≡◌, ℕ, ◌<◌, not, ◌||◌};
ghost use Rattle.rounds.specs.Symbols.{round_number, in_unit};
ghost use Rattle.rounds.specs.Class.{has_round, with_round, with_unit, with_rounds, others, empty_class, full_class};

use crate::symbol::{COUNT, Round, RoundUnit, Side};
use sets::NumberSet;

// A set of rounds, each by its number.
#[derive(Clone, Copy, PartialEq, Eq, Debug)]
pub struct RoundClass {
    rounds: NumberSet<1>,
}

impl RoundClass {
    // No round.
    pub fn empty() -> RoundClass
        ensures { result ≡ empty_class }
    {
        RoundClass {
            rounds: NumberSet::empty(),
        }
    }

    // All nine.
    pub fn full() -> RoundClass
        ensures { result ≡ full_class }
    {
        RoundClass {
            rounds: NumberSet::gathered(COUNT, |_| true),
        }
    }

    pub fn has(self, n: usize) -> bool
        ensures { result ≡ has_round self n }
    {
        self.rounds.has(n)
    }

    pub fn with_round(self, round: Round) -> RoundClass
        ensures { result ≡ with_round self (round_number round) }
    {
        let added = usize::from(round);
        RoundClass {
            rounds: self.rounds.with(COUNT, added),
        }
    }

    // The class with the rounds of a unit added.
    pub fn with_unit(self, unit: RoundUnit) -> RoundClass
        ensures value { result ≡ with_unit self unit }
        ensures rounds { result ≡ with_rounds self unit.outcome unit.side }
        ensures members { (n : ℕ) → n < 9 → has_round result n ≡ (in_unit unit n || has_round self n) }
    {
        let outcome = unit.outcome;
        match unit.side {
            Some(side) => self.with_round(Round { side, outcome }),
            None => {
                let white = self.with_round(Round {
                    side: Side::White,
                    outcome,
                });
                let played = white.with_round(Round {
                    side: Side::Black,
                    outcome,
                });
                played.with_round(Round {
                    side: Side::Unplayed,
                    outcome,
                })
            }
        }
    }

    // Every round that the class lacks.
    pub fn complement(self) -> RoundClass
        ensures value { result ≡ others self }
        ensures members { (n : ℕ) → n < 9 → has_round result n ≡ not (has_round self n) }
    {
        RoundClass {
            rounds: self.rounds.others(COUNT),
        }
    }
}
