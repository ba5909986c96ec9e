ghost use Rattle.std.specs.Prelude.{◌≡◌};
ghost use Rattle.rounds.specs.Symbols.{round_number, round_of};
ghost use Rattle.rounds.specs.Class.{has_round, empty_class};
ghost use Rattle.rounds.specs.Reading.{round_reading};
ghost use Rattle.rounds.specs.Language.{ReadAsWritten, OnlyReading};
ghost use Rattle.rounds.specs.Law.{reading_within, reading_operator};
ghost use Rattle.rounds.specs.Runs.{reading_end};
ghost use Rattle.std.proofs.Common.{rules};

use crate::atom::atom_at;
use crate::class::RoundClass;
use crate::symbol::{COUNT, Round};
use kinds::{Atom, Kind, Refused};

// The kind of symbol whose symbols are rounds.
#[derive(Clone, Copy)]
pub struct Rounds;

impl Kind for Rounds {
    type Symbol = Round;

    type Class = RoundClass;

    ghost count = { 9 };

    ghost number = { round_number };

    ghost symbol = { round_of };

    ghost admits = { λ c s. has_round c (round_number s) };

    ghost cleared = { empty_class };

    ghost reading = { round_reading };

    ghost some = { Prim.search rules };

    ghost few = { Prim.search rules };

    ghost there = { Prim.search rules };

    ghost back = { Prim.search rules };

    ghost nothing = { Prim.search rules };

    ghost within = { λ text i h. reading_within text i h };

    ghost beyond = { λ text i h. reading_end text i h };

    ghost operators = { λ text i h op. reading_operator text i h op };

    fn symbols() -> usize {
        COUNT
    }

    fn number_of(s: Round) -> usize {
        usize::from(s)
    }

    fn symbol_of(n: usize) -> Option<Round> {
        Round::try_from(n).ok()
    }

    fn cleared_class() -> RoundClass {
        RoundClass::empty()
    }

    fn admitted(c: RoundClass, s: Round) -> bool {
        c.has(usize::from(s))
    }

    // The answer is exactly what the language says, and no other answer is.
    fn read_atom(text: &[u8], place: usize) -> Result<Atom<RoundClass>, Refused>
        ensures read { result ≡ round_reading text.now place }
        ensures language { ReadAsWritten text.now place result }
        ensures alone { OnlyReading text.now place result }
    {
        atom_at(text, place)
    }
}
