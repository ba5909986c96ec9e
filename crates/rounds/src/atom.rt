ghost use Rattle.std.specs.Prelude.{◌≡◌, ◌+◌, ◌<◌, length, drop};
ghost use Rattle.rounds.specs.Reading.{unit_atom, unit_from, round_reading};

use crate::class::RoundClass;
use crate::letter::{outcome_of_letter, side_of_letter};
use crate::set::Units;
use crate::symbol::{Outcome, RoundUnit, Side};
use kinds::{Atom, Refusal, Refused, read_set};

// The atom at a place of the text, or why there is none.
pub(crate) fn atom_at(text: &[u8], place: usize) -> Result<Atom<RoundClass>, Refused>
    ensures { result ≡ round_reading text.now place }
{
    if place >= text.len() {
        return Err(Refusal::NoAtom.at(place));
    }
    match text[place] {
        b'.' => Ok(Atom {
            class: RoundClass::full(),
            length: 1,
        }),
        b'[' => read_set::<Units>(text, place),
        byte => {
            let outcome = outcome_of_letter(byte).ok_or(Refusal::NoAtom.at(place))?;
            Ok(read_unit(text, place, outcome))
        }
    }
}

// The unit whose letter, of this outcome, is at a place of the text; the letter stands there, as the caller saw.
fn read_unit(text: &[u8], place: usize, outcome: Outcome) -> Atom<RoundClass>
    requires { place < length text.now }
    ensures { result ≡ unit_from outcome (drop (place + 1) text.now) }
{
    let side = text.get(place + 1).and_then(|byte| side_of_letter(*byte));
    unit_atom(outcome, side)
}

// The atom of one unit: a letter, with the side's letter behind it where it names one.
fn unit_atom(outcome: Outcome, side: Option<Side>) -> Atom<RoundClass>
    ensures { result ≡ unit_atom outcome side }
{
    Atom {
        class: RoundClass::empty().with_unit(RoundUnit { outcome, side }),
        length: if side.is_some() { 2 } else { 1 },
    }
}
