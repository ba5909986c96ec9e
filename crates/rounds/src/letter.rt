ghost use Rattle.std.specs.Prelude.{◌≡◌};
ghost use Rattle.rounds.specs.Reading.{outcome_of_letter, side_of_letter};

use crate::symbol::{Outcome, Side};

// The outcome that a letter names. An option, not `TryFrom`: a byte that names none is no error yet.
pub(crate) fn outcome_of_letter(byte: u8) -> Option<Outcome>
    ensures { result ≡ outcome_of_letter byte }
{
    match byte {
        b'W' => Some(Outcome::Win),
        b'D' => Some(Outcome::Draw),
        b'L' => Some(Outcome::Loss),
        _ => None,
    }
}

// The side that a letter behind such a one names, an option likewise.
pub(crate) fn side_of_letter(byte: u8) -> Option<Side>
    ensures { result ≡ side_of_letter byte }
{
    match byte {
        b'w' => Some(Side::White),
        b'b' => Some(Side::Black),
        b'u' => Some(Side::Unplayed),
        _ => None,
    }
}
