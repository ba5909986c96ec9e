ghost use Rattle.std.specs.Prelude.{◌≡◌, ◌<◌, Some};
ghost use Rattle.rounds.specs.Symbols.{side_number, outcome_number, round_number, side_of, outcome_of, IsRoundOf, outcome_letter, side_letter, round_text, unknown_round_text};

use std::error::Error;
use std::fmt;

// How many rounds there are.
pub(crate) const COUNT: usize = 9;

// On which side a round was played, if it was played.
#[derive(Clone, Copy, PartialEq, Eq, Debug)]
pub enum Side {
    White,
    Black,
    Unplayed,
}

#[derive(Clone, Copy, PartialEq, Eq, Debug)]
pub enum Outcome {
    Win,
    Draw,
    Loss,
}

#[derive(Clone, Copy, PartialEq, Eq, Debug)]
pub struct Round {
    pub side: Side,
    pub outcome: Outcome,
}

// What a letter of the language says of rounds: an outcome on any side, or, with the side's letter
// behind it, on that side.
#[derive(Clone, Copy, PartialEq, Eq, Debug)]
pub struct RoundUnit {
    pub outcome: Outcome,
    pub side: Option<Side>,
}

// A number that no round has: it is 9 or more.
#[derive(Clone, Copy, PartialEq, Eq, Debug)]
pub struct UnknownRound(pub usize);

impl fmt::Display for UnknownRound {
    ghost output = { λ unknown. Some (unknown_round_text unknown) };

    fn fmt<W: fmt::Write>(&self, f: &mut fmt::Formatter<W>) -> fmt::Result {
        write!(f, "no round has the number {}", self.0)
    }
}

impl Error for UnknownRound {}

impl From<Side> for usize {
    ghost from_gives = { λ side number. number ≡ side_number side };

    fn from(side: Side) -> usize {
        side as usize
    }
}

impl From<Outcome> for usize {
    ghost from_gives = { λ outcome number. number ≡ outcome_number outcome };

    fn from(outcome: Outcome) -> usize {
        outcome as usize
    }
}

impl From<Round> for usize {
    ghost from_gives = { λ round number. (number ≡ round_number round) × (number < 9) };

    fn from(round: Round) -> usize {
        3 * usize::from(round.side) + usize::from(round.outcome)
    }
}

impl TryFrom<usize> for Round {
    type Error = UnknownRound;

    ghost try_from_gives = { IsRoundOf };

    fn try_from(n: usize) -> Result<Round, UnknownRound> {
        if n < COUNT {
            Ok(Round {
                side: side_of(n / 3),
                outcome: outcome_of(n % 3),
            })
        } else {
            Err(UnknownRound(n))
        }
    }
}

// Not `TryFrom`: what comes in is a third of a number below nine, so there is no error to give back.
fn side_of(number: usize) -> Side
    ensures { result ≡ side_of number }
{
    match number {
        0 => Side::White,
        1 => Side::Black,
        _ => Side::Unplayed,
    }
}

// Not `TryFrom`: what comes in is a remainder below three.
fn outcome_of(number: usize) -> Outcome
    ensures { result ≡ outcome_of number }
{
    match number {
        0 => Outcome::Win,
        1 => Outcome::Draw,
        _ => Outcome::Loss,
    }
}

// The letter of an outcome in the language.
impl fmt::Display for Outcome {
    ghost output = { λ outcome. Some (outcome_letter outcome) };

    fn fmt<W: fmt::Write>(&self, f: &mut fmt::Formatter<W>) -> fmt::Result {
        f.write_str(match self {
            Outcome::Win => "W",
            Outcome::Draw => "D",
            Outcome::Loss => "L",
        })
    }
}

// The letter of a side in the language.
impl fmt::Display for Side {
    ghost output = { λ side. Some (side_letter side) };

    fn fmt<W: fmt::Write>(&self, f: &mut fmt::Formatter<W>) -> fmt::Result {
        f.write_str(match self {
            Side::White => "w",
            Side::Black => "b",
            Side::Unplayed => "u",
        })
    }
}

// A round as the unit that is narrowed to it.
impl fmt::Display for Round {
    ghost output = { λ round. Some (round_text round) };

    fn fmt<W: fmt::Write>(&self, f: &mut fmt::Formatter<W>) -> fmt::Result {
        write!(f, "{}{}", self.outcome, self.side)
    }
}
