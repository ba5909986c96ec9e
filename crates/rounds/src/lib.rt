// The rounds of a competition as a kind of symbol: a round has a side and an outcome.
// The crate holds the nine rounds with their numbers, classes of rounds, and the language in which
// a pattern's atoms are spelled: `W`, `D` and `L` with a side's letter or without, `.`, and sets.
#![tactic(auto)]

mod atom;
mod class;
mod kind;
mod letter;
mod set;
mod symbol;

pub use class::RoundClass;
pub use kind::Rounds;
pub use symbol::{Outcome, Round, RoundUnit, Side, UnknownRound};
