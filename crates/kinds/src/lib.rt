// What the library turns down, what it asks of a kind of symbol, and how a set is read for every kind.
// `Refusal` names every case in which a call of the library is turned down; `Refused` adds a place in
// the pattern's text. `Kind` is what the reader, the steppers and the scan know of symbols: only a
// kind's own crate knows its letters.
#![tactic(auto)]

ghost use Rattle.std.specs.Prelude.{◌≡◌, ℕ, ◌<◌, ◌≤◌, Bool, true, false, ◌↔◌, List, length, if◌then◌else◌, Some, None, Result as Either, nat_lt, slice_index};
ghost use Rattle.kinds.specs.Refusals.{number_of, sentence_of, refused_text};
ghost use Rattle.kinds.specs.Atoms.{Within, Operator, is_operator, no_atom_at};
ghost use Rattle.kinds.specs.declared.Atom.{Atom as AtomOf};
ghost use Rattle.kinds.specs.declared.Refused.{Refused as RefusedAt};

use std::error::Error;
use std::fmt;

mod set;

pub use set::{SetMachine, read_set};

// Every case in which a call is turned down; docs/REFUSALS.md says when each is given, at which place,
// and what it leaves.
#[derive(Clone, Copy, PartialEq, Eq, Debug)]
pub enum Refusal {
    TextLength = 1,
    MemoryTooShort = 2,
    NoAtom = 3,
    UnfinishedEscape = 4,
    UnfinishedSet = 5,
    BackwardRange = 6,
    EmptySet = 7,
    BaseWanted = 8,
    NoOpenGroup = 9,
    UnfinishedGroup = 10,
    TooManyGroups = 11,
    PatternTooLarge = 12,
    NotATree = 13,
    BadWidth = 14,
    TableTooShort = 15,
    NoMoreSlips = 16,
    NoMoreMarks = 17,
    NoSuchMark = 18,
    NoReportPlace = 19,
    SymbolLimit = 20,
    NoSlipOut = 21,
}

impl Refusal {
    // The refusal at a place of the pattern's text.
    pub fn at(self, place: usize) -> Refused
        ensures { result ≡ record { refusal = self; place = place } }
    {
        Refused {
            refusal: self,
            place,
        }
    }
}

// The number under which a refusal is listed.
impl From<Refusal> for u8 {
    ghost from_gives = { λ refusal number. number ≡ number_of refusal };

    fn from(refusal: Refusal) -> u8 {
        refusal as u8
    }
}

// What is wrong, in a sentence.
impl fmt::Display for Refusal {
    ghost output = { λ refusal. Some (sentence_of refusal) };

    fn fmt<W: fmt::Write>(&self, f: &mut fmt::Formatter<W>) -> fmt::Result {
        f.write_str(match self {
            Refusal::TextLength => "a pattern has 1 to 1,024 bytes",
            Refusal::MemoryTooShort => "the memory lent is too short",
            Refusal::NoAtom => "nothing that can be matched begins with this byte",
            Refusal::UnfinishedEscape => "the text ends here, and `\\` wants a byte after it",
            Refusal::UnfinishedSet => "this set has no `]`",
            Refusal::BackwardRange =>
                "the range that begins here runs backward: its last byte comes before its first",
            Refusal::EmptySet => "this set has nothing in it",
            Refusal::BaseWanted => "a unit, a group or `()` is expected here",
            Refusal::NoOpenGroup => "this `)` closes no group",
            Refusal::UnfinishedGroup => "this group has no `)`",
            Refusal::TooManyGroups => "32 groups are open here already",
            Refusal::PatternTooLarge => "the pattern has more than 63 positions or 255 nodes",
            Refusal::NotATree => "the node list is not the list of one tree",
            Refusal::BadWidth => "a block has a width from 1 to 10",
            Refusal::TableTooShort => "the memory for the table or the masks is too short",
            Refusal::NoMoreSlips => "1,000,000 slips were issued",
            Refusal::NoMoreMarks => "16 marks are held",
            Refusal::NoSuchMark => "no such mark is held",
            Refusal::NoReportPlace => "symbols remain and no report place is left",
            Refusal::SymbolLimit => "symbols remain and 1,000,000,000 were taken",
            Refusal::NoSlipOut => "no slip is out",
        })
    }
}

// A refusal with its place in the pattern's text.
#[derive(Clone, Copy, PartialEq, Eq, Debug)]
pub struct Refused {
    pub refusal: Refusal,
    pub place: usize,
}

impl fmt::Display for Refused {
    ghost output = { λ refused. Some (refused_text refused) };

    fn fmt<W: fmt::Write>(&self, f: &mut fmt::Formatter<W>) -> fmt::Result {
        let number = u8::from(self.refusal);
        write!(f, "refused {number} at {}: {}", self.place, self.refusal)
    }
}

impl Error for Refused {}

// An atom as it was read: the class of symbols that it admits, and how many bytes spell it.
#[derive(Clone, Copy, PartialEq, Eq, Debug)]
pub struct Atom<C> {
    pub class: C,
    pub length: usize,
}

// Whether a byte is one of the pattern language's operators, `( ) | * + ?`: none begins an atom.
pub fn is_operator(byte: u8) -> bool
    ensures value { result ≡ is_operator byte }
    ensures cases { (result ≡ true) ↔ Operator byte }
{
    matches!(byte, b'(' | b')' | b'|' | b'*' | b'+' | b'?')
}

// A kind of symbol: its symbols with their numbers, its classes, and how an atom is spelled.
pub trait Kind: Sized {
    type Symbol: Copy;

    type Class: Copy;

    // how many symbols there are
    ghost count: { ℕ };
    // the number of a symbol, and the symbol of a number
    ghost number: { Self.Symbol → ℕ };

    ghost symbol: { ℕ → Self.Symbol };
    // whether a class admits a symbol
    ghost admits: { Self.Class → Self.Symbol → Bool };
    // the class that is left where memory is cleared
    ghost cleared: { Self.Class };
    // the atom at a place of a text, or why there is none
    ghost reading: { List ℕ → ℕ → Either (AtomOf Self.Class) RefusedAt };

    // How many symbols there are.
    fn symbols() -> usize
        ensures { result ≡ count };

    // The number of a symbol, which is below that count.
    fn number_of(s: Self::Symbol) -> usize
        ensures value { result ≡ number s }
        ensures below { result < count };

    // The symbol of a number; there is none from the count up.
    fn symbol_of(n: usize) -> Option<Self::Symbol>
        ensures { result ≡ (if nat_lt n count then Some (symbol n) else None) };

    // The class that admits nothing.
    fn cleared_class() -> Self::Class
        ensures { result ≡ cleared };

    // Whether a class admits a symbol.
    fn admitted(c: Self::Class, s: Self::Symbol) -> bool
        ensures { result ≡ admits c s };

    // The atom at a place of a text, or why there is none. A text and a place, not the rest of a text, since a
    // refusal is placed in the whole.
    fn read_atom(text: &[u8], place: usize) -> Result<Atom<Self::Class>, Refused>
        ensures read { result ≡ reading text.now place };

    ghost some: { 1 ≤ count };

    ghost few: { count ≤ 256 };

    // a number below the count belongs to exactly one symbol
    ghost there: { (s : Self.Symbol) → number s < count → symbol (number s) ≡ s };

    ghost back: { (n : ℕ) → n < count → number (symbol n) ≡ n };

    ghost nothing: { (s : Self.Symbol) → number s < count → admits cleared s ≡ false };

    ghost within: { (text : List ℕ) (i : ℕ) → i < length text → Within text i (reading text i) };

    ghost beyond: { (text : List ℕ) (i : ℕ) → length text ≤ i → reading text i ≡ no_atom_at i };

    ghost operators: { (text : List ℕ) (i : ℕ) → i < length text → Operator (slice_index text i) → reading text i ≡ no_atom_at i };
}
