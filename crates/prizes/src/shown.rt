ghost use Rattle.std.specs.Prelude.{◌≡◌, ◌-◌, not, ◌&&◌, ◌||◌, ◌==◌};
ghost use Rattle.byte_kind.specs.Class.{has_byte};
ghost use Rattle.prizes.specs.Runs.{RunEnd};

use byte_kind::{ByteClass, Bytes};
use kinds::Kind;
use rounds::{Round, RoundClass, Rounds};
use std::fmt;

// A kind whose classes can be shown to a person.
pub(crate) trait Shown: Kind {
    // Writes the symbols that a class admits, with a blank before each.
    fn fmt_class<W: fmt::Write>(class: Self::Class, f: &mut fmt::Formatter<W>) -> fmt::Result;
}

// The symbols of a class, as the kind shows them.
#[derive(Drop)]
pub(crate) struct Symbols<K: Shown>(pub K::Class);

impl<K: Shown> fmt::Display for Symbols<K> {
    fn fmt<W: fmt::Write>(&self, f: &mut fmt::Formatter<W>) -> fmt::Result {
        K::fmt_class(self.0, f)
    }
}

impl Shown for Bytes {
    // Bytes as runs, each by its first and last byte.
    fn fmt_class<W: fmt::Write>(class: ByteClass, f: &mut fmt::Formatter<W>) -> fmt::Result {
        for first in (0..=255u8).filter(|byte| begins_run(class, *byte)) {
            let last = run_end(class, first);
            write!(f, " {}", ByteName(first))?;
            if first < last {
                write!(f, "-{}", ByteName(last))?;
            }
        }
        Ok(())
    }
}

// Whether the class has the byte and not the one before it.
fn begins_run(class: ByteClass, byte: u8) -> bool
    ensures { result ≡ (has_byte class byte && (byte == 0 || not (has_byte class (byte - 1)))) }
{
    class.has(byte) && (byte == 0 || !class.has(byte - 1))
}

// The last of the bytes that follow one another in the class from the first on.
fn run_end(class: ByteClass, first: u8) -> u8
    ensures { RunEnd class first result }
{
    (first..255)
        .find(|byte| !class.has(*byte + 1))
        .unwrap_or(255)
}

// A byte as a character where it is one that prints, else by its value.
#[derive(Clone, Copy)]
struct ByteName(u8);

impl fmt::Display for ByteName {
    fn fmt<W: fmt::Write>(&self, f: &mut fmt::Formatter<W>) -> fmt::Result {
        let byte = self.0;
        if byte.is_ascii_graphic() {
            write!(f, "'{}'", char::from(byte))
        } else {
            write!(f, "0x{byte:02x}")
        }
    }
}

impl Shown for Rounds {
    // Rounds as units, in the order of their numbers.
    fn fmt_class<W: fmt::Write>(class: RoundClass, f: &mut fmt::Formatter<W>) -> fmt::Result {
        let members = (0..Rounds::symbols()).filter(|number| class.has(*number));
        for round in members.filter_map(|number| Round::try_from(number).ok()) {
            write!(f, " {round}")?;
        }
        Ok(())
    }
}
