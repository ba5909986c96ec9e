ghost use Rattle.std.specs.Prelude.{◌≡◌, ◌+◌, ◌<◌, length, drop};
ghost use Rattle.byte_kind.specs.Class.{has_byte, empty_class};
ghost use Rattle.byte_kind.specs.Reading.{byte_reading, escape_from};
ghost use Rattle.byte_kind.specs.Language.{ReadAsWritten, OnlyReading};
ghost use Rattle.byte_kind.specs.Law.{reading_within, reading_beyond, reading_operator};
ghost use Rattle.std.proofs.Common.{rules};

use crate::class::ByteClass;
use crate::set::Items;
use kinds::{Atom, Kind, Refusal, Refused, is_operator, read_set};

// The kind whose symbols are bytes, each with its value as its number.
#[derive(Clone, Copy)]
pub struct Bytes;

impl Kind for Bytes {
    type Symbol = u8;

    type Class = ByteClass;

    ghost count = { 256 };

    ghost number = { λ s. s };

    ghost symbol = { λ n. n };

    ghost admits = { has_byte };

    ghost cleared = { empty_class };

    ghost reading = { byte_reading };

    ghost some = { Prim.search rules };

    ghost few = { Prim.search rules };

    ghost there = { Prim.search rules };

    ghost back = { Prim.search rules };

    ghost nothing = { Prim.search rules };

    ghost within = { reading_within };

    ghost beyond = { reading_beyond };

    ghost operators = { reading_operator };

    fn symbols() -> usize {
        256
    }

    fn number_of(s: u8) -> usize {
        usize::from(s)
    }

    fn symbol_of(n: usize) -> Option<u8> {
        u8::try_from(n).ok()
    }

    fn cleared_class() -> ByteClass {
        ByteClass::empty()
    }

    fn admitted(c: ByteClass, s: u8) -> bool {
        c.has(s)
    }

    // The answer is exactly what the language says, and no other answer is.
    fn read_atom(text: &[u8], place: usize) -> Result<Atom<ByteClass>, Refused>
        ensures read { result ≡ byte_reading text.now place }
        ensures language { ReadAsWritten text.now place result }
        ensures alone { OnlyReading text.now place result }
    {
        read_here(text, place)
    }
}

// The atom at a place.
fn read_here(text: &[u8], place: usize) -> Result<Atom<ByteClass>, Refused>
    ensures { result ≡ byte_reading text.now place }
{
    if place >= text.len() {
        return Err(Refusal::NoAtom.at(place));
    }
    match text[place] {
        b'.' => Ok(Atom {
            class: ByteClass::only(b'\n').complement(),
            length: 1,
        }),
        b'\\' => read_escape(text, place),
        b'[' => read_set::<Items>(text, place),
        byte if is_operator(byte) => Err(Refusal::NoAtom.at(place)),
        byte => Ok(Atom {
            class: ByteClass::only(byte),
            length: 1,
        }),
    }
}

// The `\` at a place, with the byte that it takes literally; it stands there, as the caller saw.
fn read_escape(text: &[u8], place: usize) -> Result<Atom<ByteClass>, Refused>
    requires { place < length text.now }
    ensures { result ≡ escape_from (drop (place + 1) text.now) place }
{
    let byte = text
        .get(place + 1)
        .ok_or(Refusal::UnfinishedEscape.at(place))?;
    Ok(Atom {
        class: ByteClass::only(*byte),
        length: 2,
    })
}
