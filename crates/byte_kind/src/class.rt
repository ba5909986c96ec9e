ghost use Rattle.std.specs.Prelude.{◌≡◌, ℕ, ◌<◌, not, ◌||◌};
ghost use Rattle.byte_kind.specs.Class.{has_byte, between, ranged, others, empty_class, only_class};

use sets::NumberSet;

// A set of bytes, each by its value.
#[derive(Clone, Copy, PartialEq, Eq, Debug)]
pub struct ByteClass {
    bytes: NumberSet<4>,
}

impl ByteClass {
    // No byte.
    pub fn empty() -> ByteClass
        ensures { result ≡ empty_class }
    {
        ByteClass {
            bytes: NumberSet::empty(),
        }
    }

    // One byte alone.
    pub fn only(byte: u8) -> ByteClass
        ensures { result ≡ only_class byte }
    {
        ByteClass::empty().with_range(byte, byte)
    }

    pub fn has(self, byte: u8) -> bool
        ensures { result ≡ has_byte self byte }
    {
        self.bytes.has(usize::from(byte))
    }

    // The class with the bytes from first to last added, both included; none if last comes before first.
    pub fn with_range(self, first: u8, last: u8) -> ByteClass
        ensures value { result ≡ ranged self first last }
        ensures members { (b : ℕ) → b < 256 → has_byte result b ≡ (between first last b || has_byte self b) }
    {
        let end = usize::from(last) + 1;
        ByteClass {
            bytes: self.bytes.with_span(256, usize::from(first), end),
        }
    }

    // Every byte that the class lacks.
    pub fn complement(self) -> ByteClass
        ensures value { result ≡ others self }
        ensures members { (b : ℕ) → b < 256 → has_byte result b ≡ not (has_byte self b) }
    {
        ByteClass {
            bytes: self.bytes.others(256),
        }
    }
}
