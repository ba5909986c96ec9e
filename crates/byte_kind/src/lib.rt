// Bytes as symbols: classes of bytes, the spelling of an atom, and the kind itself.
// The reader and the steppers meet this crate only through the trait of a kind; `read_atom` is proved
// to read exactly the atoms of the byte language, each with exactly the bytes that it admits.
#![tactic(auto)]

mod class;
mod kind;
mod set;

pub use class::ByteClass;
pub use kind::Bytes;
