ghost use Rattle.std.specs.Prelude.{◌≡◌, length, take, string_bytes, OnOk};
ghost use Rattle.std.specs.Fmt.{AppendsText};

use crate::shown::{Shown, Symbols};
use kinds::{Refusal, Refused};
use std::alloc::AllocError;
use std::fmt;

// Why a text is not explained to its end.
#[derive(Drop)]
enum Unexplained {
    Refused(Refused),
    NoMemory(AllocError),
}

impl From<Refused> for Unexplained {
    fn from(refused: Refused) -> Unexplained {
        Unexplained::Refused(refused)
    }
}

impl From<AllocError> for Unexplained {
    fn from(error: AllocError) -> Unexplained {
        Unexplained::NoMemory(error)
    }
}

// Tells all that can be told of a text that is one atom after another: a line for each atom and, where
// the text is refused, its fault behind the lines of the atoms before. Answers the fault.
pub(crate) fn told<K: Shown>(
    text: &str,
    lines: &mut String,
) -> Result<Option<Refused>, AllocError> {
    match explained::<K>(text, lines) {
        Ok(()) => Ok(None),
        Err(Unexplained::Refused(refused)) => {
            append(Pointed { text, refused }, lines)?;
            Ok(Some(refused))
        }
        Err(Unexplained::NoMemory(error)) => Err(error),
    }
}

// Writes a line for each atom. The lines of the atoms before a fault are left.
fn explained<K: Shown>(text: &str, lines: &mut String) -> Result<(), Unexplained> {
    let bytes = text.as_bytes();
    if bytes.is_empty() || bytes.len() > 1024 {
        return Err(Refusal::TextLength.at(0).into());
    }
    let mut place = 0;
    // a while: each step is as long as the atom that it reads
    while place < bytes.len() {
        let atom = K::read_atom(bytes, place)?;
        let length = atom.length;
        let unit = if length == 1 { "byte" } else { "bytes" };
        let symbols = Symbols::<K>(atom.class);
        writeln!(lines, "atom at {place}, {length} {unit}: admits{symbols}")?;
        place += length;
    }
    Ok(())
}

// Writes a value behind what stands in the lines. The value becomes a text of its own first: where no
// contract states what it prints, `write!` does not promise that the lines are kept. Once for a text: the
// lines of atoms go straight into `lines`.
fn append<D: fmt::Display + Drop>(value: D, lines: &mut String) -> Result<(), AllocError>
    ensures behind { OnOk result (AppendsText (string_bytes lines.old) (string_bytes lines.new) (D.output value)) }
    ensures kept { take (length (string_bytes lines.old)) (string_bytes lines.new) ≡ string_bytes lines.old }
{
    let heap = *lines.allocator();
    let added = format!(in heap; "{value}")?;
    lines.push_str(added.as_str())
}

// A text with its fault: the text on one line, a caret under the place, and what is wrong there.
#[derive(Clone, Copy)]
struct Pointed<'a> {
    text: &'a str,
    refused: Refused,
}

impl fmt::Display for Pointed<'_> {
    fn fmt<W: fmt::Write>(&self, f: &mut fmt::Formatter<W>) -> fmt::Result {
        for shown in self.text.chars() {
            f.write_char(if shown.is_ascii_control() { '?' } else { shown })?;
        }
        let before = self.text.bytes().take(self.refused.place);
        let column = before.filter(|byte| begins_character(*byte)).count();
        writeln!(f, "\n{:column$}^\n{}", "", self.refused)
    }
}

// Whether a byte of UTF-8 begins a character, and so a column.
fn begins_character(byte: u8) -> bool {
    byte < 128 || byte >= 192
}

#[cfg(test)]
mod tests {
    use super::*;
    use byte_kind::Bytes;
    use rounds::Rounds;
    use std::alloc::Global;
    use std::test::Fail;

    // A text with what is to be told of it.
    #[derive(Clone, Copy)]
    struct Expected {
        text: &'static str,
        told: &'static str,
    }

    const fn line(text: &'static str, told: &'static str) -> Expected {
        Expected { text, told }
    }

    // The first line of a table that is told otherwise, counted from 0.
    fn first_wrong<K: Shown>(
        heap: Global,
        table: &[Expected],
    ) -> Result<Option<usize>, AllocError> {
        // a for: what is told can fail for want of memory
        for (i, line) in table.iter().enumerate() {
            let mut lines = String::new(heap);
            told::<K>(line.text, &mut lines)?;
            if lines.as_str() != line.told {
                return Ok(Some(i));
            }
        }
        Ok(None)
    }

    #[test]
    fn bytes_are_told_as_runs(rt: HostRuntime) -> Result<(), Fail> {
        let table = [
            line("[a-c]", "atom at 0, 5 bytes: admits 'a'-'c'\n"),
            line(".", "atom at 0, 1 byte: admits 0x00-0x09 0x0b-0xff\n"),
            line("[^a]", "atom at 0, 4 bytes: admits 0x00-'`' 'b'-0xff\n"),
            line("[a-]", "atom at 0, 4 bytes: admits '-' 'a'\n"),
            line(
                " ~",
                "atom at 0, 1 byte: admits 0x20\natom at 1, 1 byte: admits '~'\n",
            ),
            line(
                "[b-a]",
                "[b-a]\n ^\nrefused 6 at 1: the range that begins here runs backward: its last byte comes before its first\n",
            ),
            line(
                "a\\",
                "atom at 0, 1 byte: admits 'a'\na\\\n ^\nrefused 4 at 1: the text ends here, and `\\` wants a byte after it\n",
            ),
            // é has two bytes, and the caret counts it as one character
            line(
                "é[",
                "atom at 0, 1 byte: admits 0xc3\natom at 1, 1 byte: admits 0xa9\né[\n ^\nrefused 5 at 2: this set has no `]`\n",
            ),
            line(
                "\t[]",
                "atom at 0, 1 byte: admits 0x09\n?[]\n ^\nrefused 7 at 1: this set has nothing in it\n",
            ),
        ];
        assert_eq!(rt; first_wrong::<Bytes>(rt.alloc(), &table)?, None);
        Ok(())
    }

    #[test]
    fn rounds_are_told_as_units(rt: HostRuntime) -> Result<(), Fail> {
        let table = [
            line(
                "LWb",
                "atom at 0, 1 byte: admits Lw Lb Lu\natom at 1, 2 bytes: admits Wb\n",
            ),
            line("[^WDL]", "atom at 0, 6 bytes: admits\n"),
            line("[Ww", "[Ww\n^\nrefused 5 at 0: this set has no `]`\n"),
            line(
                "w",
                "w\n^\nrefused 3 at 0: nothing that can be matched begins with this byte\n",
            ),
            line("", "\n^\nrefused 1 at 0: a pattern has 1 to 1,024 bytes\n"),
        ];
        assert_eq!(rt; first_wrong::<Rounds>(rt.alloc(), &table)?, None);
        Ok(())
    }
}
