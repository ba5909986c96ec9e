ghost use Rattle.std.specs.Prelude.{◌≡◌, ◌≤◌, length};
ghost use Rattle.stack.specs.Lent.{Same};
ghost use Rattle.stack.specs.Stacked.{lent, memory, count};
ghost use Rattle.reader.specs.Desk.{desk_of, fresh, SameMemory};
ghost use Rattle.reader.specs.Writer.{TextPictured};

use crate::records::{Counts, Group, Progress};
use crate::token::token_at;
use crate::writer::Writer;
use kinds::{Kind, Refused};
use stack::Stack;
use trees::Node;

// Reads a whole text, and says how many nodes and positions it has, or what is wrong with it. Nodes and
// classes are written as far as the memory goes.
pub(crate) fn read_text<K: Kind>(
    text: &[u8],
    nodes: &mut [Node],
    classes: &mut [K::Class],
    groups: &mut Stack<'_, Group>,
) -> Result<Counts, Refused>
    requires short { length text.now ≤ 1024 }
    requires slots { 32 ≤ length (memory groups.old) }
    requires empty { count groups.old ≡ 0 }
    ensures lent { Same (lent groups.new) (lent groups.old) }
    ensures read { TextPictured K.Kind.reading text.now result nodes.new classes.new }
{
    let progress = Progress {
        nodes: 0,
        positions: 0,
        choice: 0,
        sequence: 0,
        wanting: true,
    };
    let mut writer = Writer {
        nodes,
        classes,
        groups,
        progress,
    };
    read_tokens::<K>(text, &mut writer)
}

// Reads the tokens of a whole text, one after another, and its end.
fn read_tokens<K: Kind>(
    text: &[u8],
    writer: &mut Writer<'_, '_, '_, '_, K::Class>,
) -> Result<Counts, Refused>
    requires short { length text.now ≤ 1024 }
    requires start { desk_of writer.old ≡ fresh writer.old.nodes.now writer.old.classes.now }
    ensures lent { SameMemory writer.new writer.old }
    ensures read { TextPictured K.Kind.reading text.now result writer.new.nodes.now writer.new.classes.now }
{
    let mut place = 0;
    // a while: each step is as long as the token that was cut
    while place < text.len() {
        let cut = token_at::<K>(text, place)?;
        writer
            .take_token(place, cut.token)
            .map_err(|refusal| refusal.at(place))?;
        place += cut.length;
    }
    writer.finish(place)
}
